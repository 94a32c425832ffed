// The command table: from a command to its terms, and from a control byte to those of its command.
#![tactic(auto)]

ghost use Rattle.std.specs.Prelude.{◌≡◌, Some};
ghost use Rattle.rules.specs.Control.{columns, terms_of, known};

use rules::BLOCK;
use rules::control::{Command, RowCommand, TableCommand, Terms};

// The terms of a command, as the table lists them.
fn terms(control: u8, size: usize, login: bool, command: Command) -> Terms
    requires { columns command ≡ (control, size, login) }
    ensures { result ≡ terms_of command }
{
    Terms {
        control,
        size,
        login,
        command,
    }
}

// What the table lists for a command; a write carries CFG-ADR and a block.
pub fn terms_of(command: Command) -> Terms
    ensures { result ≡ terms_of command }
{
    match command {
        Command::OnRow(RowCommand::Baud) => terms(0x52, 1, false, command),
        Command::OnRow(RowCommand::Reset) => terms(0x63, 0, false, command),
        Command::OnRow(RowCommand::ReadBlock) => terms(0x80, 1, true, command),
        Command::OnRow(RowCommand::WriteBlock) => terms(0x81, 1 + BLOCK, true, command),
        Command::OnRow(RowCommand::SaveBlocks) => terms(0x82, 1, true, command),
        Command::OnRow(RowCommand::RestoreBlocks) => terms(0x83, 1, true, command),
        Command::OnRow(RowCommand::SetTimer) => terms(0x85, 4, false, command),
        Command::OnRow(RowCommand::SendTimer) => terms(0x86, 0, false, command),
        Command::OnRow(RowCommand::Login) => terms(0xA0, 4, false, command),
        Command::OnTable(TableCommand::SystemReset) => terms(0x64, 0, false, command),
        Command::OnTable(TableCommand::ReadRecords) => terms(0x22, 2, false, command),
        Command::OnTable(TableCommand::SendTable) => terms(0x31, 0, false, command),
        Command::OnTable(TableCommand::RemoveRecords) => terms(0x32, 0, false, command),
        Command::OnTable(TableCommand::ClearRecords) => terms(0x33, 0, false, command),
    }
}

// The same, of a command that was found.
fn listed(command: Command) -> Option<Terms>
    ensures { result ≡ Some (terms_of command) }
{
    Some(terms_of(command))
}

// One decision over the control byte gives data length, login need and command; the ranges between are unknown.
pub fn decide(control: u8) -> Option<Terms>
    ensures { result ≡ known control }
{
    match control {
        0x00..=0x21 => None,
        0x22 => listed(Command::OnTable(TableCommand::ReadRecords)),
        0x23..=0x30 => None,
        0x31 => listed(Command::OnTable(TableCommand::SendTable)),
        0x32 => listed(Command::OnTable(TableCommand::RemoveRecords)),
        0x33 => listed(Command::OnTable(TableCommand::ClearRecords)),
        0x34..=0x51 => None,
        0x52 => listed(Command::OnRow(RowCommand::Baud)),
        0x53..=0x62 => None,
        0x63 => listed(Command::OnRow(RowCommand::Reset)),
        0x64 => listed(Command::OnTable(TableCommand::SystemReset)),
        0x65..=0x7F => None,
        0x80 => listed(Command::OnRow(RowCommand::ReadBlock)),
        0x81 => listed(Command::OnRow(RowCommand::WriteBlock)),
        0x82 => listed(Command::OnRow(RowCommand::SaveBlocks)),
        0x83 => listed(Command::OnRow(RowCommand::RestoreBlocks)),
        0x84 => None,
        0x85 => listed(Command::OnRow(RowCommand::SetTimer)),
        0x86 => listed(Command::OnRow(RowCommand::SendTimer)),
        0x87..=0x9F => None,
        0xA0 => listed(Command::OnRow(RowCommand::Login)),
        0xA1..=0xFF => None,
    }
}
