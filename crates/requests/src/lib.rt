// What a host asks of a desk.
#![tactic(auto)]

ghost use Rattle.std.specs.Prelude.{◌≡◌};
ghost use Rattle.rules.specs.Control.{terms_of};
ghost use Rattle.requests.specs.Request.{command_of, control_of, needs_login};

use frame::Kind;
use rules::BLOCK;
use rules::control::{Command, RowCommand, TableCommand, Terms};

pub mod range;

// What is asked, in the paper's order. A number is wider than its field.
#[derive(Clone, Copy)]
pub enum Ask {
    Baud(u64),
    Reset,
    SystemReset,
    ReadBlock(u64),
    // The fourteen bytes stand beside it, in the request.
    WriteBlock(u64),
    SaveBlocks(u64),
    RestoreBlocks(u64),
    // Hour, minute, milliseconds.
    SetTimer(u64, u64, u64),
    SendTimer,
    Login(u64),
    ReadRecords(u64),
    SendTable,
    RemoveRecords,
    ClearRecords,
}

#[derive(Clone, Copy)]
pub struct Request {
    pub kind: Kind,
    pub desk: u64,
    pub ask: Ask,
    pub bytes: [u8; BLOCK],
}

// The command that is asked.
// One arm a command, in the paper's order: the wire has these commands alone, and a match over the enum is checked to be whole.
pub fn command_of(ask: Ask) -> Command
    ensures { result ≡ command_of ask }
{
    match ask {
        Ask::Baud(n) => Command::OnRow(RowCommand::Baud),
        Ask::Reset => Command::OnRow(RowCommand::Reset),
        Ask::SystemReset => Command::OnTable(TableCommand::SystemReset),
        Ask::ReadBlock(adr) => Command::OnRow(RowCommand::ReadBlock),
        Ask::WriteBlock(adr) => Command::OnRow(RowCommand::WriteBlock),
        Ask::SaveBlocks(adr) => Command::OnRow(RowCommand::SaveBlocks),
        Ask::RestoreBlocks(adr) => Command::OnRow(RowCommand::RestoreBlocks),
        Ask::SetTimer(h, m, ms) => Command::OnRow(RowCommand::SetTimer),
        Ask::SendTimer => Command::OnRow(RowCommand::SendTimer),
        Ask::Login(password) => Command::OnRow(RowCommand::Login),
        Ask::ReadRecords(k) => Command::OnTable(TableCommand::ReadRecords),
        Ask::SendTable => Command::OnTable(TableCommand::SendTable),
        Ask::RemoveRecords => Command::OnTable(TableCommand::RemoveRecords),
        Ask::ClearRecords => Command::OnTable(TableCommand::ClearRecords),
    }
}

// What the command table lists for it.
pub fn terms_of(ask: Ask) -> Terms
    ensures { result ≡ terms_of (command_of ask) }
{
    control::terms_of(command_of(ask))
}

pub fn control_of(ask: Ask) -> u8
    ensures { result ≡ control_of ask }
{
    terms_of(ask).control
}

// Whether the command is marked L.
pub fn needs_login(ask: Ask) -> bool
    ensures { result ≡ needs_login ask }
{
    terms_of(ask).login
}
