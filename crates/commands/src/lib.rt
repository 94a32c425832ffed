// The commands that concern a desk's row alone: their own tests, and what they do. No store is known here.
// Each asks for a fit row, data of the listed length and room for a reply, in lent buffers: a struct around them would owe the clauses that
// its fields are still those references.
#![tactic(auto)]

ghost use Rattle.std.specs.Prelude.{◌≡◌, true, ◌≤◌, length};
ghost use Rattle.frame.specs.Shape.{reply_room};
ghost use Rattle.rules.specs.declared.control.Command.{Command};
ghost use Rattle.rules.specs.Control.{sized_for};
ghost use Rattle.rows.specs.Change.{Fit};
ghost use Rattle.effects.specs.Obeyed.{Allowed, does, RowObeyed};
ghost use Rattle.commands.specs.Ruled.{row_ruled};

use effects::{Reply, blocks, clock, plain};
use frame::Kind;
use rows::DeskRow;
use rules::control::RowCommand;

pub mod tests;

// What a command does with data that it takes. A match and no closures: the check asks that none of the paper's commands is left out.
fn act(row: &mut DeskRow, kind: Kind, command: RowCommand, body: &[u8], out: &mut [u8]) -> Reply
    requires { Fit row.old × Allowed command body.now × (reply_room ≤ length out.old) }
    ensures { RowObeyed kind (does command body.now) result row.old row.new out.old out.new }
{
    match command {
        RowCommand::Baud => plain(0),
        RowCommand::Reset => clock::reset(row),
        RowCommand::ReadBlock => blocks::read(row, kind, body, out),
        RowCommand::WriteBlock => blocks::write(row, body),
        RowCommand::SaveBlocks => blocks::save(row, body),
        RowCommand::RestoreBlocks => blocks::restore(row, body),
        RowCommand::SetTimer => clock::set_timer(row, body),
        RowCommand::SendTimer => clock::send_timer(row, kind, out),
        RowCommand::Login => clock::login(row, body),
    }
}

// A command whose data have the listed length: its own tests, and then what it does.
fn obey_on(row: &mut DeskRow, kind: Kind, command: RowCommand, body: &[u8], out: &mut [u8]) -> Reply
    requires { Fit row.old × (sized_for (Command.OnRow command) body.now ≡ true) × (reply_room ≤ length out.old) }
    ensures { RowObeyed kind (row_ruled command body.now) result row.old row.new out.old out.new }
{
    match tests::own_tests(command, body) {
        Some(status) => plain(status),
        None => act(row, kind, command, body, out),
    }
}

// The same at a desk that may do it: on the octets of the store that are its row.
pub fn obey(row: &mut [u8], kind: Kind, command: RowCommand, body: &[u8], out: &mut [u8]) -> Reply
    requires { Fit row.old × (sized_for (Command.OnRow command) body.now ≡ true) × (reply_room ≤ length out.old) }
    ensures { RowObeyed kind (row_ruled command body.now) result row.old row.new out.old out.new }
{
    let Some(row) = row.as_mut_array() else {
        unreachable!()
    };
    obey_on(row, kind, command, body, out)
}
