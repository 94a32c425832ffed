// A command at one desk of a sound store, once the tests before its own are passed: of the row, which is found and lent here, or of the table.
// Each asks for a sound store, and for room for a reply, and hands store, frame kind, data and output on by themselves: a struct around what
// is lent would owe the clauses that its fields are still those references.
#![tactic(auto)]

ghost use Rattle.std.specs.Prelude.{◌≡◌, true, ◌≤◌, length};
ghost use Rattle.frame.specs.Shape.{reply_room};
ghost use Rattle.rules.specs.declared.control.Command.{Command};
ghost use Rattle.rules.specs.Control.{sized_for};
ghost use Rattle.store.specs.Sound.{sound};
ghost use Rattle.keeping.specs.Kept.{kept};
ghost use Rattle.records.specs.Obeyed.{ruled, Obeyed};

use effects::Reply;
use frame::Kind;
use keeping::desk_number::DeskNumber;
use rules::control::{Command, RowCommand, TableCommand};

// A command of the row: the row of the desk is found and lent here, once for all of them.
fn on_row(
    s: &mut [u8],
    d: DeskNumber,
    kind: Kind,
    command: RowCommand,
    body: &[u8],
    out: &mut [u8],
) -> Reply
    requires { (sound s.old ≡ true) × (sized_for (Command.OnRow command) body.now ≡ true) × (reply_room ≤ length out.old) }
    ensures { Obeyed d.number kind (ruled (Command.OnRow command) kind (kept d.number s.old) body.now) result s.old s.new out.old out.new }
{
    let at = keeping::row_at(s, d);
    commands::obey(&mut s[at..at + store::ROW], kind, command, body, out)
}

fn on_table(
    s: &mut [u8],
    d: DeskNumber,
    kind: Kind,
    command: TableCommand,
    body: &[u8],
    out: &mut [u8],
) -> Reply
    requires { (sound s.old ≡ true) × (sized_for (Command.OnTable command) body.now ≡ true) × (reply_room ≤ length out.old) }
    ensures { Obeyed d.number kind (ruled (Command.OnTable command) kind (kept d.number s.old) body.now) result s.old s.new out.old out.new }
{
    match command {
        TableCommand::SystemReset => removals::system_reset(s, d),
        TableCommand::ReadRecords => records::read(s, d, kind, body, out),
        TableCommand::SendTable => records::send_table(s, d, kind, out),
        TableCommand::RemoveRecords => removals::remove(s, d),
        TableCommand::ClearRecords => removals::clear(s, d),
    }
}

// A command whose data have the listed length, at a desk that may do it. Matches here and above, and no closures: the check asks that no
// command is left out.
pub fn dispatch(
    s: &mut [u8],
    d: DeskNumber,
    kind: Kind,
    command: Command,
    body: &[u8],
    out: &mut [u8],
) -> Reply
    requires { (sound s.old ≡ true) × (sized_for command body.now ≡ true) × (reply_room ≤ length out.old) }
    ensures { Obeyed d.number kind (ruled command kind (kept d.number s.old) body.now) result s.old s.new out.old out.new }
{
    match command {
        Command::OnRow(c) => on_row(s, d, kind, c, body, out),
        Command::OnTable(c) => on_table(s, d, kind, c, body, out),
    }
}
