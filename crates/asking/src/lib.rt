// Numbers and octets, read as a request.
#![tactic(auto)]

ghost use Rattle.std.specs.Prelude.{◌≡◌, cond};
ghost use Rattle.rules.specs.Control.{known};
ghost use Rattle.asking.specs.Numbers.{kind_named, row_ask, table_ask, ask_with, no_ask, ask_of, whole, request_of};

use codes::octet_of;
use frame::Kind;
use requests::{Ask, Request};
use rules::BLOCK;
use rules::control::{Command, RowCommand, TableCommand};

// A kind and a command by number, and beside them the numbers a, b, c: the C interface passes numbers.
#[tactic(auto, unfolding(crate::specs::Numbers::kind_named))]
fn kind_of(kind: u64) -> Kind
    ensures { result ≡ kind_named kind }
{
    if kind == 0 {
        Kind::Standard
    } else {
        Kind::Advanced
    }
}

// What a command asks with three numbers.
// A match here and below: the wire has these commands alone, and a match over the enum is checked to be whole; a table of functions is not.
fn row_ask(command: RowCommand, a: u64, b: u64, c: u64) -> Ask
    ensures { result ≡ row_ask command a b c }
{
    match command {
        RowCommand::Baud => Ask::Baud(a),
        RowCommand::Reset => Ask::Reset,
        RowCommand::ReadBlock => Ask::ReadBlock(a),
        RowCommand::WriteBlock => Ask::WriteBlock(a),
        RowCommand::SaveBlocks => Ask::SaveBlocks(a),
        RowCommand::RestoreBlocks => Ask::RestoreBlocks(a),
        RowCommand::SetTimer => Ask::SetTimer(a, b, c),
        RowCommand::SendTimer => Ask::SendTimer,
        RowCommand::Login => Ask::Login(a),
    }
}

fn table_ask(command: TableCommand, a: u64) -> Ask
    ensures { result ≡ table_ask command a }
{
    match command {
        TableCommand::SystemReset => Ask::SystemReset,
        TableCommand::ReadRecords => Ask::ReadRecords(a),
        TableCommand::SendTable => Ask::SendTable,
        TableCommand::RemoveRecords => Ask::RemoveRecords,
        TableCommand::ClearRecords => Ask::ClearRecords,
    }
}

fn ask_with(command: Command, a: u64, b: u64, c: u64) -> Ask
    ensures { result ≡ ask_with command a b c }
{
    match command {
        Command::OnRow(x) => row_ask(x, a, b, c),
        Command::OnTable(x) => table_ask(x, a),
    }
}

// What a control byte and three numbers ask.
fn ask_of(control: u8, a: u64, b: u64, c: u64) -> Ask
    ensures { result ≡ ask_of (known control) a b c }
{
    match control::decide(control) {
        Some(t) => ask_with(t.command, a, b, c),
        None => Ask::Baud(256),
    }
}

// Whether a frame kind is named, and a write has the bytes of a block.
#[tactic(auto, unfolding(crate::specs::Numbers::whole))]
fn is_whole(kind: u64, control: u8, bytes: &[u8]) -> bool
    ensures { result ≡ whole kind control bytes.now }
{
    kind < 2 && (control != 0x81 || bytes.len() == BLOCK)
}

// That of a whole request; what is none is one whose value its field can't hold.
// No Option: `request_of` of specs/Numbers.antt gives a request for any numbers, and the promises of the C calls rest on it.
fn ask_if(whole: bool, control: u8, a: u64, b: u64, c: u64) -> Ask
    ensures { result ≡ cond whole (ask_of (known control) a b c) no_ask }
{
    if whole {
        ask_of(control, a, b, c)
    } else {
        Ask::Baud(256)
    }
}

// The request that the numbers name.
pub fn request_of(
    kind: u64,
    desk: u64,
    control: u64,
    a: u64,
    b: u64,
    c: u64,
    bytes: &[u8],
) -> Request
    ensures { result ≡ request_of kind desk control a b c bytes.now }
{
    let octet = octet_of(control);
    Request {
        kind: kind_of(kind),
        desk,
        ask: ask_if(is_whole(kind, octet, bytes), octet, a, b, c),
        bytes: typed::bytes_in(bytes),
    }
}
