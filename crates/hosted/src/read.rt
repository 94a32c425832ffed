// Reading the words of a line, and a request from them.
ghost use Rattle.std.specs.Prelude.{◌≤◌, length};

use frame::Kind;
use requests::{Ask, Request};
use rules::BLOCK;

// What stands behind the first space.
fn behind(text: &[u8]) -> &[u8]
    ensures { length result.now ≤ length text.now }
{
    text.get(show::until(text, b' ') + 1..).unwrap_or(&[])
}

// What stands behind the nth space.
pub fn rest(text: &[u8], n: usize) -> &[u8] {
    let mut text = text;
    for _ in 0..n {
        text = behind(text);
    }
    text
}

// The first word.
pub fn first(text: &[u8]) -> &[u8] {
    &text[..show::until(text, b' ')]
}

// The number that a text begins with, in hex; the library's parsers take a whole text, and refuse what is too long.
pub fn number(text: &[u8]) -> u64 {
    let mut v: u64 = 0;
    for c in text {
        let Some(d) = show::digit(*c) else {
            break;
        };
        v = v % 0x100000000000000 * 16 + d as u64;
    }
    v
}

// The fourteen bytes that a text says.
pub fn block(text: &[u8]) -> [u8; BLOCK] {
    let mut bytes = [0u8; BLOCK];
    show::unhex(text, &mut bytes);
    bytes
}

fn kind(text: &[u8]) -> Kind {
    match text {
        [b'a', ..] => Kind::Advanced,
        _ => Kind::Standard,
    }
}

// What is asked, by its control byte and its values; a control byte that is none of these is 0x33. Numbers, as the script has them: values
// out of range are among what it tries.
fn ask(control: u64, a: u64, b: u64, c: u64) -> Ask {
    match control {
        0x52 => Ask::Baud(a),
        0x63 => Ask::Reset,
        0x64 => Ask::SystemReset,
        0x80 => Ask::ReadBlock(a),
        0x81 => Ask::WriteBlock(a),
        0x82 => Ask::SaveBlocks(a),
        0x83 => Ask::RestoreBlocks(a),
        0x85 => Ask::SetTimer(a, b, c),
        0x86 => Ask::SendTimer,
        0xA0 => Ask::Login(a),
        0x22 => Ask::ReadRecords(a),
        0x31 => Ask::SendTable,
        0x32 => Ask::RemoveRecords,
        _ => Ask::ClearRecords,
    }
}

// The request that a text says: kind, desk, control byte, values.
pub fn request(text: &[u8]) -> Request {
    let values = rest(text, 3);
    Request {
        kind: kind(text),
        desk: number(rest(text, 1)),
        ask: ask(
            number(rest(text, 2)),
            number(values),
            number(rest(values, 1)),
            number(rest(values, 2)),
        ),
        bytes: block(rest(values, 1)),
    }
}

// A part of a slice; nothing where it does not lie within.
pub fn part(s: &[u8], from: usize, len: usize) -> &[u8] {
    s.get(from..).and_then(|s| s.get(..len)).unwrap_or(&[])
}
