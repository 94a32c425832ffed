// The host side by itself, with a buffer that is full of marks, of which a part is lent.
use crate::read::{block, first, number, part, request, rest};
use crate::tell;
use frame::Refusal;
use std::io;
use table::RECORD;

const MARK: u8 = 0x5A;

// The record of the paper's M12.
const SIGHTED: [u8; RECORD] = *b"\xE0\x07\x00\x00\x01\x64\x5E\x37\x01\x02\x03\xE8\x01";

// It, and another, as the data of a reply.
const TWO: [u8; 2 + 2 * RECORD] =
    *b"\x00\x02\xE0\x07\x00\x00\x01\x64\x5E\x37\x01\x02\x03\xE8\x01\xFE\xDC\xBA\x98\x76\x54\x32\x10\x17\x3B\xEA\x5F\xFF";

// Reads a reply to a request: its octets, and then the request.
pub fn hear(rt: &impl Print, text: &[u8]) -> io::Result<()> {
    let mut octets = [0u8; 64];
    let n = show::unhex(first(text), &mut octets);
    tell::reply(rt, request(rest(text, 1)), part(&octets, 0, n))?;
    Ok(())
}

// Writes into what is lent.
fn fill(letter: u8, text: &[u8], out: &mut [u8]) -> Result<usize, Refusal> {
    match letter {
        b'r' => maker::make(request(text), out),
        b'b' => lines::lines(block(text), &TWO, out),
        _ => lines::line(block(text), SIGHTED, out),
    }
}

// The octets written: lines as text, all else in hex.
fn written(rt: &impl Print, letter: u8, s: &[u8]) -> io::Result<()> {
    match letter {
        b'w' | b'b' => tell::text(rt, s),
        _ => show::hex(rt, s),
    }
}

// Whether all octets but the first n hold the mark.
fn kept(rt: &impl Print, buf: &[u8], n: usize) -> io::Result<()> {
    let Some(rest) = buf.get(n..) else {
        return Ok(());
    };
    if rest.iter().all(|b| *b == MARK) {
        print!(rt; " kept")
    } else {
        print!(rt; " changed")
    }
}

// Lends so much of a buffer, and no more than there is, and says what was written there and whether all else was kept.
pub fn lend(rt: &impl Print, letter: u8, text: &[u8]) -> io::Result<()> {
    let mut buf = [MARK; 64];
    let room = (number(text) as usize).min(buf.len());
    match fill(letter, rest(text, 1), &mut buf[..room]) {
        Err(r) => {
            tell::refused(rt, r)?;
            kept(rt, &buf, 0)
        }
        Ok(n) => {
            written(rt, letter, part(&buf, 0, n))?;
            kept(rt, &buf, n)
        }
    }
}
