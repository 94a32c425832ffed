// Printing what the host side says.
use crate::read::part;
use frame::Refusal;
use reader::Told;
use requests::{Ask, Request};
use std::io;
use timer::Timer;
use typed::Sighting;

pub fn refused(rt: &impl Print, r: Refusal) -> io::Result<()> {
    print!(rt; "refused {}", r.number())
}

// Octets as text: those that are no letters, digits or signs stand as hex in angle brackets.
fn sign(rt: &impl Print, b: u8) -> io::Result<()> {
    match b {
        0x21..=0x7E => print!(rt; "{}", char::from(b)),
        _ => print!(rt; "<{b:02X}>"),
    }
}

pub fn text(rt: &impl Print, s: &[u8]) -> io::Result<()> {
    for b in s {
        sign(rt, *b)?;
    }
    Ok(())
}

fn clock(rt: &impl Print, t: Timer) -> io::Result<()> {
    print!(rt; "{}:{}:{}", t.hour, t.minute, t.ms)
}

fn timed(rt: &impl Print, sent: &[u8]) -> io::Result<()> {
    if let Ok(t) = typed::timer_in(sent) {
        print!(rt; " ")?;
        clock(rt, t)?;
    }
    Ok(())
}

fn blocked(rt: &impl Print, sent: &[u8]) -> io::Result<()> {
    if let Ok(bytes) = typed::block_in(sent) {
        print!(rt; " ")?;
        show::hex(rt, &bytes)?;
    }
    Ok(())
}

fn sized(rt: &impl Print, sent: &[u8]) -> io::Result<()> {
    if let Ok(s) = typed::sizes_in(sent) {
        print!(rt; " {} {} {}", s.size, s.start, s.len)?;
    }
    Ok(())
}

// A record on a line of its own: UID, timer, mask.
fn sighted(rt: &impl Print, s: Sighting) -> io::Result<()> {
    print!(rt; "\n  {:016X} ", s.uid)?;
    clock(rt, s.timer)?;
    print!(rt; " {:02X}", s.mask)
}

// The records that the data carry; of data that no reply carries, none.
fn recorded(rt: &impl Print, sent: &[u8]) -> io::Result<()> {
    for i in 0..typed::count_in(sent).unwrap_or(0) {
        if let Ok(s) = typed::record_in(sent, i) {
            sighted(rt, s)?;
        }
    }
    Ok(())
}

// What the data of a reply say, typed.
fn typed(rt: &impl Print, ask: Ask, sent: &[u8]) -> io::Result<()> {
    match ask {
        Ask::ReadBlock(_) => blocked(rt, sent),
        Ask::SendTimer => timed(rt, sent),
        Ask::SendTable => sized(rt, sent),
        Ask::ReadRecords(_) => recorded(rt, sent),
        _ => Ok(()),
    }
}

// Reads the reply to a request: its status in hex, and what its data say.
pub fn reply(rt: &impl Print, q: Request, octets: &[u8]) -> io::Result<Option<Told>> {
    match reader::read(q, octets) {
        Err(r) => {
            refused(rt, r)?;
            Ok(None)
        }
        Ok(t) => {
            let ask = q.ask;
            print!(rt; "{:02X}", t.status)?;
            typed(rt, ask, part(octets, t.start, t.len))?;
            Ok(Some(t))
        }
    }
}
