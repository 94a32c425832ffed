// The host side run against the box.
use crate::read::{part, request};
use crate::tell;
use events::Answer;
use reader::Told;
use requests::{Ask, Request};
use rules::BLOCK;
use show::Said;
use std::io;

// Hands a request to the box, and reads the reply.
fn hand(
    rt: &impl Print,
    q: Request,
    octets: &[u8],
    store: &mut [u8],
    out: &mut [u8],
) -> io::Result<Option<Told>> {
    show::hex(rt, octets)?;
    print!(rt; " ")?;
    let a = depot::frame(store, octets, out);
    show::say(rt, out, Some(Said::Answer(a)))?;
    print!(rt; " ")?;
    match a {
        Ok(Answer::Reply(n)) => tell::reply(rt, q, part(out, 0, n)),
        _ => Ok(None),
    }
}

// Makes a request, hands it to the box, and reads the reply.
fn ask(rt: &impl Print, q: Request, store: &mut [u8], out: &mut [u8]) -> io::Result<Option<Told>> {
    let mut buf = [0u8; 64];
    match maker::make(q, &mut buf) {
        Err(r) => {
            tell::refused(rt, r)?;
            Ok(None)
        }
        Ok(n) => hand(rt, q, part(&buf, 0, n), store, out),
    }
}

// The request that a text says.
pub fn call(rt: &impl Print, text: &[u8], store: &mut [u8], out: &mut [u8]) -> io::Result<()> {
    ask(rt, request(text), store, out)?;
    Ok(())
}

// The data that a reply was told to carry; none where nothing was told.
fn sent(out: &[u8], told: Option<Told>) -> &[u8] {
    match told {
        Some(t) => part(out, t.start, t.len),
        None => &[],
    }
}

// Block 7 of the desk that a request names, in RAM.
fn seven(rt: &impl Print, q: Request, store: &mut [u8], out: &mut [u8]) -> io::Result<[u8; BLOCK]> {
    let of_block = Request {
        kind: q.kind,
        desk: q.desk,
        ask: Ask::ReadBlock(7),
        bytes: [0; BLOCK],
    };
    let told = ask(rt, of_block, store, out)?;
    Ok(typed::bytes_in(sent(out, told)))
}

// The lines of the records that the data of a reply carry.
fn lined(rt: &impl Print, block: [u8; BLOCK], sent: &[u8]) -> io::Result<()> {
    let mut buf = [0u8; 2048];
    match lines::lines(block, sent, &mut buf) {
        Err(r) => tell::refused(rt, r),
        Ok(n) => {
            print!(rt; "{n} octets\n")?;
            show::word(rt, part(&buf, 0, n))
        }
    }
}

// Block 7 and records are read, and the lines of the records written.
pub fn lines(rt: &impl Print, text: &[u8], store: &mut [u8], out: &mut [u8]) -> io::Result<()> {
    let q = request(text);
    let block = seven(rt, q, store, out)?;
    print!(rt; "\n")?;
    let told = ask(rt, q, store, out)?;
    print!(rt; "\n")?;
    lined(rt, block, sent(out, told))
}
