// The listing: a fresh box, lines from standard input, and one line printed for each. What an input prints, however it comes in parts,
// is promised by `taking`; this is reads and writes around it.
#![tactic(auto)]

ghost use Rattle.std.specs.Prelude.{◌≤◌, length};

use feeding::{Begun, HELD};
use frame::Advanced;
use std::io;
use std::io::Read;
use taking::OUT;

// The room for what is read at once.
const CHUNK: usize = 65536;

// Prints what is written.
fn print(rt: &impl Print, out: &[u8], written: usize) -> io::Result<()>
    requires { written ≤ length out.now }
{
    rt.write_all(&out[..written])
}

// Takes all that was read, and prints what that says before a read that may wait. The buffers are lent by themselves, as `taking` takes them.
fn hear(
    rt: &impl Print,
    line: Begun,
    input: &[u8],
    held: &mut [u8; HELD],
    store: &mut [u8; store::SIZE],
    reply: &mut [u8; Advanced::LONGEST],
    out: &mut [u8; OUT],
) -> io::Result<Begun> {
    let mut begun = line;
    let mut rest = input;
    while !rest.is_empty() {
        let p = taking::take_part(begun, rest, held, store, reply, out);
        print(rt, out, p.written)?;
        begun = p.line;
        rest = &rest[p.taken..];
    }
    Ok(begun)
}

// Nothing says that input ends, so the reads are counted up to a number that no run reaches.
fn list(
    rt: &(impl Input + Print),
    held: &mut [u8; HELD],
    store: &mut [u8; store::SIZE],
    reply: &mut [u8; Advanced::LONGEST],
    out: &mut [u8; OUT],
) -> io::Result<()> {
    let mut input = rt.reader();
    let mut chunk = [0u8; CHUNK];
    let mut line = feeding::start();
    for _ in 0..u64::MAX {
        let n = input.read(&mut chunk)?;
        if n == 0 {
            break;
        }
        line = hear(rt, line, &chunk[..n], held, store, reply, out)?;
    }
    let n = taking::finish(line, held, store, reply, out);
    print(rt, out, n)
}

fn main(rt: HostRuntime) -> io::Result<()> {
    let mut store = [0u8; store::SIZE];
    let mut held = [0u8; HELD];
    let mut reply = [0u8; Advanced::LONGEST];
    let mut out = [0u8; OUT];
    // An array of a store's size is not refused.
    let _ = depot::fresh(&mut store);
    list(&rt, &mut held, &mut store, &mut reply, &mut out)
}
