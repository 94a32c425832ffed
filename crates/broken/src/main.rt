// Stores that break one rule of soundness each: every call refuses them with 1, and all octets are kept. `show` says how a
// line of a script reads.
#![tactic(auto)]

use frame::Advanced;
use std::io;

// A sound store: desk 0 is logged in and holds 5 records and locks, desk 1 one.
const MADE: [u8; 68] = *b"
: fresh
: standard 00 A0 00000000
: many 00 05
: many 01 01
: tick
";

// Where a line pokes, a copy of the store is tried.
const RULES: [u8; 1221] = *b"
The rows end at 40961, and so do the entries; the entries begin in the last octet of the rows, the rows in that of the header.
rows outside: poke 0000 7D 0001 A9
entries outside: poke 0002 84 0003 01
entries in rows: poke 0003 5D
rows in header: poke 0001 05

Counts out of range. The entries begin at 225E, the row of desk 0 at 0006.
owner: poke 225E 08
login: poke 01C8 02
table start: poke 01CF 40
due: poke 01CE 06

Timers and blocks 7.
hour: poke 01C9 18
minute: poke 01CA 3C
milliseconds: poke 01CB EA 01CC 60
use in ram: poke 0068 01
separator in ram: poke 0069 21
end in eeprom: poke 014B 03
length in eeprom: poke 0155 44
last desk: poke 1FD6 18

Locks.
lock of none: poke 01DA 00
lock too long: poke 01DA 38
locked twice: poke 01E2 00

With 63 records and then with 64 at desk 0. Entry 5 is of desk 1, and given to desk 0 this holds 65.
sight many: many 00 3F
mark: poke 01CD 01
sight many: many 00 40
mark two: poke 01CD 02
share: poke 22A4 00
locks: poke 01D0 41

A full table, and what is at the edge of the rules and sound, which is answered.
: many 01 40
: many 02 40
: many 03 40
: many 04 40
: many 05 40
: many 06 40
: many 07 40
entries used: poke 0005 01
full and sound: poke 01CD 01 01CE 40 01CF 3F
";

// Says whether the octets of store and output are those that were noted.
fn compare(
    rt: &impl Print,
    store: &[u8],
    before: &[u8],
    out: &[u8],
    noted: &[u8],
) -> io::Result<()> {
    if before.starts_with(store) && noted.starts_with(out) {
        print!(rt; "kept\n")
    } else {
        print!(rt; "changed\n")
    }
}

fn ask(rt: &impl Print, line: &[u8], store: &mut [u8], out: &mut [u8]) -> io::Result<()> {
    let s = show::act(line, store, out);
    show::say(rt, out, s)?;
    print!(rt; " ")
}

// A line: the name of the store, what the three calls say to it, and whether all octets are as before.
fn probe(rt: &impl Print, name: &[u8], store: &mut [u8], out: &mut [u8]) -> io::Result<()> {
    let mut before = [0u8; store::SIZE + 1];
    let mut noted = [0u8; Advanced::LONGEST];
    show::place(&mut before, 0, store);
    show::place(&mut noted, 0, out);
    show::name(rt, name)?;
    ask(rt, b": standard 00 31", store, out)?;
    ask(rt, b": uid 00 01 0000000000002000", store, out)?;
    ask(rt, b": tick", store, out)?;
    compare(rt, store, &before, out, &noted)
}

fn sizes(rt: &impl Print, store: &[u8], out: &mut [u8]) -> io::Result<()> {
    let mut long = [0u8; store::SIZE + 1];
    show::place(&mut long, 0, store);
    probe(rt, b"one octet more", &mut long, out)?;
    probe(rt, b"one octet less", &mut long[..store::SIZE - 1], out)
}

// A copy of the store, with octets written.
fn copy(rt: &impl Print, line: &[u8], store: &[u8], out: &mut [u8]) -> io::Result<()> {
    let mut copy = [0u8; store::SIZE];
    show::place(&mut copy, 0, store);
    show::act(line, &mut copy, out);
    probe(rt, line, &mut copy, out)
}

fn step(rt: &impl Print, line: &[u8], store: &mut [u8], out: &mut [u8]) -> io::Result<()> {
    if show::letter(line) == Some(b'p') {
        copy(rt, line, store, out)
    } else {
        show::step(rt, line, store, out)
    }
}

fn main(rt: HostRuntime) -> io::Result<()> {
    let mut store = [0u8; store::SIZE];
    let mut out = [0x5Au8; Advanced::LONGEST];
    show::play(&rt, &MADE, &mut store, &mut out)?;
    sizes(&rt, &store, &mut out)?;
    show::each_line(&RULES, |line| step(&rt, line, &mut store, &mut out))
}
