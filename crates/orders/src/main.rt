// One list of events on two sound stores: one made fresh, and the same octets with the areas in another order. A line an event: what
// the first answers, and whether the second answers the same, octet for octet. `show` says how a line of a script reads.
#![tactic(auto)]

use frame::Advanced;
use show::Said;
use std::io;

// A sound store: desk 0 is logged in and holds 20 records and locks, desk 1 one.
const MADE: [u8; 68] = *b"
: fresh
: standard 00 A0 00000000
: many 00 14
: many 01 01
: tick
";

// The events that both stores are given.
const EVENTS: [u8; 561] = *b"
table: standard 00 31
write: standard 00 81 8C 48454C4C4F204445504F54203134
read: advanced 00 80 8C
sight last desk: uid 07 01 0000000000003000
sight: uid 00 01 0000000000003000
sight: uid 00 01 0000000000003001
sight locked: uid 00 01 0000000000003000
records: standard 00 22 0064
tick: tick
remove: standard 00 32
records: advanced 00 22 0064
records last desk: advanced 07 22 0064
timer last desk: standard 07 86
clear: standard 00 33
table: standard 00 31
records other desk: standard 01 22 0001
system reset: standard 07 64
table last desk: standard 07 31";

// Where a fresh store has its rows and its entries, and where they are moved: the entries to the rows' place, the rows behind them
// with a gap.
const ROWS: usize = 6;

const ENTRIES: usize = ROWS + table::DESKS * store::ROW;

const BEHIND: usize = ROWS + store::TABLE + 100;

// The octets of a store that was made fresh, with the entries right behind the header and the rows behind them.
fn moved(to: &mut [u8; store::SIZE], from: &[u8; store::SIZE]) {
    show::place(to, ROWS, &from[ENTRIES..ENTRIES + store::TABLE]);
    show::place(to, BEHIND, &from[ROWS..ENTRIES]);
    show::place(to, 0, &(BEHIND as u16).to_be_bytes());
    show::place(to, 2, &(ROWS as u16).to_be_bytes());
    show::place(to, 4, &from[4..6]);
}

// Whether two answers, and the octets of the outputs, are the same.
fn verdict(
    rt: &impl Print,
    a: Option<Said>,
    b: Option<Said>,
    out: &[u8],
    other_out: &[u8],
) -> io::Result<()> {
    if a != b {
        print!(rt; " other answer\n")
    } else if other_out.starts_with(out) {
        print!(rt; " same\n")
    } else {
        print!(rt; " other octets\n")
    }
}

// A line: what the first store says to an event, and whether the second says the same. Two stores and two outputs, lent by themselves, as the
// calls take them.
fn compare(
    rt: &impl Print,
    line: &[u8],
    store: &mut [u8],
    out: &mut [u8],
    other: &mut [u8],
    other_out: &mut [u8],
) -> io::Result<()> {
    let a = show::act(line, store, out);
    let b = show::act(line, other, other_out);
    show::say(rt, out, a)?;
    verdict(rt, a, b, out, other_out)
}

fn main(rt: HostRuntime) -> io::Result<()> {
    let mut store = [0u8; store::SIZE];
    let mut out = [0u8; Advanced::LONGEST];
    let mut other = [0u8; store::SIZE];
    let mut other_out = [0u8; Advanced::LONGEST];
    show::play(&rt, &MADE, &mut store, &mut out)?;
    moved(&mut other, &store);
    show::place(&mut other_out, 0, &out);
    show::each_line(&EVENTS, |line| {
        compare(&rt, line, &mut store, &mut out, &mut other, &mut other_out)
    })
}
