// A day of the box: two desks, 0 and 3, in one store. The script is the file stdin; `show` says how a line of it reads.
#![tactic(auto)]

use frame::Advanced;
use std::io;

fn main(rt: HostRuntime) -> io::Result<()> {
    let mut store = [0u8; store::SIZE];
    let mut out = [0u8; Advanced::LONGEST];
    show::play_input(&rt, &mut store, &mut out)
}
