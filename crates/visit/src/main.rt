// The host side run against the box: each command in both frame kinds, and lines at the end. A line a step: the request, the reply,
// the status that the reader tells, and what the data say. The script is the file stdin; `hosted` says how a line of it reads.
#![tactic(auto)]

use frame::Advanced;
use std::io;

fn main(rt: HostRuntime) -> io::Result<()> {
    let mut store = [0u8; store::SIZE];
    let mut out = [0u8; Advanced::LONGEST];
    hosted::play_input(&rt, &mut store, &mut out)
}
