// Each refusal of maker, reader and line writer at its edge: what is just legal, and what is just beyond. `kept` says that all octets of
// the buffer but those written hold the mark that they held. The script is the file stdin, first the maker, then the reader, then the
// line writer; `hosted` says how a line of it reads.
#![tactic(auto)]

use frame::Advanced;
use std::io;

fn main(rt: HostRuntime) -> io::Result<()> {
    let mut store = [0u8; store::SIZE];
    let mut out = [0u8; Advanced::LONGEST];
    hosted::play_input(&rt, &mut store, &mut out)
}
