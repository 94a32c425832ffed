// The listing over lent parts of its input, in any grouping: each line that ends in a part is answered. The buffers are arrays by
// their type, so that no test of room comes before the store's.
#![tactic(auto)]

ghost use Rattle.turning.specs.Turning.{lent};
ghost use Rattle.taking.specs.Taking.{Took, TookPart, Finished};

use feeding::{Begun, HELD};
use frame::Advanced;
use text::LONGEST;
use turning::{Progress, last_line, take};

// The room for what is to be printed: that of many lines.
pub const OUT: usize = 65536;

// Takes octets of a part until it ends, or until the output might have no room for the next line. No `for`: how far it has come is in what
// `take` gives back.
fn take_all(
    line: Begun,
    part: &[u8],
    held: &mut [u8],
    store: &mut [u8],
    reply: &mut [u8],
    out: &mut [u8],
) -> Progress
    ensures { Took part.now (lent line 0 held.old store.old reply.old out.old) result.taken (lent result.line result.written held.new store.new reply.new out.new) }
{
    let mut p = Progress {
        line,
        taken: 0,
        written: 0,
    };
    // No `for`: how far a part is taken is what the caller is told, and `take`, which promises it, moves on by itself.
    while p.taken < part.len() && LONGEST <= out.len() - p.written {
        p = take(p, part, held, store, reply, out);
    }
    p
}

// Takes a part of the input: all of it, or as much as the output has room for.
pub fn take_part(
    line: Begun,
    part: &[u8],
    held: &mut [u8; HELD],
    store: &mut [u8; store::SIZE],
    reply: &mut [u8; Advanced::LONGEST],
    out: &mut [u8; OUT],
) -> Progress
    ensures { TookPart part.now (lent line 0 held.old store.old reply.old out.old) result.taken (lent result.line result.written held.new store.new reply.new out.new) }
{
    take_all(line, part, held, store, reply, out)
}

// Ends the input, and says how many octets of the output are written.
pub fn finish(
    line: Begun,
    held: &[u8; HELD],
    store: &mut [u8; store::SIZE],
    reply: &mut [u8; Advanced::LONGEST],
    out: &mut [u8; OUT],
) -> usize
    ensures { Finished line held.now store.old reply.old out.old result store.new reply.new out.new }
{
    last_line(line, held, store, reply, out)
}
