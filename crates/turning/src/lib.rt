// One octet of the listing's input: it goes on with a line, or is the LF that ends it; and a last line without LF.
#![tactic(auto)]

ghost use Rattle.std.specs.Prelude.{◌≡◌, ◌+◌, ◌≤◌, ◌<◌, length, get_or};
ghost use Rattle.text.specs.Listing.{longest_line};
ghost use Rattle.turning.specs.Turning.{lent, Takes, Ends};

use feeding::{Begun, feed, start};
use readoff::answer;

// The line that is begun, how many octets of the part are taken, and how many of the output are written.
#[derive(Clone, Copy)]
pub struct Progress {
    pub line: Begun,
    pub taken: usize,
    pub written: usize,
}

// Takes the next octet of a part: a line's, or the LF that ends it.
pub fn take(
    p: Progress,
    part: &[u8],
    held: &mut [u8],
    store: &mut [u8],
    reply: &mut [u8],
    out: &mut [u8],
) -> Progress
    requires { (p.taken < length part.now) × (p.written + longest_line ≤ length out.old) }
    ensures { (result.taken ≡ p.taken + 1) × Takes (get_or part.now p.taken 0) (lent p.line p.written held.old store.old reply.old out.old) (lent result.line result.written held.new store.new reply.new out.new) }
{
    let i = p.taken;
    let at = p.written;
    if part[i] != b'\n' {
        return Progress {
            line: feed(p.line, held, part[i]),
            taken: i + 1,
            written: at,
        };
    }
    let n = answer(p.line, held, store, reply, &mut out[at..]);
    Progress {
        line: start(),
        taken: i + 1,
        written: at + n,
    }
}

// Answers a last line without LF; one that is empty is no line.
pub fn last_line(
    line: Begun,
    held: &[u8],
    store: &mut [u8],
    reply: &mut [u8],
    out: &mut [u8],
) -> usize
    requires { longest_line ≤ length out.old }
    ensures { Ends line held.now store.old reply.old out.old result store.new reply.new out.new }
{
    if line.held == 0 {
        return 0;
    }
    answer(line, held, store, reply, out)
}
