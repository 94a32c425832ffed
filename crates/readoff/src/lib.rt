// The line that was fed octet by octet is read off and answered.
#![tactic(auto)]

ghost use Rattle.std.specs.Prelude.{◌≤◌, length};
ghost use Rattle.text.specs.Listing.{longest_line};
ghost use Rattle.readoff.specs.ReadOff.{ReadOff};

use answering::{framed, other};
use feeding::Begun;
use text::print::not_read;

// Answers the line that was fed: the box is called, and what is to be printed stands at the start of the output.
pub fn answer(
    state: Begun,
    held: &[u8],
    store: &mut [u8],
    reply: &mut [u8],
    out: &mut [u8],
) -> usize
    requires { longest_line ≤ length out.old }
    ensures { ReadOff state held.now store.old reply.old out.old result store.new reply.new out.new }
{
    let n = state.held.min(held.len());
    if state.bad {
        if state.over {
            not_read(out)
        } else {
            other(&held[..n], store, reply, out)
        }
    } else if state.odd {
        not_read(out)
    } else {
        framed(&held[..n], store, reply, out)
    }
}
