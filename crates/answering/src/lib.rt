// What a line is answered: a frame that stands in digits, or a line that is no hex.
// Store, reply and output are lent each by itself, here and in `readoff`, `turning` and `taking`: a struct of the three would owe in each
// function that its fields are still these references.
#![tactic(auto)]

ghost use Rattle.std.specs.Prelude.{◌≡◌, true, ◌≤◌, length};
ghost use Rattle.digits.specs.Digits.{octets_of};
ghost use Rattle.text.specs.Listing.{Line, is_sighting, sighting_of, other_line, longest_line};
ghost use Rattle.answering.specs.Answered.{Answered};

use digits::read::decode;
use frame::Advanced;
use text::print::{not_read, show};

// Answers a frame; of one that is longer than any may be, the first octets are enough to refuse it.
pub fn framed(s: &[u8], store: &mut [u8], reply: &mut [u8], out: &mut [u8]) -> usize
    requires { longest_line ≤ length out.old }
    ensures { Answered (Line.frame (octets_of s.now)) store.old reply.old out.old result store.new reply.new out.new }
{
    let mut frame = [0u8; Advanced::LONGEST + 1];
    let n = decode(s, &mut frame);
    let a = depot::frame(store, &frame[..n], reply);
    show(a, reply, out)
}

// Answers a sighting.
fn sighted(s: &[u8], store: &mut [u8], reply: &mut [u8], out: &mut [u8]) -> usize
    requires { (is_sighting s.now ≡ true) × (longest_line ≤ length out.old) }
    ensures { Answered (sighting_of s.now) store.old reply.old out.old result store.new reply.new out.new }
{
    let mut nine = [0u8; 9];
    decode(&s[2..], &mut nine);
    let desk = s[1] - 0x30;
    let a = depot::sighting(store, desk as u64, octets::number::<8>(&nine, 0), nine[8]);
    show(a, reply, out)
}

// Answers a line that is no hex.
pub fn other(s: &[u8], store: &mut [u8], reply: &mut [u8], out: &mut [u8]) -> usize
    requires { longest_line ≤ length out.old }
    ensures { Answered (other_line s.now) store.old reply.old out.old result store.new reply.new out.new }
{
    if text::is_tick(s) {
        let a = depot::tick(store);
        show(a, reply, out)
    } else if text::is_sighting(s) {
        sighted(s, store, reply, out)
    } else {
        not_read(out)
    }
}
