// The box's calls for C and Rust: numbers and lent octets go in, a number comes back. A refused call writes nothing.
#![tactic(auto)]

ghost use Rattle.std.specs.Prelude.{◌≡◌, ◌<◌, ◌^◌, [], length, Ok};
ghost use Rattle.rules.specs.Box.{Event};
ghost use Rattle.codes.specs.Codes.{octet_of};
ghost use Rattle.depot_c.specs.Coded.{code_of, CalledAs, MadeAs, TestedAs};

use codes::{WRITTEN, octet_of, seen_code};
use events::Answer;
use frame::Refusal;

// The number of an answer that is no refusal.
fn told_code(a: Answer) -> u64
    requires { code_of (Ok a) < 2 ^ 64 }
    ensures { result ≡ code_of (Ok a) }
{
    match a {
        Answer::Done => 0,
        Answer::Sighted(w) => seen_code(w),
        Answer::Reply(n) => WRITTEN + n as u64,
    }
}

// The number of an answer.
fn answer_code(a: Result<Answer, Refusal>) -> u64
    requires { code_of a < 2 ^ 64 }
    ensures { result ≡ code_of a }
{
    match a {
        Ok(told) => told_code(told),
        Err(r) => r.number() as u64,
    }
}

// Makes a fresh store.
pub fn depot_fresh(store: &mut [u8]) -> u64
    ensures { MadeAs store.old result store.new }
{
    answer_code(depot::fresh(store))
}

// Whether a store is sound: one that was kept in a file, say. It only reads.
pub fn depot_test(store: &[u8]) -> u64
    ensures { TestedAs store.now result }
{
    answer_code(depot::test(store))
}

// A frame arrives.
pub fn depot_frame(store: &mut [u8], frame: &[u8], out: &mut [u8]) -> u64
    ensures { CalledAs (Event.frame frame.now (length out.old)) store.old out.old result store.new out.new }
{
    answer_code(depot::frame(store, frame, out))
}

// A tag is sighted at a desk.
pub fn depot_sighting(store: &mut [u8], desk: u64, uid: u64, mask: u64) -> u64
    ensures { CalledAs (Event.sighting desk uid (octet_of mask)) store.old [] result store.new [] }
{
    answer_code(depot::sighting(store, desk, uid, octet_of(mask)))
}

// A tick of 100 ms passes for all desks.
pub fn depot_tick(store: &mut [u8]) -> u64
    ensures { CalledAs Event.tick store.old [] result store.new [] }
{
    answer_code(depot::tick(store))
}
