// What an event does where the store is sound: a frame arrives, a tag is sighted, a tick passes. Refusals 2 to 6 are given here.
// Each asks for a sound store: a struct around the store, which workers write to, would owe the clause that its field is still that reference.
#![tactic(auto)]

ghost use Rattle.std.specs.Prelude.{◌≡◌, true, [], ◌≤◌, length};
ghost use Rattle.frame.specs.declared.Way.{Way};
ghost use Rattle.frame.specs.Shape.{reply_room};
ghost use Rattle.frame.specs.Finding.{Finding};
ghost use Rattle.frame.specs.Judged.{judged};
ghost use Rattle.rules.specs.Box.{Event};
ghost use Rattle.store.specs.Sound.{sound};
ghost use Rattle.events.specs.Happened.{Happened};

use frame::{Advanced, Frame, Refusal, Way};
use keeping::desk_number::DeskNumber;
use rules::Seen;
use ruling::no_desk;

// What a call answers that is not refused.
#[derive(Clone, Copy, PartialEq, Eq)]
pub enum Answer {
    // The reply's octets stand at the start of the output.
    Reply(usize),
    Sighted(Seen),
    Done,
}

// A frame that was judged sound is answered by the desk that it names.
fn served(store: &mut [u8], frame: &[u8], f: Frame, out: &mut [u8]) -> Result<Answer, Refusal>
    requires { (sound store.old ≡ true) × (judged Way.Request frame.now ≡ Finding.found f) × (reply_room ≤ length out.old) }
    ensures { Happened (Event.frame frame.now (length out.old)) store.old out.old result store.new out.new }
{
    if no_desk(f.address as u64) {
        return Err(Refusal::NoDesk);
    }
    Ok(Answer::Reply(replying::reply(store, frame, f, out)))
}

// A frame arrives.
pub fn frame(store: &mut [u8], frame: &[u8], out: &mut [u8]) -> Result<Answer, Refusal>
    requires { sound store.old ≡ true }
    ensures { Happened (Event.frame frame.now (length out.old)) store.old out.old result store.new out.new }
{
    if out.len() < Advanced::LONGEST {
        return Err(Refusal::SmallBuffer);
    }
    let f = frame::judge(Way::Request, frame)?;
    served(store, frame, f, out)
}

// A tag is sighted at a desk.
pub fn sighting(store: &mut [u8], desk: u64, uid: u64, mask: u8) -> Result<Answer, Refusal>
    requires { sound store.old ≡ true }
    ensures { Happened (Event.sighting desk uid mask) store.old [] result store.new [] }
{
    let Some(desk) = DeskNumber::of(desk) else {
        return Err(Refusal::NoDesk);
    };
    if mask == 0 {
        return Err(Refusal::OutOfRange);
    }
    Ok(Answer::Sighted(sightings::sight(store, desk, uid, mask)))
}

// A tick of 100 ms passes for all desks.
pub fn tick(store: &mut [u8]) -> Result<Answer, Refusal>
    requires { sound store.old ≡ true }
    ensures { Happened Event.tick store.old [] result store.new [] }
{
    sightings::tick(store);
    Ok(Answer::Done)
}
