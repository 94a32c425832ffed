// The calls of the box: fresh, test, frame, sighting, tick. Any octets, any numbers, any store: each call ends with an answer,
// and a refused call writes nothing.
#![tactic(auto)]

ghost use Rattle.std.specs.Prelude.{◌≡◌, [], length};
ghost use Rattle.rules.specs.Box.{Event};
ghost use Rattle.store.specs.Sound.{sound};
ghost use Rattle.depot.specs.Called.{Made, Tested, Called};

use events::Answer;
use frame::Refusal;

// Makes a fresh store of a buffer of the right size.
#[tactic(auto, using(crate::proofs::Making::refused_by_size, crate::proofs::Making::made_by_size))]
pub fn fresh(store: &mut [u8]) -> Result<Answer, Refusal>
    ensures { Made store.old result store.new }
{
    if store.len() != store::SIZE {
        return Err(Refusal::Unsound);
    }
    fresh::make(store);
    Ok(Answer::Done)
}

// A store that is not sound is refused before any other test.
fn fit(store: &[u8]) -> bool
    ensures { result ≡ sound store.now }
{
    soundness::test(store)
}

// Whether a store is sound: one that was kept in a file, say. It only reads.
pub fn test(store: &[u8]) -> Result<Answer, Refusal>
    ensures { Tested store.now result }
{
    if fit(store) {
        return Ok(Answer::Done);
    }
    Err(Refusal::Unsound)
}

// A frame arrives.
pub fn frame(store: &mut [u8], frame: &[u8], out: &mut [u8]) -> Result<Answer, Refusal>
    ensures { Called (Event.frame frame.now (length out.old)) store.old out.old result store.new out.new }
{
    if !fit(store) {
        return Err(Refusal::Unsound);
    }
    events::frame(store, frame, out)
}

// A tag is sighted at a desk.
pub fn sighting(store: &mut [u8], desk: u64, uid: u64, mask: u8) -> Result<Answer, Refusal>
    ensures { Called (Event.sighting desk uid mask) store.old [] result store.new [] }
{
    if !fit(store) {
        return Err(Refusal::Unsound);
    }
    events::sighting(store, desk, uid, mask)
}

// A tick of 100 ms passes for all desks.
pub fn tick(store: &mut [u8]) -> Result<Answer, Refusal>
    ensures { Called Event.tick store.old [] result store.new [] }
{
    if !fit(store) {
        return Err(Refusal::Unsound);
    }
    events::tick(store)
}
