// A sighting at a desk, and a tick of all desks.
// Each asks for a sound store: a struct around the store, which workers write to, would owe the clause that its field is still that reference.
#![tactic(auto)]

ghost use Rattle.std.specs.Prelude.{◌≡◌, true, false};
ghost use Rattle.locks.specs.Locks.{locked};
ghost use Rattle.rules.specs.Records.{record_of};
ghost use Rattle.rules.specs.Sighting.{ticked};
ghost use Rattle.store.specs.Sound.{sound};
ghost use Rattle.keeping.specs.Kept.{kept, Says};
ghost use Rattle.sightings.specs.Sighted.{Sighted, Ticked};

use doings::Doing;
use keeping::desk_number::DeskNumber;
use rules::Seen;
use table::RECORD;
use timer::Timer;

// UID 8, timer 4, antenna mask 1.
fn record_of(uid: u64, t: Timer, mask: u8) -> [u8; RECORD]
    ensures { result ≡ record_of uid t mask }
{
    let mut r = [0; RECORD];
    octets::put::<8>(&mut r, 0, uid);
    octets::copy_to(&mut r, 8, &timer::octets_of(t));
    r[12] = mask;
    r
}

// A UID that is not locked: lost where the desk's share is full, else recorded and locked.
fn unlocked(s: &mut [u8], d: DeskNumber, uid: u64, mask: u8) -> Seen
    requires { (sound s.old ≡ true) × (locked uid (kept d.number s.old).locks ≡ false) }
    ensures { Sighted d.number uid mask result s.old s.new }
{
    if table::SHARE as usize <= holding::held(s, d) {
        keeping::act(s, d, Doing::Mark);
        return Seen::Lost;
    }
    let t = keeping::timer_of(s, d);
    holding::add_record(s, d, record_of(uid, t, mask));
    keeping::act(s, d, Doing::Lock(uid));
    Seen::Recorded
}

// The first rule that fits: ignored, with the ticks that the lock has left; lost; recorded.
pub fn sight(s: &mut [u8], d: DeskNumber, uid: u64, mask: u8) -> Seen
    requires { sound s.old ≡ true }
    ensures { Sighted d.number uid mask result s.old s.new }
{
    match keeping::lock_of(s, d, uid) {
        Some((_, left)) => Seen::Ignored(left),
        None => unlocked(s, d, uid, mask),
    }
}

fn tick_desk(s: &mut [u8], d: DeskNumber)
    requires { sound s.old ≡ true }
    ensures { Says d.number (ticked (kept d.number s.old)) s.old s.new }
{
    keeping::act(s, d, Doing::Tick);
}

// Every desk is ticked.
pub fn tick(s: &mut [u8])
    requires { sound s.old ≡ true }
    ensures { Ticked s.old s.new }
{
    for d in 0..table::DESKS {
        tick_desk(s, DeskNumber { number: d as u8 });
    }
}
