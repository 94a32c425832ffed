// The static library of the box: each of its calls is that of `depot_c`, under the same name and with the same promise.
#![tactic(auto)]

ghost use Rattle.std.specs.Prelude.{[], length};
ghost use Rattle.rules.specs.Box.{Event};
ghost use Rattle.codes.specs.Codes.{octet_of};
ghost use Rattle.depot_c.specs.Coded.{CalledAs, MadeAs, TestedAs};

// Makes a fresh store.
#[unsafe(no_mangle)]
pub extern "C" fn depot_fresh(store: &mut [u8]) -> u64
    ensures { MadeAs store.old result store.new }
{
    depot_c::depot_fresh(store)
}

// Whether a store is sound: one that was kept in a file, say. It only reads.
#[unsafe(no_mangle)]
pub extern "C" fn depot_test(store: &[u8]) -> u64
    ensures { TestedAs store.now result }
{
    depot_c::depot_test(store)
}

// A frame arrives.
#[unsafe(no_mangle)]
pub extern "C" fn depot_frame(store: &mut [u8], frame: &[u8], out: &mut [u8]) -> u64
    ensures { CalledAs (Event.frame frame.now (length out.old)) store.old out.old result store.new out.new }
{
    depot_c::depot_frame(store, frame, out)
}

// A tag is sighted at a desk.
#[unsafe(no_mangle)]
pub extern "C" fn depot_sighting(store: &mut [u8], desk: u64, uid: u64, mask: u64) -> u64
    ensures { CalledAs (Event.sighting desk uid (octet_of mask)) store.old [] result store.new [] }
{
    depot_c::depot_sighting(store, desk, uid, mask)
}

// A tick of 100 ms passes for all desks.
#[unsafe(no_mangle)]
pub extern "C" fn depot_tick(store: &mut [u8]) -> u64
    ensures { CalledAs Event.tick store.old [] result store.new [] }
{
    depot_c::depot_tick(store)
}
