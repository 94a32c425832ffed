// The locks of one desk as octets in the store: read and written, ticked, looked up, added, and tested.
// Where no lock stands no array is laid out: on an empty store that was most of a call.
#![tactic(auto)]

ghost use Rattle.std.specs.Prelude.{◌≡◌, ◌+◌, ◌-◌, ◌*◌, ◌≤◌, length};
ghost use Rattle.octets.specs.Parts.{part, put};
ghost use Rattle.locks.specs.Locks.{most_locks, swept_of, found_in, added, locks_legal};
ghost use Rattle.lockarea.specs.Area.{lock_width, lock_from, lock_octets, locks_in, locks_octets};

use locks::{Lock, MOST};

// The octets of a lock.
pub const WIDTH: usize = 10;

// Where the last of them begins.
const LAST: usize = WIDTH * (MOST - 1);

// What stands in an array before locks are read into it.
const NO_LOCK: Lock = Lock { uid: 0, left: 0 };

// One lock is read from the store.
fn read_lock(p: &[u8], at: usize) -> Lock
    requires { at + lock_width ≤ length p.now }
    ensures { result ≡ lock_from (part at lock_width p.now) }
{
    Lock {
        uid: octets::number::<8>(p, at),
        left: octets::get16(p, at + 8),
    }
}

// One lock is written to the store.
fn write_lock(p: &mut [u8], at: usize, l: Lock)
    requires { at + lock_width ≤ length p.old }
    ensures { p.new ≡ put at (lock_octets l) p.old }
{
    octets::put::<8>(p, at, l.uid);
    octets::put::<2>(p, at + 8, u64::from(l.left));
}

// The first locks of the store, as many as there are places for.
pub fn load(p: &[u8], locks: &mut [Lock])
    requires { lock_width * length locks.old ≤ length p.now }
    ensures { locks.new ≡ locks_in (length locks.old) p.now }
{
    for i in 0..locks.len() {
        locks[i] = read_lock(p, WIDTH * i);
    }
}

// The locks go to the store.
pub fn save(p: &mut [u8], locks: &[Lock])
    requires { lock_width * length locks.now ≤ length p.old }
    ensures { p.new ≡ put 0 (locks_octets locks.now) p.old }
{
    for (i, l) in locks.iter().enumerate() {
        write_lock(p, WIDTH * i, *l);
    }
}

// Here and below n stands beside the octets: it is an octet of the row, kept apart from the locks, and what lies behind them is free room.

// A tick of the first n locks of the store. Gives how many are left.
pub fn tick(p: &mut [u8], n: usize) -> usize
    requires { (n ≤ most_locks) × (lock_width * n ≤ length p.old) }
    ensures { (result ≡ length (swept_of (locks_in n p.old))) × (p.new ≡ put 0 (locks_octets (swept_of (locks_in n p.old))) p.old) }
{
    if n == 0 {
        return 0;
    }
    let mut room = [NO_LOCK; MOST];
    let locks = &mut room[..n];
    load(p, locks);
    let left = locks::sweep(locks);
    save(p, &locks[..left]);
    left
}

// The first of the first n locks of the store with that UID.
pub fn lookup_in(p: &[u8], n: usize, uid: u64) -> Option<(usize, u16)>
    requires { (n ≤ most_locks) × (lock_width * n ≤ length p.now) }
    ensures { result ≡ found_in uid (locks_in n p.now) }
{
    if n == 0 {
        return None;
    }
    let mut room = [NO_LOCK; MOST];
    let locks = &mut room[..n];
    load(p, locks);
    locks::find(locks, uid)
}

// The locks behind the first move down by one.
fn drop_first(p: &mut [u8])
    requires { lock_width * most_locks ≤ length p.old }
    ensures { p.new ≡ put 0 (part lock_width (lock_width * (most_locks - 1)) p.old) p.old }
{
    octets::move_within(p, WIDTH, 0, LAST);
}

// A new lock of `valid` ticks behind the first n of the store; where 64 stand, the oldest gives way. Gives how many stand.
pub fn add(p: &mut [u8], n: usize, uid: u64, valid: u16) -> usize
    requires { (n ≤ most_locks) × (lock_width * most_locks ≤ length p.old) }
    ensures { (result ≡ length (added uid valid (locks_in n p.old))) × (p.new ≡ put 0 (locks_octets (added uid valid (locks_in n p.old))) p.old) }
{
    if valid == 0 {
        return n;
    }
    let l = Lock { uid, left: valid };
    if n < MOST {
        write_lock(p, WIDTH * n, l);
        return n + 1;
    }
    drop_first(p);
    write_lock(p, LAST, l);
    n
}

// Whether the first n locks of the store are a sound list, with `valid` for VALID-TIME.
pub fn legal(p: &[u8], n: usize, valid: u16) -> bool
    requires { (n ≤ most_locks) × (lock_width * n ≤ length p.now) }
    ensures { result ≡ locks_legal valid (locks_in n p.now) }
{
    if n == 0 {
        return true;
    }
    let mut room = [NO_LOCK; MOST];
    let locks = &mut room[..n];
    load(p, locks);
    locklegal::each_legal(locks, valid) && locklegal::all_differ(locks)
}
