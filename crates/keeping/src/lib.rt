// What a sound store keeps for a desk in its row, which is read, or lent. What was done is said by the desk that the store then says.
// Each asks for a sound store: a struct around the store, which workers write to, would owe the clause that its field is still that reference.
#![tactic(auto)]

ghost use Rattle.std.specs.Prelude.{◌≡◌, true, ◌+◌, ◌≤◌, length};
ghost use Rattle.locks.specs.Locks.{found_in};
ghost use Rattle.rules.specs.Legal.{desk_legal};
ghost use Rattle.store.specs.Layout.{row_width, row_at};
ghost use Rattle.store.specs.Sound.{sound};
ghost use Rattle.doings.specs.Doing.{done_by};
ghost use Rattle.keeping.specs.Kept.{kept, Says, marks_of};

pub mod desk_number;

use desk_number::DeskNumber;
use doings::Doing;
use timer::Timer;

// The small numbers of a desk.
#[derive(Clone, Copy)]
pub struct Marks {
    pub logged_in: bool,
    pub overflow: bool,
    pub due: u8,
    pub start: u8,
}

// Where the row of the desk begins: it lies in the store.
pub fn row_at(s: &[u8], d: DeskNumber) -> usize
    requires { sound s.now ≡ true }
    ensures { (result ≡ row_at d.number s.now) × (result + row_width ≤ length s.now) }
{
    store::row_at(s, d.number as usize)
}

pub fn marks_of(s: &[u8], d: DeskNumber) -> Marks
    requires { sound s.now ≡ true }
    ensures { result ≡ marks_of (kept d.number s.now) }
{
    let at = row_at(s, d);
    Marks {
        logged_in: s[at + store::LOGIN] == 1,
        overflow: s[at + store::MARK] == 1,
        due: s[at + store::DUE],
        start: s[at + store::TAB_START],
    }
}

pub fn timer_of(s: &[u8], d: DeskNumber) -> Timer
    requires { sound s.now ≡ true }
    ensures { result ≡ (kept d.number s.now).timer }
{
    timer::read(s, row_at(s, d) + store::TIMER)
}

// The lock of a UID at the desk: its place, and the ticks that it has left.
pub fn lock_of(s: &[u8], d: DeskNumber, uid: u64) -> Option<(usize, u16)>
    requires { sound s.now ≡ true }
    ensures { result ≡ found_in uid (kept d.number s.now).locks }
{
    let row = row_at(s, d);
    let n = s[row + store::LOCKED] as usize;
    lockarea::lookup_in(&s[row + store::LOCKS..row + store::ROW], n, uid)
}

// Does this to the row of the desk, which is found and lent here.
pub fn act(s: &mut [u8], d: DeskNumber, what: Doing)
    requires { (sound s.old ≡ true) × (desk_legal (done_by what (kept d.number s.old)) ≡ true) }
    ensures { Says d.number (done_by what (kept d.number s.old)) s.old s.new }
{
    let at = row_at(s, d);
    doings::act(&mut s[at..at + store::ROW], what);
}
