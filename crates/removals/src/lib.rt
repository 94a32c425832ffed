// The commands that take a desk's records away: 0x32 those last sent, 0x33 all, and 0x64, which restarts the desk too.
// Each asks for a sound store: a struct around the store, which workers write to, would owe the clause that its field is still that reference.
#![tactic(auto)]

ghost use Rattle.std.specs.Prelude.{◌≡◌, true};
ghost use Rattle.rules.specs.declared.control.TableCommand.{TableCommand};
ghost use Rattle.store.specs.Sound.{sound};
ghost use Rattle.keeping.specs.Kept.{kept};
ghost use Rattle.removals.specs.Removed.{Quiet, Empties, Emptied};

use doings::Doing;
use effects::{Reply, plain};
use keeping::desk_number::DeskNumber;

// 0x32: those last sent go, once.
pub fn remove(s: &mut [u8], d: DeskNumber) -> Reply
    requires { sound s.old ≡ true }
    ensures { Quiet TableCommand.RemoveRecords d.number result s.old s.new }
{
    let m = keeping::marks_of(s, d);
    let start = (m.start as u16 + m.due as u16) % table::SHARE;
    keeping::act(s, d, Doing::Close(start as u8));
    holding::remove_first(s, d, m.due as usize);
    plain(0)
}

// A doing that empties all but the records, and then these: a desk holds no more than its share.
fn empty(s: &mut [u8], d: DeskNumber, what: Doing) -> Reply
    requires { (sound s.old ≡ true) × Empties what (kept d.number s.old) }
    ensures { Emptied what d.number result s.old s.new }
{
    keeping::act(s, d, what);
    holding::remove_first(s, d, table::SHARE as usize);
    plain(0)
}

// 0x33: no records, no locks.
pub fn clear(s: &mut [u8], d: DeskNumber) -> Reply
    requires { sound s.old ≡ true }
    ensures { Quiet TableCommand.ClearRecords d.number result s.old s.new }
{
    empty(s, d, Doing::Clear)
}

// 0x64: as 0x63; also no records, and timer 0.
pub fn system_reset(s: &mut [u8], d: DeskNumber) -> Reply
    requires { sound s.old ≡ true }
    ensures { Quiet TableCommand.SystemReset d.number result s.old s.new }
{
    empty(s, d, Doing::Restart)
}
