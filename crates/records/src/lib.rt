// The commands that tell of a desk's records: 0x22 sends the oldest, 0x31 the numbers of its table.
// Each asks for a sound store, and for room for a reply, and hands store, frame kind, data and output on by themselves: a struct around what
// is lent would owe the clauses that its fields are still those references.
#![tactic(auto)]

ghost use Rattle.std.specs.Prelude.{◌≡◌, true, Bool, cond, ◌≤◌, length, ltb};
ghost use Rattle.frame.specs.Shape.{reply_room};
ghost use Rattle.rules.specs.declared.control.Command.{Command};
ghost use Rattle.rules.specs.declared.control.TableCommand.{TableCommand};
ghost use Rattle.store.specs.Sound.{sound};
ghost use Rattle.keeping.specs.Kept.{kept};
ghost use Rattle.records.specs.Obeyed.{ruled, sends, Obeyed, Sent};

use doings::Doing;
use effects::{Reply, plain};
use frame::{Kind, Way};
use keeping::desk_number::DeskNumber;
use ruling::most_sent;

// 0x93 if the mark is set; else 0x94 if fewer went than were there to send; else 0x00.
fn status_of(mark: bool, goes: usize, wanted: usize) -> u8
    ensures { result ≡ cond mark 0x93 (cond (ltb goes wanted) 0x94 0x00) }
{
    if mark {
        return 0x93;
    }
    if goes < wanted {
        return 0x94;
    }
    0
}

// Of so many records that are wanted and held, those that fit in a reply go to the output.
fn send(s: &mut [u8], d: DeskNumber, kind: Kind, wanted: usize, out: &mut [u8]) -> Reply
    requires { (sound s.old ≡ true) × (wanted ≤ length (kept d.number s.old).table.held) × (reply_room ≤ length out.old) }
    ensures { Obeyed d.number kind (sends kind wanted (kept d.number s.old)) result s.old s.new out.old out.new }
{
    let n = wanted.min(most_sent(kind));
    let way = Way::Reply;
    holding::tell_records(s, d, n, out, way.data_at(kind));
    let status = status_of(keeping::marks_of(s, d).overflow, n, wanted);
    keeping::act(s, d, Doing::Due(n as u8));
    Reply {
        status,
        len: 2 + table::RECORD * n,
    }
}

// 0x22: the oldest records, as many as are asked for, held and fit.
pub fn read(s: &mut [u8], d: DeskNumber, kind: Kind, body: &[u8], out: &mut [u8]) -> Reply
    requires { (sound s.old ≡ true) × (length body.now ≡ 2) × (reply_room ≤ length out.old) }
    ensures { Obeyed d.number kind (ruled (Command.OnTable TableCommand.ReadRecords) kind (kept d.number s.old) body.now) result s.old s.new out.old out.new }
{
    let asked = octets::get16(body, 0) as usize;
    if asked == 0 {
        return plain(0x11);
    }
    let there = holding::held(s, d);
    if there == 0 {
        return plain(0x92);
    }
    send(s, d, kind, asked.min(there), out)
}

// 0x31: TAB-SIZE, TAB-START, TAB-LEN.
pub fn send_table(s: &[u8], d: DeskNumber, kind: Kind, out: &mut [u8]) -> Reply
    requires { (sound s.now ≡ true) × (reply_room ≤ length out.old) }
    ensures { Sent TableCommand.SendTable d.number kind result s.now out.old out.new }
{
    let way = Way::Reply;
    let to = way.data_at(kind);
    octets::put::<2>(out, to, table::SHARE as u64);
    octets::put::<2>(out, to + 2, keeping::marks_of(s, d).start as u64);
    octets::put::<2>(out, to + 4, holding::held(s, d) as u64);
    Reply { status: 0, len: 6 }
}
