// A desk's answer to a well-formed frame, sealed as a reply at the start of the output.
// Each asks for a sound store: a struct around the store, which workers write to, would owe the clause that its field is still that reference.
#![tactic(auto)]

ghost use Rattle.std.specs.Prelude.{◌≡◌, true, ◌≤◌, ◌<◌, length};
ghost use Rattle.frame.specs.declared.Way.{Way};
ghost use Rattle.frame.specs.Shape.{reply_room};
ghost use Rattle.frame.specs.Finding.{Finding};
ghost use Rattle.frame.specs.Judged.{judged};
ghost use Rattle.table.specs.Entries.{desks};
ghost use Rattle.store.specs.Sound.{sound};
ghost use Rattle.replying.specs.Replied.{Replied};

use frame::Frame;
use keeping::desk_number::DeskNumber;

// The desk that the frame names answers it; how many octets the reply has.
pub fn reply(store: &mut [u8], frame: &[u8], f: Frame, out: &mut [u8]) -> usize
    requires { (sound store.old ≡ true) × (judged Way.Request frame.now ≡ Finding.found f) × (f.address < desks) × (reply_room ≤ length out.old) }
    ensures { Replied frame.now store.old out.old result store.new out.new }
{
    let address = f.address;
    let start = f.start;
    let end = start + f.len;
    let kind = f.kind;
    let r = desk::serve(
        store,
        DeskNumber { number: address },
        kind,
        f.control,
        &frame[start..end],
        out,
    );
    match seal::seal_reply(out, kind, address, f.control, r.status, r.len) {
        Some(n) => n,
        None => 0,
    }
}
