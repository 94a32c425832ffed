// The commands at one desk of a sound store: its answer to a control byte and data, in the order of tests: known, data length, login, the command's own rule.
// Each asks for a sound store, and for room for a reply, and hands store, frame kind, data and output on by themselves: a struct around what
// is lent would owe the clauses that its fields are still those references.
#![tactic(auto)]

ghost use Rattle.std.specs.Prelude.{◌≡◌, true, not, ◌&&◌, ◌≤◌, length, Some};
ghost use Rattle.frame.specs.Shape.{reply_room};
ghost use Rattle.rules.specs.Control.{terms_of};
ghost use Rattle.rules.specs.Command.{obey, answered};
ghost use Rattle.store.specs.Sound.{sound};
ghost use Rattle.keeping.specs.Kept.{kept};
ghost use Rattle.records.specs.Obeyed.{Obeyed};

use dispatch::dispatch;
use effects::{Reply, plain};
use frame::Kind;
use keeping::desk_number::DeskNumber;
use rules::control::Terms;

// Whether the login that a command needs is missing.
fn barred(s: &[u8], d: DeskNumber, login: bool) -> bool
    requires { sound s.now ≡ true }
    ensures { result ≡ (login && not (kept d.number s.now).logged_in) }
{
    if !login {
        return false;
    }
    !keeping::marks_of(s, d).logged_in
}

// A command that is known, by its terms: data length, login, then its own rule.
fn obey_terms(
    s: &mut [u8],
    d: DeskNumber,
    kind: Kind,
    t: Terms,
    body: &[u8],
    out: &mut [u8],
) -> Reply
    requires { (sound s.old ≡ true) × (t ≡ terms_of t.command) × (reply_room ≤ length out.old) }
    ensures { Obeyed d.number kind (obey (Some t) kind (kept d.number s.old) body.now) result s.old s.new out.old out.new }
{
    if body.len() != t.size {
        return plain(0x81);
    }
    if barred(s, d, t.login) {
        return plain(0x13);
    }
    let command = t.command;
    dispatch(s, d, kind, command, body, out)
}

pub fn serve(
    s: &mut [u8],
    d: DeskNumber,
    kind: Kind,
    control: u8,
    body: &[u8],
    out: &mut [u8],
) -> Reply
    requires { (sound s.old ≡ true) × (reply_room ≤ length out.old) }
    ensures { Obeyed d.number kind (answered kind (kept d.number s.old) control body.now) result s.old s.new out.old out.new }
{
    match control::decide(control) {
        None => plain(0x80),
        Some(t) => obey_terms(s, d, kind, t, body, out),
    }
}
