// What each command that concerns a desk's row alone does, once its tests are passed. No store is known here.
// Each asks for a fit row and for room for a reply, in lent buffers:
// a struct around them would owe the clauses that its fields are still those references.
#![tactic(auto)]

ghost use Rattle.std.specs.Prelude.{◌≡◌};

pub mod blocks;
pub mod clock;

// A reply's status, and how many octets of data stand at their place in the output: no slice, since the output is lent on to be sealed.
#[derive(Clone, Copy)]
pub struct Reply {
    pub status: u8,
    pub len: usize,
}

// A reply without data.
pub fn plain(status: u8) -> Reply
    ensures { result ≡ record { status = status; len = 0 } }
{
    Reply { status, len: 0 }
}
