// What the calls of box and host side for C share: the number of an answer, in the range of its kind, of a sighting and of what was
// written (of an answer of the box: depot_c; of the reader: host_c), and a number that C passes for an octet.
#![tactic(auto)]

ghost use Rattle.std.specs.Prelude.{◌≡◌, ◌<◌, ◌^◌};
ghost use Rattle.codes.specs.Codes.{octet_of, seen_code, written_code};

use frame::Refusal;
use rules::Seen;

// An answer is a number, and so are the kinds of answers: the C interface passes numbers.
const RECORDED: u64 = 64;

const LOST: u64 = 65;

const IGNORED: u64 = 1 << 16;

pub const WRITTEN: u64 = 1 << 63;

// A number that is to be one octet: 0, which is no mask and no command, for one that is not.
// No Option: C passes any number, and the promises of depot_sighting and request_of say what 0 does there.
#[tactic(auto, unfolding(crate::specs::Codes::octet_of))]
pub fn octet_of(n: u64) -> u8
    ensures { result ≡ octet_of n }
{
    if n < 256 { n as u8 } else { 0 }
}

// Of a sighting.
pub fn seen_code(w: Seen) -> u64
    ensures { result ≡ seen_code w }
{
    match w {
        Seen::Ignored(left) => IGNORED + left as u64,
        Seen::Lost => LOST,
        Seen::Recorded => RECORDED,
    }
}

// Of the maker and the line writer.
pub fn written_code(w: Result<usize, Refusal>) -> u64
    requires { written_code w < 2 ^ 64 }
    ensures { result ≡ written_code w }
{
    match w {
        Err(r) => r.number() as u64,
        Ok(n) => WRITTEN + n as u64,
    }
}
