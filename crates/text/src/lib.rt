// The words of the listing: the marks by which a line is told, and what is printed for an answer.
#![tactic(auto)]

ghost use Rattle.std.specs.Prelude.{◌≡◌};
ghost use Rattle.text.specs.Listing.{is_tick, is_sighting};

use digits::read::{all_hex, between};
use frame::Advanced;

pub mod print;

// The longest line that is printed: the digits of the longest reply, and LF.
pub const LONGEST: usize = 2 * Advanced::LONGEST + 1;

#[tactic(auto, unfolding(crate::specs::Listing::is_tick))]
pub fn is_tick(s: &[u8]) -> bool
    ensures { result ≡ is_tick s.now }
{
    s.len() == 1 && s[0] == b't'
}

#[tactic(auto, unfolding(crate::specs::Listing::is_sighting))]
pub fn is_sighting(s: &[u8]) -> bool
    ensures { result ≡ is_sighting s.now }
{
    s.len() == 20 && s[0] == b's' && between(b'0', b'9', s[1]) && all_hex(&s[2..])
}
