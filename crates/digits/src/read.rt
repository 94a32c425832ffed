// Hex digits in either case, read.
ghost use Rattle.std.specs.Prelude.{◌≡◌, ◌/◌, ◌<◌, min, length, take};
ghost use Rattle.octets.specs.Parts.{put};
ghost use Rattle.octets.specs.Tests.{all_of};
ghost use Rattle.digits.specs.Digits.{between, is_hex, value_of, octets_of};

#[tactic(auto, unfolding(crate::specs::Digits::between))]
pub fn between(low: u8, high: u8, c: u8) -> bool
    ensures { result ≡ between low high c }
{
    low <= c && c <= high
}

#[tactic(auto, unfolding(crate::specs::Digits::is_hex))]
pub fn is_hex(c: u8) -> bool
    ensures { result ≡ is_hex c }
{
    between(b'0', b'9', c) || between(b'A', b'F', c) || between(b'a', b'f', c)
}

// The number of a hex digit; 0 for what is none, and no Option: the octets that `decode` promises count such a digit as 0.
#[tactic(auto, unfolding(crate::specs::Digits::value_of, crate::specs::Digits::between))]
fn value(c: u8) -> u8
    ensures { (result ≡ value_of c) × (result < 16) }
{
    match c {
        b'0'..=b'9' => c - 0x30,
        b'A'..=b'F' => c - 0x37,
        b'a'..=b'f' => c - 0x57,
        _ => 0,
    }
}

// Whether each octet is a hex digit.
pub fn all_hex(s: &[u8]) -> bool
    ensures { result ≡ all_of is_hex s.now }
{
    s.iter().all(|c| is_hex(*c))
}

// Writes the octets that the digits make two by two, as far as there is room, and says how many those are.
pub fn decode(s: &[u8], to: &mut [u8]) -> usize
    ensures { (result ≡ min (length s.now / 2) (length to.old)) × (to.new ≡ put 0 (take result (octets_of s.now)) to.old) }
{
    let n = (s.len() / 2).min(to.len());
    for i in 0..n {
        to[i] = value(s[2 * i]) * 16 + value(s[2 * i + 1]);
    }
    n
}
