// Octets of a buffer, read and written at a place. Each contract says what was read by `part`, and the whole buffer at exit by `put`.
#![tactic(auto)]

ghost use Rattle.std.specs.Prelude.{◌≡◌, ◌+◌, ◌≤◌, length};
ghost use Rattle.octets.specs.Parts.{part, put, alike};
ghost use Rattle.octets.specs.Numbers.{number, octets, u16_at};

// Two octets as a number, most significant first. A u16 and no `number::<2>`, which each of its callers would have to narrow by a proof.
pub fn get16(s: &[u8], at: usize) -> u16
    requires { at + 2 ≤ length s.now }
    ensures { result ≡ u16_at at s.now }
{
    u16::from_be_bytes([s[at], s[at + 1]])
}

// N octets as a number, most significant first.
pub fn number<const N: usize>(s: &[u8], at: usize) -> u64
    requires { (N ≤ 8) × (at + N ≤ length s.now) }
    ensures { result ≡ number (part at N s.now) }
{
    let mut sum = 0;
    for b in &s[at..at + N] {
        sum = sum * 256 + u64::from(*b);
    }
    sum
}

// Whether the octets from at on are those of src: the slices' ==, with a promise by `alike`.
pub fn same(s: &[u8], at: usize, src: &[u8]) -> bool
    requires { at + length src.now ≤ length s.now }
    ensures { result ≡ alike (part at (length src.now) s.now) src.now }
{
    &s[at..at + src.len()] == src
}

// Writes src from at on.
#[tactic(auto, using(crate::proofs::Lent::put_over))]
pub fn copy_to(s: &mut [u8], at: usize, src: &[u8])
    requires { at + length src.now ≤ length s.old }
    ensures { s.new ≡ put at src.now s.old }
{
    s[at..at + src.len()].copy_from_slice(src);
}

// Copies n octets to another place of the buffer.
#[tactic(auto, using(crate::proofs::Lent::put_moved))]
pub fn move_within(s: &mut [u8], from: usize, to: usize, n: usize)
    requires { (from + n ≤ length s.old) × (to + n ≤ length s.old) }
    ensures { s.new ≡ put to (part from n s.old) s.old }
{
    s.copy_within(from..from + n, to);
}

// The low N octets of a number, most significant first.
pub fn octets<const N: usize>(v: u64) -> [u8; N]
    requires { N ≤ 8 }
    ensures { result ≡ octets N v }
{
    let mut d = [0; N];
    d.copy_from_slice(&v.to_be_bytes()[8 - N..]);
    d
}

// Writes the low N octets of a number.
pub fn put<const N: usize>(s: &mut [u8], at: usize, v: u64)
    requires { (N ≤ 8) × (at + N ≤ length s.old) }
    ensures { s.new ≡ put at (octets N v) s.old }
{
    copy_to(s, at, &octets::<N>(v));
}
