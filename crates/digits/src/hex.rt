// Octets as capital hex digits.
ghost use Rattle.std.specs.Prelude.{◌≡◌, ◌+◌, ◌*◌, ◌≤◌, ◌<◌, length};
ghost use Rattle.octets.specs.Parts.{put};
ghost use Rattle.rules.specs.Line.{digit, hex};

// A capital hex digit; the library's `from_digit` gives small ones.
#[tactic(auto, unfolding(rules::specs::Line::digit))]
fn digit_of(n: u8) -> u8
    requires { n < 16 }
    ensures { result ≡ digit n }
{
    if n < 10 { 0x30 + n } else { 0x37 + n }
}

// Writes octets as hex digits from a place on.
pub fn put_hex(s: &[u8], out: &mut [u8], at: usize)
    requires { at + 2 * length s.now ≤ length out.old }
    ensures { out.new ≡ put at (hex s.now) out.old }
{
    for i in 0..s.len() {
        out[at + 2 * i] = digit_of(s[i] / 16);
        out[at + 2 * i + 1] = digit_of(s[i] % 16);
    }
}
