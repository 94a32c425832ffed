// Numbers in decimal.
ghost use Rattle.std.specs.Prelude.{◌≡◌, ◌+◌, ◌≤◌, length};
ghost use Rattle.octets.specs.Parts.{put};
ghost use Rattle.digits.specs.Digits.{places_of, decimal_of};

// How many decimal digits a number has.
#[tactic(auto, unfolding(crate::specs::Digits::places_of))]
fn places(n: u16) -> usize
    ensures { (result ≡ places_of n) × (result ≤ 5) }
{
    match n {
        0..10 => 1,
        10..100 => 2,
        100..1000 => 3,
        1000..10000 => 4,
        _ => 5,
    }
}

// Writes a number in decimal from a place on, beginning with its last digit, and says how many digits it has.
pub fn put_decimal(n: u16, out: &mut [u8], at: usize) -> usize
    requires { at + 5 ≤ length out.old }
    ensures { (result ≤ 5) × (result ≡ length (decimal_of n)) × (out.new ≡ put at (decimal_of n) out.old) }
{
    let k = places(n);
    let mut left = n;
    for i in (0..k).rev() {
        out[at + i] = b'0' + (left % 10) as u8;
        left /= 10;
    }
    k
}
