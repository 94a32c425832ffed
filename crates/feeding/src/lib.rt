// The listing's lines: a line is fed octet by octet, however long it is.
#![tactic(auto)]

ghost use Rattle.feeding.specs.Feeding.{Starts, Feeds};

use digits::read::is_hex;
use frame::Advanced;

// So many octets of a line are enough, however long it is.
pub const HELD: usize = 2 * (Advanced::LONGEST + 1);

// What is known of a line beside the octets that are held: how many those are, whether there were more than there is room for,
// whether their number is odd, and whether one was no hex digit.
#[derive(Clone, Copy)]
pub struct Begun {
    pub held: usize,
    pub over: bool,
    pub odd: bool,
    pub bad: bool,
}

// Before the first octet of a line.
pub fn start() -> Begun
    ensures { Starts result }
{
    Begun {
        held: 0,
        over: false,
        odd: false,
        bad: false,
    }
}

// Feeds the next octet of a line.
pub fn feed(state: Begun, held: &mut [u8], c: u8) -> Begun
    ensures { Feeds c state held.old result held.new }
{
    let at = state.held;
    let odd = !state.odd;
    let bad = state.bad || !is_hex(c);
    if at < held.len() {
        held[at] = c;
        Begun {
            held: at + 1,
            odd,
            bad,
            ..state
        }
    } else {
        Begun {
            over: true,
            odd,
            bad,
            ..state
        }
    }
}
