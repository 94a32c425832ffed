// What is printed for an answer, written at the start of an output that has room for it. Each gives how many octets, and asks for room
// in the lent output: a struct around it would owe the clause that its field is still that reference.
ghost use Rattle.std.specs.Prelude.{◌≡◌, ◌+◌, ◌≤◌, length};
ghost use Rattle.frame.specs.Refusal.{number_of};
ghost use Rattle.octets.specs.Parts.{put};
ghost use Rattle.text.specs.Listing.{word_room, Printed, printed, number_line, refused_line, hex_line, seen_line, not_read_line};

use digits::decimal::put_decimal;
use digits::hex::put_hex;
use events::Answer;
use frame::Refusal;
use rules::Seen;

// Writes a text.
fn say(text: &[u8], out: &mut [u8]) -> usize
    requires { length text.now ≤ length out.old }
    ensures { Printed text.now out.old result out.new }
{
    octets::copy_to(out, 0, text);
    text.len()
}

// Writes octets as a line of hex digits.
fn say_hex(s: &[u8], out: &mut [u8]) -> usize
    requires { length (hex_line s.now) ≤ length out.old }
    ensures { Printed (hex_line s.now) out.old result out.new }
{
    put_hex(s, out, 0);
    let end = 2 * s.len();
    out[end] = b'\n';
    end + 1
}

// Writes a word and a number in decimal as a line.
fn say_number(word: &[u8], n: u16, out: &mut [u8]) -> usize
    requires { length word.now + 6 ≤ length out.old }
    ensures { Printed (number_line word.now n) out.old result out.new }
{
    let at = word.len();
    octets::copy_to(out, 0, word);
    let end = at + put_decimal(n, out, at);
    out[end] = b'\n';
    end + 1
}

#[tactic(auto, unfolding(crate::specs::Listing::refused_line))]
fn say_refused(why: Refusal, out: &mut [u8]) -> usize
    requires { word_room ≤ length out.old }
    ensures { Printed (refused_line (number_of why)) out.old result out.new }
{
    say_number(b"refused ", why.number() as u16, out)
}

#[tactic(auto, unfolding(crate::specs::Listing::seen_line))]
fn say_seen(seen: Seen, out: &mut [u8]) -> usize
    requires { word_room ≤ length out.old }
    ensures { Printed (seen_line seen) out.old result out.new }
{
    match seen {
        Seen::Ignored(left) => say_number(b"ignored ", left, out),
        Seen::Lost => say(b"lost\n", out),
        Seen::Recorded => say(b"recorded\n", out),
    }
}

#[tactic(auto, unfolding(crate::specs::Listing::not_read_line))]
pub fn not_read(out: &mut [u8]) -> usize
    requires { word_room ≤ length out.old }
    ensures { Printed not_read_line out.old result out.new }
{
    say(b"not read\n", out)
}

// Writes what is printed for an answer of the box, with the reply buffer after it.
#[tactic(auto, unfolding(crate::specs::Listing::printed, crate::specs::Listing::ok_line))]
pub fn show(a: Result<Answer, Refusal>, reply: &[u8], out: &mut [u8]) -> usize
    requires { (word_room ≤ length out.old) × (length (printed a reply.now) ≤ length out.old) }
    ensures { Printed (printed a reply.now) out.old result out.new }
{
    match a {
        Err(why) => say_refused(why, out),
        Ok(Answer::Reply(n)) => {
            let m = n.min(reply.len());
            say_hex(&reply[..m], out)
        }
        Ok(Answer::Sighted(seen)) => say_seen(seen, out),
        Ok(Answer::Done) => say(b"ok\n", out),
    }
}
