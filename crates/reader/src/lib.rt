// The reader: the octets of a reply, judged by the request that they should answer.
#![tactic(auto)]

ghost use Rattle.std.specs.Prelude.{◌≡◌};
ghost use Rattle.frame.specs.declared.Way.{Way};
ghost use Rattle.frame.specs.Shape.{frame_with};
ghost use Rattle.frame.specs.Finding.{Finding, verdict_of};
ghost use Rattle.frame.specs.Judged.{judged};
ghost use Rattle.requests.specs.Request.{control_of};
ghost use Rattle.reader.specs.Reader.{told_of, count_right, answers_to, read_as};

use frame::{Advanced, Frame, Kind, Refusal, Standard, Way};
use possible::is_possible;
use requests::{Request, control_of};

// A reply's status, and where its data lie: a place and no slice, since the C interface tells it in numbers.
#[derive(Clone, Copy)]
pub struct Told {
    pub status: u8,
    pub start: usize,
    pub len: usize,
}

// Whether the count that the data of a 0x22 reply begin with is allowed by their length.
#[tactic(auto, unfolding(crate::specs::Reader::count_right))]
fn count_right(control: u8, sent: &[u8]) -> bool
    ensures { result ≡ count_right control sent.now }
{
    control != 0x22
        || sent.is_empty()
        || 2 <= sent.len() && sent.len() == 2 + octets::get16(sent, 0) as usize * table::RECORD
}

// The status, and where the data lie, of a sound frame.
fn told_of(f: Frame, reply: &[u8]) -> Told
    requires { judged Way.Reply reply.now ≡ Finding.found f }
    ensures { result ≡ told_of f reply.now }
{
    Told {
        status: reply[f.start - 1],
        start: f.start,
        len: f.len,
    }
}

// The frame that answers the request from that address, with len octets of data; the constructors of both kinds are named here, a form of
// the paper.
fn reply_to(q: Request, address: u8, len: usize) -> Frame
    ensures { result ≡ frame_with Way.Reply q.kind address (control_of q.ask) len }
{
    let control = control_of(q.ask);
    match q.kind {
        Kind::Standard => Standard::frame(Way::Reply, address, control, len),
        Kind::Advanced => Advanced::frame(Way::Reply, address, control, len),
    }
}

// Whether a sound frame answers the request.
fn answers_to(q: Request, f: Frame, t: Told, reply: &[u8]) -> bool
    requires { (judged Way.Reply reply.now ≡ Finding.found f) × (t ≡ told_of f reply.now) }
    ensures { result ≡ answers_to q f reply.now }
{
    // Tried as one chain of &&: no proof closed where it returns what is_possible told.
    let wanted = reply_to(q, f.address, f.len);
    if f.kind != wanted.kind {
        return false;
    }
    if f.address as u64 != q.desk {
        return false;
    }
    if f.control != wanted.control {
        return false;
    }
    if !is_possible(q, t.status, f.len) {
        return false;
    }
    count_right(f.control, &reply[f.start..f.start + f.len])
}

// Reads the reply to a request.
pub fn read(q: Request, reply: &[u8]) -> Result<Told, Refusal>
    ensures { verdict_of result ≡ read_as q reply.now }
{
    let f = frame::judge(Way::Reply, reply)?;
    let t = told_of(f, reply);
    if !answers_to(q, f, t, reply) {
        return Err(Refusal::NotTheReply);
    }
    Ok(t)
}
