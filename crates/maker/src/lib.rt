// The maker: a request becomes a frame at the start of a lent output.
#![tactic(auto)]

ghost use Rattle.std.specs.Prelude.{◌≡◌, true, ◌<◌, length};
ghost use Rattle.frame.specs.declared.Way.{Way};
ghost use Rattle.frame.specs.Shape.{frame_with};
ghost use Rattle.seal.specs.Buffer.{fits_in};
ghost use Rattle.table.specs.Entries.{desks};
ghost use Rattle.requests.specs.Request.{control_of, data_for, in_range};
ghost use Rattle.maker.specs.Maker.{Requested};

use bodies::put_data;
use frame::{Advanced, Frame, Kind, Refusal, Standard, Way};
use requests::range::in_range;
use requests::{Request, terms_of};
use ruling::no_desk;

// The frame of the request, with len octets of data; the constructors of both kinds are named here, a form of the paper.
fn frame_of(q: Request, control: u8, len: usize) -> Frame
    requires { q.desk < desks }
    ensures { result ≡ frame_with Way.Request q.kind q.desk control len }
{
    let address = q.desk as u8;
    match q.kind {
        Kind::Standard => Standard::frame(Way::Request, address, control, len),
        Kind::Advanced => Advanced::frame(Way::Request, address, control, len),
    }
}

// Makes the frame where it is known to fit.
fn put_frame(q: Request, out: &mut [u8], control: u8, len: usize) -> Result<usize, Refusal>
    requires { (q.desk < desks) × (in_range q ≡ true) × (len ≡ length (data_for q)) × (control ≡ control_of q.ask) × (fits_in Way.Request q.kind len (length out.old) ≡ true) }
    ensures { Requested q out.old result out.new }
{
    let f = frame_of(q, control, len);
    put_data(&mut out[f.start..], q.ask, q.bytes);
    seal::seal_request(out, f.kind, f.address, f.control, f.len).ok_or(Refusal::NoRoom)
}

// Makes a request: the frame stands at the start of the output, and the octets after it stay.
pub fn make(q: Request, out: &mut [u8]) -> Result<usize, Refusal>
    ensures { Requested q out.old result out.new }
{
    if no_desk(q.desk) {
        return Err(Refusal::NoDesk);
    }
    if !in_range(q) {
        return Err(Refusal::OutOfRange);
    }
    let t = terms_of(q.ask);
    if !seal::has_room(Way::Request, q.kind, t.size, out.len()) {
        return Err(Refusal::NoRoom);
    }
    put_frame(q, out, t.control, t.size)
}
