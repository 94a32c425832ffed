// How a frame is made in a lent buffer, around the data that stand there.
#![tactic(auto)]

ghost use Rattle.std.specs.Prelude.{◌≡◌, true, ◌≤◌, ◌+◌, length};
ghost use Rattle.octets.specs.Parts.{part, put};
ghost use Rattle.frame.specs.declared.Kind.{Kind};
ghost use Rattle.frame.specs.declared.Way.{Way};
ghost use Rattle.frame.specs.Shape.{shape_of, overhead};
ghost use Rattle.frame.specs.Sealed.{lead_of, head_of, check_of, frame_of};
ghost use Rattle.seal.specs.Buffer.{fits_in, sealed_as, data_in, request_in, reply_in};

use frame::{Advanced, Kind, Way};

// Whether a frame with len octets of data is no longer than its kind allows, nor than the room.
pub fn has_room(way: Way, kind: Kind, len: usize, room: usize) -> bool
    ensures { result ≡ fits_in way kind len room }
{
    let longest = kind.longest();
    if longest < len {
        return false;
    }
    let n = way.overhead(kind) + len;
    if longest < n {
        return false;
    }
    n <= room
}

fn write_standard_lead(out: &mut [u8], n: usize)
    requires { (n ≤ (shape_of Kind.Standard).longest) × ((shape_of Kind.Standard).lead ≤ length out.old) }
    ensures { out.new ≡ put 0 (lead_of Kind.Standard n) out.old }
{
    out[0] = n as u8;
}

fn write_advanced_lead(out: &mut [u8], n: usize)
    requires { (n ≤ (shape_of Kind.Advanced).longest) × ((shape_of Kind.Advanced).lead ≤ length out.old) }
    ensures { out.new ≡ put 0 (lead_of Kind.Advanced n) out.old }
{
    out[0] = Advanced::FIRST;
    octets::put::<2>(out, 1, n as u64);
}

// The octets before COM-ADR of a frame of n octets.
fn write_lead(out: &mut [u8], kind: Kind, n: usize)
    requires { (n ≤ (shape_of kind).longest) × ((shape_of kind).lead ≤ length out.old) }
    ensures { out.new ≡ put 0 (lead_of kind n) out.old }
{
    match kind {
        Kind::Standard => write_standard_lead(out, n),
        Kind::Advanced => write_advanced_lead(out, n),
    }
}

// Those, COM-ADR and the control octet.
fn write_head(out: &mut [u8], kind: Kind, n: usize, address: u8, control: u8)
    requires { (n ≤ (shape_of kind).longest) × ((shape_of kind).lead + 2 ≤ length out.old) }
    ensures { out.new ≡ put 0 (head_of kind n address control) out.old }
{
    write_lead(out, kind, n);
    let lead = kind.lead();
    out[lead] = address;
    out[lead + 1] = control;
}

// The checksum of the first n octets, after them.
fn write_check(out: &mut [u8], n: usize)
    requires { n + 2 ≤ length out.old }
    ensures { out.new ≡ put n (check_of (part 0 n out.old)) out.old }
{
    let c = crc::of(&out[..n]);
    out[n] = (c % 256) as u8;
    out[n + 1] = (c / 256) as u8;
}

// A frame around the len octets that stand between its control octet and its CRC.
fn close(out: &mut [u8], kind: Kind, address: u8, control: u8, len: usize) -> usize
    requires { fits_in Way.Request kind len (length out.old) ≡ true }
    ensures value { result ≡ overhead Way.Request kind + len }
    ensures out_after { out.new ≡ put 0 (frame_of kind address control (data_in Way.Request kind len out.old)) out.old }
{
    let n = kind.overhead() + len;
    write_head(out, kind, n, address, control);
    write_check(out, n - 2);
    n
}

// Makes a request around the len octets of data that stand at their place in the buffer, and says how many octets it has; where none has
// room, none is made.
pub fn seal_request(
    out: &mut [u8],
    kind: Kind,
    address: u8,
    control: u8,
    len: usize,
) -> Option<usize>
    ensures value { result ≡ sealed_as Way.Request kind len out.old }
    ensures out_after { out.new ≡ request_in kind address control len out.old }
{
    if !has_room(Way::Request, kind, len, out.len()) {
        return None;
    }
    Some(close(out, kind, address, control, len))
}

// The same for a reply, with its status octet. A function of its own: a request has no status, and what each leaves is a definition of its
// own (`request_in`, `reply_in`).
pub fn seal_reply(
    out: &mut [u8],
    kind: Kind,
    address: u8,
    control: u8,
    status: u8,
    len: usize,
) -> Option<usize>
    ensures value { result ≡ sealed_as Way.Reply kind len out.old }
    ensures out_after { out.new ≡ reply_in kind address control status len out.old }
{
    if !has_room(Way::Reply, kind, len, out.len()) {
        return None;
    }
    let at = kind.lead() + 2;
    out[at] = status;
    Some(close(out, kind, address, control, len + 1))
}
