// The data of a request, written into a lent part of an output.
#![tactic(auto)]

ghost use Rattle.std.specs.Prelude.{◌≡◌, true, ◌+◌, ◌≤◌, ◌<◌, [], ◌∷◌, length};
ghost use Rattle.octets.specs.Parts.{put};
ghost use Rattle.octets.specs.Numbers.{octets};
ghost use Rattle.rules.specs.Config.{block_size};
ghost use Rattle.requests.specs.Request.{fields_hold, body_of};

use requests::Ask;
use rules::BLOCK;

// Writes one octet.
fn put_octet(out: &mut [u8], n: u64)
    requires { (n < 256) × (1 ≤ length out.old) }
    ensures { out.new ≡ put 0 (n ∷ []) out.old }
{
    out[0] = n as u8;
}

// Writes CFG-ADR and the bytes of a block.
fn put_block(out: &mut [u8], adr: u64, bytes: [u8; BLOCK])
    requires { (adr < 256) × (1 + block_size ≤ length out.old) }
    ensures { out.new ≡ put 0 (adr ∷ bytes) out.old }
{
    out[0] = adr as u8;
    octets::copy_to(out, 1, &bytes);
}

// Writes hour, minute and milliseconds.
fn put_timer(out: &mut [u8], h: u64, m: u64, ms: u64)
    requires { (h < 256) × (m < 256) × (ms < 65536) × (4 ≤ length out.old) }
    ensures { out.new ≡ put 0 (h ∷ m ∷ octets 2 ms) out.old }
{
    out[0] = h as u8;
    out[1] = m as u8;
    octets::put::<2>(out, 2, ms);
}

// Writes the data of a request.
// One arm a command, in the paper's order: the wire has these commands alone, and a match over the enum is checked to be whole.
pub fn put_data(out: &mut [u8], ask: Ask, bytes: [u8; BLOCK])
    requires { (fields_hold ask ≡ true) × (length (body_of ask bytes) ≤ length out.old) }
    ensures { out.new ≡ put 0 (body_of ask bytes) out.old }
{
    match ask {
        Ask::Baud(n) => put_octet(out, n),
        Ask::Reset => (),
        Ask::SystemReset => (),
        Ask::ReadBlock(adr) => put_octet(out, adr),
        Ask::WriteBlock(adr) => put_block(out, adr, bytes),
        Ask::SaveBlocks(adr) => put_octet(out, adr),
        Ask::RestoreBlocks(adr) => put_octet(out, adr),
        Ask::SetTimer(h, m, ms) => put_timer(out, h, m, ms),
        Ask::SendTimer => (),
        Ask::Login(password) => octets::put::<4>(out, 0, password),
        Ask::ReadRecords(k) => octets::put::<2>(out, 0, k),
        Ask::SendTable => (),
        Ask::RemoveRecords => (),
        Ask::ClearRecords => (),
    }
}
