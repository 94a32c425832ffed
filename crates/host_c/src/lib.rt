// The host side's calls for C and Rust: numbers and lent octets go in, a number comes back. A refused call writes nothing.
#![tactic(auto)]

ghost use Rattle.std.specs.Prelude.{◌≡◌, ◌<◌, ◌^◌, [], ◌∷◌};
ghost use Rattle.octets.specs.Tests.{first};
ghost use Rattle.frame.specs.Finding.{finding, verdict_of};
ghost use Rattle.reader.specs.Reader.{read_as};
ghost use Rattle.asking.specs.Numbers.{request_of};
ghost use Rattle.host_c.specs.Coded.{read_code, not_long, LineWrote, LinesWrote, LineAs, LinesAs, FramedAs, BlockAs, TimerAs, SizesAs, RecordAs};

use asking::request_of;
use codes::written_code;
use frame::Refusal;
use reader::Told;
use rules::BLOCK;
use table::RECORD;

const TOLD: u64 = 1 << 32;

// ---- the host side

// Makes a request.
// Here and below a kind and a command by number, and the numbers a, b, c one by one: the C interface passes numbers.
pub fn depot_make(
    kind: u64,
    desk: u64,
    control: u64,
    a: u64,
    b: u64,
    c: u64,
    bytes: &[u8],
    out: &mut [u8],
) -> u64
    ensures { FramedAs (request_of kind desk control a b c bytes.now) out.old result out.new }
{
    let q = request_of(kind, desk, control, a, b, c, bytes);
    written_code(maker::make(q, out))
}

// The number of what the reader found.
fn read_code(a: Result<Told, Refusal>) -> u64
    requires { read_code (verdict_of a) < 2 ^ 64 }
    ensures { result ≡ read_code (verdict_of a) }
{
    match a {
        Err(r) => r.number() as u64,
        Ok(t) => TOLD + t.status as u64 * 16777216 + t.start as u64 * 65536 + t.len as u64,
    }
}

// Reads the reply to a request.
pub fn depot_read(
    kind: u64,
    desk: u64,
    control: u64,
    a: u64,
    b: u64,
    c: u64,
    bytes: &[u8],
    reply: &[u8],
) -> u64
    ensures { result ≡ read_code (read_as (request_of kind desk control a b c bytes.now) reply.now) }
{
    let q = request_of(kind, desk, control, a, b, c, bytes);
    read_code(reader::read(q, reply))
}

// ---- scan lines

// Octets of the length that they should have, by value.
#[tactic(auto, unfolding(octets::specs::Tests::first, crate::specs::Coded::not_long))]
fn sized<const N: usize>(s: &[u8]) -> Result<[u8; N], Refusal>
    ensures { verdict_of result ≡ finding (first (not_long N s.now ∷ [])) s.now }
{
    <[u8; N]>::try_from(s).map_err(|_| Refusal::OutOfRange)
}

fn line(block: &[u8], sighted: &[u8], out: &mut [u8]) -> Result<usize, Refusal>
    ensures { LineWrote block.now sighted.now out.old result out.new }
{
    let sighted = sized::<RECORD>(sighted)?;
    let block = sized::<BLOCK>(block)?;
    lines::line(block, sighted, out)
}

// Writes the line of one record.
pub fn depot_line(block: &[u8], sighted: &[u8], out: &mut [u8]) -> u64
    ensures { LineAs block.now sighted.now out.old result out.new }
{
    written_code(line(block, sighted, out))
}

fn all_lines(block: &[u8], sent: &[u8], out: &mut [u8]) -> Result<usize, Refusal>
    ensures { LinesWrote block.now sent.now out.old result out.new }
{
    let block = sized::<BLOCK>(block)?;
    lines::lines(block, sent, out)
}

// Writes a line for each record that the data of a 0x22 reply carry, all or none.
pub fn depot_lines(block: &[u8], sent: &[u8], out: &mut [u8]) -> u64
    ensures { LinesAs block.now sent.now out.old result out.new }
{
    written_code(all_lines(block, sent, out))
}

// ---- what the data of a reply say, typed

// The bytes of a block, of a reply to 0x80.
pub fn depot_block(sent: &[u8], out: &mut [u8]) -> u64
    ensures { BlockAs sent.now out.old result out.new }
{
    written_code(fields::block(sent, out))
}

// Hour, minute and milliseconds, of a reply to 0x86.
pub fn depot_timer(sent: &[u8], out: &mut [u64]) -> u64
    ensures { TimerAs sent.now out.old result out.new }
{
    written_code(fields::timer(sent, out))
}

// TAB-SIZE, TAB-START and TAB-LEN, of a reply to 0x31.
pub fn depot_sizes(sent: &[u8], out: &mut [u64]) -> u64
    ensures { SizesAs sent.now out.old result out.new }
{
    written_code(fields::sizes(sent, out))
}

// UID, hour, minute, milliseconds and antenna mask of record i, of a reply to 0x22.
pub fn depot_record(sent: &[u8], i: usize, out: &mut [u64]) -> u64
    ensures { RecordAs sent.now i out.old result out.new }
{
    written_code(fields::record(sent, i, out))
}
