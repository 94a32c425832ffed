// What the data of a reply say, as numbers at the start of a lent output: so that nobody counts octets by hand.
#![tactic(auto)]

ghost use Rattle.std.specs.Prelude.{◌≡◌};
ghost use Rattle.frame.specs.Finding.{verdict_of};
ghost use Rattle.fields.specs.Fields.{timer_fields, sizes_fields, record_fields, PutBehindRoom, BlockPut, TimerPut, SizesPut, RecordPut};

use frame::Refusal;
use rules::BLOCK;
use ruling::records_for;
use timer::Timer;
use typed::{Sighting, Sizes};

// Hour, minute, milliseconds.
pub const TIMER_FIELDS: usize = 3;

// TAB-SIZE, TAB-START, TAB-LEN.
pub const SIZES_FIELDS: usize = 3;

// UID, hour, minute, milliseconds, antenna mask.
pub const RECORD_FIELDS: usize = 5;

fn timer_numbers(t: Timer) -> [u64; TIMER_FIELDS]
    ensures { result ≡ timer_fields t }
{
    [t.hour as u64, t.minute as u64, t.ms as u64]
}

fn sizes_numbers(s: Sizes) -> [u64; SIZES_FIELDS]
    ensures { result ≡ sizes_fields s }
{
    [s.size as u64, s.start as u64, s.len as u64]
}

fn record_numbers(s: Sighting) -> [u64; RECORD_FIELDS]
    ensures { result ≡ record_fields s }
{
    let t = s.timer;
    [
        s.uid,
        t.hour as u64,
        t.minute as u64,
        t.ms as u64,
        s.mask as u64,
    ]
}

// Puts what was told at the start of an output; whether that has room is tested first.
fn put<const N: usize>(told: Result<[u64; N], Refusal>, out: &mut [u64]) -> Result<usize, Refusal>
    ensures { PutBehindRoom N (verdict_of told.entry) out.old result out.new }
{
    if out.len() < N {
        return Err(Refusal::NoRoom);
    }
    let numbers = told?;
    out[..N].copy_from_slice(&numbers);
    Ok(N)
}

// The bytes of the block that a reply to 0x80 carries. No `put`: these are octets, and a promise on lists of numbers is none on lists of
// any T.
pub fn block(sent: &[u8], out: &mut [u8]) -> Result<usize, Refusal>
    ensures { BlockPut sent.now out.old result out.new }
{
    if out.len() < BLOCK {
        return Err(Refusal::NoRoom);
    }
    let bytes = typed::block_in(sent)?;
    octets::copy_to(out, 0, &bytes);
    Ok(BLOCK)
}

// The timer that a reply to 0x86 carries.
pub fn timer(sent: &[u8], out: &mut [u64]) -> Result<usize, Refusal>
    ensures { TimerPut sent.now out.old result out.new }
{
    put(typed::timer_in(sent).map(timer_numbers), out)
}

// What a reply to 0x31 carries.
pub fn sizes(sent: &[u8], out: &mut [u64]) -> Result<usize, Refusal>
    ensures { SizesPut sent.now out.old result out.new }
{
    put(typed::sizes_in(sent).map(sizes_numbers), out)
}

// Record i that a reply to 0x22 carries, the oldest first.
pub fn record(sent: &[u8], i: usize, out: &mut [u64]) -> Result<usize, Refusal>
    ensures { RecordPut sent.now i out.old result out.new }
{
    if i >= records_for(sent.len()) {
        return Err(Refusal::OutOfRange);
    }
    put(typed::record_in(sent, i).map(record_numbers), out)
}
