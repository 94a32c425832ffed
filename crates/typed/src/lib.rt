// What the data of a reply say, for those who want it typed. Data that a reply to that command does not carry are refused.
#![tactic(auto)]

ghost use Rattle.std.specs.Prelude.{◌≡◌};
ghost use Rattle.frame.specs.Finding.{verdict_of};
ghost use Rattle.typed.specs.Typed.{block_told, bytes_of, timer_told, sizes_told, read_data, count_told, record_told};

use frame::Refusal;
use rules::BLOCK;
use ruling::records_for;
use table::{RECORD, SHARE};
use timer::Timer;

// TAB-SIZE, TAB-START, TAB-LEN.
#[derive(Clone, Copy)]
pub struct Sizes {
    pub size: u16,
    pub start: u16,
    pub len: u16,
}

// A record.
#[derive(Clone, Copy)]
pub struct Sighting {
    pub uid: u64,
    pub timer: Timer,
    pub mask: u8,
}

// The block that a reply to 0x80 carries.
#[tactic(auto, unfolding(crate::specs::Typed::block_told, crate::specs::Typed::other_length, octets::specs::Tests::first))]
pub fn block_in(sent: &[u8]) -> Result<[u8; BLOCK], Refusal>
    ensures { verdict_of result ≡ block_told sent.now }
{
    <[u8; BLOCK]>::try_from(sent).map_err(|_| Refusal::NotTheReply)
}

// Its bytes for those who want some in any case: zeros where they are refused.
pub fn bytes_in(sent: &[u8]) -> [u8; BLOCK]
    ensures { result ≡ bytes_of sent.now }
{
    block_in(sent).unwrap_or([0; BLOCK])
}

// The timer that a reply to 0x86 carries.
pub fn timer_in(sent: &[u8]) -> Result<Timer, Refusal>
    ensures { verdict_of result ≡ timer_told sent.now }
{
    if sent.len() != 4 {
        return Err(Refusal::NotTheReply);
    }
    Ok(timer::read(sent, 0))
}

// What a reply to 0x31 carries.
#[tactic(auto, unfolding(crate::specs::Typed::sizes_told, crate::specs::Typed::sizes_from, crate::specs::Typed::other_length, octets::specs::Tests::first))]
pub fn sizes_in(sent: &[u8]) -> Result<Sizes, Refusal>
    ensures { verdict_of result ≡ sizes_told sent.now }
{
    if sent.len() != 6 {
        return Err(Refusal::NotTheReply);
    }
    Ok(Sizes {
        size: octets::get16(sent, 0),
        start: octets::get16(sent, 2),
        len: octets::get16(sent, 4),
    })
}

// Whether a reply to 0x22 can carry these data: none, or a count from 1 to 64 and as many records.
#[tactic(auto, unfolding(crate::specs::Typed::read_data))]
fn is_read_data(sent: &[u8]) -> bool
    ensures { result ≡ read_data sent.now }
{
    if sent.len() < 2 {
        return sent.is_empty();
    }
    let n = octets::get16(sent, 0) as usize;
    0 < n && n <= SHARE as usize && sent.len() == 2 + n * RECORD
}

// How many records a reply to 0x22 carries.
#[tactic(auto, unfolding(crate::specs::Typed::count_told, crate::specs::Typed::count_refusals, octets::specs::Tests::first))]
pub fn count_in(sent: &[u8]) -> Result<usize, Refusal>
    ensures { verdict_of result ≡ count_told sent.now }
{
    if !is_read_data(sent) {
        return Err(Refusal::NotTheReply);
    }
    Ok(records_for(sent.len()))
}

// Record i that a reply to 0x22 carries, the oldest first.
pub fn record_in(sent: &[u8], i: usize) -> Result<Sighting, Refusal>
    ensures { verdict_of result ≡ record_told sent.now i }
{
    if i >= records_for(sent.len()) {
        return Err(Refusal::OutOfRange);
    }
    if !is_read_data(sent) {
        return Err(Refusal::NotTheReply);
    }
    let at = 2 + i * RECORD;
    Ok(Sighting {
        uid: octets::number::<8>(sent, at),
        timer: timer::read(sent, at + 8),
        mask: sent[at + 12],
    })
}
