// What status and data length a box can answer to a request.
#![tactic(auto)]

ghost use Rattle.std.specs.Prelude.{◌≡◌, true, cond, ◌&&◌, ◌||◌, ◌<◌, min, eqb};
ghost use Rattle.table.specs.Entries.{share};
ghost use Rattle.rules.specs.Config.{block_of, block_size, password_in_ram};
ghost use Rattle.requests.specs.Request.{fields_hold, needs_login};
ghost use Rattle.possible.specs.Possible.{pair, plain, status_may, records_may, allowed, may_answer, possible};

use frame::Kind;
use requests::range::{fields_hold, is_denied};
use requests::{Ask, Request, needs_login};
use rules::BLOCK;
use ruling::adr::{block_of, password_in_ram};
use ruling::{most_sent, no_desk, records_for};

#[tactic(auto, unfolding(crate::specs::Possible::pair))]
fn is_pair(wanted: u8, size: usize, status: u8, len: usize) -> bool
    ensures { result ≡ pair wanted size status len }
{
    status == wanted && len == size
}

#[tactic(auto, unfolding(crate::specs::Possible::plain))]
fn is_plain(wanted: u8, status: u8, len: usize) -> bool
    ensures { result ≡ plain wanted status len }
{
    is_pair(wanted, 0, status, len)
}

// k, and no more than a desk holds.
fn held_for(k: u64) -> usize
    ensures { result ≡ min k share }
{
    k.min(table::SHARE as u64) as usize
}

// Whether a status goes with n records.
#[tactic(auto, unfolding(crate::specs::Possible::status_may))]
fn status_may(wanted: usize, fit: usize, n: usize, status: u8) -> bool
    ensures { result ≡ status_may wanted fit n status }
{
    status == 0x00
        || status == 0x93 && n == wanted.min(fit)
        || status == 0x94 && n == fit && n < wanted
}

// Whether 0x22 can answer so with records.
#[tactic(auto, unfolding(crate::specs::Possible::records_may))]
fn records_may(kind: Kind, k: u64, status: u8, len: usize) -> bool
    ensures { result ≡ records_may kind k status len }
{
    let n = records_for(len);
    let wanted = held_for(k);
    let fit = most_sent(kind);
    len == 2 + n * table::RECORD
        && 0 < n
        && n <= wanted
        && n <= fit
        && status_may(wanted, fit, n, status)
}

// Whether 0x22 can answer so.
fn read_may(kind: Kind, k: u64, status: u8, len: usize) -> bool
    ensures { result ≡ (plain 0x92 status len || records_may kind k status len) }
{
    is_plain(0x92, status, len) || records_may(kind, k, status, len)
}

// Whether 0x80 can answer so.
fn block_may(adr: u8, status: u8, len: usize) -> bool
    ensures { result ≡ cond (eqb (block_of adr) 0) (plain 0x15 status len) (pair 0x00 block_size status len) }
{
    if block_of(adr) == 0 {
        is_plain(0x15, status, len)
    } else {
        is_pair(0x00, BLOCK, status, len)
    }
}

// Whether 0x81 can answer so.
fn write_may(adr: u8, status: u8, len: usize) -> bool
    ensures { result ≡ cond (password_in_ram adr) (plain 0x16 status len) (plain 0x00 status len) }
{
    if password_in_ram(adr) {
        is_plain(0x16, status, len)
    } else {
        is_plain(0x00, status, len)
    }
}

// Whether 0xA0 can answer so.
fn login_may(status: u8, len: usize) -> bool
    ensures { result ≡ (plain 0x00 status len || plain 0x14 status len) }
{
    is_plain(0x00, status, len) || is_plain(0x14, status, len)
}

// What a logged-in desk can answer, where it does not answer 0x11.
// One arm a command, in the paper's order: the wire has these commands alone, and a match over the enum is checked to be whole.
fn is_allowed(kind: Kind, ask: Ask, status: u8, len: usize) -> bool
    requires { fields_hold ask ≡ true }
    ensures { result ≡ allowed kind ask status len }
{
    match ask {
        Ask::Baud(n) => is_plain(0x00, status, len),
        Ask::Reset => is_plain(0x00, status, len),
        Ask::SystemReset => is_plain(0x00, status, len),
        Ask::ReadBlock(adr) => block_may(adr as u8, status, len),
        Ask::WriteBlock(adr) => write_may(adr as u8, status, len),
        Ask::SaveBlocks(adr) => is_plain(0x00, status, len),
        Ask::RestoreBlocks(adr) => is_plain(0x00, status, len),
        Ask::SetTimer(h, m, ms) => is_plain(0x00, status, len),
        Ask::SendTimer => is_pair(0x00, 4, status, len),
        Ask::Login(password) => login_may(status, len),
        Ask::ReadRecords(k) => read_may(kind, k, status, len),
        Ask::SendTable => is_pair(0x00, 6, status, len),
        Ask::RemoveRecords => is_plain(0x00, status, len),
        Ask::ClearRecords => is_plain(0x00, status, len),
    }
}

// 0x13 where login is needed.
fn is_barred(ask: Ask, status: u8, len: usize) -> bool
    ensures { result ≡ (needs_login ask && plain 0x13 status len) }
{
    needs_login(ask) && is_plain(0x13, status, len)
}

// That; then 0x11, or what is allowed.
#[tactic(auto, unfolding(crate::specs::Possible::may_answer))]
fn may_answer(q: Request, status: u8, len: usize) -> bool
    requires { fields_hold q.ask ≡ true }
    ensures { result ≡ may_answer q status len }
{
    if is_barred(q.ask, status, len) {
        true
    } else if is_denied(q) {
        is_plain(0x11, status, len)
    } else {
        is_allowed(q.kind, q.ask, status, len)
    }
}

// Whether some sound store makes the box answer the request so.
#[tactic(auto, unfolding(crate::specs::Possible::possible))]
pub fn is_possible(q: Request, status: u8, len: usize) -> bool
    ensures { result ≡ possible q status len }
{
    !no_desk(q.desk) && fields_hold(q.ask) && may_answer(q, status, len)
}
