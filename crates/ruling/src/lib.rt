// The rules that box and host side both compute: CFG-ADR's bits, what block 7 may hold, which numbers are desks, and how many records a
// reply has room for.
#![tactic(auto)]

ghost use Rattle.std.specs.Prelude.{◌≡◌, ◌≤◌};
ghost use Rattle.table.specs.Entries.{share};
ghost use Rattle.rules.specs.Config.{use_legal, char_legal, len_legal, shape_legal};
ghost use Rattle.rules.specs.Box.{no_desk};
ghost use Rattle.rules.specs.Records.{most_sent, records_for};

use frame::Kind;

pub mod adr;

// Whether a number names no desk.
pub fn no_desk(n: u64) -> bool
    ensures { result ≡ no_desk n }
{
    table::DESKS as u64 <= n
}

#[tactic(auto, unfolding(rules::specs::Config::use_legal))]
fn use_legal(n: u8) -> bool
    ensures { result ≡ use_legal n }
{
    n == 0 || n == 2
}

#[tactic(auto, unfolding(rules::specs::Config::char_legal))]
fn char_legal(char: u8) -> bool
    ensures { result ≡ char_legal char }
{
    char.count_ones() <= 1
}

#[tactic(auto, unfolding(rules::specs::Config::len_legal))]
fn len_legal(len: u8) -> bool
    ensures { result ≡ len_legal len }
{
    len / 16 <= 4 && len % 16 <= 3
}

// Whether DB-USE, SEP-CHAR, END-CHAR and LEN-USR of a block 7 are legal.
#[tactic(auto, unfolding(rules::specs::Config::shape_legal))]
pub fn shape_legal(usage: u8, sep: u8, end: u8, len: u8) -> bool
    ensures { result ≡ shape_legal usage sep end len }
{
    use_legal(usage) && char_legal(sep) && char_legal(end) && len_legal(len)
}

// How many records fit in a reply.
pub fn most_sent(kind: Kind) -> usize
    ensures { (result ≡ most_sent kind) × (result ≤ share) }
{
    (kind.longest() - kind.overhead() - 3) / table::RECORD
}

// How many records stand behind their count.
#[tactic(auto, unfolding(rules::specs::Records::records_for))]
pub fn records_for(len: usize) -> usize
    ensures { result ≡ records_for len }
{
    len.saturating_sub(2) / table::RECORD
}
