// Whether a store is sound: the header first, then what its areas hold. Areas and rows are lent and never copied.
#![tactic(auto)]

ghost use Rattle.std.specs.Prelude.{◌≡◌, true, not, ◌&&◌, ◌||◌, [], ◌+◌, ◌≤◌, ◌<◌, length, get_or, eqb};
ghost use Rattle.octets.specs.Parts.{part};
ghost use Rattle.octets.specs.Numbers.{number};
ghost use Rattle.octets.specs.Areas.{apartb, pair_clear};
ghost use Rattle.timer.specs.Clock.{timer_legal, timer_from};
ghost use Rattle.locks.specs.Locks.{locks_legal};
ghost use Rattle.lockarea.specs.Area.{locks_in};
ghost use Rattle.table.specs.Entries.{desks, share};
ghost use Rattle.rules.specs.Config.{memory_size};
ghost use Rattle.rules.specs.Legal.{memory_legal, table_legal};
ghost use Rattle.store.specs.Layout.{store_size, area_count, header_size, row_width, size_of, header, start_of, areas};
ghost use Rattle.store.specs.Rows.{ram_field, eeprom_field, valid_field, timer_field, mark_field, count_field, locks_field, field};
ghost use Rattle.store.specs.View.{desk_in, rows_in};
ghost use Rattle.store.specs.Sound.{area_fits, fine, flags_right, contents, sound};
ghost use Rattle.soundness.specs.Tested.{row_sound, Tells};

use store::{
    AREAS, DUE, EEPROM, ENTRIES, ENTRIES_AREA, LOCKED, LOCKS, LOGIN, MARK, RAM, ROW, SIZE,
    TAB_START, TABLE, TIMER, VALID, row_at, size, start, used,
};

// How many records a desk may hold, as an octet.
const SHARE: u8 = table::SHARE as u8;

// Where in a memory block 7 begins, and the octets of it that have rules.
const LINE: usize = rules::BLOCK * 7;

const DB_USE: usize = LINE;

const SEP_CHAR: usize = LINE + 1;

const END_CHAR: usize = LINE + 3;

const LEN_USR: usize = LINE + 13;

// As many locks as an octet of the row can say.
const MOST_LOCKS: u8 = locks::MOST as u8;

// ---- the header, which each asks to be there, in the lent store:
// a struct around it would owe the clause that its field is still that reference

// Whether two places share no octet.
fn apart(at: usize, n: usize, there: usize, m: usize) -> bool
    requires { (at + n < 1000000) × (there + m < 1000000) }
    ensures { result ≡ apartb at n there m }
{
    at + n <= there || there + m <= at
}

// Whether areas i and j share no octet.
fn clear_pair(s: &[u8], i: usize, j: usize) -> bool
    requires { (i < area_count) × (j < area_count) × (header_size ≤ length s.now) }
    ensures { result ≡ pair_clear (start_of (header s.now)) size_of j i }
{
    apart(start(s, i), size(i), start(s, j), size(j))
}

// Whether area k ends within the store, and shares no octet with an area before it.
fn area_fits(s: &[u8], k: usize) -> bool
    requires { (k < area_count) × (header_size ≤ length s.now) }
    ensures { result ≡ area_fits (header s.now) k }
{
    if start(s, k) + size(k) > SIZE {
        return false;
    }
    for i in 0..k {
        if !clear_pair(s, i, k) {
            return false;
        }
    }
    true
}

// Whether the header is: each area fits, and the count of entries is in range.
fn header_fine(s: &[u8]) -> bool
    requires { header_size ≤ length s.now }
    ensures { result ≡ fine (header s.now) }
{
    for k in 0..AREAS {
        if !area_fits(s, k) {
            return false;
        }
    }
    used(s) <= ENTRIES
}

// ---- a row

// Whether login and mark are 0 or 1.
fn flags_right(row: &[u8; ROW]) -> bool
    ensures { result ≡ flags_right row.now }
{
    row[LOGIN] <= 1 && row[MARK] <= 1
}

// Whether the memory at a place of the row is legal: its block 7 is.
fn memory_right(row: &[u8], at: usize) -> bool
    requires { at + memory_size ≤ length row.now }
    ensures { result ≡ memory_legal (part at memory_size row.now) }
{
    ruling::shape_legal(
        row[at + DB_USE],
        row[at + SEP_CHAR],
        row[at + END_CHAR],
        row[at + LEN_USR],
    )
}

// Whether both memories are.
fn memories_right(row: &[u8; ROW]) -> bool
    ensures { result ≡ memory_legal (field row.now ram_field) && memory_legal (field row.now eeprom_field) }
{
    memory_right(row, RAM) && memory_right(row, EEPROM)
}

// Whether the timer is in its ranges.
fn timer_right(row: &[u8; ROW]) -> bool
    ensures { result ≡ timer_legal (timer_from (field row.now timer_field)) }
{
    timer::legal(timer::read(row, TIMER))
}

// Whether the locks are a sound list.
fn locks_right(row: &[u8; ROW]) -> bool
    ensures { result ≡ locks_legal (number (field row.now valid_field))
        (locks_in (number (field row.now count_field)) (field row.now locks_field)) }
{
    let n = row[LOCKED];
    if n > MOST_LOCKS {
        return false;
    }
    lockarea::legal(&row[LOCKS..ROW], n as usize, octets::get16(row, VALID))
}

// Whether the mark stands only where 64 records are held.
fn mark_right(row: &[u8; ROW], held: u16) -> bool
    ensures { result ≡ (not (eqb (number (field row.now mark_field)) 1) || eqb held share) }
{
    row[MARK] != 1 || held == table::SHARE
}

// Whether at most 64 records are held, the mark stands only where 64 are, the removal due is no more than these, and TAB-START is below 64.
fn table_right(row: &[u8; ROW], held: u16) -> bool
    ensures { Tells held (λ rs. table_legal (desk_in row.now rs).table) result }
{
    if held > table::SHARE {
        return false;
    }
    if !mark_right(row, held) {
        return false;
    }
    if row[DUE] as u16 > held {
        return false;
    }
    row[TAB_START] < SHARE
}

// Whether a row is sound, of a desk that holds so many records.
fn row_right(row: &[u8; ROW], held: u16) -> bool
    ensures { Tells held (row_sound row.now) result }
{
    if !flags_right(row) {
        return false;
    }
    if !memories_right(row) {
        return false;
    }
    if !timer_right(row) {
        return false;
    }
    if !locks_right(row) {
        return false;
    }
    table_right(row, held)
}

// The same of the octets of the store that are its row.
fn row_sound(row: &[u8], held: u16) -> bool
    requires { length row.now ≡ row_width }
    ensures { Tells held (row_sound row.now) result }
{
    let Some(row) = row.as_array() else {
        unreachable!()
    };
    row_right(row, held)
}

// ---- the contents

// Whether the row of desk d is sound, which holds so many records.
fn desk_sound(s: &[u8], d: usize, held: u16) -> bool
    requires { (d < desks) × (length s.now ≡ store_size) × (fine (header s.now) ≡ true) }
    ensures { Tells held (row_sound (get_or (rows_in (areas s.now)) d [])) result }
{
    let at = row_at(s, d);
    row_sound(&s[at..at + ROW], held)
}

// Whether the records have desks for owners, and each desk's row is sound.
fn contents_sound(s: &[u8]) -> bool
    requires { (length s.now ≡ store_size) × (fine (header s.now) ≡ true) }
    ensures { result ≡ contents (areas s.now) }
{
    let at = start(s, ENTRIES_AREA);
    let n = used(s);
    let Some(counts) = table::census(&s[at..at + TABLE], n) else {
        return false;
    };
    for d in 0..table::DESKS {
        if !desk_sound(s, d, counts[d]) {
            return false;
        }
    }
    true
}

// Whether a store of any length is sound.
pub fn test(s: &[u8]) -> bool
    ensures { result ≡ sound s.now }
{
    if s.len() != SIZE {
        return false;
    }
    header_fine(s) && contents_sound(s)
}
