// The fresh store, octet for octet: the defaults in both memories of each desk, no records, no locks.
#![tactic(auto)]

ghost use Rattle.std.specs.Prelude.{◌≡◌, ◌+◌, ◌≤◌, ◌<◌, length, replicate};
ghost use Rattle.octets.specs.Parts.{put, joined};
ghost use Rattle.table.specs.Entries.{desks};
ghost use Rattle.rules.specs.Config.{block_count, memory_size, block_at, written, defaults};
ghost use Rattle.store.specs.Layout.{store_size, header_size, row_width};
ghost use Rattle.fresh.specs.Fresh.{rows_begin, entries_begin, fresh_row, fresh_header, fresh_store};

use store::{EEPROM, HEADER, LOGIN, RAM, ROW, SIZE, USED, VALID};

// Where the entries begin, behind the rows, which begin right behind the header.
const ENTRIES_BEGIN: usize = HEADER + ROW * table::DESKS;

// The offsets, as the header holds them.
const ROWS_OFFSET: u64 = HEADER as u64;

const ENTRIES_OFFSET: u64 = ENTRIES_BEGIN as u64;

// VALID-TIME of the defaults.
const VALID_TIME: u64 = 55;

// The default configuration, block by block.
const DEFAULTS: [[u8; rules::BLOCK]; rules::BLOCKS] = [
    [0, 0, 0, 0, 0, 0, 0, 0, 0, 0, 0, 0, 0, 0],
    [0, 0, 0, 0, 0, 0, 0, 0, 0, 0, 0, 0, 0, 0],
    [0, 0, 0, 0, 0, 0, 0, 0, 0, 0, 0, 0, 0, 0],
    [0, 0, 0, 0, 0, 0, 0, 0, 0, 0, 0, 0, 0, 0],
    [0, 0, 0, 0, 0, 0, 0, 0, 0, 0, 0, 0, 0, 0],
    [0, 0, 0, 0, 0, 0, 0, 0, 0, 0, 0, 0, 0, 0],
    [0, 0, 0, 0, 0, 0, 0, 0, 0, 0, 0, 0, 0, 0],
    [0x02, 0x20, 0x2C, 0x01, 0, 0, 0, 0, 0, 0, 0, 0, 0, 0],
    [0, 0, 0, 0, 0, 0, 0, 0, 0, 0, 0, 0, 0, 0],
    [0, 0, 0, 0, 0, 0, 0, 0, 0, 0, 0, 0, 0, 0],
    [0, 0, 0, 0, 0, 0, 0, 0, 0, 0, 0, 0, 0, 0],
    [0, 0, 0, 0, 0, 0, 0, 0, 0, 0, 0, 0, 0, 0],
    [0x00, 0x37, 0, 0, 0, 0, 0, 0, 0, 0, 0, 0, 0, 0],
    [0, 0, 0, 0, 0, 0, 0, 0, 0, 0, 0, 0, 0, 0],
    [0, 0, 0, 0, 0, 0, 0, 0, 0, 0, 0, 0, 0, 0],
    [0, 0, 0, 0, 0, 0, 0, 0, 0, 0, 0, 0, 0, 0],
];

// Block k of the defaults.
pub fn default_block(k: usize) -> [u8; rules::BLOCK]
    requires { k < block_count }
    ensures { result ≡ block_at k defaults }
{
    DEFAULTS[k]
}

// Writes block k of a memory.
pub fn put_block(memory: &mut [u8], k: usize, block: [u8; rules::BLOCK])
    requires { (k < block_count) × (memory_size ≤ length memory.old) }
    ensures { memory.new ≡ written k block memory.old }
{
    octets::copy_to(memory, rules::BLOCK * k, &block);
}

// Writes the defaults to a memory.
pub fn put_defaults(memory: &mut [u8])
    requires { memory_size ≤ length memory.old }
    ensures { memory.new ≡ put 0 defaults memory.old }
{
    for k in 0..rules::BLOCKS {
        put_block(memory, k, default_block(k));
    }
}

// Writes the defaults to the memory that begins at a place of a row.
pub fn put_memory(row: &mut [u8], at: usize)
    requires { at + memory_size ≤ length row.old }
    ensures { row.new ≡ put at defaults row.old }
{
    put_defaults(&mut row[at..at + rules::MEMORY]);
}

// Makes a row be a fresh desk's.
fn fresh_row(row: &mut [u8])
    requires { length row.old ≡ row_width }
    ensures { row.new ≡ fresh_row }
{
    row[LOGIN..ROW].fill(0);
    put_memory(row, RAM);
    put_memory(row, EEPROM);
    octets::put::<2>(row, VALID, VALID_TIME);
}

// Writes the header: where the rows begin, where the entries begin, and that none of these is in use.
fn put_header(s: &mut [u8])
    requires { header_size ≤ length s.old }
    ensures { s.new ≡ put 0 fresh_header s.old }
{
    octets::put::<2>(s, 0, ROWS_OFFSET);
    octets::put::<2>(s, 2, ENTRIES_OFFSET);
    octets::put::<2>(s, USED, 0);
}

// Writes the rows behind the header.
fn put_rows(s: &mut [u8])
    requires { entries_begin ≤ length s.old }
    ensures { s.new ≡ put rows_begin (joined (replicate desks fresh_row)) s.old }
{
    for d in 0..table::DESKS {
        let at = HEADER + ROW * d;
        fresh_row(&mut s[at..at + ROW]);
    }
}

// Makes a store be the fresh one: zeros behind the rows, and all that stands before them is written.
pub fn make(s: &mut [u8])
    requires { length s.old ≡ store_size }
    ensures { s.new ≡ fresh_store }
{
    s[ENTRIES_BEGIN..SIZE].fill(0);
    put_header(s);
    put_rows(s);
}
