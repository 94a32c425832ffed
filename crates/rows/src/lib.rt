// What is done to the login, the timer, the locks and the memories of a desk's row: each function promises its octets by a definition of
// specs/Row.
#![tactic(auto)]

ghost use Rattle.std.specs.Prelude.{◌≡◌, ◌≤◌, ◌<◌, length, get_or};
ghost use Rattle.locks.specs.Locks.{most_locks};
ghost use Rattle.store.specs.Layout.{row_width};
ghost use Rattle.store.specs.Rows.{count_at};
ghost use Rattle.rows.specs.Row.{restarted_row, unlocked_row, locked_row, swept_row, login_row, timer_row, memory_at, written_row, saved_row, all_saved_row, default_row};
ghost use Rattle.rules.specs.Config.{block_size, block_count, memory_size, block_at, defaults};

use rules::{BLOCK, MEMORY};
use store::{EEPROM, LOCKED, LOCKS, LOGIN, RAM, TIMER, VALID};

// The octets of a desk's row, lent where they lie. That a count of locks or a block is in range is asked beside them: a struct would have to
// copy the row to keep it.
pub type DeskRow = [u8; store::ROW];

// No locks stand.
pub fn clear_locks(row: &mut DeskRow)
    ensures { row.new ≡ unlocked_row row.old }
{
    row[LOCKED] = 0;
}

// A new lock of VALID-TIME ticks; where 64 stand, the oldest gives way.
pub fn add_lock(row: &mut DeskRow, uid: u64)
    requires { get_or row.old count_at 0 ≤ most_locks }
    ensures { row.new ≡ locked_row uid row.old }
{
    let n = row[LOCKED] as usize;
    let valid = octets::get16(row, VALID);
    let k = lockarea::add(&mut row[LOCKS..store::ROW], n, uid, valid);
    row[LOCKED] = k as u8;
}

// Each lock loses a tick, and goes at zero.
pub fn tick_locks(row: &mut DeskRow)
    requires { get_or row.old count_at 0 ≤ most_locks }
    ensures { row.new ≡ swept_row row.old }
{
    let n = row[LOCKED] as usize;
    let k = lockarea::tick(&mut row[LOCKS..store::ROW], n);
    row[LOCKED] = k as u8;
}

// The timer is four octets.
pub fn set_timer(row: &mut DeskRow, body: &[u8])
    requires { length body.now ≡ 4 }
    ensures { row.new ≡ timer_row body.now row.old }
{
    octets::copy_to(row, TIMER, body);
}

// Logged in, or out.
pub fn set_login(row: &mut DeskRow, yes: bool)
    ensures { row.new ≡ login_row yes row.old }
{
    row[LOGIN] = u8::from(yes);
}

// Where the memory that LOC names begins.
fn memory_at(eeprom: bool) -> usize
    ensures { (result ≡ memory_at eeprom) × (result ≤ memory_size) }
{
    if eeprom { EEPROM } else { RAM }
}

// Block k of a memory is written.
pub fn write_block(row: &mut DeskRow, eeprom: bool, k: usize, bytes: &[u8])
    requires { (k < block_count) × (length bytes.now ≡ block_size) }
    ensures { row.new ≡ written_row eeprom k bytes.now row.old }
{
    let at = memory_at(eeprom);
    octets::copy_to(row, at + BLOCK * k, bytes);
}

// Block k of EEPROM from RAM.
pub fn save_block(row: &mut DeskRow, k: usize)
    requires { k < block_count }
    ensures { row.new ≡ saved_row k row.old }
{
    octets::move_within(row, RAM + BLOCK * k, EEPROM + BLOCK * k, BLOCK);
}

// All blocks of EEPROM from RAM.
pub fn save_all(row: &mut DeskRow)
    ensures { row.new ≡ all_saved_row row.old }
{
    octets::move_within(row, RAM, EEPROM, MEMORY);
}

// RAM is loaded from EEPROM, VALID-TIME in force taken from EEPROM block 12; logged out, no locks.
pub fn restart(row: &mut DeskRow)
    ensures { row.new ≡ restarted_row row.old }
{
    octets::move_within(row, EEPROM, RAM, MEMORY);
    octets::move_within(row, EEPROM + BLOCK * 12, VALID, 2);
    set_login(row, false);
    clear_locks(row);
}

// Block k of a memory to its defaults.
pub fn restore_block(row: &mut DeskRow, eeprom: bool, k: usize)
    requires { k < block_count }
    ensures { row.new ≡ written_row eeprom k (block_at k defaults) row.old }
{
    let at = memory_at(eeprom);
    fresh::put_block(&mut row[at..at + MEMORY], k, fresh::default_block(k));
}

// All blocks of a memory to their defaults.
pub fn restore_all(row: &mut DeskRow, eeprom: bool)
    ensures { row.new ≡ default_row eeprom row.old }
{
    fresh::put_memory(row, memory_at(eeprom));
}
