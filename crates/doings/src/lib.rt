// What sightings, ticks and the commands of the table do to the row of one desk: `act`. Each function under it promises its octets by a
// definition of specs/Row.
#![tactic(auto)]

ghost use Rattle.std.specs.Prelude.{◌≡◌, ◌≤◌, length, get_or};
ghost use Rattle.locks.specs.Locks.{most_locks};
ghost use Rattle.store.specs.Layout.{row_width};
ghost use Rattle.store.specs.Rows.{count_at};
ghost use Rattle.rows.specs.Change.{Fit, Change};
ghost use Rattle.doings.specs.Doing.{done_by};
ghost use Rattle.doings.specs.Row.{midnight_row, closed_row, marked_row, due_row, stepped_row, ticked_row, cleared_row, system_row};

use rows::DeskRow;
use store::{DUE, MARK, TAB_START, TIMER};

// The timer is zero.
fn midnight(row: &mut DeskRow)
    ensures { row.new ≡ midnight_row row.old }
{
    rows::set_timer(row, &[0; 4]);
}

// The mark falls, nothing is due, TAB-START is start.
fn close_table(row: &mut DeskRow, start: u8)
    ensures { row.new ≡ closed_row start row.old }
{
    row[MARK] = 0;
    row[DUE] = 0;
    row[TAB_START] = start;
}

// The overflow mark is set.
fn set_mark(row: &mut DeskRow)
    ensures { row.new ≡ marked_row row.old }
{
    row[MARK] = 1;
}

// So many records are due to be removed.
fn set_due(row: &mut DeskRow, n: u8)
    ensures { row.new ≡ due_row n row.old }
{
    row[DUE] = n;
}

// The timer is advanced.
fn tick_timer(row: &mut DeskRow)
    ensures { row.new ≡ stepped_row row.old }
{
    let mut t = timer::read(row, TIMER);
    timer::tick(&mut t);
    rows::set_timer(row, &timer::octets_of(t));
}

// A tick of the locks and the timer.
fn tick(row: &mut DeskRow)
    requires { get_or row.old count_at 0 ≤ most_locks }
    ensures { row.new ≡ ticked_row row.old }
{
    rows::tick_locks(row);
    tick_timer(row);
}

// No records are marked, due or counted, and no locks stand.
fn clear(row: &mut DeskRow)
    ensures { row.new ≡ cleared_row row.old }
{
    close_table(row, 0);
    rows::clear_locks(row);
}

// A restart, the timer zero, no records marked, due or counted.
fn restart_all(row: &mut DeskRow)
    ensures { row.new ≡ system_row row.old }
{
    rows::restart(row);
    close_table(row, 0);
    midnight(row);
}

// What is done to a row by sightings, by ticks and by the commands that concern records too. An enum and no closure: `done_by` says what each
// comes to, and callers owe that a legal desk comes of it.
#[derive(Clone, Copy)]
pub enum Doing {
    // The overflow mark is set.
    Mark,
    // So many records are due to be removed.
    Due(u8),
    // The mark falls, nothing is due, TAB-START is this.
    Close(u8),
    // 0x33, but for the records.
    Clear,
    // 0x64, but for the records.
    Restart,
    // A UID is locked for VALID-TIME ticks.
    Lock(u64),
    Tick,
}

// Does it to a row.
fn act_on(row: &mut DeskRow, what: Doing)
    requires { Fit row.old × (get_or row.old count_at 0 ≤ most_locks) }
    ensures { Change (done_by what) row.old row.new }
{
    match what {
        Doing::Mark => set_mark(row),
        Doing::Due(n) => set_due(row, n),
        Doing::Close(start) => close_table(row, start),
        Doing::Clear => clear(row),
        Doing::Restart => restart_all(row),
        Doing::Lock(uid) => rows::add_lock(row, uid),
        Doing::Tick => tick(row),
    }
}

// Does it to the octets of the store that are the row of a desk.
pub fn act(row: &mut [u8], what: Doing)
    requires { Fit row.old × (get_or row.old count_at 0 ≤ most_locks) }
    ensures { Change (done_by what) row.old row.new }
{
    let Some(row) = row.as_mut_array() else {
        unreachable!()
    };
    act_on(row, what);
}
