// Reset, timer, login.
ghost use Rattle.std.specs.Prelude.{◌≡◌, cond, ◌≤◌, [], length};
ghost use Rattle.frame.specs.Shape.{reply_room};
ghost use Rattle.rules.specs.declared.control.RowCommand.{RowCommand};
ghost use Rattle.rows.specs.Change.{Fit};
ghost use Rattle.effects.specs.Obeyed.{Allowed, does, RowQuiet, RowObeyed};

use crate::{Reply, plain};
use frame::{Kind, Way};
use rows::DeskRow;
use store::{EEPROM, TIMER};

// 0x63: RAM, VALID-TIME, login and locks.
pub fn reset(row: &mut DeskRow) -> Reply
    requires { Fit row.old }
    ensures { RowQuiet (does RowCommand.Reset []) result row.old row.new }
{
    rows::restart(row);
    plain(0)
}

// 0x85: the timer is set.
pub fn set_timer(row: &mut DeskRow, body: &[u8]) -> Reply
    requires { Fit row.old × Allowed RowCommand.SetTimer body.now }
    ensures { RowQuiet (does RowCommand.SetTimer body.now) result row.old row.new }
{
    rows::set_timer(row, body);
    plain(0)
}

// 0x86: the timer in four octets.
pub fn send_timer(row: &DeskRow, kind: Kind, out: &mut [u8]) -> Reply
    requires { Fit row.now × (reply_room ≤ length out.old) }
    ensures { RowObeyed kind (does RowCommand.SendTimer []) result row.now row.now out.old out.new }
{
    octets::copy_to(out, Way::Reply.data_at(kind), &row[TIMER..TIMER + 4]);
    Reply { status: 0, len: 4 }
}

fn login_status(equal: bool) -> u8
    ensures { result ≡ cond equal 0 0x14 }
{
    if equal { 0 } else { 0x14 }
}

// 0xA0: logged in where the four octets are those of EEPROM block 0, else logged out.
pub fn login(row: &mut DeskRow, body: &[u8]) -> Reply
    requires { Fit row.old × Allowed RowCommand.Login body.now }
    ensures { RowQuiet (does RowCommand.Login body.now) result row.old row.new }
{
    let equal = octets::same(row, EEPROM, body);
    rows::set_login(row, equal);
    plain(login_status(equal))
}
