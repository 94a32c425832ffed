// The blocks of a desk's memories: read, written, saved, set to defaults.
ghost use Rattle.std.specs.Prelude.{◌≡◌, cond, ◌≤◌, ◌<◌, length};
ghost use Rattle.frame.specs.Shape.{reply_room};
ghost use Rattle.rules.specs.declared.control.RowCommand.{RowCommand};
ghost use Rattle.rules.specs.Config.{block_count, memory_size, block_at};
ghost use Rattle.store.specs.Rows.{field, ram_field, eeprom_field};
ghost use Rattle.rows.specs.Change.{Fit};
ghost use Rattle.effects.specs.Obeyed.{Allowed, does, RowQuiet, RowObeyed};

use crate::{Reply, plain};
use frame::{Kind, Way};
use rows::DeskRow;
use rules::{BLOCK, MEMORY};
use ruling::adr::{all_blocks, block_of, in_eeprom};
use store::{EEPROM, RAM};

// The named block, as a part of the memory that LOC names.
pub fn block<'a>(ram: &'a [u8], eeprom: &'a [u8], loc: bool, k: usize) -> &'a [u8]
    requires { (k < block_count) × (length ram.now ≡ memory_size) × (length eeprom.now ≡ memory_size) }
    ensures { result.now ≡ block_at k (cond loc eeprom.now ram.now) }
{
    let at = BLOCK * k;
    let end = at + BLOCK;
    if loc {
        return &eeprom[at..end];
    }
    &ram[at..end]
}

// The same of a row, which has both memories.
fn named(row: &DeskRow, loc: bool, k: usize) -> &[u8]
    requires { Fit row.now × (k < block_count) }
    ensures { result.now ≡ block_at k (cond loc (field row.now eeprom_field) (field row.now ram_field)) }
{
    block(
        &row[RAM..RAM + MEMORY],
        &row[EEPROM..EEPROM + MEMORY],
        loc,
        k,
    )
}

// 0x80: the fourteen bytes of the named block.
pub fn read(row: &DeskRow, kind: Kind, body: &[u8], out: &mut [u8]) -> Reply
    requires { Fit row.now × Allowed RowCommand.ReadBlock body.now × (reply_room ≤ length out.old) }
    ensures { RowObeyed kind (does RowCommand.ReadBlock body.now) result row.now row.now out.old out.new }
{
    let adr = body[0];
    let bytes = named(row, in_eeprom(adr), block_of(adr));
    octets::copy_to(out, Way::Reply.data_at(kind), bytes);
    Reply {
        status: 0,
        len: BLOCK,
    }
}

// 0x81: the named block takes fourteen bytes.
pub fn write(row: &mut DeskRow, body: &[u8]) -> Reply
    requires { Fit row.old × Allowed RowCommand.WriteBlock body.now }
    ensures { RowQuiet (does RowCommand.WriteBlock body.now) result row.old row.new }
{
    let adr = body[0];
    rows::write_block(row, in_eeprom(adr), block_of(adr), &body[1..]);
    plain(0)
}

// 0x82: the named block, or all, from RAM to EEPROM.
pub fn save(row: &mut DeskRow, body: &[u8]) -> Reply
    requires { Fit row.old × Allowed RowCommand.SaveBlocks body.now }
    ensures { RowQuiet (does RowCommand.SaveBlocks body.now) result row.old row.new }
{
    let adr = body[0];
    if all_blocks(adr) {
        rows::save_all(row);
        return plain(0);
    }
    rows::save_block(row, block_of(adr));
    plain(0)
}

// 0x83: the named block, or all, to defaults in the memory that LOC names.
pub fn restore(row: &mut DeskRow, body: &[u8]) -> Reply
    requires { Fit row.old × Allowed RowCommand.RestoreBlocks body.now }
    ensures { RowQuiet (does RowCommand.RestoreBlocks body.now) result row.old row.new }
{
    let adr = body[0];
    if all_blocks(adr) {
        rows::restore_all(row, in_eeprom(adr));
        return plain(0);
    }
    rows::restore_block(row, in_eeprom(adr), block_of(adr));
    plain(0)
}
