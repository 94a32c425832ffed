// A command's own tests: the status of the first that is given, if one is. They read the data alone.
ghost use Rattle.std.specs.Prelude.{◌≡◌, true, cond, ◌+◌, length, drop, Some, None};
ghost use Rattle.octets.specs.Tests.{first};
ghost use Rattle.rules.specs.declared.control.Command.{Command};
ghost use Rattle.rules.specs.declared.control.RowCommand.{RowCommand};
ghost use Rattle.rules.specs.Config.{block_size, bytes_unfit};
ghost use Rattle.rules.specs.Control.{sized_for};
ghost use Rattle.rules.specs.Command.{row_tests};
ghost use Rattle.commands.specs.Ruled.{said};

use rules::control::RowCommand;
use ruling::adr::{block_of, in_eeprom, names_one, names_some, password_in_ram};

// The status of a test that is given.
fn given(status: u8, wrong: bool) -> Option<u8>
    ensures { result ≡ cond wrong (Some status) None }
{
    if wrong { Some(status) } else { None }
}

// 0x80: one block is named, and it is not block 0.
fn of_read(body: &[u8]) -> Option<u8>
    requires { length body.now ≡ 1 }
    ensures { first (row_tests RowCommand.ReadBlock body.now) ≡ said result }
{
    let adr = body[0];
    let address = given(0x11, !names_one(adr));
    let password = given(0x15, block_of(adr) == 0);
    address.or(password)
}

// Whether block k may not take the bytes behind CFG-ADR.
fn unfit(k: usize, body: &[u8]) -> bool
    requires { length body.now ≡ 1 + block_size }
    ensures { result ≡ bytes_unfit k (drop 1 body.now) }
{
    k == 7 && !ruling::shape_legal(body[1], body[2], body[4], body[14])
}

// 0x81: one block is named, it is no password into RAM, and the bytes are fit for it.
fn of_write(body: &[u8]) -> Option<u8>
    requires { length body.now ≡ 1 + block_size }
    ensures { first (row_tests RowCommand.WriteBlock body.now) ≡ said result }
{
    let adr = body[0];
    let address = given(0x11, !names_one(adr));
    let password = given(0x16, password_in_ram(adr));
    let bytes = given(0x11, unfit(block_of(adr), body));
    address.or(password).or(bytes)
}

// 0x82: RAM, and a block or all are named.
fn of_save(body: &[u8]) -> Option<u8>
    requires { length body.now ≡ 1 }
    ensures { first (row_tests RowCommand.SaveBlocks body.now) ≡ said result }
{
    let adr = body[0];
    given(0x11, in_eeprom(adr) || !names_some(adr))
}

// A match and no table of closures: the check asks that no command is left out.
pub fn own_tests(command: RowCommand, body: &[u8]) -> Option<u8>
    requires { sized_for (Command.OnRow command) body.now ≡ true }
    ensures { first (row_tests command body.now) ≡ said result }
{
    match command {
        RowCommand::Baud => given(0x11, body[0] != 0),
        RowCommand::Reset => None,
        RowCommand::ReadBlock => of_read(body),
        RowCommand::WriteBlock => of_write(body),
        RowCommand::SaveBlocks => of_save(body),
        RowCommand::RestoreBlocks => given(0x11, !names_some(body[0])),
        RowCommand::SetTimer => given(0x11, !timer::legal(timer::read(body, 0))),
        RowCommand::SendTimer => None,
        RowCommand::Login => None,
    }
}
