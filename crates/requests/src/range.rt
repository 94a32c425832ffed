// Whether the values of a request are in range.
ghost use Rattle.std.specs.Prelude.{◌≡◌, true, not, ◌&&◌, ◌||◌};
ghost use Rattle.timer.specs.declared.Timer.{Timer};
ghost use Rattle.timer.specs.Clock.{timer_legal};
ghost use Rattle.rules.specs.Config.{in_eeprom, block_of, names_one, names_some, bytes_unfit};
ghost use Rattle.requests.specs.Request.{fields_hold, denied, in_range};

use crate::{Ask, Request};
use rules::BLOCK;
use ruling::adr::{block_of, in_eeprom, names_one, names_some};
use timer::Timer;

// Whether its field can hold each value.
// Here and below one arm a command, in the paper's order: the wire has these commands alone, and a match over the enum is checked to be whole.
pub fn fields_hold(ask: Ask) -> bool
    ensures { result ≡ fields_hold ask }
{
    match ask {
        Ask::Baud(n) => n < 256,
        Ask::Reset => true,
        Ask::SystemReset => true,
        Ask::ReadBlock(adr) => adr < 256,
        Ask::WriteBlock(adr) => adr < 256,
        Ask::SaveBlocks(adr) => adr < 256,
        Ask::RestoreBlocks(adr) => adr < 256,
        Ask::SetTimer(h, m, ms) => h < 256 && m < 256 && ms < 65536,
        Ask::SendTimer => true,
        Ask::Login(password) => password < 1 << 32,
        Ask::ReadRecords(k) => k < 65536,
        Ask::SendTable => true,
        Ask::RemoveRecords => true,
        Ask::ClearRecords => true,
    }
}

// What 0x82 answers 0x11.
fn save_denied(adr: u8) -> bool
    ensures { result ≡ (in_eeprom adr || not (names_some adr)) }
{
    in_eeprom(adr) || !names_some(adr)
}

// What 0x81 answers 0x11.
#[tactic(auto, unfolding(rules::specs::Config::line_legal))]
fn write_denied(adr: u8, bytes: [u8; BLOCK]) -> bool
    ensures { result ≡ (not (names_one adr) || bytes_unfit (block_of adr) bytes) }
{
    !names_one(adr)
        || block_of(adr) == 7 && !ruling::shape_legal(bytes[0], bytes[1], bytes[3], bytes[13])
}

// Whether a logged-in desk would answer 0x11.
pub fn is_denied(q: Request) -> bool
    requires { fields_hold q.ask ≡ true }
    ensures { result ≡ denied q }
{
    match q.ask {
        Ask::Baud(n) => n != 0,
        Ask::Reset => false,
        Ask::SystemReset => false,
        Ask::ReadBlock(adr) => !names_one(adr as u8),
        Ask::WriteBlock(adr) => write_denied(adr as u8, q.bytes),
        Ask::SaveBlocks(adr) => save_denied(adr as u8),
        Ask::RestoreBlocks(adr) => !names_some(adr as u8),
        Ask::SetTimer(h, m, ms) => {
            !timer::legal(Timer {
                hour: h as u8,
                minute: m as u8,
                ms: ms as u16,
            })
        }
        Ask::SendTimer => false,
        Ask::Login(password) => false,
        Ask::ReadRecords(k) => k == 0,
        Ask::SendTable => false,
        Ask::RemoveRecords => false,
        Ask::ClearRecords => false,
    }
}

// Whether each value is one that its field can hold and that a logged-in desk would not answer 0x11.
#[tactic(auto, unfolding(crate::specs::Request::in_range))]
pub fn in_range(q: Request) -> bool
    ensures { result ≡ in_range q }
{
    fields_hold(q.ask) && !is_denied(q)
}
