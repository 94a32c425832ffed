// CFG-ADR: bit 7 names EEPROM, bit 6 all blocks, bits 5 to 0 the block.
ghost use Rattle.std.specs.Prelude.{◌≡◌, ◌<◌};
ghost use Rattle.rules.specs.Config.{in_eeprom, all_blocks, block_of, names_one, names_some, password_in_ram};

use rules::BLOCKS;

#[tactic(auto, unfolding(rules::specs::Config::in_eeprom, rules::specs::Config::bit))]
pub fn in_eeprom(adr: u8) -> bool
    ensures { result ≡ in_eeprom adr }
{
    adr / 128 % 2 == 1
}

#[tactic(auto, unfolding(rules::specs::Config::all_blocks, rules::specs::Config::bit))]
pub fn all_blocks(adr: u8) -> bool
    ensures { result ≡ all_blocks adr }
{
    adr / 64 % 2 == 1
}

#[tactic(auto, unfolding(rules::specs::Config::block_of))]
pub fn block_of(adr: u8) -> usize
    ensures { (result ≡ block_of adr) × (result < 64) }
{
    adr as usize % 64
}

// What 0x80 and 0x81 take.
#[tactic(auto, unfolding(rules::specs::Config::names_one, rules::specs::Config::exists))]
pub fn names_one(adr: u8) -> bool
    ensures { result ≡ names_one adr }
{
    !all_blocks(adr) && block_of(adr) < BLOCKS
}

// What 0x82 and 0x83 take.
#[tactic(auto, unfolding(rules::specs::Config::names_some, rules::specs::Config::exists))]
pub fn names_some(adr: u8) -> bool
    ensures { result ≡ names_some adr }
{
    if all_blocks(adr) {
        block_of(adr) == 0
    } else {
        block_of(adr) < BLOCKS
    }
}

// What 0x81 turns down: block 0 with LOC 0.
#[tactic(auto, unfolding(rules::specs::Config::password_in_ram))]
pub fn password_in_ram(adr: u8) -> bool
    ensures { result ≡ password_in_ram adr }
{
    block_of(adr) == 0 && !in_eeprom(adr)
}
