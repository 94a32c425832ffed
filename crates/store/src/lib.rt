// The store: where things lie in it. Offsets are read and obeyed.
#![tactic(auto)]

ghost use Rattle.std.specs.Prelude.{◌≡◌, ◌≤◌, ◌<◌, length};
ghost use Rattle.table.specs.Entries.{desks};
ghost use Rattle.store.specs.Layout.{store_size, area_count, header_size, size_of, header, start_of, used_of, row_at};

// The store's octets.
pub const SIZE: usize = 40960;

// Where the fields of a row begin, from its first octet on: each right behind the one before it.
pub const RAM: usize = 0;

pub const EEPROM: usize = RAM + rules::MEMORY;

pub const VALID: usize = EEPROM + rules::MEMORY;

pub const LOGIN: usize = VALID + 2;

pub const TIMER: usize = LOGIN + 1;

pub const MARK: usize = TIMER + 4;

pub const DUE: usize = MARK + 1;

pub const TAB_START: usize = DUE + 1;

pub const LOCKED: usize = TAB_START + 1;

pub const LOCKS: usize = LOCKED + 1;

// A row's octets: the locks are its last field.
pub const ROW: usize = LOCKS + lockarea::WIDTH * locks::MOST;

// How many entries the table has, and its octets.
pub const ENTRIES: usize = 512;

pub const TABLE: usize = table::WIDTH * ENTRIES;

// The areas: the header, the rows, the entries; how many they are, and the octets of each.
pub const HEADER_AREA: usize = 0;

pub const ROWS_AREA: usize = 1;

pub const ENTRIES_AREA: usize = 2;

pub const AREAS: usize = 3;

const SIZES: [usize; AREAS] = [HEADER, ROW * table::DESKS, TABLE];

// In the header: the count of entries in use, behind an offset of two octets for each other area; and the header's octets.
pub const USED: usize = (AREAS - 1) * 2;

pub const HEADER: usize = USED + 2;

// Each asks that the header is there, in the lent store, and that k is an area:
// a struct around it would owe the clause that its field is still that reference.

// How many octets area k has.
pub fn size(k: usize) -> usize
    requires { k < area_count }
    ensures { (result ≡ size_of k) × (result ≤ store_size) }
{
    SIZES[k]
}

// Where area k begins.
pub fn start(s: &[u8], k: usize) -> usize
    requires { (k < area_count) × (header_size ≤ length s.now) }
    ensures { (result ≡ start_of (header s.now) k) × (result ≤ 65535) }
{
    if k == HEADER_AREA {
        0
    } else {
        octets::get16(s, (k - 1) * 2) as usize
    }
}

// How many entries are in use.
pub fn used(s: &[u8]) -> usize
    requires { header_size ≤ length s.now }
    ensures { (result ≡ used_of (header s.now)) × (result ≤ 65535) }
{
    octets::get16(s, USED) as usize
}

// Where the row of desk d begins.
pub fn row_at(s: &[u8], d: usize) -> usize
    requires { (d < desks) × (header_size ≤ length s.now) }
    ensures { (result ≡ row_at d s.now) × (result ≤ 100000) }
{
    start(s, ROWS_AREA) + ROW * d
}
