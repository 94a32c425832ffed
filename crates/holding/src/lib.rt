// The records that a sound store holds for a desk: counted, told, added and removed. What was done is said by the desk that the store
// then says.
// Each asks for a sound store: a struct around the store, which workers write to, would owe the clause that its field is still that reference.
#![tactic(auto)]

ghost use Rattle.std.specs.Prelude.{◌≡◌, true, ◌+◌, ◌*◌, ◌≤◌, ◌<◌, length, take, drop};
ghost use Rattle.octets.specs.Parts.{put};
ghost use Rattle.table.specs.Entries.{record_width, share};
ghost use Rattle.rules.specs.Records.{counted, with_record};
ghost use Rattle.rules.specs.Legal.{record_legal, desk_legal};
ghost use Rattle.store.specs.Sound.{sound};
ghost use Rattle.doings.specs.Doing.{on_table};
ghost use Rattle.keeping.specs.Kept.{kept, Says, with_held};

use keeping::desk_number::DeskNumber;
use table::RECORD;

// How many records the desk holds.
pub fn held(s: &[u8], d: DeskNumber) -> usize
    requires { sound s.now ≡ true }
    ensures { (result ≡ length (kept d.number s.now).table.held) × (result ≤ share) }
{
    let at = store::start(s, store::ENTRIES_AREA);
    let n = store::used(s);
    table::held(&s[at..at + store::TABLE], n, d.number)
}

// The count, and then the first n records of the desk, go to the output.
pub fn tell_records(s: &[u8], d: DeskNumber, n: usize, out: &mut [u8], at: usize)
    requires { (sound s.now ≡ true) × (n ≤ length (kept d.number s.now).table.held) × (at + 2 + record_width * n ≤ length out.old) }
    ensures { out.new ≡ put at (counted (take n (kept d.number s.now).table.held)) out.old }
{
    octets::put::<2>(out, at, n as u64);
    let from = store::start(s, store::ENTRIES_AREA);
    let used = store::used(s);
    let to = at + 2;
    table::gather(
        &s[from..from + store::TABLE],
        used,
        d.number,
        n,
        &mut out[to..],
    );
}

// A record goes behind those of all desks.
pub fn add_record(s: &mut [u8], d: DeskNumber, r: [u8; RECORD])
    requires { (sound s.old ≡ true) × (length (kept d.number s.old).table.held < share) × (record_legal r ≡ true) }
    ensures { Says d.number (on_table (with_record r) (kept d.number s.old)) s.old s.new }
{
    let at = store::start(s, store::ENTRIES_AREA);
    let n = store::used(s);
    table::append(&mut s[at..at + store::TABLE], n, d.number, r);
    octets::put::<2>(s, store::USED, (n + 1) as u64);
}

// The first k records of the desk go.
pub fn remove_first(s: &mut [u8], d: DeskNumber, k: usize)
    requires { (sound s.old ≡ true) × (desk_legal (with_held (drop k (kept d.number s.old).table.held) (kept d.number s.old)) ≡ true) }
    ensures { Says d.number (with_held (drop k (kept d.number s.old).table.held) (kept d.number s.old)) s.old s.new }
{
    let at = store::start(s, store::ENTRIES_AREA);
    let n = store::used(s);
    let left = table::remove(&mut s[at..at + store::TABLE], n, d.number, k);
    octets::put::<2>(s, store::USED, left as u64);
}
