// The number of a desk. A file of its own, since a struct with a ghost field imports each `ghost use` of its file.
#![tactic(auto)]

ghost use Rattle.std.specs.Prelude.{◌≡◌, ◌<◌, ◌↔◌, IsSome, IfSome};
ghost use Rattle.table.specs.Entries.{desks};

// One of the eight.
#[derive(Clone, Copy)]
pub struct DeskNumber {
    pub number: u8,
    pub ghost low: { number < desks },
}

impl DeskNumber {
    pub fn of(n: u64) -> Option<DeskNumber>
        ensures valid { IsSome result ↔ (n < desks) }
        ensures value { IfSome result (λ d. d.number ≡ n) }
    {
        if ruling::no_desk(n) {
            None
        } else {
            Some(DeskNumber { number: n as u8 })
        }
    }
}
