// Whether a lock list is legal: the ticks of each lock, and no UID twice.
#![tactic(auto)]

ghost use Rattle.std.specs.Prelude.{◌≡◌};
ghost use Rattle.octets.specs.Tests.{all_of};
ghost use Rattle.locks.specs.Locks.{lock_legal, distinct};
ghost use Rattle.locklegal.specs.Buckets.{bucket_of};

use locks::Lock;

// Whether each lock has ticks from 1 up to `valid`.
pub fn each_legal(locks: &[Lock], valid: u16) -> bool
    ensures { result ≡ all_of (lock_legal valid) locks.now }
{
    locks.iter().all(|l| 1 <= l.left && l.left <= valid)
}

// A UID's bucket. By a prime, so that each octet counts.
fn bucket_of(uid: u64) -> usize
    ensures { result ≡ bucket_of uid }
{
    (uid % 251) as usize
}

// Whether no UID stands twice. From the last to the first each is looked for behind itself; buckets of those that were met spare most of
// these searches.
pub fn all_differ(locks: &[Lock]) -> bool
    ensures { result ≡ distinct locks.now }
{
    let mut taken = [false; 256];
    for i in (0..locks.len()).rev() {
        let uid = locks[i].uid;
        let bucket = bucket_of(uid);
        if taken[bucket] && locks::find(&locks[i + 1..], uid).is_some() {
            return false;
        }
        taken[bucket] = true;
    }
    true
}
