//! Steps on a shard's table of counts: how many entries of each sender it accepted.
ghost use Rattle.std.specs.Prelude.{◌≡◌, ◌==◌, ℕ, OnOk, OnErr, IsSome, if◌then◌else◌};
ghost use Rattle.std.specs.BTreeMap.{get};
ghost use Rattle.std.specs.Ordering.{nat_cmp};
ghost use Rattle.crawl_frontier.specs.Tables.{count_in};

use std::alloc::AllocError;
use std::collections::BTreeMap;

/// The number of entries of each sender, by its id.
pub type Counts = BTreeMap<u64, u64>;

/// Returns the number of the sender's entries. It is 0 for a sender that is not in the table.
pub fn count(counts: &Counts, sender: u64) -> u64
    ensures { result ≡ count_in counts.now sender }
{
    match counts.get(&sender) {
        Some(count) => *count,
        None => 0,
    }
}

// Writes the count of a sender.
fn set_count(counts: &mut Counts, sender: u64, count: u64) -> Result<(), AllocError>
    ensures ok { OnOk result ((s : ℕ) → count_in counts.new s ≡ (if sender == s then count else count_in counts.old s)) }
    ensures there { OnOk result (IsSome (get nat_cmp counts.new sender)) }
    ensures err { OnErr result ((s : ℕ) → count_in counts.new s ≡ count_in counts.old s) }
{
    match counts.insert(sender, count) {
        Ok(_) => Ok(()),
        Err(_) => Err(AllocError),
    }
}

/// Makes sure that the sender has an entry, with its present count, so that raising the count allocates nothing.
#[tactic(auto, using(crate::proofs::Undo::has_entry, crate::proofs::Undo::rewritten))]
pub fn enter_sender(counts: &mut Counts, sender: u64, count: u64) -> Result<(), AllocError>
    requires { count_in counts.old sender ≡ count }
    ensures same { (s : ℕ) → count_in counts.new s ≡ count_in counts.old s }
    ensures there { OnOk result (IsSome (get nat_cmp counts.new sender)) }
{
    if count > 0 {
        return Ok(());
    }
    let Ok(()) = set_count(counts, sender, count) else {
        return Err(AllocError);
    };
    Ok(())
}

/// Writes the count of a sender that has an entry, which allocates nothing.
pub fn raise(counts: &mut Counts, sender: u64, count: u64)
    requires { IsSome (get nat_cmp counts.old sender) }
    ensures { (s : ℕ) → count_in counts.new s ≡ (if sender == s then count else count_in counts.old s) }
{
    let Ok(_) = counts.insert(sender, count) else {
        unreachable!()
    };
}
