//! What a session needs in addition to the events: handing the unit of a URL in progress to a sender, the progress of a subqueue,
//! and the number of units that are held.
ghost use Rattle.std.specs.Prelude.{◌≡◌, false, slice_get, unwrap_or, IfOk, OnErr, OnOk, option_map};
ghost use Rattle.std.specs.BTreeMap.{is_at, insert_entry};
ghost use Rattle.std.specs.BTreeSet.{insert_key};
ghost use Rattle.std.specs.List.{list_any};
ghost use Rattle.std.specs.Map.{remove_entry};
ghost use Rattle.std.specs.Ordering.{nat_cmp};
ghost use Rattle.crawl_core.specs.Handing.{Hands, lets_in, progress_of};
ghost use Rattle.crawl_core.specs.Shows.{Shows};
ghost use Rattle.crawl_core.specs.State.{State, count_of};

use super::Core;
use crate::error::NoMemory;
use crate::progress::Progress;
use crate::word::Word;
use std::alloc::AllocError;
use std::collections::{BTreeMap, BTreeSet};

impl Core {
    /// Returns the number of units that are held.
    #[tactic(auto, using(crate::proofs::Handing::kept_count_of))]
    pub fn count(&self) -> u64
        ensures { (state : State) → Shows self.now state → result ≡ count_of state }
    {
        self.count
    }

    /// Returns the progress of the subqueue, or `None` if there is no such subqueue.
    #[tactic(auto, using(crate::proofs::Handing::kept_progress_of))]
    pub fn progress(&self, queue: u32) -> Option<Progress>
        ensures { (state : State) → Shows self.now state → result ≡ progress_of state queue }
    {
        self.queues.progress(queue)
    }

    /// Hands the unit of the URL that the subqueue is busy with to the sender: `Done`, then `Look` and `Enter`, which are not
    /// refused. Returns `false`, and changes nothing, if the subqueue is not busy, the gate is closed or the sender holds a unit.
    ///
    /// # Errors
    /// Out of memory. The machine is then unchanged.
    pub fn hand_over(&mut self, queue: u32, sender: u64) -> Result<bool, NoMemory>
        ensures hands { IfOk result (λ handed. Hands self.old queue sender handed self.new) }
        ensures err { OnErr result (self.new ≡ self.old) }
    {
        if !self.is_fetching(queue) {
            return Ok(false);
        }
        if !self.lets_in(sender) {
            return Ok(false);
        }
        let word = self.word();
        enter(&mut self.holders, &mut self.remembered, sender, word)?;
        self.queues.finish(queue);
        Ok(true)
    }

    /// Whether the queue exists and the URL that was taken from it last is not done.
    fn is_fetching(&self, queue: u32) -> bool
        ensures { result ≡ unwrap_or (option_map (λ queue. queue.busy) (slice_get self.now.queues queue)) false }
    {
        self.queues.is_busy(queue).unwrap_or(false)
    }

    /// Whether the gate is open and the sender holds no unit, so that it can get one.
    fn lets_in(&self, sender: u64) -> bool
        ensures { result ≡ lets_in self.now.gate sender }
    {
        !self.closed && !self.holders.contains(&sender)
    }
}

/// Adds the sender to the holders, and removes the word that it remembers: the effect of `Look` and `Enter`.
///
/// # Errors
/// Out of memory. Nothing changes.
#[tactic(auto, using(crate::proofs::Handing::back_out))]
fn enter(
    holders: &mut BTreeSet<u64>,
    remembered: &mut BTreeMap<u64, Word>,
    sender: u64,
    word: Word,
) -> Result<(), NoMemory>
    requires { list_any (is_at (nat_cmp sender)) holders.old.keys ≡ false }
    ensures holders { OnOk result (holders.new.keys ≡ insert_key nat_cmp holders.old.keys sender) }
    ensures remembered { OnOk result (remembered.new.entries ≡ remove_entry (is_at (nat_cmp sender)) (insert_entry nat_cmp remembered.old.entries sender word)) }
    ensures same_holders { OnErr result (holders.new.keys ≡ holders.old.keys) }
    ensures same_words { OnErr result (remembered.new.entries ≡ remembered.old.entries) }
{
    holders.insert(sender)?;
    if remembered.insert(sender, word).is_err() {
        holders.remove(&sender);
        return Err(AllocError);
    }
    remembered.remove(&sender);
    Ok(())
}
