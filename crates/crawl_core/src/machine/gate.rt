//! The events that read or change the gate.
ghost use Rattle.std.specs.Prelude.{◌≡◌, IfOk, OnErr};
ghost use Rattle.crawl_core.specs.Kept.{kept_word};
ghost use Rattle.crawl_core.specs.Moves.{Moves};
ghost use Rattle.crawl_core.specs.declared.event.Event.{Event};

use super::Core;
use crate::error::NoMemory;
use crate::event::Event;
use crate::reply::{Refusal, Reply};
use crate::word::Word;

impl Core {
    /// Returns the gate's word: the number of units that are held, and whether the gate is closed.
    pub(super) fn word(&self) -> Word
        ensures { result ≡ kept_word self.now }
    {
        Word {
            count: self.count,
            closed: self.closed,
        }
    }

    /// Replies with the gate's word, and stores it as the one that the sender remembers.
    pub(super) fn look(&mut self, sender: u64) -> Result<Reply, NoMemory>
        ensures moves { IfOk result (λ reply. Moves self.old (Event.Look sender) reply self.new) }
        ensures err { OnErr result (self.new ≡ self.old) }
    {
        let word = self.word();
        self.remembered.insert(sender, word)?;
        Ok(Reply::Word {
            count: word.count,
            closed: word.closed,
        })
    }

    /// Takes a unit for the sender, if the gate's word is still the one that it remembers. The reply `Lost` means that the word has
    /// changed, and that the sender has to read it again. The event is refused if the gate is closed or all units are held.
    pub(super) fn enter(&mut self, sender: u64) -> Result<Reply, NoMemory>
        ensures moves { IfOk result (λ reply. Moves self.old (Event.Enter sender) reply self.new) }
        ensures err { OnErr result (self.new ≡ self.old) }
    {
        if self.holders.contains(&sender) {
            return Ok(Reply::Refused(Refusal::Busy));
        }
        let Some(remembered) = self.remembered.get(&sender).copied() else {
            return Ok(Reply::Refused(Refusal::Nothing));
        };
        if remembered != self.word() {
            return Ok(Reply::Lost);
        }
        if self.closed {
            return Ok(Reply::Refused(Refusal::Closed));
        }
        if self.count == self.max {
            return Ok(Reply::Refused(Refusal::Full));
        }
        self.holders.insert(sender)?;
        self.remembered.remove(&sender);
        self.count += 1;
        Ok(Reply::Entered(self.count))
    }

    /// Gives the sender's unit back. Refused if the sender holds none.
    pub(super) fn back(&mut self, sender: u64) -> Reply
        ensures { Moves self.old (Event.Back sender) result self.new }
    {
        if !self.holders.remove(&sender) {
            return Reply::Refused(Refusal::Nothing);
        }
        self.count -= 1;
        Reply::Count(self.count)
    }

    /// Gives the opening unit back. Refused if that was done before.
    pub(super) fn end_seeds(&mut self) -> Reply
        ensures { Moves self.old Event.EndSeeds result self.new }
    {
        if !self.opening {
            return Reply::Refused(Refusal::Nothing);
        }
        self.opening = false;
        self.count -= 1;
        Reply::Count(self.count)
    }

    /// Closes the gate if no unit is held. Otherwise nothing changes, and the reply is `Pending` with the number of units.
    pub(super) fn close(&mut self) -> Reply
        ensures { Moves self.old Event.Close result self.new }
    {
        if self.closed || self.count == 0 {
            self.closed = true;
            return Reply::Closed;
        }
        Reply::Pending(self.count)
    }
}
