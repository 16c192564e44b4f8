//! The state of a session, and how a request changes it.
ghost use Rattle.std.specs.Prelude.{◌≡◌, None, Some, get_or, length, replicate, slice_get, IfOk, OnErr};
ghost use Rattle.crawl_session.specs.Exchanges as spec;
ghost use Rattle.crawl_session.specs.Frontiers as kept;
ghost use Rattle.crawl_session.specs.Frontiers.{deferrals_at, no_deferrals};
ghost use Rattle.crawl_session.specs.Seen.{none_seen};
ghost use Rattle.crawl_session.specs.Serving.{Comes, GivesUp};
ghost use Rattle.crawl_session.specs.Stats.{stats_at, stats_below, waiting_at};
ghost use Rattle.crawl_session.specs.declared.answer.Answer.{Answer};
ghost use Rattle.crawl_session.specs.declared.deferrals.Deferred.{Deferred};

use crate::answer::Answer;
use crate::deferrals::{DeferralQueues, Deferred};
use crate::exchange::{again, end_seeds, finish, next, offer};
use crate::request::Request;
use crate::seen::SeenCounts;
use crate::stats::{Stats, waiting_of};
use crawl_core::{Core, Event, NoMemory, Refusal, Reply, Text};
use std::alloc::{AllocError, Global};
use std::marker::Model;

/// A machine, the URLs that were put back and are not done, and how many offers were answered `seen`.
#[derive(Drop)]
pub struct Frontier {
    core: Core,
    deferrals: DeferralQueues,
    /// The number of senders that these URLs have had. They are numbered from 1.
    senders: u64,
    pub(crate) seen: SeenCounts,
}

impl Model for Frontier {
    ghost use Rattle.crawl_session.specs.Frontiers.{KeptFrontier};

    ghost Value = { KeptFrontier };

    ghost view = { λ f. record { machine = f.core; deferrals = f.deferrals; senders = f.senders; seen = f.seen } };
}

impl Frontier {
    /// Creates a frontier from a new machine with that number of queues.
    ///
    /// # Errors
    /// Out of memory.
    pub fn new(alloc: Global, core: Core, workers: u32) -> Result<Frontier, NoMemory>
        ensures { IfOk result (λ frontier. frontier ≡ record { machine = core; deferrals = replicate workers no_deferrals; senders = 0; seen = none_seen workers }) }
    {
        let deferrals = DeferralQueues::new(alloc, workers)?;
        let seen = SeenCounts::new(alloc, workers)?;
        Ok(Frontier {
            core,
            deferrals,
            senders: 0,
            seen,
        })
    }

    /// Returns the answer to a request.
    ///
    /// # Errors
    /// Out of memory. The frontier is then as before, except for the word that its client remembers.
    #[tactic(auto, using(crate::proofs::Lifts::given_up_immediately))]
    pub fn exchange(&mut self, request: Request) -> Result<Answer, NoMemory>
        ensures comes { IfOk result (λ answer. Comes (λ state. spec.exchange state request) self.old answer self.new) }
        ensures err { OnErr result (GivesUp self.old self.new) }
    {
        let reply = match request {
            Request::Offer { url, queue } => self.offer(url, queue)?,
            Request::Next { queue } => self.next(queue)?,
            Request::Again { queue } => self.again(queue)?,
            Request::Later { queue } => self.later(queue)?,
            Request::Done { queue } => self.done(queue)?,
            Request::EndSeeds => self.end_seeds()?,
            Request::Seen { queue, count } => self.count_seen(queue, count),
            Request::Stats { queue } => return self.stats(queue),
        };
        Ok(Answer::Replied(reply))
    }

    /// Offers the URL to the queue, and counts the offer if it is answered `seen`.
    fn offer(&mut self, url: Text, queue: u32) -> Result<Reply, NoMemory>
        ensures comes { IfOk result (λ reply. Comes (λ state. spec.noted queue (spec.by_machine state (spec.offering state.machine url queue))) self.old (Answer.Replied reply) self.new) }
        ensures err { OnErr result (GivesUp self.old self.new) }
    {
        let reply = self.offer_url(url, queue)?;
        self.seen.note(queue, &reply);
        Ok(reply)
    }

    // `offer_url`, `end_seeds`, `take` and `finish` only call `exchange.rt`. They are functions only for the prover: each states for the
    // frontier what its call does to the machine.

    /// Offers the URL to the machine's queue, for the session's client.
    #[tactic(auto, using(crate::proofs::Lifts::gives_up_lifts))]
    fn offer_url(&mut self, url: Text, queue: u32) -> Result<Reply, NoMemory>
        ensures comes { IfOk result (λ reply. Comes (λ state. spec.by_machine state (spec.offering state.machine url queue)) self.old (Answer.Replied reply) self.new) }
        ensures err { OnErr result (GivesUp self.old self.new) }
    {
        offer(&mut self.core, url, queue)
    }

    /// Gives back the opening unit: no more seeds will come.
    #[tactic(auto, using(crate::proofs::Lifts::same_lifts))]
    fn end_seeds(&mut self) -> Result<Reply, NoMemory>
        ensures comes { IfOk result (λ reply. Comes (λ state. spec.by_machine state (spec.seeds_ended state.machine)) self.old (Answer.Replied reply) self.new) }
        ensures err { OnErr result (self.new ≡ self.old) }
    {
        end_seeds(&mut self.core)
    }

    /// Takes the first URL that was put back, if it is due, or else the first that waits in the machine's queue. It is refused
    /// while the queue is busy with a URL that was put back.
    fn next(&mut self, queue: u32) -> Result<Reply, NoMemory>
        ensures comes { IfOk result (λ reply. Comes (λ state. spec.taking_next state queue (deferrals_at state queue).waiting (deferrals_at state queue).fetched) self.old (Answer.Replied reply) self.new) }
        ensures err { OnErr result (self.new ≡ self.old) }
    {
        if self.deferrals.fetched(queue).is_some() {
            return Ok(Reply::Refused(Refusal::Busy));
        }
        if self.is_due(queue) {
            return self.retake(queue);
        }
        self.take(queue)
    }

    /// Whether the first URL that was put back is next.
    fn is_due(&self, queue: u32) -> bool
        ensures { (state : kept.Frontier) → kept.Shows self.now state → result ≡ spec.is_due (slice_get state.machine.subqueues queue) (deferrals_at state queue).waiting }
    {
        let Some(progress) = self.core.progress(queue) else {
            return false;
        };
        let Some(first) = self.deferrals.first(queue) else {
            return false;
        };
        !progress.busy && progress.taken >= first.after
    }

    /// Makes the queue busy with the first URL that was put back, and returns that URL. The machine is not involved.
    fn retake(&mut self, queue: u32) -> Result<Reply, NoMemory>
        ensures comes { IfOk result (λ reply. Comes (λ state. spec.retaking state queue (deferrals_at state queue).waiting) self.old (Answer.Replied reply) self.new) }
        ensures err { OnErr result (self.new ≡ self.old) }
    {
        let Some(first) = self.deferrals.first(queue) else {
            return Ok(Reply::Refused(Refusal::Busy));
        };
        let url = first.url.clone()?;
        self.deferrals.retake(queue);
        Ok(Reply::Taken(url))
    }

    /// Takes a URL from the machine's queue. If the queue is empty, tries to close the gate.
    #[tactic(auto, using(crate::proofs::Steps::never_refused))]
    fn take(&mut self, queue: u32) -> Result<Reply, NoMemory>
        ensures comes { IfOk result (λ reply. Comes (λ state. spec.by_machine state (spec.taking state.machine queue)) self.old (Answer.Replied reply) self.new) }
        ensures err { OnErr result (self.new ≡ self.old) }
    {
        next(&mut self.core, queue)
    }

    /// Returns the URL that the queue is busy with.
    fn again(&self, queue: u32) -> Result<Reply, NoMemory>
        ensures { IfOk result (λ reply. Comes (λ state. spec.taking_again state queue (deferrals_at state queue).fetched) self.now (Answer.Replied reply) self.now) }
    {
        match self.deferrals.fetched(queue) {
            Some(url) => Ok(Reply::Taken(url.url.clone()?)),
            None => again(&self.core, queue),
        }
    }

    /// Finishes the URL that the queue is busy with, whether or not it was put back before.
    fn done(&mut self, queue: u32) -> Result<Reply, NoMemory>
        ensures comes { IfOk result (λ reply. Comes (λ state. spec.finishing state queue (deferrals_at state queue).fetched) self.old (Answer.Replied reply) self.new) }
        ensures err { OnErr result (self.new ≡ self.old) }
    {
        match self.deferrals.sender(queue) {
            Some(sender) => self.finish_again(queue, sender),
            None => self.finish(queue),
        }
    }

    /// Finishes the URL that the machine's queue is busy with, which gives back its unit.
    #[tactic(auto, using(crate::proofs::Lifts::same_lifts))]
    fn finish(&mut self, queue: u32) -> Result<Reply, NoMemory>
        ensures comes { IfOk result (λ reply. Comes (λ state. spec.by_machine state (spec.done_with state.machine queue)) self.old (Answer.Replied reply) self.new) }
        ensures err { OnErr result (self.new ≡ self.old) }
    {
        finish(&mut self.core, queue)
    }

    /// Gives back the unit of a URL that was put back before.
    fn finish_again(&mut self, queue: u32, sender: u64) -> Result<Reply, NoMemory>
        ensures comes { IfOk result (λ reply. Comes (λ state. spec.finishing_again state queue sender) self.old (Answer.Replied reply) self.new) }
        ensures err { OnErr result (self.new ≡ self.old) }
    {
        let reply = self.core.step(&Event::Back { sender })?;
        if is_count(&reply) {
            self.deferrals.finish(queue);
        }
        Ok(reply)
    }

    /// Puts the URL that the queue is busy with back to the end of the queue, whether or not it was put back before.
    fn later(&mut self, queue: u32) -> Result<Reply, NoMemory>
        ensures comes { IfOk result (λ reply. Comes (λ state. spec.deferring state queue (deferrals_at state queue).fetched) self.old (Answer.Replied reply) self.new) }
        ensures err { OnErr result (self.new ≡ self.old) }
    {
        if self.deferrals.fetched(queue).is_some() {
            return self.put_back(queue);
        }
        self.defer(queue)
    }

    /// Puts a URL back that was put back before.
    fn put_back(&mut self, queue: u32) -> Result<Reply, NoMemory>
        ensures comes { IfOk result (λ reply. (url : Deferred) → (get_or self.old.deferrals queue no_deferrals).fetched ≡ Some url → Comes (λ state. spec.deferring state queue (Some url)) self.old (Answer.Replied reply) self.new) }
        ensures err { OnErr result (self.new ≡ self.old) }
    {
        let after = self.accepted_in(queue);
        self.deferrals.put_back(queue, after)?;
        Ok(Reply::Count(self.core.count()))
    }

    /// Returns how many URLs the queue has accepted. It is 0 if there is no such queue.
    fn accepted_in(&self, queue: u32) -> usize
        ensures { (state : kept.Frontier) → kept.Shows self.now state → result ≡ spec.accepted_in state.machine queue }
    {
        match self.core.progress(queue) {
            Some(progress) => progress.accepted,
            None => 0,
        }
    }

    /// Puts the URL back that the machine's queue is busy with.
    fn defer(&mut self, queue: u32) -> Result<Reply, NoMemory>
        ensures comes { IfOk result (λ reply. Comes (λ state. spec.deferring state queue None) self.old (Answer.Replied reply) self.new) }
        ensures err { OnErr result (self.new ≡ self.old) }
    {
        let url = match self.core.in_fetch(queue) {
            None => return Ok(Reply::Refused(Refusal::NoSuch)),
            Some(None) => return Ok(Reply::Refused(Refusal::Nothing)),
            Some(Some(url)) => url.clone()?,
        };
        self.defer_first(queue, url)
    }

    /// Hands the unit of the URL to a sender of its own.
    fn defer_first(&mut self, queue: u32, url: Text) -> Result<Reply, NoMemory>
        ensures comes { IfOk result (λ reply. Comes (λ state. spec.deferring_first state queue url) self.old (Answer.Replied reply) self.new) }
        ensures err { OnErr result (self.new ≡ self.old) }
    {
        let Some(sender) = self.senders.checked_add(1) else {
            return Err(AllocError);
        };
        let count = self.core.count();
        let after = self.accepted_in(queue);
        let url = Deferred { url, sender, after };
        let handed = self.deferrals.hand_over(&mut self.core, queue, url)?;
        if !handed {
            return Ok(Reply::Refused(Refusal::Nothing));
        }
        self.senders = sender;
        Ok(Reply::Count(count))
    }

    /// Counts that many more offers to the queue as answered `seen`. It is refused if there is no such queue.
    fn count_seen(&mut self, queue: u32, count: u64) -> Reply
        ensures { Comes (λ state. spec.counting_seen state queue count) self.old (Answer.Replied result) self.new }
    {
        if self.seen.add(queue, count) {
            Reply::Seen
        } else {
            Reply::Refused(Refusal::NoSuch)
        }
    }

    /// Counts the URLs of one queue, or of all queues if `queue` is `None`. It is refused if there is no such queue.
    fn stats(&self, queue: Option<u32>) -> Result<Answer, NoMemory>
        ensures { IfOk result (λ answer. Comes (λ state. spec.counting state queue) self.now answer self.now) }
    {
        let Some(queue) = queue else {
            return Ok(Answer::Counted(self.all_stats()?));
        };
        match self.queue_stats(queue)? {
            Some(stats) => Ok(Answer::Counted(stats)),
            None => Ok(Answer::Replied(Reply::Refused(Refusal::NoSuch))),
        }
    }

    /// Counts the URLs of the queue, if there is one.
    fn queue_stats(&self, queue: u32) -> Result<Option<Stats>, NoMemory>
        ensures { IfOk result (λ stats. (state : kept.Frontier) → kept.Shows self.now state → stats ≡ stats_at state queue) }
    {
        let Some(progress) = self.core.progress(queue) else {
            return Ok(None);
        };
        let Some(seen) = self.seen.get(queue) else {
            return Ok(None);
        };
        let is_busy = self.deferrals.fetched(queue).is_some();
        let put_back = self.deferrals.waiting(queue);
        let stats = Stats::of_queue(progress, put_back, is_busy, seen)?;
        Ok(Some(stats))
    }

    /// Returns how many URLs wait in the queue. It is 0 if there is no such queue.
    ///
    /// # Errors
    /// The number is too large.
    pub(crate) fn waiting(&self, queue: u32) -> Result<u64, NoMemory>
        ensures { IfOk result (λ count. (state : kept.Frontier) → kept.Shows self.now state → count ≡ waiting_at state queue) }
    {
        let Some(progress) = self.core.progress(queue) else {
            return Ok(0);
        };
        waiting_of(progress, self.deferrals.waiting(queue))
    }

    /// Counts the URLs of all queues.
    fn all_stats(&self) -> Result<Stats, NoMemory>
        ensures { IfOk result (λ stats. (state : kept.Frontier) → kept.Shows self.now state → stats ≡ stats_below state (length self.now.deferrals)) }
    {
        let Ok(queues) = u32::try_from(self.deferrals.len()) else {
            return Err(AllocError);
        };
        let mut all = Stats::none();
        for queue in 0..queues {
            let stats = self.queue_stats(queue)?.unwrap_or(Stats::none());
            all = all.plus(&stats)?;
        }
        Ok(all)
    }
}

/// Whether the reply is the number of units that are still out, so that a unit was given back.
fn is_count(reply: &Reply) -> bool
    ensures { result ≡ spec.is_count reply.now }
{
    matches!(reply, Reply::Count(_))
}
