//! A queue of messages that keeps its rule.
ghost use Rattle.std.specs.Prelude.{◌≡◌, ◌+◌, ◌++◌, ◌∷◌, [], IfOk, MatchOption, MatchResult, true};
ghost use Rattle.crossbeam_queue.specs.SegTies.{IsSegPassOf};
ghost use Rattle.crawl_gate.specs.Seat.{IsSeatOf};
ghost use Rattle.crawl_queues.specs.Entries.{MayFollow};
ghost use Rattle.crawl_queues.specs.Growing.{Stays};
ghost use Rattle.crawl_queues.specs.Known.{begins_with};
ghost use Rattle.crawl_queues.specs.Rule.{undivided, pushing, popping, reunited};

use crate::entry::{Entry, Message};
use crate::growing::{Beginning, Growing};
use crate::rights::{Pass, PopRight, PushRight};
use crate::rule::{
    CountEmptyPop, Divide, PassView, Pop, Push, Reunite, Settle, Stamp, SubqueueRule,
};
use crawl_gate::Gate;
use crossbeam_queue::RuledSegQueue;
use std::alloc::{AllocError, Global};
use std::hint;
use std::marker::{Brand, Model};
use std::sync::Wait;
use std::sync::atomic::AtomicU64;
use std::sync::atomic::Ordering::SeqCst;
use std::time::Duration;

type Line = RuledSegQueue<Message, PassView, SubqueueRule>;

// The states of a bell: its worker does not wait for it, waits for it, or may be asleep until it rings.
const QUIET: u64 = 0;

const AWAITED: u64 = 1;

const ASLEEP: u64 = 2;

// The number of times that a worker looks at its bell before it sleeps: for some 60 microseconds, a few times as long as it takes
// to be woken. Nobody else writes to the bell until it rings, so these looks slow nobody down if each worker has a processor.
const LOOKS: u32 = 5_000;

// If a worker has no processor of its own, its looks keep the processor from the thread that would ring. So the more waits in a row
// were in vain, the fewer begin with looks. At least one in this number does.
const WAITS: u64 = 64;

/// The URLs that wait for one worker, first in, first out, and the bell that wakes that worker. In contracts it is the identity of
/// the queue; no contract depends on the bell.
pub struct Subqueue {
    line: Line,
    // identifies the list of what was sent, which the shard has
    list: Growing,
    bell: AtomicU64,
    // the number of waits since the bell last rang while its worker looked at it; only the worker uses it
    waits: AtomicU64,
}

impl Model for Subqueue {
    ghost use Rattle.crawl_queues.specs.QueueId.{QueueId, queue_id};

    ghost Value = { QueueId };

    ghost view = { λ q. queue_id q.line.web q.list };
}

/// Both rights to a queue that was not seen to be empty. Only [`Subqueue::held`] makes one, so it shows that the queue was
/// looked at.
#[derive(Drop)]
pub struct Held {
    pass: Pass,
    known: Beginning,
}

impl Model for Held {
    ghost use Rattle.crawl_queues.specs.QueueId.{queue_id};
    ghost use Rattle.crawl_queues.specs.PassId.{PassId};

    ghost Value = { PassId };

    ghost view = { λ h. record { subqueue = queue_id h.pass.web h.known.list; view = h.pass.me.view.client } };
}

impl Drop for Subqueue {
    fn drop(self) {
        let Self {
            line,
            list: _,
            bell: _,
            waits: _,
        } = self;
        line.destroy();
    }
}

// Writes the queue's home into the view of the pass that has both rights.
#[tactic(auto, using(crate::proofs::Passing::settles))]
fn settle<B: Stamp>(line: &Line, pass: &mut Pass, gate: &Gate, workers: u32, queue: u32)
    requires home { B.home ≡ record { gate = gate.now; workers = workers; queue = queue } }
    requires pass { IsSegPassOf line.now pass.old }
    requires undivided { pass.old.me.view.client ≡ undivided pass.old.me.view.client.home }
    ensures pass { IsSegPassOf line.now pass.new }
    ensures undivided { pass.new.me.view.client ≡ undivided record { gate = gate.now; workers = workers; queue = queue } }
{
    let _spent = line.another::<Settle<B>>(pass);
}

impl Subqueue {
    /// Makes the empty queue with this index, its two rights, and a beginning of its list.
    #[tactic(auto, using(crate::proofs::Passing::begins, crate::proofs::Passing::divides))]
    pub fn new(
        alloc: Global,
        gate: &Gate,
        workers: u32,
        queue: u32,
    ) -> Result<(Subqueue, PushRight, PopRight, Beginning), AllocError>
        ensures { IfOk result (λ r.
            (r.1.subqueue ≡ r.0) × (r.1.view ≡ pushing record { gate = gate.now; workers = workers; queue = queue } [])
            × (r.2.subqueue ≡ r.0) × (r.2.view ≡ popping record { gate = gate.now; workers = workers; queue = queue } [] 0)
            × (r.3.list ≡ r.0.list)) }
    {
        let (list, mut owner) = Growing::new(alloc)?;
        let (line, mut pass) = Line::with_rule(alloc)?;
        let known = list.new_beginning(&mut owner);
        let learned = list.new_beginning(&mut owner);
        settle::<Brand>(&line, &mut pass, gate, workers, queue);
        let other = line.another::<Divide>(&mut pass);
        Ok((
            Subqueue {
                line,
                list,
                bell: AtomicU64::new(QUIET),
                waits: AtomicU64::new(0),
            },
            PushRight { pass, owner },
            PopRight { pass: other, known },
            learned,
        ))
    }

    /// Adds a message at the end, and the entry `listed`, which must be the message's, to the list that the right owns. The message
    /// is returned if an allocation fails, or after nearly 2^62 pushes.
    pub fn push<R: Wait>(
        &self,
        rt: &R,
        right: &mut PushRight,
        message: Message,
        listed: &Entry,
    ) -> Result<(), Message>
        requires subqueue { right.old.subqueue ≡ self.now }
        requires unit { IsSeatOf right.old.view.home.gate message.unit }
        requires listed { listed.now ≡ message.entry }
        requires follows { MayFollow right.old.view.home.workers right.old.view.home.queue right.old.view.sent message.entry }
        ensures subqueue { right.new.subqueue ≡ self.now }
        ensures sent { MatchResult result
            (λ _. right.new.view ≡ pushing right.old.view.home (right.old.view.sent ++ message.entry ∷ []))
            (λ m. (m ≡ message) × (right.new.view ≡ right.old.view)) }
    {
        match self.line.push_as::<Push, R>(rt, &mut right.pass, message) {
            Ok(()) => {
                self.list.grow(&mut right.owner, listed);
                Ok(())
            }
            Err(message) => Err(message),
        }
    }

    /// Returns one more beginning of the list of what was sent, equal to this one.
    pub fn again(&self, known: &mut Beginning) -> Beginning
        requires { known.old.list ≡ self.now.list }
        ensures same { known.new ≡ known.old }
        ensures again { result ≡ known.old }
    {
        self.list.again(known)
    }

    /// Extends the beginning to the list of what was sent until now, which still has all its entries.
    pub fn extend_known(&self, right: &mut PushRight, learned: &mut Beginning)
        requires subqueue { right.old.subqueue ≡ self.now }
        requires learned { learned.old.list ≡ self.now.list }
        ensures same { right.new ≡ right.old }
        ensures learned { learned.new ≡ begins_with self.now.list right.old.view.sent }
        ensures stays { Stays learned.old.items learned.new.items }
    {
        self.list.catch_up(&mut right.owner, learned);
    }

    /// Takes the message at the front. If there is none, counts a pop that found nothing.
    pub fn pop<R: Wait>(&self, rt: &R, right: &mut PopRight) -> Option<Message>
        requires subqueue { right.old.subqueue ≡ self.now }
        ensures subqueue { right.new.subqueue ≡ self.now }
        ensures taken { MatchOption result
            (right.new.view ≡ popping right.old.view.home right.old.view.taken (right.old.view.empty_pops + 1))
            (λ m. (right.new.view ≡ popping right.old.view.home (right.old.view.taken ++ m.entry ∷ []) right.old.view.empty_pops)
            × IsSeatOf right.old.view.home.gate m.unit
            × MayFollow right.old.view.home.workers right.old.view.home.queue right.old.view.taken m.entry) }
    {
        match self.line.pop_as::<Pop, R>(rt, &mut right.pass) {
            Some(message) => Some(message),
            None => {
                let _spent = self.line.another::<CountEmptyPop>(&mut right.pass);
                None
            }
        }
    }

    /// Waits for the bell. The first call returns immediately, so that the worker looks for work once more. The second may
    /// look at the bell for a while. Each call after that sleeps until the bell rings, for at most `limit`. A call may return
    /// for no reason.
    ///
    /// From the first call on, the bell is not quiet until it rings. So a worker sleeps only if it found nothing after it
    /// began to wait, and a push after that finds the bell awaited, or rung since. A ring is not overwritten: a worker that
    /// looks at the bell sees it, and one that is about to sleep does not sleep, since the bell no longer says that it may.
    /// Every step is `SeqCst`.
    pub fn rest<R: Wait>(&self, rt: &R, limit: Duration) {
        match self.bell.load(SeqCst) {
            QUIET => self.bell.store(AWAITED, SeqCst),
            AWAITED => self.await_ring(),
            _ => self.bell.park_timeout(rt, ASLEEP as u32, limit),
        }
    }

    // Looks at the bell for a while, if that is likely to help. If the bell does not ring meanwhile, the thread that rings it
    // from now on has to wake its worker.
    fn await_ring(&self) {
        let waits = self.waits.fetch_add(1, SeqCst);
        let may_help = waits.is_power_of_two() || waits % WAITS == 0;
        if may_help && self.rings_soon() {
            self.waits.store(0, SeqCst);
        } else {
            let _ = self.bell.compare_exchange(AWAITED, ASLEEP, SeqCst, SeqCst);
        }
    }

    /// Looks at the bell up to `LOOKS` times, and returns whether it rang.
    fn rings_soon(&self) -> bool {
        for _ in 0..LOOKS {
            if self.bell.load(SeqCst) != AWAITED {
                return true;
            }
            hint::spin_loop();
        }
        false
    }

    /// Rings the bell if it is awaited: after a push, and when the gate may close. It wakes the worker only if the worker may
    /// be asleep. If several threads ring at the same time, one of them wakes it.
    pub fn ring(&self) {
        let is_awaited = self.bell.load(SeqCst) != QUIET;
        if is_awaited && self.bell.swap(QUIET, SeqCst) == ASLEEP {
            self.bell.wake_one();
        }
    }

    /// Whether the queue still contains messages. `None` is returned only if all that was sent was taken. It never waits.
    pub fn held(&self, push: PushRight, pop: PopRight) -> Option<Held>
        requires subqueue { (push.subqueue ≡ self.now) × (pop.subqueue ≡ self.now) }
        ensures { MatchOption result (push.view.sent ≡ pop.view.taken) (λ h. (h.subqueue ≡ self.now) × (h.view ≡ reunited push.view pop.view)) }
    {
        let PushRight { mut pass, owner: _ } = push;
        let PopRight { pass: other, known } = pop;
        self.line.absorb::<Reunite>(&mut pass, other);
        if self.line.is_empty_as::<Reunite>(&mut pass) {
            return None;
        }
        Some(Held { pass, known })
    }
}
