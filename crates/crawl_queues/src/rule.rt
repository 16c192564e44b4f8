//! The rule that each queue keeps, and the moves of its passes.
ghost use Rattle.crawl_queues.specs.Rule.{no_home};

use crate::entry::{Entry, Message};
use crawl_gate::Gate;
use crossbeam_queue::protocol::{Join, Lesson, Outcome, Protocol, Split};
use std::collections::LinkedList;
use std::marker::{Brand, PhantomData};

/// The gate whose units a queue's messages hold, the number of queues, and which of them it is. It is only for clauses: no
/// value of it is made.
pub struct Home {
    pub gate: Gate,
    pub workers: u32,
    pub queue: u32,
}

/// What a pass of a queue knows: what it sent, if it may push; and what it took and how many of its pops found nothing, if
/// it may pop. It is only for clauses: no value of it is made.
pub struct PassView {
    pub home: Home,
    pub sends: bool,
    pub sent: LinkedList<Entry>,
    pub takes: bool,
    pub taken: LinkedList<Entry>,
    pub empty_pops: u64,
}

/// Between any two steps of any threads, a queue keeps its invariant.
pub struct SubqueueRule;

impl Protocol<Message, PassView> for SubqueueRule {
    ghost use Rattle.crawl_queues.specs.Rule.{SubqueueInvariant, undivided, no_home};

    ghost holds = { SubqueueInvariant };

    ghost first = { undivided no_home };
}

/// Gives a queue its home, which the call chooses: the rule's first view is one constant, and cannot have it.
pub trait Stamp {
    ghost use Rattle.crawl_queues.specs.declared.rule.Home.{Home};

    ghost home: { Home };
}

impl Stamp for Brand {
    ghost home = { no_home };
}

// The first split, while one pass has both rights and has used none.
pub(crate) struct Settle<B: Stamp> {
    of: PhantomData<B>,
}

impl<B: Stamp> Split<PassView> for Settle<B> {
    ghost use Rattle.crawl_queues.specs.Rule.{undivided, spent};

    ghost left = { λ v. undivided B.home };

    ghost right = { λ v. spent };
}

// The split into the right to push and the right to pop.
pub(crate) struct Divide;

impl Split<PassView> for Divide {
    ghost use Rattle.crawl_queues.specs.Rule.{pushing, popping};

    ghost left = { λ v. pushing v.home v.sent };

    ghost right = { λ v. popping v.home v.taken v.empty_pops };
}

// Both rights are in one pass again. It learns that what was sent is what was taken, followed by what the queue contains.
pub(crate) struct Reunite;

impl Join<PassView> for Reunite {
    ghost use Rattle.crawl_queues.specs.Rule.{reunited, spent};

    ghost both = { reunited };

    ghost spent = { spent };
}

impl Lesson<Message, PassView> for Reunite {
    ghost use Rattle.std.specs.Prelude.{◌≡◌, ◌++◌, map};
    ghost use Rattle.crawl_queues.specs.Rule.{plain};

    ghost fact = { λ v items. v.sent ≡ v.taken ++ map plain items };
}

// A pop that finds nothing does not change the view, so a split after it counts it.
pub(crate) struct CountEmptyPop;

impl Split<PassView> for CountEmptyPop {
    ghost use Rattle.std.specs.Prelude.{◌+◌};
    ghost use Rattle.crawl_queues.specs.Rule.{popping, spent};

    ghost left = { λ v. popping v.home v.taken (v.empty_pops + 1) };

    ghost right = { λ v. spent };
}

pub(crate) struct Push;

impl Outcome<Message, PassView> for Push {
    ghost use Rattle.std.specs.Prelude.{◌≡◌, ◌++◌, ◌∷◌, []};
    ghost use Rattle.crawl_queues.specs.Rule.{pushing, plain};

    ghost then = { λ v x w. w ≡ pushing v.home (v.sent ++ plain x ∷ []) };
}

// A message that is taken holds a unit of the gate, and may follow what was taken before.
pub(crate) struct Pop;

impl Outcome<Message, PassView> for Pop {
    ghost use Rattle.std.specs.Prelude.{◌≡◌, ◌++◌, ◌∷◌, []};
    ghost use Rattle.crawl_gate.specs.Seat.{IsSeatOf};
    ghost use Rattle.crawl_queues.specs.Rule.{popping, plain};
    ghost use Rattle.crawl_queues.specs.Entries.{MayFollow};

    ghost then = { λ v x w.
        (w ≡ popping v.home (v.taken ++ plain x ∷ []) v.empty_pops)
        × IsSeatOf v.home.gate x.unit × MayFollow v.home.workers v.home.queue v.taken (plain x) };
}

impl Lesson<Message, PassView> for Pop {
    ghost fact = { λ v items. Unit {0} };
}
