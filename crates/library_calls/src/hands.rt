//! The hands of a frontier in one list, so that calls are data: first the workers by queue, then the seeder, then the senders in
//! the order in which it made them. If an allocation fails, a hand is lost, and its next call prints so.
ghost use Rattle.std.specs.Prelude.{◌≡◌};

use crate::notes::{Notes, Outcome};
use crawl_frontier::testing::admit;
use crawl_frontier::{
    Account, BusyWorker, ClosedWorker, FinishError, Frontier, Name, Seeder, Sender, Setup, Turn,
    Worker,
};
use crawl_keys::{CanonUrl, Filter};
use std::alloc::Global;
use std::mem;
use std::sync::Wait;

/// What makes calls: a worker between its turns, with the count that its last turn found, one with a URL, one that found the gate
/// closed, the seeder, a sender, or nothing any more.
#[derive(Drop)]
pub enum Part<K: Name> {
    Idle(Worker<K>, u64),
    Busy(BusyWorker<K>),
    Closed(ClosedWorker<K>),
    Seeder(Seeder<K>),
    Sender(Sender<K>),
    Gone,
}

/// A hand, and its notes if it runs in a thread of its own.
#[derive(Drop)]
pub struct Hand<K: Name> {
    pub part: Part<K>,
    pub notes: Notes,
}

/// Adds the hand at the end.
pub fn push<K: Name>(alloc: Global, hands: &mut Vec<Hand<K>>, part: Part<K>) -> bool {
    let notes = Notes::new(alloc);
    match hands.push(Hand { part, notes }) {
        Ok(()) => true,
        Err(refused) => {
            drop(refused);
            false
        }
    }
}

fn hands_of<K: Name>(alloc: Global, workers: Vec<Worker<K>>, seeder: Seeder<K>) -> Vec<Hand<K>> {
    let mut hands = Vec::new(alloc);
    for worker in workers {
        push(alloc, &mut hands, Part::Idle(worker, 0));
    }
    push(alloc, &mut hands, Part::Seeder(seeder));
    hands
}

/// A frontier and its hands.
pub fn open<K: Name>(
    alloc: Global,
    setup: Setup,
    filter: &Filter,
) -> Option<(Frontier<K>, Vec<Hand<K>>)>
    requires gate { setup.gate ≡ K.gate }
    requires workers { setup.workers ≡ K.workers }
    requires queues { setup.queues ≡ K.queues }
    requires filter { filter.now ≡ K.filter }
{
    match Frontier::<K>::new(alloc, setup, filter) {
        Ok((frontier, workers, seeder)) => Some((frontier, hands_of(alloc, workers, seeder))),
        Err(_) => None,
    }
}

/// One more sender of the seeder.
pub fn another<K: Name>(
    alloc: Global,
    frontier: &Frontier<K>,
    part: &mut Part<K>,
    id: u64,
) -> Part<K> {
    match part {
        Part::Seeder(seeder) => match seeder.another(alloc, frontier, id) {
            Ok(sender) => Part::Sender(sender),
            Err(_) => Part::Gone,
        },
        _ => Part::Gone,
    }
}

/// The outcome of an offer.
pub fn offer<K: Name, R: Wait>(
    rt: &R,
    frontier: &Frontier<K>,
    part: &mut Part<K>,
    url: &CanonUrl,
) -> Outcome {
    match part {
        Part::Busy(worker) => Outcome::of(worker.offer(rt, frontier, url)),
        Part::Seeder(seeder) => Outcome::of(seeder.offer(rt, frontier, url)),
        Part::Sender(sender) => Outcome::of(sender.offer(rt, frontier, url)),
        _ => Outcome::word("none"),
    }
}

fn part_of<K: Name>(turn: Turn<K>) -> Part<K> {
    match turn {
        Turn::Idle(worker, count) => Part::Idle(worker, count),
        Turn::Busy(worker) => Part::Busy(worker),
        Turn::Closed(worker) => Part::Closed(worker),
    }
}

fn next_part<K: Name, R: Wait>(rt: &R, frontier: &Frontier<K>, part: Part<K>) -> Part<K> {
    match part {
        Part::Idle(worker, _) => part_of(worker.next(rt, frontier)),
        Part::Busy(worker) => Part::Idle(worker.done(frontier), 0),
        Part::Seeder(seeder) => Part::Sender(seeder.end(frontier)),
        other => other,
    }
}

/// The next turn of an idle worker. A busy worker is done with its URL, and the seeder ends the seeds. Any other hand stays as it
/// is.
pub fn take_turn<K: Name, R: Wait>(rt: &R, frontier: &Frontier<K>, part: &mut Part<K>) {
    let before = mem::replace(part, Part::Gone);
    drop(mem::replace(part, next_part(rt, frontier, before)));
}

/// Drops the hand.
pub fn leave<K: Name>(part: &mut Part<K>) {
    drop(mem::replace(part, Part::Gone));
}

/// Admits the URL to queue 0 with this own number and these hops, by the pass of an idle worker, which is then gone.
pub fn admit_by<K: Name, R: Wait>(
    rt: &R,
    frontier: &Frontier<K>,
    part: &mut Part<K>,
    url: &CanonUrl,
    own: u64,
    hops: u64,
) -> Outcome {
    match mem::replace(part, Part::Gone) {
        Part::Idle(worker, _) => match admit(rt, frontier, worker, url, own, hops) {
            Some(admit) => Outcome::of_admission(&admit),
            None => Outcome::word("refused"),
        },
        other => {
            drop(other);
            Outcome::word("gone")
        }
    }
}

// Adds the hand to those that end a run, if it is one of them.
fn put<K: Name>(part: Part<K>, closed: &mut Vec<ClosedWorker<K>>, senders: &mut Vec<Sender<K>>) {
    match part {
        Part::Closed(worker) => {
            let _ = closed.push(worker);
        }
        Part::Sender(sender) => {
            let _ = senders.push(sender);
        }
        other => drop(other),
    }
}

/// Finishes the run with the hands that are closed workers or senders.
pub fn finish<K: Name>(
    alloc: Global,
    frontier: Frontier<K>,
    hands: Vec<Hand<K>>,
) -> Result<Account, FinishError> {
    let mut closed = Vec::new(alloc);
    let mut senders = Vec::new(alloc);
    for hand in hands {
        let Hand { part, notes: _ } = hand;
        put(part, &mut closed, &mut senders);
    }
    frontier.finish(closed, senders)
}
