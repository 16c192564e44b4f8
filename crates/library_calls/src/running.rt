//! Hands in threads of their own: workers that offer the links of the pages that they take, and senders that offer the same pages.
use crate::hands::{Hand, Part, leave, offer, take_turn};
use crate::notes::{Notes, Outcome};
use crate::urls::canonical_of;
use crawl_frontier::{Frontier, Name};
use crawl_keys::CanonUrl;
use std::alloc::Global;
use std::sync::Wait;
use std::sync::atomic::{AtomicU64, Ordering};
use std::thread::{self, Threads, yield_now};
use std::time::Duration;

// The number of hosts of the pages.
const HOSTS: usize = 50;

// Page n links to the pages 2n + 1 to 2n + 4, so that two pages link to nearly every page.
const LINKS: usize = 4;

// More threads than a run has hands.
const THREADS: usize = 8;

// In seconds, much more than the time limit of a test, so a resting worker that is not woken fails it.
const HOUR: u64 = 3_600;

/// What the hands of a run do.
#[derive(Clone, Copy)]
pub struct Plan {
    /// The number of pages.
    pub pages: usize,
    /// The number of pages, from the first on, that the seeder offers.
    pub seeds: usize,
    /// The number of pages, from the first on, that a sender offers.
    pub sent: usize,
    /// Whether a sender offers them until it finds the gate closed, and then once more. Otherwise it offers them once.
    pub until_closed: bool,
    /// The number of turns in a row without a URL after which a worker leaves. If it is 0, a worker rests after each instead.
    pub idle_turns: u64,
}

// What all threads of a run share.
#[derive(Drop)]
struct Run<'a> {
    plan: Plan,
    urls: &'a [CanonUrl],
    // The number of workers that found the gate closed.
    closed: AtomicU64,
}

fn page(alloc: Global, number: usize) -> Option<CanonUrl> {
    let host = number % HOSTS;
    canonical_of(alloc, format!(in alloc; "http://h{host}.test/{number}"))
}

fn pages(alloc: Global, count: usize) -> Vec<CanonUrl> {
    let mut urls = Vec::new(alloc);
    for number in 0..count {
        if let Some(url) = page(alloc, number) {
            let _ = urls.push(url);
        }
    }
    urls
}

// The number of the URL's page, or the greatest number if it is not one of the pages.
fn number_of(url: &CanonUrl) -> usize {
    match url.as_str().rsplit_once('/') {
        Some((_, digits)) => digits.parse::<usize>().unwrap_or(usize::MAX),
        None => usize::MAX,
    }
}

fn links(urls: &[CanonUrl], number: usize) -> &[CanonUrl] {
    let first = number.saturating_mul(2).saturating_add(1);
    let end = first.saturating_add(LINKS).min(urls.len());
    urls.get(first..end).unwrap_or(&[])
}

fn offer_each<K: Name, R: Wait>(
    rt: &R,
    frontier: &Frontier<K>,
    closed: &AtomicU64,
    part: &mut Part<K>,
    notes: &mut Notes,
    urls: &[CanonUrl],
) {
    for url in urls {
        let known = notes.closed | (closed.load(Ordering::SeqCst) > 0);
        let outcome = offer(rt, frontier, part, url);
        notes.push(number_of(url), outcome, known);
    }
}

// The number of the page that the worker has taken.
fn page_of<K: Name>(part: &Part<K>) -> usize {
    match part {
        Part::Busy(worker) => number_of(worker.url()),
        _ => usize::MAX,
    }
}

// Offers the links of the worker's page, and ends the page or leaves. Returns whether the worker stays.
fn work_on_page<K: Name, R: Wait>(
    rt: &R,
    frontier: &Frontier<K>,
    run: &Run<'_>,
    part: &mut Part<K>,
    notes: &mut Notes,
) -> bool {
    let page = page_of(part);
    notes.push(page, Outcome::word("took"), false);
    offer_each(
        rt,
        frontier,
        &run.closed,
        part,
        notes,
        links(run.urls, page),
    );
    let leaves = notes.counts_page();
    if !leaves | !notes.leaves_busy {
        take_turn(rt, frontier, part);
        notes.push(page, Outcome::word("done"), false);
    }
    if leaves {
        leave(part);
    }
    !leaves
}

// Rests, or counts the turn. Notes the first of several idle turns. Returns whether the worker stays.
fn pause<K: Name, R: Wait>(
    rt: &R,
    frontier: &Frontier<K>,
    plan: Plan,
    part: &Part<K>,
    notes: &mut Notes,
) -> bool {
    if notes.idle == 0 {
        notes.push(usize::MAX, Outcome::word("idle"), false);
    }
    notes.idle = notes.idle.saturating_add(1);
    if plan.idle_turns == 0 {
        if let Part::Idle(worker, _) = part {
            worker.rest_for(rt, frontier, Duration::from_secs(HOUR));
        }
        return true;
    }
    yield_now();
    notes.idle < plan.idle_turns
}

// What a turn of a worker found.
#[derive(Clone, Copy)]
enum State {
    Busy,
    Idle,
    Ended,
}

fn state_of<K: Name>(part: &Part<K>) -> State {
    match part {
        Part::Busy(_) => State::Busy,
        Part::Idle(_, _) => State::Idle,
        _ => State::Ended,
    }
}

// A turn of a worker. Returns whether there may be more.
fn turn<K: Name, R: Wait>(
    rt: &R,
    frontier: &Frontier<K>,
    run: &Run<'_>,
    part: &mut Part<K>,
    notes: &mut Notes,
) -> bool {
    take_turn(rt, frontier, part);
    match state_of(part) {
        State::Busy => work_on_page(rt, frontier, run, part, notes),
        State::Idle => pause(rt, frontier, run.plan, part, notes),
        State::Ended => {
            run.closed.fetch_add(1, Ordering::SeqCst);
            notes.push(usize::MAX, Outcome::word("closed"), false);
            false
        }
    }
}

fn work<K: Name, R: Wait>(
    rt: &R,
    frontier: &Frontier<K>,
    run: &Run<'_>,
    part: &mut Part<K>,
    notes: &mut Notes,
) {
    for _ in rt.forever() {
        if !turn(rt, frontier, run, part, notes) {
            return;
        }
    }
    unreachable!()
}

// Offers the pages of a sender in rounds, the last of them after it found the gate closed.
fn send<K: Name, R: Wait>(
    rt: &R,
    frontier: &Frontier<K>,
    run: &Run<'_>,
    part: &mut Part<K>,
    notes: &mut Notes,
) {
    let sent = run.urls.get(..run.plan.sent).unwrap_or(&[]);
    for _ in rt.forever() {
        let continues = !notes.closed & run.plan.until_closed;
        offer_each(rt, frontier, &run.closed, part, notes, sent);
        if !continues {
            return;
        }
        yield_now();
    }
    unreachable!()
}

// Waits until the others probably rest.
fn wait_a_while() {
    for _ in 0..100u32 {
        yield_now();
    }
}

// What the seeder does before it is a sender.
fn seed<K: Name, R: Wait>(
    rt: &R,
    frontier: &Frontier<K>,
    run: &Run<'_>,
    part: &mut Part<K>,
    notes: &mut Notes,
) {
    let seeds = run.urls.get(..run.plan.seeds).unwrap_or(&[]);
    wait_a_while();
    offer_each(rt, frontier, &run.closed, part, notes, seeds);
    wait_a_while();
    take_turn(rt, frontier, part);
}

// What the hand does in its thread.
fn act<K: Name, R: Wait>(rt: &R, frontier: &Frontier<K>, run: &Run<'_>, hand: &mut Hand<K>) {
    let Hand { part, notes } = hand;
    match part {
        Part::Idle(_, _) | Part::Busy(_) | Part::Closed(_) => {
            return work(rt, frontier, run, part, notes);
        }
        Part::Seeder(_) => seed(rt, frontier, run, part, notes),
        _ => {}
    }
    send(rt, frontier, run, part, notes);
}

fn run_each<K: Name + Send + Sync, R: Threads + Wait + Sync>(
    rt: &R,
    frontier: &Frontier<K>,
    hands: &mut [Hand<K>],
    run: &Run<'_>,
) {
    thread::for_each_mut(rt, hands, THREADS, &|_, hand| act(rt, frontier, run, hand));
}

/// Runs each hand in a thread of its own until it ends.
pub fn run_all<K: Name + Send + Sync, R: Threads + Wait + Sync>(
    rt: &R,
    alloc: Global,
    frontier: &Frontier<K>,
    hands: &mut [Hand<K>],
    plan: Plan,
) {
    let urls = pages(alloc, plan.pages);
    let run = Run {
        plan,
        urls: &urls,
        closed: AtomicU64::new(0),
    };
    run_each(rt, frontier, hands, &run);
}
