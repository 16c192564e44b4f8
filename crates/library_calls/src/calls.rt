//! Calls of a frontier, one per line of text, and the outcome of each. A block of lines is one frontier, and an empty line ends it.
//!
//! The first line of a block is `frontier WORKERS MAX SUFFIX..`. Each other line is a call by the hand PLACE:
//!
//! - `another PLACE ID`: the seeder makes a sender (`made`).
//! - `offer PLACE URL`: prints the result of the offer, or `none` if the hand cannot offer.
//! - `next PLACE`: the worker's turn (`taken HOPS URL`, `idle COUNT`, `closed`), or the end of its URL (`done`) or of the seeds
//!   (`ended`).
//! - `admit PLACE OWN HOPS URL`: the pass of an idle worker admits the URL to queue 0 (`admitted NUMBER INDEX`, `too far`).
//! - `leave PLACE`: drops the hand.
//! - `leaves PLACE COUNT BUSY`: in a run, the worker leaves at its URL number COUNT, before it is done (1) or after (0).
//! - `# TEXT`: is printed as it is.
//! - `run PAGES SEEDS SENT UNTIL TURNS`: runs each hand in a thread, as `Plan` of `running.rt` describes, and prints its notes.
//!
//! At the end of a block the frontier is finished, and each entry of the account is printed, or the reason why there is none.
ghost use Rattle.std.specs.Prelude.{◌≡◌};

use crate::filters::filter_by;
use crate::hands::{Hand, Part, admit_by, another, finish, leave, offer, open, push, take_turn};
use crate::notes::{Note, Outcome};
use crate::running::{Plan, run_all};
use crawl_frontier::{Account, FinishError, Frontier, Name, Setup};
use crawl_keys::{Filter, canonical};
use std::alloc::Global;
use std::marker::Brand;
use std::sync::Wait;
use std::thread::Threads;

// The first word of a text, and the text after it.
fn word(text: &str) -> (&str, &str) {
    text.split_once(' ').unwrap_or((text, ""))
}

// The number that a text begins with, or 0, and the text after it.
fn number(text: &str) -> (u64, &str) {
    let (digits, rest) = word(text);
    (digits.parse::<u64>().unwrap_or(0), rest)
}

fn size(text: &str) -> (usize, &str) {
    let (number, rest) = number(text);
    (usize::try_from(number).unwrap_or(usize::MAX), rest)
}

fn plan_of(text: &str) -> Plan {
    let (pages, text) = size(text);
    let (seeds, text) = size(text);
    let (sent, text) = size(text);
    let (until, text) = number(text);
    let (idle_turns, _) = number(text);
    Plan {
        pages,
        seeds,
        sent,
        until_closed: until > 0,
        idle_turns,
    }
}

fn print_outcome<R: Print>(rt: &R, outcome: Outcome) {
    let Outcome {
        word,
        first,
        second,
    } = outcome;
    let _ = println!(rt; "{word} {first} {second}");
}

fn print_word<R: Print>(rt: &R, word: &str) {
    let _ = println!(rt; "{word}");
}

// Prints what the hand does now.
fn print_part<K: Name, R: Print>(rt: &R, part: &Part<K>) {
    match part {
        Part::Busy(worker) => {
            let _ = println!(rt; "taken {} {}", worker.hops(), worker.url().as_str());
        }
        Part::Idle(_, 0) => print_word(rt, "done"),
        Part::Idle(_, count) => {
            let _ = println!(rt; "idle {count}");
        }
        Part::Closed(_) => print_word(rt, "closed"),
        Part::Sender(_) => print_word(rt, "ended"),
        _ => print_word(rt, "gone"),
    }
}

fn print_offer<K: Name, R: Print + Wait>(
    rt: &R,
    alloc: Global,
    frontier: &Frontier<K>,
    part: &mut Part<K>,
    text: &str,
) {
    match canonical(alloc, text) {
        Ok(url) => print_outcome(rt, offer(rt, frontier, part, &url)),
        Err(_) => print_outcome(rt, Outcome::word("no URL")),
    }
}

fn print_admit<K: Name, R: Print + Wait>(
    rt: &R,
    alloc: Global,
    frontier: &Frontier<K>,
    part: &mut Part<K>,
    text: &str,
) {
    let (own, text) = number(text);
    let (hops, text) = number(text);
    if let Ok(url) = canonical(alloc, text) {
        print_outcome(rt, admit_by(rt, frontier, part, &url, own, hops));
    }
}

// A call of one hand.
fn call_of<K: Name, R: Print + Wait>(
    rt: &R,
    alloc: Global,
    frontier: &Frontier<K>,
    hand: &mut Hand<K>,
    verb: &str,
    text: &str,
) {
    match verb {
        "offer" => print_offer(rt, alloc, frontier, &mut hand.part, text),
        "next" => {
            take_turn(rt, frontier, &mut hand.part);
            print_part(rt, &hand.part);
        }
        "admit" => print_admit(rt, alloc, frontier, &mut hand.part, text),
        "leave" => leave(&mut hand.part),
        "leaves" => {
            let (count, busy) = number(text);
            hand.notes.leaves_at = count;
            hand.notes.leaves_busy = busy == "1";
        }
        _ => print_outcome(rt, Outcome::word("no such call")),
    }
}

fn print_notes<R: Print>(rt: &R, place: usize, notes: &[Note]) {
    for note in notes {
        let Outcome {
            word,
            first,
            second,
        } = note.outcome;
        let (page, late) = (note.page, note.late);
        let _ = println!(rt; "{place} {word} {page} {first} {second} {late}");
    }
}

fn run<K: Name + Send + Sync, R: Print + Threads + Wait + Sync>(
    rt: &R,
    alloc: Global,
    frontier: &Frontier<K>,
    hands: &mut [Hand<K>],
    plan: Plan,
) {
    run_all(rt, alloc, frontier, hands, plan);
    for (place, hand) in hands.iter().enumerate() {
        print_notes(rt, place, hand.notes.list.as_slice());
    }
}

// Makes one more sender by the seeder whose place the text begins with, at the end of the list.
fn print_made<K: Name, R: Print>(
    rt: &R,
    alloc: Global,
    frontier: &Frontier<K>,
    hands: &mut Vec<Hand<K>>,
    text: &str,
) {
    let (place, text) = size(text);
    let (id, _) = number(text);
    let Some(hand) = hands.get_mut(place) else {
        return print_word(rt, "not made");
    };
    let sender = another(alloc, frontier, &mut hand.part, id);
    let is_made = push(alloc, hands, sender);
    print_word(rt, if is_made { "made" } else { "not made" });
}

fn call<K: Name + Send + Sync, R: Print + Threads + Wait + Sync>(
    rt: &R,
    alloc: Global,
    frontier: &Frontier<K>,
    hands: &mut Vec<Hand<K>>,
    line: &str,
) {
    let (verb, text) = word(line);
    match verb {
        "#" => print_word(rt, line),
        "run" => run(rt, alloc, frontier, hands.as_mut_slice(), plan_of(text)),
        "another" => print_made(rt, alloc, frontier, hands, text),
        _ => {
            let (place, text) = size(text);
            if let Some(hand) = hands.get_mut(place) {
                call_of(rt, alloc, frontier, hand, verb, text);
            }
        }
    }
}

fn print_account<R: Print>(rt: &R, account: &Account) {
    for queue in 0..account.workers() {
        for entry in account.queue(queue) {
            let (sender, number, hops) = (entry.sender, entry.number, entry.hops);
            let _ = println!(rt;
                "entry {queue} {sender} {number} {hops} {}",
                entry.url.as_str()
            );
        }
    }
}

fn print_end<R: Print>(rt: &R, end: Result<Account, FinishError>) {
    match end {
        Ok(account) => {
            print_outcome(rt, Outcome::word("account"));
            print_account(rt, &account);
        }
        Err(error) => print_outcome(rt, Outcome::of_end(error)),
    }
}

// The lines of a block after its first.
#[derive(Drop)]
struct Lines {
    text: String,
}

fn calls<K: Name + Send + Sync, R: Print + Threads + Wait + Sync>(
    rt: &R,
    alloc: Global,
    setup: Setup,
    filter: &Filter,
    lines: &Lines,
)
where
    requires gate { setup.gate ≡ K.gate }
    requires workers { setup.workers ≡ K.workers }
    requires queues { setup.queues ≡ K.queues }
    requires filter { filter.now ≡ K.filter }
{
    let Some((frontier, mut hands)) = open::<K>(alloc, setup, filter) else {
        return;
    };
    for line in lines.text.lines() {
        call(rt, alloc, &frontier, &mut hands, line);
    }
    print_end(rt, finish(alloc, frontier, hands));
}

// Makes the calls of a block, or returns nothing if an allocation fails first.
fn run_block<R: Print + Threads + Wait + Sync>(rt: &R, alloc: Global, block: &str) -> Option<()> {
    let (first, lines) = block.split_once('\n').unwrap_or((block, ""));
    let (_, first) = word(first);
    let (workers, first) = number(first);
    let (max_pending, suffixes) = number(first);
    let text = String::from_str(alloc, lines).ok()?;
    let filter = filter_by(alloc, suffixes)?;
    let workers = u32::try_from(workers).unwrap_or(u32::MAX);
    match Setup::new(alloc, workers, max_pending) {
        Ok(setup) => calls::<Brand, R>(rt, alloc, setup, &filter, &Lines { text }),
        Err(error) => {
            let _ = println!(rt; "{error}");
        }
    }
    Some(())
}

/// Makes the calls of each block and prints their outcomes, with an empty line after each block.
pub fn run_blocks<R: Print + Threads + Wait + Sync>(rt: &R, alloc: Global, text: &str) {
    let mut rest = text;
    for _ in 0..text.len() {
        let (block, more) = rest.split_once("\n\n").unwrap_or((rest, ""));
        let _ = run_block(rt, alloc, block);
        print_word(rt, "");
        if more.is_empty() {
            return;
        }
        rest = more;
    }
}
