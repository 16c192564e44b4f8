//! Calls that no command makes, for tests and benchmarks: `library_calls WORK COUNT THREADS FILE ..` does each piece of work and
//! prints what came of it. `vectors` tries the vectors of FILE, `calls` makes the calls of standard input, and `crawler` crawls a
//! small web. What follows is work to measure: it has the lines of FILE, COUNT times.
//!
//! Of `crawl_keys`, with the number of bytes that came out: `lines` (the lines themselves), `canonical` (their canonical URLs),
//! `joined` (the URLs that they are as links of a page), `allowed` (those of the URLs after the first line that are within one of
//! the suffixes in the first line), or, once, `kept` (keeps the URLs in a set) and `shared` (and three copies of each).
//!
//! Of `crawl_frontier`, with what became of the URLs, by THREADS threads: `offered` (offers them), or `taken` (and then takes
//! them, and is done with each).
#![tactic(auto)]

mod arguments;
mod calls;
mod crawler;
mod escape;
mod filters;
mod frontier;
mod hands;
mod keys;
mod notes;
mod running;
mod threads;
mod urls;
mod vectors;

use arguments::{number, word};
use std::alloc::Global;
use std::process::ExitCode;
use std::sync::Wait;
use std::sync::atomic::Ordering;
use std::thread::Threads;
use std::{fs, io};
use threads::Tally;

/// How many pieces of work there are at most.
const MOST: usize = 8;

fn main(rt: HostRuntime) -> ExitCode {
    for piece in 0..MOST {
        let at = 4 * piece + 1;
        let (mut room, mut other) = ([0u8; 256], [0u8; 256]);
        let name = word(&rt, at, &mut room);
        if name.is_empty() && piece > 0 {
            return ExitCode::SUCCESS;
        }
        if name == "calls" {
            let Ok(text) = io::read_to_string(rt.alloc(), rt.reader()) else {
                return ExitCode::FAILURE;
            };
            calls::run_blocks(&rt, rt.alloc(), &text);
            continue;
        }
        if name == "crawler" {
            let _ = println!(rt; "{:?}", crawler::accepted(&rt, rt.alloc()));
            continue;
        }
        let (count, threads) = (number(&rt, at + 1), number(&rt, at + 2));
        let is_done = match fs::read_to_string(&rt, word(&rt, at + 3, &mut other)) {
            Ok(text) => done(&rt, rt.alloc(), name, count, threads, &text),
            Err(_) => false,
        };
        if !is_done {
            let _ = eprintln!(rt; "{name}: no such work, no file, or no memory");
            return ExitCode::FAILURE;
        }
    }
    ExitCode::SUCCESS
}

/// Does a piece of work, and prints what came of it. Returns whether something did.
fn done<R: Print + Threads + Wait + Sync>(
    rt: &R,
    alloc: Global,
    name: &str,
    count: u32,
    threads: u32,
    text: &str,
) -> bool {
    match name {
        "vectors" => {
            vectors::run(rt, alloc, text);
            true
        }
        "offered" | "taken" => {
            let tally = Tally::new(count, name == "taken");
            let found = frontier::done(rt, alloc, text, threads, &tally);
            found.is_some() && print_tally(rt, name, &tally)
        }
        _ => print_bytes(rt, name, keys::done(alloc, name, count, text)),
    }
}

fn print_bytes<R: Print>(rt: &R, name: &str, bytes: Option<u64>) -> bool {
    match bytes {
        Some(bytes) => println!(rt; "{name}: {bytes} bytes").is_ok(),
        None => false,
    }
}

fn print_tally<R: Print>(rt: &R, name: &str, tally: &Tally) -> bool {
    let accepted = tally.accepted.load(Ordering::SeqCst);
    let seen = tally.seen.load(Ordering::SeqCst);
    let taken = tally.taken.load(Ordering::SeqCst);
    println!(rt; "{name}: {accepted} accepted, {seen} seen, {taken} taken").is_ok()
}
