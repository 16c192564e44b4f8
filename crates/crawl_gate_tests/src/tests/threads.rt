//! Many threads at one gate.
ghost use Rattle.crawl_gate.specs.Seat.{IsSeatOf};

use crate::tests::endings::{Ending, closed, entered};
use crawl_gate::{Enter, Gate, Pass, Unit};
use std::sync::Wait;
use std::sync::atomic::{AtomicU64, Ordering};
use std::test::Fail;
use std::thread;
use std::thread::{Threads, join};

// How often each of the four threads enters.
const ENTRIES: u64 = 100_000;

// The gate's maximum, below the number of threads.
const ROOM: u64 = 3;

// Enters and leaves `ENTRIES` times, and tries again if the gate is full. Returns the most units that were in the threads'
// hands at the same time, or none if the gate was closed.
fn come_and_go<R: Wait>(rt: &R, gate: &Gate, inside: &AtomicU64, mut pass: Pass) -> Option<u64>
    requires { IsSeatOf gate.now pass }
{
    let (mut entries, mut most_inside) = (0u64, 0u64);
    for _ in rt.forever() {
        if entries >= ENTRIES {
            break;
        }
        match gate.enter(rt, pass) {
            Enter::Entered(unit) => {
                let before = inside.fetch_add(1, Ordering::SeqCst);
                most_inside = most_inside.max(before.saturating_add(1));
                inside.fetch_sub(1, Ordering::SeqCst);
                pass = gate.leave(unit).0;
                entries += 1;
            }
            Enter::Full(back) => {
                thread::yield_now();
                pass = back;
            }
            _ => return None,
        }
    }
    Some(most_inside)
}

// In two threads.
fn two_come<R: Threads + Wait + Sync>(
    rt: &R,
    gate: &Gate,
    inside: &AtomicU64,
    one: Pass,
    other: Pass,
) -> (Option<u64>, Option<u64>)
    requires { IsSeatOf gate.now one × IsSeatOf gate.now other }
{
    join(
        rt,
        move ||
            requires { IsSeatOf gate.now one }
        { come_and_go(rt, gate, inside, one) },
        move ||
            requires { IsSeatOf gate.now other }
        { come_and_go(rt, gate, inside, other) },
    )
}

// In four, by passes of this one.
fn four_come<R: Threads + Wait + Sync>(rt: &R, gate: &Gate, mut first: Pass) -> [Option<u64>; 4]
    requires { IsSeatOf gate.now first }
{
    let inside = &AtomicU64::new(0);
    let second = gate.split(&mut first);
    let third = gate.split(&mut first);
    let fourth = gate.split(&mut first);
    let ((a, b), (c, d)) = join(
        rt,
        move ||
            requires { IsSeatOf gate.now first × IsSeatOf gate.now second }
        { two_come(rt, gate, inside, first, second) },
        move ||
            requires { IsSeatOf gate.now third × IsSeatOf gate.now fourth }
        { two_come(rt, gate, inside, third, fourth) },
    );
    [a, b, c, d]
}

// Whether the gate has room for this many, and no more, whatever four threads do; and is closed once they have gone.
fn has_room<R: Threads + Wait + Sync>(rt: &R, gate: &Gate, opening: Unit) -> bool
    requires { IsSeatOf gate.now opening }
{
    let (mut pass, _) = gate.leave(opening);
    let mut closing = gate.split(&mut pass);
    let late = gate.split(&mut closing);
    for most in four_come(rt, gate, pass) {
        if most.unwrap_or(u64::MAX) > ROOM {
            return false;
        }
    }
    closed(gate, closing) == Ending::Closed
        && entered(gate, gate.enter(rt, late)).0 == Ending::Closed
}

#[test]
fn never_more_than_the_maximum_inside(rt: HostRuntime) -> Result<(), Fail> {
    let (gate, opening) = Gate::new(rt.alloc(), ROOM)?;
    assert!(rt; has_room(&rt, &gate, opening));
    Ok(())
}
