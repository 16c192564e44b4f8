//! A pool of workers whose jobs make more jobs, and which ends when all of them are done.
ghost use Rattle.std.specs.Prelude.{◌≡◌};
ghost use Rattle.crawl_gate.specs.Seat.{GateId, IsSeatOf, no_gate};

use crawl_gate::{Close, Enter, Gate, Pass, Unit};
use std::alloc::Global;
use std::marker::{Brand, PhantomData};
use std::sync::{Mutex, Wait};
use std::test::Fail;
use std::thread::{Threads, join};

// How many pieces of work the first job has.
const PIECES: u64 = 1000;

// It names one gate, so that a job's type can say whose unit the job carries.
pub trait Pool {
    ghost gate: { GateId };
}

impl Pool for Brand {
    ghost gate = { no_gate };
}

// A number of pieces of work, and the unit that counts them as one job.
#[derive(Drop)]
struct Job<K: Pool> {
    pieces: u64,
    unit: Unit,
    of: PhantomData<K>,
    ghost counted: { IsSeatOf K.gate unit },
}

// Takes jobs until no worker has one. Returns how many pieces of work it did.
fn work<K: Pool, R: Wait>(rt: &R, gate: &Gate, jobs: &Mutex<Vec<Job<K>>>, mut pass: Pass) -> u64
    requires gate { gate.now ≡ K.gate }
    requires pass { IsSeatOf gate.now pass }
{
    let mut done = 0u64;
    for _ in rt.forever() {
        let next = jobs.lock(rt).pop();
        match next {
            Some(mut job) => {
                hand_out_half(rt, gate, jobs, &mut job);
                done = done.saturating_add(job.pieces);
                pass = gate.leave(job.unit).0;
            }
            None => match gate.try_close(pass) {
                Close::Closed(_) => return done,
                Close::Pending(back, _) => pass = back,
            },
        }
    }
    unreachable!()
}

// Makes a job of half of the pieces, if the gate has room for its unit.
fn hand_out_half<K: Pool, R: Wait>(rt: &R, gate: &Gate, jobs: &Mutex<Vec<Job<K>>>, job: &mut Job<K>)
    requires { gate.now ≡ K.gate }
{
    let half = job.pieces / 2;
    if half == 0 {
        return;
    }
    let pass = gate.split_unit(&mut job.unit);
    if let Enter::Entered(unit) = gate.enter_beside(rt, &mut job.unit, pass) {
        let part = Job {
            pieces: half,
            unit,
            of: PhantomData,
        };
        match jobs.lock(rt).push(part) {
            Ok(()) => job.pieces -= half,
            Err(refused) => drop(gate.leave(refused.value.unit)),
        }
    }
}

// The pieces that two workers did of one job.
fn share_out<K: Pool + Send + Sync, R: Threads + Wait + Sync>(
    rt: &R,
    alloc: Global,
    gate: &Gate,
    mut opening: Unit,
) -> Result<u64, Fail>
    requires gate { gate.now ≡ K.gate }
    requires unit { IsSeatOf gate.now opening }
{
    let one = gate.split_unit(&mut opening);
    let other = gate.split_unit(&mut opening);
    let mut jobs: Vec<Job<K>> = Vec::new(alloc);
    jobs.push(Job {
        pieces: PIECES,
        unit: opening,
        of: PhantomData,
    })?;
    let jobs = &Mutex::new(jobs);
    let (a, b) = join(
        rt,
        move ||
            requires { (gate.now ≡ K.gate) × IsSeatOf gate.now one }
        { work(rt, gate, jobs, one) },
        move ||
            requires { (gate.now ≡ K.gate) × IsSeatOf gate.now other }
        { work(rt, gate, jobs, other) },
    );
    Ok(a.saturating_add(b))
}

#[test]
fn a_pool_ends_when_all_its_work_is_done(rt: HostRuntime) -> Result<(), Fail> {
    let (gate, unit) = Gate::new(rt.alloc(), PIECES)?;
    let done = share_out::<Brand, _>(&rt, rt.alloc(), &gate, unit)?;
    assert_eq!(rt; done, PIECES);
    Ok(())
}
