//! One thread, call by call.
ghost use Rattle.crawl_gate.specs.Seat.{IsSeatOf};

use crate::tests::endings::Ending::{Closed, Entered, Full, Pending};
use crate::tests::endings::{Ending, closed, entered, entered_holding};
use crawl_gate::{Gate, GateError, GateState, Unit};
use std::alloc::Global;
use std::sync::Wait;

const MOST: u64 = 1_099_511_627_776;

#[test]
fn makes_gates_from_1_to_2_to_the_40(rt: HostRuntime) {
    for (max_pending, refusal) in [
        (0, Some(GateError::BadLimit)),
        (1, None),
        (MOST, None),
        (MOST + 1, Some(GateError::BadLimit)),
    ] {
        assert!(rt;
            Gate::new(rt.alloc(), max_pending).err() == refusal,
            "at {max_pending}"
        );
    }
}

const OPEN: GateState = GateState {
    count: 1,
    closed: false,
};

const SHUT: GateState = GateState {
    count: 0,
    closed: true,
};

// The results of these calls of a gate of one, with the unit that it came with.
fn of_one(gate: &Gate, mut unit: Unit) -> ([GateState; 2], [Ending; 6], u64)
    requires { IsSeatOf gate.now unit }
{
    let mut pass = gate.split_unit(&mut unit);
    let open = gate.load(&mut pass);
    let (full, mut pass) = entered(gate, gate.try_enter(pass));
    let other = gate.split(&mut pass);
    let pending = closed(gate, other);
    let (mut first, left) = gate.leave(unit);
    let (won, pass) = entered(gate, gate.try_enter(pass));
    let closes = closed(gate, pass);
    let shut = gate.load(&mut first);
    let (late, first) = entered(gate, gate.try_enter(first));
    let again = closed(gate, first);
    (
        [open, shut],
        [full, pending, won, closes, late, again],
        left,
    )
}

fn endings_of_one(alloc: Global) -> bool {
    match Gate::new(alloc, 1) {
        Ok((gate, unit)) => {
            let (states, endings, left) = of_one(&gate, unit);
            states == [OPEN, SHUT]
                && left == 0
                && endings == [Full, Pending(1), Entered(0), Closed, Closed, Closed]
        }
        Err(_) => false,
    }
}

#[test]
fn gate_of_one(rt: HostRuntime) {
    assert!(rt; endings_of_one(rt.alloc()));
}

// The results with a held unit: the count first; a try, a call that continues to try, and one by only a pass.
fn holding<R: Wait>(rt: &R, gate: &Gate, mut held: Unit) -> ([u64; 3], [Ending; 3])
    requires { IsSeatOf gate.now held }
{
    let pass = gate.split_unit(&mut held);
    let before = gate.load_held(&mut held);
    let end = gate.try_enter_beside(&mut held, pass);
    let (one, tried, pass) = entered_holding(gate, &mut held, end);
    let end = gate.enter_beside(rt, &mut held, pass);
    let (other, went, pass) = entered_holding(gate, &mut held, end);
    let (only_unit, _pass) = entered(gate, gate.enter(rt, pass));
    ([before, one, other], [tried, went, only_unit])
}

// Whether a gate of this maximum has these results with its first unit, each of the three times.
fn endings_holding(rt: &impl Wait, alloc: Global, max: u64, met: [u64; 3], ending: Ending) -> bool {
    match Gate::new(alloc, max) {
        Ok((gate, held)) => {
            let (counts, endings) = holding(rt, &gate, held);
            counts == met && endings == [ending, ending, ending]
        }
        Err(_) => false,
    }
}

#[test]
fn entering_beside_a_unit(rt: HostRuntime) {
    assert!(rt; endings_holding(&rt, rt.alloc(), 2, [1, 2, 2], Entered(1)));
    assert!(rt; endings_holding(&rt, rt.alloc(), 1, [1, 1, 1], Full));
}
