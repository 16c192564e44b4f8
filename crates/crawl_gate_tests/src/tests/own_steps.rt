//! That a call makes no step but those that its clauses name, by a pass which it splits off and drops.
ghost use Rattle.crawl_gate.specs.Seat.{IsSeatOf};

use crate::tests::endings::{Ending, closed};
use crawl_gate::{Gate, GateState, Pass, Unit};
use std::alloc::Global;
use std::sync::Wait;

#[derive(Clone, Copy)]
enum Call {
    Split,
    Load,
    TryEnter,
    Enter,
    TryClose,
    SplitUnit,
    LoadHeld,
    TryEnterHolding,
    EnterHolding,
    Leave,
}

// Makes the call, if it is one of a pass.
fn call_of_pass<R: Wait>(rt: &R, gate: &Gate, mut pass: Pass, call: Call)
    requires { IsSeatOf gate.now pass }
{
    match call {
        Call::Split => drop(gate.split(&mut pass)),
        Call::Load => drop(gate.load(&mut pass)),
        Call::TryEnter => drop(gate.try_enter(pass)),
        Call::Enter => drop(gate.enter(rt, pass)),
        Call::TryClose => drop(gate.try_close(pass)),
        _ => {}
    }
}

// Makes the call, if it is one of a unit; else leaves, so that no unit is held.
fn call_of_unit<R: Wait>(rt: &R, gate: &Gate, mut unit: Unit, pass: Pass, call: Call)
    requires { IsSeatOf gate.now unit × IsSeatOf gate.now pass }
{
    match call {
        Call::SplitUnit => drop(gate.split_unit(&mut unit)),
        Call::LoadHeld => drop(gate.load_held(&mut unit)),
        Call::TryEnterHolding => drop(gate.try_enter_beside(&mut unit, pass)),
        Call::EnterHolding => drop(gate.enter_beside(rt, &mut unit, pass)),
        _ => drop(gate.leave(unit)),
    }
}

// What a look finds after the call, and then whether the gate may be closed: a unit that is dropped keeps it open.
fn after(rt: &impl Wait, gate: &Gate, mut unit: Unit, call: Call) -> (GateState, Ending)
    requires { IsSeatOf gate.now unit }
{
    let one = gate.split_unit(&mut unit);
    let other = gate.split_unit(&mut unit);
    let mut looking = gate.split_unit(&mut unit);
    call_of_unit(rt, gate, unit, one, call);
    call_of_pass(rt, gate, other, call);
    let found = gate.load(&mut looking);
    (found, closed(gate, looking))
}

// A call of a pass meets a gate with no unit, and one of a unit meets only that unit: how many are held after it, and whether the gate
// is closed.
static AFTER: [(Call, u64, bool); 10] = [
    (Call::Split, 0, false),
    (Call::Load, 0, false),
    (Call::TryEnter, 1, false),
    (Call::Enter, 1, false),
    (Call::TryClose, 0, true),
    (Call::SplitUnit, 1, false),
    (Call::LoadHeld, 1, false),
    (Call::TryEnterHolding, 2, false),
    (Call::EnterHolding, 2, false),
    (Call::Leave, 0, false),
];

fn is_after(found: (GateState, Ending), count: u64, closed: bool) -> bool {
    let end = if count == 0 {
        Ending::Closed
    } else {
        Ending::Pending(count)
    };
    found.0.count == count && found.0.closed == closed && found.1 == end
}

fn makes_its_own_steps(
    rt: &impl Wait,
    alloc: Global,
    call: Call,
    count: u64,
    closed: bool,
) -> bool {
    match Gate::new(alloc, 5) {
        Ok((gate, unit)) => is_after(after(rt, &gate, unit, call), count, closed),
        Err(_) => false,
    }
}

#[test]
fn each_call_makes_only_its_own_steps(rt: HostRuntime) {
    for (call, count, closed) in AFTER {
        assert!(rt;
            makes_its_own_steps(&rt, rt.alloc(), call, count, closed),
            "{count}"
        );
    }
}
