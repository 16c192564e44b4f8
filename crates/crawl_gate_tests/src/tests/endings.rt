//! The results of calls, as plain data. Each pass comes back, so that a row continues with it.
ghost use Rattle.crawl_gate.specs.Seat.{IsSeatOf};
ghost use Rattle.crawl_gate.specs.Enter.{GivesSeatOf};

use crawl_gate::{Close, Enter, Gate, Pass, Unit};

/// How a call ended, and the count with it: after a unit that was taken is given back, or with which the gate is not closed.
#[derive(Clone, Copy, PartialEq, Eq)]
pub enum Ending {
    Entered(u64),
    Closed,
    Full,
    Lost,
    Pending(u64),
}

/// What an entering call ended with. A unit that it took is given back.
pub fn entered(gate: &Gate, end: Enter) -> (Ending, Pass)
    requires { GivesSeatOf gate.now end }
    ensures { IsSeatOf gate.now result.1 }
{
    match end {
        Enter::Entered(unit) => {
            let (pass, left) = gate.leave(unit);
            (Ending::Entered(left), pass)
        }
        Enter::Closed(pass) => (Ending::Closed, pass),
        Enter::Full(pass) => (Ending::Full, pass),
        Enter::Lost(pass) => (Ending::Lost, pass),
    }
}

/// What a closing call ends with.
pub fn closed(gate: &Gate, pass: Pass) -> Ending
    requires { IsSeatOf gate.now pass }
{
    match gate.try_close(pass) {
        Close::Closed(_) => Ending::Closed,
        Close::Pending(_, count) => Ending::Pending(count),
    }
}

/// What an entering call with a unit ended with: the count with the unit that it took, and when that is given back.
pub fn entered_holding(gate: &Gate, held: &mut Unit, end: Enter) -> (u64, Ending, Pass)
    requires held { IsSeatOf gate.now held.old }
    requires end { GivesSeatOf gate.now end }
    ensures held { IsSeatOf gate.now held.new }
    ensures pass { IsSeatOf gate.now result.2 }
{
    let count = gate.load_held(held);
    let (ending, pass) = entered(gate, end);
    (count, ending, pass)
}
