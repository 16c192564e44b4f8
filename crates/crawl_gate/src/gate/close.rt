//! Closing the gate, for good.
ghost use Rattle.std.specs.Prelude.{◌≡◌, true};
ghost use Rattle.crawl_gate.specs.View.{knows_closed};
ghost use Rattle.crawl_gate.specs.Seat.{IsSeatOf};
ghost use Rattle.crawl_gate.specs.Close.{TriesToClose, ClosesSeatOf, ReportsClosed, IsClosed};

use super::Gate;
use crate::closed_pass::ClosedPass;
use crate::pass::Pass;
use crate::rule::Shut;
use crate::word::{CLOSED, state_of};

/// How a closing call ended.
#[derive(Drop)]
pub enum Close {
    /// The gate is closed: this call closed it, or found it closed.
    Closed(ClosedPass),
    /// The gate was open, and this many units were held: at least 1. The pass is returned.
    Pending(Pass, u64),
}

impl Gate {
    /// Closes the gate if no unit is held, by one compare-and-exchange.
    ///
    /// It never waits. A pass that has found the gate closed before gets `Closed`.
    pub fn try_close(&self, pass: Pass) -> Close
        requires { IsSeatOf self.now pass }
        ensures words { TriesToClose pass result }
        ensures gate { ClosesSeatOf self.now result }
        ensures reported { ReportsClosed result }
        ensures for_good { knows_closed pass.view ≡ true → IsClosed result }
    {
        let Pass { mut seat } = pass;
        let word = self
            .table
            .shared
            .compare_exchange::<Shut>(&mut seat, 0, 0, CLOSED);
        if word == 0 {
            return Close::Closed(ClosedPass { seat });
        }
        let state = state_of(word);
        if state.closed {
            return Close::Closed(ClosedPass { seat });
        }
        Close::Pending(Pass { seat }, state.count)
    }
}
