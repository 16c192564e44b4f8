//! Reading the gate's word.
ghost use Rattle.std.specs.Prelude.{◌≡◌, ◌<◌, ◌≤◌, false};
ghost use Rattle.crawl_gate.specs.Word.{open_at};
ghost use Rattle.crawl_gate.specs.View.{knows_closed};
ghost use Rattle.crawl_gate.specs.GateInvariant.{MayMeet};
ghost use Rattle.crawl_gate.specs.Seat.{IsSeatOf, after_looking};

use super::Gate;
use crate::pass::Pass;
use crate::rule::Look;
use crate::unit::Unit;
use crate::word::{GateState, state_of};

impl Gate {
    /// The count and the closed bit, by one load.
    pub fn load(&self, pass: &mut Pass) -> GateState
        requires { IsSeatOf self.now pass.old }
        ensures met { pass.new ≡ after_looking pass.old (result.count, result.closed) }
        ensures may_meet { MayMeet pass.old.view (result.count, result.closed) }
    {
        state_of(self.table.shared.load::<Look>(&mut pass.seat, 0))
    }

    /// The count, by one load of a caller that holds a unit. It is from 1 to the maximum, and the gate is
    /// open.
    pub fn load_held(&self, unit: &mut Unit) -> u64
        requires { IsSeatOf self.now unit.old }
        ensures met { unit.new ≡ after_looking unit.old (open_at result) }
        ensures may_meet { MayMeet unit.old.view (open_at result) }
        ensures held { 0 < result }
        ensures within { result ≤ self.now.max_pending }
        ensures never_closed { knows_closed unit.old.view ≡ false }
    {
        self.table.shared.load::<Look>(&mut unit.seat, 0)
    }
}
