//! Leaving: a unit becomes a pass.
ghost use Rattle.std.specs.Prelude.{◌≡◌, ◌<◌, ◌+◌};
ghost use Rattle.crawl_gate.specs.Word.{open_at};
ghost use Rattle.crawl_gate.specs.Seat.{IsSeatOf, after_leaving};

use super::Gate;
use crate::pass::Pass;
use crate::rule::GiveBack;
use crate::unit::Unit;

impl Gate {
    /// Gives the unit back. The result is the pass that it becomes, and the number of units that are left.
    ///
    /// It is one subtraction, and never waits. The gate stays open: only [`Gate::try_close`] closes it.
    pub fn leave(&self, unit: Unit) -> (Pass, u64)
        requires { IsSeatOf self.now unit }
        ensures left { result.0 ≡ after_leaving unit (open_at (result.1 + 1)) }
        ensures gate { IsSeatOf self.now result.0 }
        ensures room { result.1 < self.now.max_pending }
    {
        let Unit { mut seat } = unit;
        let count = self.table.shared.fetch_sub::<GiveBack>(&mut seat, 0, 1);
        (Pass { seat }, count - 1)
    }
}
