//! The gate, and how one is made and split.
ghost use Rattle.std.specs.Prelude.{◌≡◌, MatchResult};
ghost use Rattle.crawl_gate.specs.View.{fresh_view};
ghost use Rattle.crawl_gate.specs.Seat.{IsSeatOf, IsFirstUnit};
ghost use Rattle.crawl_gate.specs.GateError.{IsMaximum, Refuses};

pub mod close;
pub mod enter;
mod leave;
mod load;

use crate::error::GateError;
use crate::pass::Pass;
use crate::rule::{CountsUnits, FreshPass, View};
use crate::unit::Unit;
use atomic_table::Table;
use crawl_limits::PENDING_LIMIT;
use std::alloc::Global;
use std::marker::Model;

/// The greatest maximum of a gate: 2^40 units.
pub const MAX_PENDING_LIMIT: u64 = PENDING_LIMIT;

/// A count of units, and a closed bit, in one atomic word that threads share by `&`.
///
/// The count is never above the gate's maximum. When the gate is closed the count is 0, and both stay so.
///
/// ```rust
/// let (gate, mut opening) = Gate::new(alloc, 2)?;
/// let one = gate.split_unit(&mut opening);
/// let other = gate.split_unit(&mut opening);
///
/// // With the opening unit this is the second of two, so there is no room for a third.
/// let Enter::Entered(unit) = gate.try_enter(one) else {
///     return Err(Fail);
/// };
/// assert!(rt; matches!(gate.try_enter(other), Enter::Full(_)));
///
/// let (pass, left) = gate.leave(unit);
/// assert!(rt; left == 1);
/// assert!(rt; matches!(gate.try_close(pass), Close::Pending(_, 1)));
/// ```
#[derive(Drop)]
pub struct Gate {
    table: Table<(), View, u64, CountsUnits, Global>,
    max_pending: u64,
}

impl Model for Gate {
    ghost use Rattle.std.specs.Prelude.{◌≡◌};
    ghost use Rattle.crawl_gate.specs.Seat.{GateId};
    ghost use Rattle.crawl_gate.specs.GateError.{IsMaximum};

    ghost Value = { GateId };

    ghost view = { λ g. record { table = g.table.shared.table_id; max_pending = g.max_pending } };

    ghost invariant = { λ g. (g.table.shared.table_id.words ≡ 1) × (g.table.shared.key ≡ g.max_pending) × IsMaximum g.max_pending };
}

impl Gate {
    /// An open gate for at most `max_pending` units, and the first of these units.
    ///
    /// The maximum must be from 1 to [`MAX_PENDING_LIMIT`]; otherwise the error is `BadLimit`. If the
    /// allocation fails, the error is `NoMemory`.
    pub fn new(alloc: Global, max_pending: u64) -> Result<(Gate, Unit), GateError>
        ensures { MatchResult result
            (λ made. IsMaximum max_pending × (made.0.max_pending ≡ max_pending) × IsSeatOf made.0 made.1 × IsFirstUnit made.0 made.1)
            (λ e. Refuses max_pending e) }
    {
        if max_pending == 0 || max_pending > MAX_PENDING_LIMIT {
            return Err(GateError::BadLimit);
        }
        let (table, seat) = Table::of_words(alloc, &[1], &max_pending)?;
        Ok((Gate { table, max_pending }, Unit { seat }))
    }

    /// A new pass of the gate, split off a pass, which stays as it is.
    #[tactic(auto, using(crate::proofs::Keeping::splits))]
    pub fn split(&self, pass: &mut Pass) -> Pass
        requires { IsSeatOf self.now pass.old }
        ensures same { pass.new ≡ pass.old }
        ensures gate { IsSeatOf self.now result }
        ensures fresh { result.view ≡ fresh_view self.now.max_pending }
    {
        let seat = self.table.shared.split_seat::<FreshPass>(&mut pass.seat);
        Pass { seat }
    }

    /// A new pass of the gate, split off a unit, which stays as it is.
    #[tactic(auto, using(crate::proofs::Keeping::splits))]
    pub fn split_unit(&self, unit: &mut Unit) -> Pass
        requires { IsSeatOf self.now unit.old }
        ensures same { unit.new ≡ unit.old }
        ensures gate { IsSeatOf self.now result }
        ensures fresh { result.view ≡ fresh_view self.now.max_pending }
    {
        let seat = self.table.shared.split_seat::<FreshPass>(&mut unit.seat);
        Pass { seat }
    }
}
