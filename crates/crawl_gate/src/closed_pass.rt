//! A seat that knows that the gate is closed.
use crate::rule::View;
use atomic_table::Seat;
use std::marker::Model;

/// A seat that has closed the gate, or has found it closed.
///
/// Its owner knows that no unit is held, and that none ever will be. [`crate::Gate::try_close`] returns it.
#[derive(Drop)]
pub struct ClosedPass {
    pub(crate) seat: Seat<(), View>,
}

impl Model for ClosedPass {
    ghost use Rattle.std.specs.Prelude.{◌≡◌, true, false, []};
    ghost use Rattle.crawl_gate.specs.View.{knows_closed};
    ghost use Rattle.crawl_gate.specs.Seat.{SeatId};

    ghost Value = { SeatId };

    ghost view = { λ p. record { table = p.seat.table_id; number = p.seat.id; view = p.seat.me.0 } };

    ghost invariant = { λ p. (knows_closed p.seat.me.0 ≡ true) × (p.seat.me.0.holds_unit ≡ false) × (p.seat.me.1 ≡ []) };
}
