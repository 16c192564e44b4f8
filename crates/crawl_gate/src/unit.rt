//! A seat that holds a unit: the right to leave once.
use crate::rule::View;
use atomic_table::Seat;
use std::marker::Model;

/// One unit of work that is not done: the right to leave once. While it is held, the gate stays open.
///
/// A new gate comes with one, and a pass that enters becomes one. [`crate::Gate::leave`] takes it back. A unit
/// that is dropped instead stays counted, so its gate never closes. It has no bytes.
#[derive(Drop)]
pub struct Unit {
    pub(crate) seat: Seat<(), View>,
}

impl Model for Unit {
    ghost use Rattle.std.specs.Prelude.{◌≡◌, true, []};
    ghost use Rattle.crawl_gate.specs.Seat.{SeatId};

    ghost Value = { SeatId };

    ghost view = { λ p. record { table = p.seat.table_id; number = p.seat.id; view = p.seat.me.0 } };

    ghost invariant = { λ p. (p.seat.me.0.holds_unit ≡ true) × (p.seat.me.1 ≡ []) };
}
