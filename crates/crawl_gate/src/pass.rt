//! A seat that holds no unit.
use crate::rule::View;
use atomic_table::Seat;
use std::marker::Model;

/// A seat that holds no unit. With it a thread reads the gate, enters it, or tries to close it.
///
/// It is split off a unit or another pass, or is what a unit becomes when it leaves. It has no bytes, and
/// dropping it changes nothing.
#[derive(Drop)]
pub struct Pass {
    pub(crate) seat: Seat<(), View>,
}

impl Model for Pass {
    ghost use Rattle.std.specs.Prelude.{◌≡◌, false, []};
    ghost use Rattle.crawl_gate.specs.Seat.{SeatId};

    ghost Value = { SeatId };

    ghost view = { λ p. record { table = p.seat.table_id; number = p.seat.id; view = p.seat.me.0 } };

    ghost invariant = { λ p. (p.seat.me.0.holds_unit ≡ false) × (p.seat.me.1 ≡ []) };
}
