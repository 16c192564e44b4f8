//! The rule that the word and the views of all seats keep, and what each kind of step adds to its seat's view.
use crate::step_kind::StepKind;
use atomic_table::{Play, Split, TableRule};
use std::collections::LinkedList;

/// What a seat knows. It is only for clauses: no value of it is made.
pub struct View {
    /// The gate's maximum.
    pub max_pending: u64,
    /// Whether the seat holds a unit.
    pub holds_unit: bool,
    /// Whether a step of this seat closed the gate.
    pub closed_gate: bool,
    /// Its steps, oldest first: the kind of each step, and the word that it met, which is a count and whether the gate
    /// was closed.
    pub met: LinkedList<(StepKind, (u64, bool))>,
}

pub(crate) struct CountsUnits;

impl TableRule<(), View, u64> for CountsUnits {
    ghost use Rattle.crawl_gate.specs.GateInvariant.{GateInvariant};
    ghost use Rattle.crawl_gate.specs.View.{opening_view};

    ghost holds = { GateInvariant };

    ghost first = { opening_view };
}

pub(crate) struct Look;

impl Play<(), View> for Look {
    ghost use Rattle.crawl_gate.specs.Steps.{Looks};

    ghost then = { Looks };
}

pub(crate) struct TakeUnit;

impl Play<(), View> for TakeUnit {
    ghost use Rattle.crawl_gate.specs.Steps.{Enters};

    ghost then = { Enters };
}

pub(crate) struct GiveBack;

impl Play<(), View> for GiveBack {
    ghost use Rattle.crawl_gate.specs.Steps.{Leaves};

    ghost then = { Leaves };
}

pub(crate) struct Shut;

impl Play<(), View> for Shut {
    ghost use Rattle.crawl_gate.specs.Steps.{Closes};

    ghost then = { Closes };
}

// The seat that is split keeps its view. The new one knows only the maximum.
pub(crate) struct FreshPass;

impl Split<View> for FreshPass {
    ghost use Rattle.crawl_gate.specs.Steps.{view_split, view_split_off};

    ghost left = { view_split };

    ghost right = { view_split_off };
}
