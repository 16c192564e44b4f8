//! A gate for a pool of workers: it counts the work that is not done, and closes for good when none is left.
//!
//! Each piece of work, in progress or waiting in a queue, holds one *unit* of the gate. The number of units
//! and the closed bit are in one atomic word, which threads share by `&`. A worker that finds nothing to do
//! tries to close the gate, and so learns that all is done or how many units are held.
//!
//! - [`Gate::new`] makes a gate and its first [`Unit`].
//! - [`Gate::split`] and [`Gate::split_unit`] make a [`Pass`], one for each thread. It holds no unit.
//! - [`Gate::enter`] and [`Gate::try_enter`] make a pass a unit, and [`Gate::leave`] makes a unit a pass.
//! - [`Gate::try_close`] closes the gate if no unit is held, and returns a [`ClosedPass`].
//!
//! Passes, units and closed passes are called *seats*. They have no bytes, and each belongs to one gate: a
//! call must be given a seat of its own gate. Only [`Gate::enter`] and [`Gate::enter_beside`] may wait, and
//! only [`Gate::new`] can run out of memory.
//!
//! ```rust
//! let (gate, mut opening) = Gate::new(alloc, 10)?;
//! let pass = gate.split_unit(&mut opening);
//!
//! // The opening unit is given back, so no unit is held.
//! let (_, left) = gate.leave(opening);
//! assert!(rt; left == 0);
//! assert!(rt; matches!(gate.try_close(pass), Close::Closed(_)));
//! ```
#![tactic(auto)]

mod closed_pass;
mod error;
mod gate;
pub mod laws;
mod pass;
mod rule;
mod step_kind;
mod unit;
mod word;

pub use closed_pass::ClosedPass;
pub use error::GateError;
pub use gate::close::Close;
pub use gate::enter::Enter;
pub use gate::{Gate, MAX_PENDING_LIMIT};
pub use pass::Pass;
pub use rule::View;
pub use step_kind::StepKind;
pub use unit::Unit;
pub use word::GateState;
