//! Why a gate was not made.
use std::alloc::AllocError;
use std::error::Error;
use std::fmt;

/// Why a gate was not made. The variants are in the order of the checks.
#[derive(Clone, Copy, Debug, PartialEq, Eq)]
pub enum GateError {
    /// The maximum is 0 or more than [`crate::MAX_PENDING_LIMIT`].
    BadLimit,
    /// The allocation of the gate's word failed.
    NoMemory,
}

impl From<AllocError> for GateError {
    ghost use Rattle.std.specs.Prelude.{◌≡◌};
    ghost use Rattle.crawl_gate.specs.declared.error.GateError.TheVariants.{NoMemory};

    ghost from_gives = { λ _ e. e ≡ NoMemory };

    fn from(_refused: AllocError) -> GateError {
        GateError::NoMemory
    }
}

impl fmt::Display for GateError {
    ghost use Rattle.std.specs.Prelude.{Some};
    ghost use Rattle.crawl_gate.specs.GateError.{error_text};

    ghost output = { λ e. Some (error_text e) };

    fn fmt<W: fmt::Write>(&self, f: &mut fmt::Formatter<W>) -> fmt::Result {
        match self {
            GateError::BadLimit => f.write_str("maximum not from 1 to 2^40"),
            GateError::NoMemory => f.write_str("out of memory"),
        }
    }
}

impl Error for GateError {}
