//! Why arguments are not a plan.
ghost use Rattle.std.specs.Prelude.{◌≡◌, IfOk, string_bytes};
ghost use Rattle.mercator.specs.Plans.{IsShown, IsVisible};
ghost use Rattle.mercator.specs.declared.commands.plan_error.PlanError.TheVariants as wrong;

use shown_text::laws::shown_text_has_no_hidden_character;
use shown_text::shown_lines;
use std::alloc::{AllocError, AllocFailed, Global};

/// Why arguments are not a plan.
#[derive(Drop)]
pub enum PlanError {
    /// A text to show instead of running a command: help, with status 0, or an error in the arguments or in the configuration file, with
    /// status 3.
    Shown {
        /// The text, whose last line ends in LF. Its other hidden characters are escaped. It is empty if the arguments were parsed
        /// otherwise than they were checked.
        text: String,
        /// The exit status of the program.
        status: u8,
    },
    /// Out of memory. If `clap` runs out of memory, that may also be `Shown`.
    NoMemory,
}

impl PlanError {
    /// The exit status of a bad command line.
    pub const BAD_COMMAND_LINE: u8 = 3;
}

impl From<AllocError> for PlanError {
    ghost from_gives = { λ _ error. error ≡ wrong.NoMemory };

    fn from(_refused: AllocError) -> PlanError {
        PlanError::NoMemory
    }
}

impl<T: Drop> From<AllocFailed<T>> for PlanError {
    ghost from_gives = { λ _ error. error ≡ wrong.NoMemory };

    fn from(_refused: AllocFailed<T>) -> PlanError {
        PlanError::NoMemory
    }
}

/// The error with this text, for arguments that `clap` accepts or for a configuration file.
pub fn bad_arguments(alloc: Global, text: &str) -> Result<PlanError, AllocError>
    ensures { IfOk result IsShown }
{
    Ok(PlanError::Shown {
        text: visible(alloc, text)?,
        status: PlanError::BAD_COMMAND_LINE,
    })
}

/// Returns the text with its hidden characters escaped.
pub fn visible(alloc: Global, text: &str) -> Result<String, AllocError>
    ensures { IfOk result (λ visible. IsVisible (string_bytes visible)) }
{
    shown_text_has_no_hidden_character();
    shown_lines(alloc, text)
}
