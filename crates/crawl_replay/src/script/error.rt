ghost use Rattle.std.specs.Prelude.{◌≡◌};
ghost use Rattle.crawl_replay.specs.ScriptErrors.{error_of};
ghost use Rattle.crawl_replay.specs.declared.script.error.ScriptError.TheVariants as wrong;

use std::alloc::{AllocError, AllocFailed};
use text_lines::LineError;
use thiserror::Error;

/// Why bytes are not a script, in the order of the checks. Lines are numbered from 1.
#[derive(Clone, Copy, Debug, PartialEq, Eq, Error)]
pub enum ScriptError {
    /// The line with this number has more than [`LINE_LIMIT`](text_lines::LINE_LIMIT) bytes.
    #[error("script: line {0}: line too long")]
    LineTooLong(u64),
    /// The line with this number is not UTF-8.
    #[error("script: line {0}: not UTF-8")]
    NotText(u64),
    /// The first line is not `workers N max M` with both numbers within the frontier's limits, or there is no line.
    #[error("script: bad header")]
    BadHeader,
    /// The line with this number, after the first, is neither empty nor an event.
    #[error("script: line {0}: bad line")]
    BadLine(u64),
    /// The line with this number admits a text without a canonical `http` or `https` URL.
    #[error("script: line {0}: bad URL")]
    BadUrl(u64),
    /// An allocation failed. This may replace any other result.
    #[error("out of memory")]
    NoMemory,
}

impl From<LineError> for ScriptError {
    ghost from_gives = { λ line error. error ≡ error_of line };

    fn from(line: LineError) -> ScriptError {
        match line {
            LineError::TooLong(number) => ScriptError::LineTooLong(number),
            LineError::NotText(number) => ScriptError::NotText(number),
        }
    }
}

impl From<AllocError> for ScriptError {
    ghost from_gives = { λ _ error. error ≡ wrong.NoMemory };

    fn from(_refused: AllocError) -> ScriptError {
        ScriptError::NoMemory
    }
}

impl<T: Drop> From<AllocFailed<T>> for ScriptError {
    ghost from_gives = { λ _ error. error ≡ wrong.NoMemory };

    fn from(_refused: AllocFailed<T>) -> ScriptError {
        ScriptError::NoMemory
    }
}
