//! Why a run failed.
use std::error::Error;
use std::fmt;

/// Why a run of several workers failed. No worker took a URL, and all of them are dropped.
#[derive(Clone, Copy, Debug, PartialEq, Eq)]
pub enum RunError {
    /// Out of memory.
    NoMemory,
    /// A thread could not be started.
    NoThread,
}

impl fmt::Display for RunError {
    ghost use Rattle.std.specs.Prelude.{Some};
    ghost use Rattle.crawl_workers.specs.ErrorTexts.{run_error_text};

    ghost output = { λ e. Some (run_error_text e) };

    fn fmt<W: fmt::Write>(&self, f: &mut fmt::Formatter<W>) -> fmt::Result {
        match self {
            RunError::NoMemory => f.write_str("out of memory"),
            RunError::NoThread => f.write_str("no thread"),
        }
    }
}

impl Error for RunError {}
