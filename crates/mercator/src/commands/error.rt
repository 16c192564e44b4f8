//! Why a command failed.
ghost use Rattle.std.specs.Prelude.{◌≡◌, ◌≤◌};
ghost use Rattle.mercator.specs.Errors.{of_script, of_seeds, of_web, of_url, of_crawl, of_filter, of_log, of_site};
ghost use Rattle.mercator.specs.declared.commands.error.CommandError.TheVariants as wrong;

use crate::commands::input::Unread;
use crawl_keys::{FilterError, KeyError};
use crawl_replay::ScriptError;
use crawl_run::{CrawlError, CrawlFailure};
use crawl_sources::SeedsError;
use mercator_site::FolderError;
use saved_web::WebError;
use session_log::LogError;
use std::alloc::{AllocError, AllocFailed};

/// Why a command failed.
///
/// # Example
///
/// `mercator` ends with the status of its error:
///
/// ```rust
/// let status = CommandError::NoMemory.status();
/// ```
#[derive(Drop)]
pub enum CommandError {
    /// FILE, or the input, cannot be read or exceeds a limit.
    CannotRead,
    /// The file of seeds cannot be read or exceeds a limit.
    CannotReadSeeds,
    /// The ignore list cannot be read or exceeds a limit.
    CannotReadIgnores,
    /// The site list cannot be read or exceeds a limit.
    CannotReadIndex,
    /// The input is not a script.
    Script(ScriptError),
    /// The input is not a saved web.
    Web(WebError),
    /// A line of the file of seeds is not a seed.
    Seeds(SeedsError),
    /// There is no seed, neither in the file of seeds nor on the command line.
    NoSeed,
    /// A seed on the command line has no canonical URL: the number of the first such seed, from 1, and why.
    Seed(usize, KeyError),
    /// The URL of `mercator key` has no canonical URL.
    Url(KeyError),
    /// A crawl has no certified result. The reason is never that memory ran out.
    Crawl(CrawlFailure),
    /// A folder has no report, or no saved web. The reason is neither a crawl that failed nor that memory ran out.
    Site(FolderError),
    /// The suffix of `--within` cannot be the end of a host.
    BadSuffix,
    /// A write or a flush failed.
    CannotWrite,
    /// Not every file of the folder could be rewritten.
    CannotFix,
    /// The log cannot be used. The reason is never that memory ran out.
    Log(LogError),
    /// Out of memory. The other variants never hold this reason.
    NoMemory,
}

impl CommandError {
    ghost use Rattle.mercator.specs.Errors as spec;

    /// Returns the exit status: 2 if a crawl was made but not certified, or could not start a thread; 5 if another program uses
    /// the log; else 1.
    pub fn status(&self) -> u8
        ensures status { result ≡ spec.status_of_error self.now }
        ensures some { 1 ≤ result }
        ensures few { result ≤ 5 }
        ensures no_command { result ≡ 3 → ⊥ }
        ensures no_report { result ≡ 4 → ⊥ }
    {
        match self {
            CommandError::Crawl(failure) => { if failure.error.is_incomplete() { 2 } else { 1 } }
            CommandError::Log(why) => why.status(),
            _ => 1,
        }
    }

    /// Returns the error about the seed with this number, which was refused for this reason.
    pub fn of_seed(number: usize, refusal: KeyError) -> CommandError
        ensures { result ≡ spec.of_seed number refusal }
    {
        match refusal {
            KeyError::NoMemory => CommandError::NoMemory,
            KeyError::NotUrl | KeyError::NotHttp => CommandError::Seed(number, refusal),
        }
    }

    /// Returns the error about a file that was not read to its end: `error`, unless memory ran out.
    pub fn of_unread_file(why: Unread, error: CommandError) -> CommandError
        ensures { result ≡ spec.of_unread_file error why }
    {
        match why {
            Unread::Failed | Unread::Beyond => error,
            Unread::NoMemory => CommandError::NoMemory,
        }
    }
}

impl From<Unread> for CommandError {
    ghost use Rattle.mercator.specs.Errors.{of_unread};

    ghost from_gives = { λ unread error. error ≡ of_unread unread };

    fn from(why: Unread) -> CommandError {
        match why {
            Unread::Failed | Unread::Beyond => CommandError::CannotRead,
            Unread::NoMemory => CommandError::NoMemory,
        }
    }
}

impl From<ScriptError> for CommandError {
    ghost from_gives = { λ script error. error ≡ of_script script };

    fn from(error: ScriptError) -> CommandError {
        match error {
            ScriptError::NoMemory => CommandError::NoMemory,
            _ => CommandError::Script(error),
        }
    }
}

impl From<SeedsError> for CommandError {
    ghost from_gives = { λ seeds error. error ≡ of_seeds seeds };

    fn from(error: SeedsError) -> CommandError {
        match error {
            SeedsError::NoMemory => CommandError::NoMemory,
            _ => CommandError::Seeds(error),
        }
    }
}

impl From<WebError> for CommandError {
    ghost from_gives = { λ web error. error ≡ of_web web };

    fn from(error: WebError) -> CommandError {
        match error {
            WebError::NoMemory => CommandError::NoMemory,
            _ => CommandError::Web(error),
        }
    }
}

impl From<CrawlFailure> for CommandError {
    ghost from_gives = { λ failure error. error ≡ of_crawl failure };

    fn from(failure: CrawlFailure) -> CommandError {
        match failure.error {
            CrawlError::NoMemory => CommandError::NoMemory,
            _ => CommandError::Crawl(failure),
        }
    }
}

impl From<FolderError> for CommandError {
    ghost from_gives = { λ site error. error ≡ of_site site };

    fn from(error: FolderError) -> CommandError {
        match error {
            FolderError::Crawl(failure) => CommandError::from(failure),
            FolderError::NoMemory => CommandError::NoMemory,
            _ => CommandError::Site(error),
        }
    }
}

impl From<LogError> for CommandError {
    ghost from_gives = { λ why error. error ≡ of_log why };

    fn from(error: LogError) -> CommandError {
        match error {
            LogError::NoMemory => CommandError::NoMemory,
            _ => CommandError::Log(error),
        }
    }
}

impl From<FilterError> for CommandError {
    ghost from_gives = { λ filter error. error ≡ of_filter filter };

    fn from(error: FilterError) -> CommandError {
        match error {
            FilterError::BadSuffix(_) => CommandError::BadSuffix,
            FilterError::NoMemory => CommandError::NoMemory,
        }
    }
}

impl From<KeyError> for CommandError {
    ghost from_gives = { λ key error. error ≡ of_url key };

    fn from(error: KeyError) -> CommandError {
        match error {
            KeyError::NoMemory => CommandError::NoMemory,
            KeyError::NotUrl | KeyError::NotHttp => CommandError::Url(error),
        }
    }
}

impl<T: Drop> From<AllocFailed<T>> for CommandError {
    ghost from_gives = { λ _ error. error ≡ wrong.NoMemory };

    fn from(_refused: AllocFailed<T>) -> CommandError {
        CommandError::NoMemory
    }
}

impl From<AllocError> for CommandError {
    ghost from_gives = { λ _ error. error ≡ wrong.NoMemory };

    fn from(_refused: AllocError) -> CommandError {
        CommandError::NoMemory
    }
}
