//! Why a log cannot be used, and why a session with a log ends.
ghost use Rattle.std.specs.Prelude.{◌≡◌, ◌⊎◌, Some};

use crawl_session::ServeError;
use std::alloc::{AllocError, AllocFailed};
use std::fmt::Display;
use std::{fmt, io};

/// Why a log cannot be used.
#[derive(Clone, Copy, Debug, PartialEq, Eq)]
pub enum LogError {
    /// The file cannot be created, opened or locked.
    CannotOpen,
    /// Another process uses the file.
    InUse,
    /// A read failed.
    CannotRead,
    /// The file does not begin like a log.
    NotALog,
    /// The log was made with other options, of which this is the first.
    OtherSettings(Setting),
    /// The log is damaged between these of its lines: its last right checksum before the damage, and the first wrong one.
    Damaged(u64, u64),
    /// A write failed.
    CannotWrite,
    /// Another process changed, moved or removed the file since it was opened.
    Changed,
    /// The settings of the new log allow fewer URLs that are not done.
    NoRoom,
    /// A URL is too long to be offered to the new log.
    LongUrl,
    /// The file for the compacted log exists already, or cannot be created.
    CannotMakeNew,
    /// A write to the file for the compacted log failed.
    CannotWriteNew,
    /// Out of memory. The other variants never hold this reason.
    NoMemory,
}

/// A setting of a log that is not that of the command line.
#[derive(Clone, Copy, Debug, PartialEq, Eq)]
pub enum Setting {
    /// `--part`: the log is that of this part, of this many.
    Part(u32, u32),
    /// The log has no `--part`.
    NoPart,
    /// `--within`: the log has another suffix.
    Within,
    /// The log has no `--within`.
    NoWithin,
    /// `--workers`: the log has this number.
    Workers(u32),
    /// `--max-pending`: the log has this number.
    MaxPending(u64),
}

/// Why a session with a log ended before its input did.
#[derive(Clone, Copy, Debug, PartialEq, Eq)]
pub enum LoggedError {
    /// The log cannot be appended to.
    Log(LogError),
    /// The session cannot read its input, or write, or has no memory.
    Session(ServeError),
}

/// Why bytes could not be appended to a log.
#[derive(Clone, Copy, Debug, PartialEq, Eq)]
pub enum AppendError {
    /// A write failed.
    CannotWrite,
    /// Another process changed, moved or removed the file since it was opened.
    Changed,
    /// Out of memory.
    NoMemory,
}

impl LogError {
    ghost use Rattle.session_log.specs.Errors as spec;

    /// Returns the exit status: 5 if another process uses the file, else 1.
    pub fn status(self) -> u8
        ensures status { result ≡ spec.status_of_log self }
        ensures either { (result ≡ 1) ⊎ (result ≡ 5) }
    {
        match self {
            LogError::InUse => 5,
            _ => 1,
        }
    }
}

impl fmt::Display for LogError {
    ghost use Rattle.session_log.specs.Errors.{log_text};

    ghost output = { λ error. Some (log_text error) };

    fn fmt<W: fmt::Write>(&self, f: &mut fmt::Formatter<W>) -> fmt::Result {
        match self {
            LogError::CannotOpen => f.write_str("cannot open"),
            LogError::InUse => f.write_str("in use by another program"),
            LogError::CannotRead => f.write_str("cannot read"),
            LogError::NotALog => f.write_str("not a log"),
            LogError::OtherSettings(setting) => setting.fmt(f),
            LogError::Damaged(right, wrong) => {
                write!(f, "damaged between lines {right} and {wrong}")
            }
            LogError::CannotWrite => f.write_str("cannot write"),
            LogError::Changed => f.write_str("changed by another program"),
            LogError::NoRoom => f.write_str("more unfinished URLs than --max-pending allows"),
            LogError::LongUrl => f.write_str("has a URL that is too long for an offer"),
            LogError::CannotMakeNew => {
                f.write_str("cannot create the new log, which must not exist")
            }
            LogError::CannotWriteNew => f.write_str("cannot write the new log"),
            LogError::NoMemory => f.write_str("out of memory"),
        }
    }
}

impl fmt::Display for Setting {
    ghost use Rattle.session_log.specs.Errors.{setting_text};

    ghost output = { λ setting. Some (setting_text setting) };

    fn fmt<W: fmt::Write>(&self, f: &mut fmt::Formatter<W>) -> fmt::Result {
        match *self {
            Setting::Part(number, parts) => write!(f, "made with --part {number}/{parts}"),
            Setting::NoPart => f.write_str("made without --part"),
            Setting::Within => f.write_str("made with another --within: see its first line"),
            Setting::NoWithin => f.write_str("made without --within"),
            Setting::Workers(workers) => write!(f, "made with --workers {workers}"),
            Setting::MaxPending(max) => write!(f, "made with --max-pending {max}"),
        }
    }
}

// An error of this type comes from a call that reads a log or seeks in it.
impl From<io::Error> for LogError {
    ghost use Rattle.session_log.specs.declared.error.LogError.TheVariants.{CannotRead};

    ghost from_gives = { λ _ error. error ≡ CannotRead };

    fn from(_why: io::Error) -> LogError {
        LogError::CannotRead
    }
}

impl From<AllocError> for LogError {
    ghost use Rattle.session_log.specs.declared.error.LogError.TheVariants.{NoMemory};

    ghost from_gives = { λ _ error. error ≡ NoMemory };

    fn from(_refused: AllocError) -> LogError {
        LogError::NoMemory
    }
}

impl<T: Drop> From<AllocFailed<T>> for LogError {
    ghost use Rattle.session_log.specs.declared.error.LogError.TheVariants.{NoMemory};

    ghost from_gives = { λ _ error. error ≡ NoMemory };

    fn from(_refused: AllocFailed<T>) -> LogError {
        LogError::NoMemory
    }
}

// An error of this type comes from a `Lister` or a `Compactor`, which read nothing. They write to memory, so a write fails only if
// there is none.
impl From<ServeError> for LogError {
    ghost use Rattle.session_log.specs.declared.error.LogError.TheVariants.{NoMemory};

    ghost from_gives = { λ _ error. error ≡ NoMemory };

    fn from(_why: ServeError) -> LogError {
        LogError::NoMemory
    }
}

impl From<AppendError> for LogError {
    ghost use Rattle.session_log.specs.LogFile.{error_of_append};

    ghost from_gives = { λ why error. error ≡ error_of_append why };

    fn from(why: AppendError) -> LogError {
        match why {
            AppendError::CannotWrite => LogError::CannotWrite,
            AppendError::Changed => LogError::Changed,
            AppendError::NoMemory => LogError::NoMemory,
        }
    }
}

impl From<AllocError> for AppendError {
    ghost use Rattle.session_log.specs.declared.error.AppendError.TheVariants.{NoMemory};

    ghost from_gives = { λ _ error. error ≡ NoMemory };

    fn from(_refused: AllocError) -> AppendError {
        AppendError::NoMemory
    }
}

impl From<AllocError> for LoggedError {
    ghost use Rattle.crawl_session.specs.declared.serving.ServeError.TheVariants.{NoMemory};
    ghost use Rattle.session_log.specs.declared.error.LoggedError.TheVariants.{Session};

    ghost from_gives = { λ _ error. error ≡ Session NoMemory };

    fn from(_refused: AllocError) -> LoggedError {
        LoggedError::Session(ServeError::NoMemory)
    }
}
