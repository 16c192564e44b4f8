//! The log of a session in a file: opened, locked, resumed, appended to, compacted.
//!
//! - [`open_session`] opens and locks the log of a [`SessionPlan`], and creates its session.
//! - [`OpenedLog::cut`] and [`resume`] bring the session to the state at the end of the log. [`serve_logged`] then appends each
//!   request to the log before the session answers it.
//! - [`compact`] writes a compacted copy of the log to a new file.
//! - [`list`] returns the URLs of a log, which another process may be using.
#![tactic(auto)]

mod compact_plan;
mod compacting;
mod error;
mod file_node;
mod frame;
mod lines;
mod listing;
mod lock_file;
mod log_file;
mod log_settings;
mod new_log;
mod opening;
mod plan;
mod rebuilding;
mod resuming;
mod window;

/// Locks that only tests use.
pub mod testing {
    pub use crate::lock_file::NoLocks;
}

pub use compact_plan::{CompactPlan, NamedSettings};
pub use compacting::compact;
pub use error::{LogError, LoggedError, Setting};
pub use listing::{ListKind, ListPlan, list};
pub use lock_file::LockFile;
pub use log_file::Log;
pub use opening::{OpenedLog, open_session};
pub use plan::{LogPlan, SessionPlan};
pub use resuming::{resume, serve_logged};
