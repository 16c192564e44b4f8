//! A frontier as a separate process: one request per line, and one answer to each.
#![tactic(auto)]

mod answer;
mod compact;
mod deferrals;
mod exchange;
mod frontier;
mod inventory;
/// Laws of sessions.
pub mod laws;
mod list;
mod log;
mod log_start;
mod part;
mod rebuild;
mod request;
mod seen;
mod serving;
mod session;
mod stats;
mod sums;
mod texts;

pub use answer::Answer;
pub use compact::{Compactor, write_seen};
pub use inventory::Inventory;
pub use list::{ListForm, Lister};
pub use log::{read_settings, settings_line, whole_len};
pub use log_start::{read_start, start_text};
pub use part::Part;
pub use rebuild::{LeftOut, RebuildError, rebuild_log};
pub use request::{Request, RequestError};
pub use serving::{HELD_LIMIT, READ_SIZE, ServeError, serve};
pub use session::Session;
pub use stats::Stats;
pub use sums::{LogSum, SumCheck, hex_digit};
