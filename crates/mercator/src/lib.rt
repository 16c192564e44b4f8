//! The program `mercator`: its command line, its commands, and their errors and exit statuses.
//!
//! - [`run_words`] runs the program on a command line. [`plan`] only parses one, and [`run_plan`] runs what was parsed.
//! - [`report_of_saved_web`] crawls a saved web, which is a text file of pages and their links.
//! - [`key_line`] is the line that the command `key` prints.
//!
//! Crawls come from `crawl_run`, certificates from `crawl_certificate`, runs of workers from `crawl_workers`, and scripts from
//! `crawl_replay`. This crate exports their main names.
#![tactic(auto)]

mod commands;
mod key;
/// Theorems that connect the definitions of this crate and of the crates below it.
pub mod laws;

/// Parts of the commands that only tests call.
pub mod testing {
    pub use crate::commands::{InputLimits, Unread, error_line, read_input};
}

/// Runs of the workers of a frontier.
pub mod workers {
    pub use crawl_workers::{RunError, WorkerEnd, run_threads, run_turns, run_worker};
}

pub use commands::{
    CommandError, Plan, PlanError, Platform, Report, plan, report_of_saved_web, run_plan, run_words,
};
pub use crawl_certificate::{CertError, CrawlResult, certify};
pub use crawl_replay::{Script, ScriptError, read_script, replay_text};
pub use crawl_report::queue_text;
pub use crawl_run::{CrawlError, Crawled, Mode, crawl};
pub use key::key_line;
