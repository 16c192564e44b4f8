//! The URL frontier as a pure machine over events: what a crawl's workers and senders may do, one atomic step at a time.
#![tactic(auto)]

mod error;
mod event;
/// Theorems about whole runs.
pub mod laws;
mod machine;
mod progress;
mod reply;
mod runs;
mod text;
mod url_queue;
mod url_queues;
mod word;

pub use crawl_limits::{PENDING_LIMIT, WORKER_LIMIT};
pub use error::{CoreError, NoMemory};
pub use event::Event;
pub use machine::{Core, QUEUE_LIMIT};
pub use progress::Progress;
pub use reply::{Refusal, Reply};
pub use runs::run;
pub use text::Text;
pub use word::Word;
