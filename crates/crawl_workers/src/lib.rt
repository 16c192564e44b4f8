//! Runs the workers of a frontier: each fetches the URLs of its queue and offers the links that it finds, until every accepted
//! URL is done.
//!
//! [`run_worker`] runs one worker on the calling thread, [`run_turns`] runs all of them there in turn, and [`run_threads`] runs
//! each in its own thread. The contracts of all three make the same promises about a worker's [`WorkerEnd`].
#![tactic(auto)]

mod ahead;
mod error;
pub mod laws;
mod output;
mod run;
mod threads;
mod turn;
mod turns;
mod worker_end;

pub use error::RunError;
pub use link_offers::Losses;
pub use run::run_worker;
pub use threads::run_threads;
pub use turns::run_turns;
pub use worker_end::WorkerEnd;
