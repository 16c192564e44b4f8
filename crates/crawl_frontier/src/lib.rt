//! A URL frontier for the threads of a crawler: it accepts each URL once, and gives it to one worker.
//!
//! The frontier has a first-in, first-out queue for each worker. The host of a URL decides its queue, so all URLs of a
//! host are taken by the same worker, one at a time. Threads share the frontier by `&`.
//!
//! - [`Setup::new`] makes the queues, and a gate that counts the URLs that are not done.
//! - [`Frontier::new`] makes the frontier, a [`Worker`] for each queue, and the [`Seeder`].
//! - The seeder offers the first URLs, and ends. [`Seeder::another`] makes a [`Sender`], which offers URLs from outside.
//! - [`Worker::next`] takes a URL. The worker is then a [`BusyWorker`], which offers the links of the page, until
//!   [`BusyWorker::done`].
//! - Once the seeding has ended and every accepted URL is done, [`Worker::next`] returns a [`ClosedWorker`].
//! - [`Frontier::finish`] checks the run, and returns the [`Account`] of all accepted URLs.
//!
//! The seeder, the workers and each [`Sender`] are *senders*. Each has an id, and a log of what its offers returned.
//!
//! A worker's thread:
//!
//! ```rust
//! fn crawl<K: Name, R: Wait>(
//!     rt: &R,
//!     alloc: Global,
//!     frontier: &Frontier<K>,
//!     mut worker: Worker<K>,
//! ) -> ClosedWorker<K> {
//!     for _ in rt.forever() {
//!         match worker.next(rt, frontier) {
//!             Turn::Busy(mut busy) => {
//!                 offer_links(rt, alloc, frontier, &mut busy);
//!                 worker = busy.done(frontier);
//!             }
//!             Turn::Idle(idle, _) => {
//!                 idle.rest(rt, frontier);
//!                 worker = idle;
//!             }
//!             Turn::Closed(closed) => return closed,
//!         }
//!     }
//!     unreachable!()
//! }
//! ```
//!
//! The offers, [`Worker::next`], [`Worker::rest`] and [`Worker::look_ahead`] may wait; no other call does.
#![tactic(auto)]

mod accepted;
mod account;
mod busy_worker;
mod closed_worker;
mod error;
mod finish;
mod frontier;
pub mod laws;
mod new_frontier;
mod offer;
mod seeder;
mod sender;
mod setup;
mod shard;
mod tables;
pub mod testing;
mod worker;

pub use account::Account;
pub use busy_worker::BusyWorker;
pub use closed_worker::ClosedWorker;
pub use crawl_queues::{Entry, Logged, Message, Name};
pub use error::{FinishError, FrontierError, OfferError};
pub use frontier::Frontier;
pub use offer::Offer;
pub use seeder::Seeder;
pub use sender::Sender;
pub use setup::{Setup, WORKERS_LIMIT};
pub use shard::HOPS_LIMIT;
pub use worker::{Turn, Worker};
