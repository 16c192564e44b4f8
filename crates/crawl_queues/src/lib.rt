//! The queues of a URL frontier: what each contains between any two steps of any threads, and what its senders know about it.
//!
//! A queue is a [`Subqueue`]. The owner of its [`PushRight`] adds messages at the end, and the owner of its [`PopRight`] takes them
//! from the front. Each message is a URL with a unit of the frontier's gate. A [`Beginning`] is what a queue's list was at some
//! time, so that a sender's [`Book`] can have its URLs by number. `crawl_frontier` makes a frontier of these queues.
//!
//! [`Subqueue::push`], [`Subqueue::pop`] and [`Subqueue::rest`] may wait; no other call does.
#![tactic(auto)]

mod book;
mod entry;
mod growing;
pub mod laws;
mod log;
mod name;
mod rights;
mod rule;
mod subqueue;

pub use book::{Book, Logged};
pub use entry::{Entry, Message};
pub use growing::Beginning;
pub use name::Name;
pub use rights::{PopRight, PushRight};
pub use rule::{Home, PassView, SubqueueRule};
pub use subqueue::{Held, Subqueue};
