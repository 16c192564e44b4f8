//! Rewrites links in a document so that they lead to other URLs, and prints the changes of a text as a diff.
#![tactic(auto)]

mod diff;
mod document;
mod edits;
mod links;
mod location;
mod moves;
mod new_link;
mod relative;

pub use diff::push_diff;
pub use document::{DocumentFix, FixInput, LeftLink, LeftReason, fix_document};
pub use edits::{Edit, fixed};
pub use moves::{Move, adds_slash};
