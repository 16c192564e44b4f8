//! Texts in the order of their hashes: a search in a set of them reads another text only if the hashes are equal.
#![tactic(auto)]

mod hashed_text;

pub use hashed_text::{HashedText, hash_of};
