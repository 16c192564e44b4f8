//! A hash index: finds the index of a text in a list, by hashes. Its caller keeps the list, and lends it to each call.
#![tactic(auto)]

mod index;
mod keyed;
mod overflow;
mod slots;
mod text_list;

pub use index::HashIndex;
pub use keyed::Keyed;
pub use text_list::TextList;
