//! Whether a document has the anchor that a fragment names, by the rules of the HTML Standard.
#![tactic(auto)]

mod ids;
mod indicated;
/// Laws about fragments.
pub mod laws;
mod search;

pub use ids::{Ids, NoMemory};
pub use indicated::is_indicated;
