//! Scripts of atomic steps, and the replies of the machine to them.
#![tactic(auto)]

/// Laws about scripts, and about the runs of the machine on them.
pub mod laws;
mod numbers;
mod replay;
mod replies;
mod script;

pub use numbers::{number32, number64};
pub use replay::replay_text;
pub use replies::ReplyText;
pub use script::{Header, Script, ScriptError, header_of, read_script};
