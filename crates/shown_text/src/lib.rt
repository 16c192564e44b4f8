//! Shows untrusted texts to people: characters that could control a terminal become escapes such as `\u{1b}`.
#![tactic(auto)]

mod escape;
/// Laws about shown texts.
pub mod laws;

pub use escape::{put_shown, put_shown_char, shown, shown_lines};
