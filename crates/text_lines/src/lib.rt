//! Cuts bytes into lines, and lines into fields, for all text formats.
#![tactic(auto)]

mod fields;
mod lines;

pub use fields::split_space;
pub use lines::{
    LINE_LIMIT, LineError, cut_line, first_line, first_text, short_text, split_line, text_of,
};
