//! The checks of a line of a saved web, and the page that it adds.
#![tactic(auto)]

mod line_check;

pub use line_check::{Above, add_line, check_line, header};
