//! The options of a command in a TOML file.
#![tactic(auto)]

mod check;
mod error;
mod file;

pub use check::Known;
pub use error::FileError;
pub use file::OptionFile;
