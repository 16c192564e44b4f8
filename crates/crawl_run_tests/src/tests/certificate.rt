//! What no clause says: that certificates are given, and that each error is the one that is meant.
mod errors;
mod messages;
mod tables;
mod walks;
