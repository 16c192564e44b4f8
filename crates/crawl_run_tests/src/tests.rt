//! What no clause says: that calls succeed and end, that workers run together, how much they lose, and results as values.
mod certificate;
mod pages;
mod recent;
mod reports;
mod results;
mod rows;
mod runs;
mod sessions;
mod sources;
mod threads;
mod webs;
mod whole;
