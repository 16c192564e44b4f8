//! Tests of what no contract says: that calls succeed, what messages say, and that the definitions describe the formats.
mod errors;
mod failing;
mod folders;
mod inputs;
mod runs;
