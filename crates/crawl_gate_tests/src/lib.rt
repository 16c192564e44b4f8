//! Tests of the public calls of `crawl_gate`: call by call, and of gates that threads share.
#![tactic(auto)]

#[cfg(test)]
mod tests;
