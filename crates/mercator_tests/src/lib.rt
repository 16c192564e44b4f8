//! Tests of the public calls of `mercator`, `mercator_site` and `saved_site`: crawls, checks, failing readers and writers, errors.
#![tactic(auto)]

#[cfg(test)]
mod tests;
