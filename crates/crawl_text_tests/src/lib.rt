//! Tests of the public calls of crates without threads: `hash_index`, `crawl_core`, `crawl_keys`, `crawl_session`, `html_links`,
//! `check_report`, `shown_text`.
#![tactic(auto)]

#[cfg(test)]
mod tests;
