//! Tests of saved webs, and of the public calls of `link_offers`, `crawl_workers`, `crawl_certificate`, `crawl_run` and `crawl_report`:
//! pages of saved webs; runs of workers in turn and in threads, over sources that fail, wait or move; certificates of what they leave;
//! whole crawls; reports as values.
#![tactic(auto)]

#[cfg(test)]
mod tests;
