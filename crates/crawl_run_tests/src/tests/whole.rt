//! Crawls by one call: of saved webs, and of sources that fail, wait, or are defined here.
mod crawls;
mod losses;
mod threads;
mod watched;
