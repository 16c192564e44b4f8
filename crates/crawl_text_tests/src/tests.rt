//! Tests of what no contract says and no command shows: that calls succeed, and results as values.
mod documents;
mod findings;
mod indices;
mod keys;
mod machine;
mod sessions;
mod shown_texts;
mod start_tags;
