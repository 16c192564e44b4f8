//! The links of an HTML document, by the HTML Standard's tokenizer.
#![tactic(auto)]

mod bytes;
mod cdata;
mod comments;
mod context;
mod document;
mod element;
mod escapes;
mod found;
pub mod laws;
mod lengths;
mod links;
mod names;
mod near;
mod next_tag;
mod placed;
mod raw_text;
mod reader;
mod references;
mod refresh;
mod script;
mod srcset;
mod style;
mod tag;
mod template;

pub use context::Syntax;
pub use document::{StartTagAt, tags};
pub use links::{CountedLinks, DocumentIds, Links};
pub use placed::read_places;
pub use reader::{Base, read_page};
pub use style::read_style;
pub use tag::AttributeAt;
