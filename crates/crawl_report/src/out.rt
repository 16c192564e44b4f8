//! What is printed so far: lines of text, or of JSON.
ghost use Rattle.std.specs.Prelude.{◌≡◌, ◌∷◌, [], IfOk};
ghost use Rattle.crawl_report.specs.Lines.{line_of};
ghost use Rattle.crawl_report.specs.Printing.{Adds, bytes_of, is_json};

use crate::row::{Row, push_line, with_json};
use crawl_pages::NoMemory;
use std::alloc::Global;

#[derive(Drop)]
pub enum Out {
    Text(String),
    Json(Vec<u8>),
}

impl Out {
    /// Nothing yet.
    pub fn new(alloc: Global, json: bool) -> Out
        ensures empty { bytes_of result ≡ [] }
        ensures json { is_json result ≡ json }
    {
        if json {
            Out::Json(Vec::new(alloc))
        } else {
            Out::Text(String::new(alloc))
        }
    }

    /// What is printed, with room for `bytes` further bytes.
    pub fn with_room(self, bytes: usize) -> Result<Out, NoMemory>
        ensures { IfOk result (λ more. Adds self more []) }
    {
        match self {
            Out::Text(mut text) => {
                text.reserve(bytes)?;
                Ok(Out::Text(text))
            }
            Out::Json(mut text) => {
                text.reserve(bytes)?;
                Ok(Out::Json(text))
            }
        }
    }

    /// What is printed, and then the row's line.
    pub fn with(self, row: Row<'_>) -> Result<Out, NoMemory>
        ensures { IfOk result (λ more. Adds self more (line_of row.entry ∷ [])) }
    {
        match self {
            Out::Text(mut text) => {
                push_line(&mut text, row)?;
                Ok(Out::Text(text))
            }
            Out::Json(text) => {
                let text = with_json(text, row)?;
                Ok(Out::Json(text))
            }
        }
    }

    /// The printed lines, each ended by LF.
    pub fn into_bytes(self) -> Vec<u8>
        ensures { result.items ≡ bytes_of self }
    {
        match self {
            Out::Text(text) => text.into_bytes(),
            Out::Json(text) => text,
        }
    }
}
