//! The lines of a saved web, read one by one.
ghost use Rattle.std.specs.Prelude.{◌≡◌, ◌≤◌, ℕ, List, [], IfOk, IfErr};
ghost use Rattle.std.specs.Str.Lines.{lines};
ghost use Rattle.saved_web.specs.Reading.{FoundTo, AreRead};
ghost use Rattle.saved_pages.specs.WebErrors.{IsWebRefusal};

use saved_lines::{Above, add_line};
use saved_pages::{Pages, WebError};
use std::alloc::Global;
use text_lines::first_text;

/// The number of bytes from which the number of pages of a text is estimated.
const SAMPLE: usize = 1 << 14;

/// The estimate is at most one page for this number of bytes, so that the index is never much larger than the text.
const LEAST_PAGE: usize = 32;

/// Returns the pages of the lines of this text. `before` is the number of lines before them, and `above` is what their checks need
/// to know about those lines.
pub fn pages_after(
    alloc: Global,
    text: &str,
    before: u64,
    above: Above,
) -> Result<Pages<'_>, WebError>
    requires { before ≤ 1 }
    // This is true of any lines before these, if no page is among them.
    ensures read { IfOk result (λ pages. (all : List (List ℕ)) → FoundTo all (lines text.now) before above [] → AreRead all pages) }
    ensures error { IfErr result (λ error. (all : List (List ℕ)) → FoundTo all (lines text.now) before above [] → IsWebRefusal all error) }
{
    let mut pages = Pages::new(alloc, likely_pages(text));
    let mut rest = text;
    let mut number = before;
    let mut above = above;
    while let Some((line, more)) = first_text(rest) {
        number += 1;
        above = add_line(alloc, &mut pages, number, above, line, rest)?;
        rest = more;
    }
    Ok(pages)
}

/// Estimates the number of pages of the text from its beginning. An index with slots for them does not have to grow.
fn likely_pages(text: &str) -> usize {
    let bytes = text.as_bytes();
    let front = &bytes[..bytes.len().min(SAMPLE)];
    let pages = front
        .split(|byte| *byte == b'\n')
        .filter(|line| line.starts_with(b"page "))
        .count();
    let samples = bytes.len() / SAMPLE + 1;
    pages.saturating_mul(samples).min(bytes.len() / LEAST_PAGE)
}
