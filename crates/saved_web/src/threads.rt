//! Reading a saved web in threads: each reads a chunk of its lines, and then the chunks are joined.
ghost use Rattle.std.specs.Prelude.{◌≡◌, ◌++◌, ◌<◌, ◌≤◌, length, IfSome};
ghost use Rattle.std.specs.Str.Lines.{lines};
ghost use Rattle.saved_web.specs.Reading.{AreRead, AreReadAfter, IsHeader};

use crate::reader::pages_after;
use crate::web_pages::WebPages;
use saved_lines::{Above, header};
use simdutf8::compat::from_utf8;
use std::alloc::Global;
use std::thread::{Threads, join};
use text_lines::{cut_line, first_line, text_of};

/// Threads do not read an input with fewer bytes than this.
const LEAST: usize = 1 << 19;

/// How often the lines are halved. The number of threads is two to this power.
const HALVINGS: u32 = 2;

/// Some of the lines after the header of a saved web.
#[derive(Clone, Copy)]
struct LineChunk<'a> {
    /// Whether the saved web has version 2.
    second: bool,
    bytes: &'a [u8],
}

impl<'a> LineChunk<'a> {
    /// Returns two chunks with about half of the lines each. If a page line follows the middle, the second chunk begins with it.
    fn halves(self) -> (LineChunk<'a>, LineChunk<'a>)
        ensures second { (result.0.second ≡ self.entry.second) × (result.1.second ≡ self.entry.second) }
        ensures lines { lines self.entry.bytes.now ≡ lines result.0.bytes.now ++ lines result.1.bytes.now }
    {
        let (front, back) = cut_before_page(self.bytes, self.bytes.len() / 2);
        (
            LineChunk {
                bytes: front,
                ..self
            },
            LineChunk {
                bytes: back,
                ..self
            },
        )
    }
}

/// Returns the pages of the saved web in these bytes, read by four threads. `None` if they must be read by one thread: if a line
/// fails a check, memory runs out, or there are too few bytes.
pub fn pages_in_threads<'a, R: Threads + Sync>(
    rt: &R,
    alloc: Global,
    bytes: &'a [u8],
) -> Option<WebPages<'a>>
    ensures some { IfSome result (λ _. 0 < length (lines bytes.now)) }
    ensures read { IfSome result (λ pages. AreRead (lines bytes.now) pages) }
{
    if bytes.len() < LEAST {
        return None;
    }
    let (line, more) = first_line(bytes)?;
    let second = version(line)?;
    let following = LineChunk {
        second,
        bytes: more,
    };
    pages_of_chunk(rt, alloc, HALVINGS, following)
}

/// Returns whether the header, which is this line, says version 2. `None` if the line is not a header.
fn version(line: &[u8]) -> Option<bool>
    ensures { IfSome result (λ second. IsHeader second line.now) }
{
    let Ok(text) = text_of(1, line) else {
        return None;
    };
    match header(text) {
        Ok(second) => Some(second),
        Err(_) => None,
    }
}

/// Returns the pages of the chunk. It is halved this number of times, and a thread reads each half. If a thread cannot be started,
/// the thread that needs it reads both halves.
fn pages_of_chunk<'a, R: Threads + Sync>(
    rt: &R,
    alloc: Global,
    halvings: u32,
    chunk: LineChunk<'a>,
) -> Option<WebPages<'a>>
    ensures { IfSome result (AreReadAfter chunk.entry.second (lines chunk.entry.bytes.now)) }
{
    if halvings == 0 {
        return read_chunk(alloc, chunk);
    }
    let fewer = halvings - 1;
    let (front, back) = chunk.halves();
    let of_front = move || -> Option<WebPages<'_>>
        ensures { IfSome result (AreReadAfter front.entry.second (lines front.entry.bytes.now)) }
    { pages_of_chunk(rt, alloc, fewer, front) };
    let of_back = move || -> Option<WebPages<'_>>
        ensures { IfSome result (AreReadAfter back.entry.second (lines back.entry.bytes.now)) }
    { pages_of_chunk(rt, alloc, fewer, back) };
    let (first, second) = join(rt, of_front, of_back);
    let first = first?;
    let second = second?;
    first.and(rt, second)
}

/// Returns the pages of the chunk. `None` if it is not UTF-8.
fn read_chunk(alloc: Global, chunk: LineChunk<'_>) -> Option<WebPages<'_>>
    ensures { IfSome result (AreReadAfter chunk.entry.second (lines chunk.entry.bytes.now)) }
{
    match from_utf8(chunk.bytes) {
        Ok(text) => read_text(alloc, chunk.second, text),
        Err(_) => None,
    }
}

/// Returns the pages of a chunk, which has this text. `None` if a line fails a check, or if memory runs out.
fn read_text(alloc: Global, second: bool, text: &str) -> Option<WebPages<'_>>
    ensures { IfSome result (AreReadAfter second (lines text.now)) }
{
    let above = Above {
        second,
        link: false,
        moved: false,
    };
    let Ok(pages) = pages_after(alloc, text, 1, above) else {
        return None;
    };
    match WebPages::one(alloc, pages) {
        Ok(web) => Some(web),
        Err(_) => None,
    }
}

/// Cuts the bytes after the first line that ends after `from` and is followed by a page line.
pub fn cut_before_page(bytes: &[u8], from: usize) -> (&[u8], &[u8])
    requires { from ≤ length bytes.now }
    ensures { lines bytes.now ≡ lines result.0.now ++ lines result.1.now }
{
    let mut from = from;
    while let Some((front, back)) = cut_line(bytes, from) {
        if back.starts_with(b"page ") {
            return (front, back);
        }
        from = front.len();
    }
    (bytes, &[])
}
