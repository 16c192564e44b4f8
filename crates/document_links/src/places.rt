//! The locations of links in a file, and the links as written there.
ghost use Rattle.std.specs.Prelude.{◌≡◌, [], All, IfOk, map, slice_index_or, string_bytes};
ghost use Rattle.std.specs.Str.Lossy.{utf8_lossy};
ghost use Rattle.document_links.specs.Places.{ArePlaces, ArePlacesIn, IsAmong, point_at, point_of_place};
ghost use Rattle.document_links.specs.Written.{clean};

use crate::charset::charset_of;
use crate::cleaning::{trimmed, without_breaks};
use crate::document::utf8_text;
use crate::document_start::without_mark;
use crate::file_links::{Reading, find_links};
use crate::points::{known_points, point_in};
use crate::raw_links::RawLinks;
use crate::text_kind::TextKind;
use std::alloc::{AllocError, Global};

/// The location of a link in a file, and the link as written there.
#[derive(Drop)]
pub struct TextPlace {
    /// The line in the file's text, from 1. Lines end at a line feed.
    pub line: u64,
    /// The column in characters, from 1.
    pub column: u64,
    /// The link as written, with its references decoded, without white space around it and without tabs and line breaks. Empty if
    /// the file has no such link.
    pub written: String,
}

/// Finds the links with these indices among the links of a file. The locations are in the order of the indices. A document is read
/// only up to the last of these links.
///
/// # Errors
/// Out of memory.
pub fn text_places(
    alloc: Global,
    body: &[u8],
    kind: TextKind,
    indices: &[usize],
) -> Result<Vec<TextPlace>, AllocError>
    ensures { IfOk result (λ places. ArePlaces kind body.now indices.now places.items) }
{
    let charset = charset_of(body, kind);
    let reading = Reading { kind, charset };
    match utf8_text(alloc, body, charset)? {
        Some(text) => places_in(alloc, text.as_slice(), reading, indices),
        None => places_in(alloc, without_mark(body), reading, indices),
    }
}

/// Finds links in a text in UTF-8, to which it was converted from its encoding.
fn places_in(
    alloc: Global,
    text: &[u8],
    reading: Reading,
    indices: &[usize],
) -> Result<Vec<TextPlace>, AllocError>
    ensures { IfOk result (λ places. ArePlacesIn reading.kind reading.charset text.now indices.now places.items) }
{
    let mut raw = RawLinks::new(alloc);
    find_links(alloc, text, reading, needed_count(indices), &mut raw)?;
    places_of(alloc, text, &raw, indices)
}

/// The number of links up to the last of those with these indices, or `None` if it does not fit in a `usize`.
pub(crate) fn needed_count(indices: &[usize]) -> Option<usize>
    ensures { All (IsAmong result) indices.now }
{
    let mut last: usize = 0;
    for index in indices {
        last = last.max(*index);
    }
    last.checked_add(1)
}

/// The locations of these links of a text.
pub(crate) fn places_of(
    alloc: Global,
    text: &[u8],
    raw: &RawLinks,
    indices: &[usize],
) -> Result<Vec<TextPlace>, AllocError>
    ensures placed { IfOk result (λ places. map point_of_place places.items ≡ map (λ index. point_at text.now (slice_index_or raw.now.positions.items index 0)) indices.now) }
    ensures written { IfOk result (λ places. map (λ place. string_bytes place.written) places.items ≡ map (λ index. utf8_lossy (clean (slice_index_or raw.now.texts index []))) indices.now) }
{
    let table = known_points(alloc, text, last_position(raw, indices))?;
    let mut places = Vec::new(alloc);
    for index in indices {
        let point = point_in(text, table.as_slice(), raw.position(*index));
        let written = written(alloc, raw.text_or_empty(*index))?;
        places.push(TextPlace {
            line: point.line,
            column: point.column,
            written,
        })?;
    }
    Ok(places)
}

/// The greatest position of these links. The table of points may end there. No clause depends on it.
fn last_position(raw: &RawLinks, indices: &[usize]) -> usize {
    let mut last: usize = 0;
    for index in indices {
        last = last.max(raw.position(*index));
    }
    last
}

/// A link as it is shown: without white space around it, and without tabs and line breaks.
fn written(alloc: Global, text: &[u8]) -> Result<String, AllocError>
    ensures { IfOk result (λ new. string_bytes new ≡ utf8_lossy (clean text.now)) }
{
    let clean = without_breaks(alloc, trimmed(text))?;
    String::from_utf8_lossy(alloc, clean.as_slice())
}
