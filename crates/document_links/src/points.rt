//! Lines and columns in a text.
ghost use Rattle.std.specs.Prelude.{◌≡◌, ◌++◌, ◌+◌, ◌<◌, ◌≤◌, ◌^◌, ℕ, All, List, [], IfOk, length, count_by};
ghost use Rattle.document_links.specs.Places.{IsKnown, begins_character, is_lf, point_at, point_of};

use memchr::memrchr;
use std::alloc::{AllocError, Global};

/// The number of bytes that are counted together.
const RUN: usize = 240;

/// The number of bytes from one point of a table to the next.
const STEP: usize = 512;

/// A point in a text.
#[derive(Clone, Copy)]
pub(crate) struct Point {
    /// The line, from 1. Lines end at a line feed.
    pub(crate) line: u64,
    /// The column in characters, from 1.
    pub(crate) column: u64,
}

/// A point and its position.
#[derive(Clone, Copy)]
pub(crate) struct KnownPoint {
    index: usize,
    point: Point,
}

/// A table of the points at every `STEP` bytes of a text, up to the position `end`. With it `point_in` reads only a few bytes of the
/// text for each position up to `end`.
pub(crate) fn known_points(
    alloc: Global,
    text: &[u8],
    end: usize,
) -> Result<Vec<KnownPoint>, AllocError>
    ensures { IfOk result (λ table. All (IsKnown text.now) table.items) }
{
    let last = end.min(text.len());
    let mut table = Vec::new(alloc);
    let mut known = first();
    'steps: while last - known.index > STEP {
        known = known_on(text, known, known.index + STEP);
        table.push(known)?;
    }
    Ok(table)
}

/// The point at a position in a text, by a table of some of its points.
pub(crate) fn point_in(text: &[u8], table: &[KnownPoint], index: usize) -> Point
    requires { All (IsKnown text.now) table.now }
    ensures { result ≡ point_at text.now index }
{
    known_at(text, known_before(table, index), index).point
}

/// The last point of a table at or before a position.
fn known_before(table: &[KnownPoint], index: usize) -> KnownPoint
    ensures { (text : List ℕ) → All (IsKnown text) table.now → IsKnown text result }
{
    match (index / STEP).min(table.len()).checked_sub(1) {
        Some(at) => table[at],
        None => first(),
    }
}

/// The point at position 0.
fn first() -> KnownPoint
    ensures index { result.index ≡ 0 }
    ensures point { result.point ≡ point_of [] }
{
    KnownPoint {
        index: 0,
        point: Point { line: 1, column: 1 },
    }
}

/// The point at a position, from another point.
fn known_at(text: &[u8], known: KnownPoint, index: usize) -> KnownPoint
    requires { IsKnown text.now known }
    ensures { result.point ≡ point_at text.now index }
{
    let begin = if index < known.index { first() } else { known };
    known_on(text, begin, index.min(text.len()))
}

/// The point at a position, from the same point or an earlier one.
#[tactic(auto, using(crate::proofs::After::column_below, crate::proofs::After::taken_on))]
fn known_on(text: &[u8], known: KnownPoint, index: usize) -> KnownPoint
    requires order { known.index ≤ index }
    requires within { index ≤ length text.now }
    requires known { known.point ≡ point_at text.now known.index }
    ensures index { result.index ≡ index }
    ensures known { result.point ≡ point_at text.now index }
{
    let point = following(known.point, &text[known.index..index]);
    KnownPoint { index, point }
}

/// The point after these bytes, if this is the point before them.
fn following(point: Point, bytes: &[u8]) -> Point
    requires line { point.line + length bytes.now < 2 ^ 64 }
    requires column { point.column + length bytes.now < 2 ^ 64 }
    ensures { (front : List ℕ) → point ≡ point_of front → result ≡ point_of (front ++ bytes.now) }
{
    match memrchr(b'\n', bytes) {
        Some(end) => Point {
            line: point.line + line_feeds(bytes) as u64,
            column: characters(&bytes[end + 1..]) as u64 + 1,
        },
        None => Point {
            line: point.line,
            column: point.column + characters(bytes) as u64,
        },
    }
}

/// Counts the LF bytes in groups of at most `RUN` bytes.
fn line_feeds(bytes: &[u8]) -> usize
    ensures count { result ≡ count_by is_lf bytes.now }
    ensures small { result ≤ length bytes.now }
{
    let mut count = 0;
    let mut rest = bytes;
    'runs: while !rest.is_empty() {
        let (run, following) = rest.split_at(rest.len().min(RUN));
        count += usize::from(feeds_in_run(run));
        rest = following;
    }
    count
}

/// The number of line feeds in at most `RUN` bytes. It fits in a byte, so the compiler counts sixteen bytes at the same time.
fn feeds_in_run(run: &[u8]) -> u8
    requires few { length run.now ≤ 240 }
    ensures { result ≡ count_by is_lf run.now }
{
    let mut count: u8 = 0;
    for byte in run {
        if *byte == b'\n' {
            count += 1;
        }
    }
    count
}

/// The number of characters of UTF-8 that begin in the bytes.
fn characters(bytes: &[u8]) -> usize
    ensures count { result ≡ count_by begins_character bytes.now }
    ensures small { result ≤ length bytes.now }
{
    bytes.iter().filter(|byte| **byte & 0xc0 != 0x80).count()
}
