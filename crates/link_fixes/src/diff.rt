//! The changes of a text as a diff.
ghost use Rattle.std.specs.Prelude.{◌≤◌, ◌-◌, length};

use memchr::memchr;
use std::alloc::{AllocError, Global};

/// Appends the diff of a file whose lines changed: one hunk without context for each changed line. Both texts have the same number of
/// lines.
///
/// # Errors
/// Out of memory.
pub fn push_diff(
    alloc: Global,
    name: &str,
    old: &[u8],
    new: &[u8],
    diff: &mut Vec<u8>,
) -> Result<(), AllocError> {
    push_header(alloc, name, diff)?;
    let mut old = old;
    let mut new = new;
    let mut number: u64 = 1;
    'lines: while !old.is_empty() {
        let (line, more) = split_line(old);
        let (other, rest) = split_line(new);
        push_hunk(alloc, number, line, other, diff)?;
        old = more;
        new = rest;
        number = number.saturating_add(1);
    }
    Ok(())
}

/// Appends the name of a file in both its forms. A tab ends a name with a space.
fn push_header(alloc: Global, name: &str, diff: &mut Vec<u8>) -> Result<(), AllocError> {
    let end = if name.contains(' ') { "\t" } else { "" };
    let header = format!(in alloc; "--- a/{name}{end}\n+++ b/{name}{end}\n")?;
    diff.extend_from_slice(header.as_bytes())
}

/// The first line of a text with its line feed, and what comes after it.
fn split_line(text: &[u8]) -> (&[u8], &[u8])
    ensures { length result.1.now ≤ length text.now - 1 }
{
    match memchr(b'\n', text) {
        Some(end) => text.split_at(end + 1),
        None => text.split_at(text.len()),
    }
}

/// Appends the hunk of the line with this number, if it changed.
fn push_hunk(
    alloc: Global,
    number: u64,
    old: &[u8],
    new: &[u8],
    diff: &mut Vec<u8>,
) -> Result<(), AllocError> {
    if old == new {
        return Ok(());
    }
    let header = format!(in alloc; "@@ -{number} +{number} @@\n")?;
    diff.extend_from_slice(header.as_bytes())?;
    push_line(b'-', old, diff)?;
    push_line(b'+', new, diff)
}

/// Appends a line of a hunk, which begins with this sign.
fn push_line(sign: u8, line: &[u8], diff: &mut Vec<u8>) -> Result<(), AllocError> {
    diff.push(sign)?;
    diff.extend_from_slice(line)?;
    if !line.ends_with(b"\n") {
        diff.extend_from_slice(b"\n\\ No newline at end of file\n")?;
    }
    Ok(())
}
