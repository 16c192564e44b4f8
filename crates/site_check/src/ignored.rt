//! The ignore list.
ghost use Rattle.std.specs.Prelude.{◌≡◌, ◌∷◌, ◌++◌, [], IfOk, MatchOption, OnOk, map, string_bytes};
ghost use Rattle.std.specs.List.{list_any};
ghost use Rattle.crawl_sources.specs.Tallies.{pointed};
ghost use Rattle.site_check.specs.Broken.{is_ignored, matches, matches_target};
ghost use Rattle.site_check.specs.Ignored.{entries_in, entry_in, entry_of, has_no_entry, is_used, unused, without_mark};

use crate::file_entries::{is_used_in, split_file};
use crate::names::split_byte;
use crate::pattern::matches;
use check_report::Broken;
use crawl_pages::NoMemory;
use std::alloc::Global;
use text_lines::first_line;

/// Reads an ignore list, one entry per line. An entry with a `*` is a pattern for a whole target, in which `*` matches any text, also
/// none; any other entry matches the targets that begin with it. An entry with a `: ` matches only locations: before the `: ` it has the
/// file, which can be a pattern, and after it such an entry for targets. Empty lines and lines that start with `#` are skipped; white
/// space around an entry and a byte order mark at the start are ignored.
///
/// # Errors
/// Out of memory.
pub fn read_ignores(alloc: Global, bytes: &[u8]) -> Result<Vec<String>, NoMemory>
    ensures { IfOk result (λ entries. map string_bytes entries.items ≡ entries_in bytes.now) }
{
    let mut entries = Vec::new(alloc);
    let mut rest = without_mark(bytes);
    'lines: while let Some((line, more)) = first_line(rest) {
        push_line(alloc, line, &mut entries)?;
        rest = more;
    }
    Ok(entries)
}

/// The bytes without a byte order mark at the start.
fn without_mark(bytes: &[u8]) -> &[u8]
    ensures { result.now ≡ without_mark bytes.now }
{
    match bytes.strip_prefix(&[239, 187, 191]) {
        Some(rest) => rest,
        None => bytes,
    }
}

/// Appends the entry of a line, if it has one.
fn push_line(alloc: Global, line: &[u8], entries: &mut Vec<String>) -> Result<(), NoMemory>
    ensures { OnOk result (map string_bytes entries.new.items ≡ map string_bytes entries.old.items ++ entry_in line.now) }
{
    let text = String::from_utf8_lossy(alloc, line)?;
    push_entry(alloc, text.as_str().trim(), entries)?;
    Ok(())
}

/// Appends a text without white space around it, if it is an entry.
fn push_entry(alloc: Global, text: &str, entries: &mut Vec<String>) -> Result<(), NoMemory>
    ensures { OnOk result (map string_bytes entries.new.items ≡ map string_bytes entries.old.items ++ entry_of text.now) }
{
    if has_no_entry(text) {
        return Ok(());
    }
    let entry = String::from_str(alloc, text)?;
    entries.push(entry)?;
    Ok(())
}

/// Whether the text is empty or starts with `#`.
fn has_no_entry(text: &str) -> bool
    ensures { result ≡ has_no_entry text.now }
{
    match split_byte(text.as_bytes()) {
        Some((first, _)) => first == b'#',
        None => true,
    }
}

/// Whether an entry matches the target with this text.
pub(crate) fn is_ignored(entries: &[String], text: &str) -> bool
    ensures { result ≡ is_ignored (map string_bytes entries.now) text.now }
{
    let mut rest = entries;
    'entries: while let Some((entry, more)) = split_entry(rest) {
        if matches_target(entry.as_str(), text) {
            return true;
        }
        rest = more;
    }
    false
}

/// Whether an entry matches a target. One that names a file does not.
pub(crate) fn matches_target(entry: &str, target: &str) -> bool
    ensures { result ≡ matches_target entry.now target.now }
{
    matches(entry, target) && split_file(entry).is_none()
}

/// Splits the first entry from the others. `None` if there are no entries.
pub(crate) fn split_entry(entries: &[String]) -> Option<(&String, &[String])>
    ensures { MatchOption result (entries.now ≡ []) (λ x. entries.now ≡ x.0.now ∷ x.1.now) }
{
    match entries.split_first() {
        Some((first, more)) => Some((first, more)),
        None => None,
    }
}

/// The entries that match none of these texts, and no location of these rows.
pub(crate) fn unused(
    alloc: Global,
    entries: &[String],
    texts: &[&str],
    rows: &[Broken],
) -> Result<Vec<String>, NoMemory>
    ensures { IfOk result (λ all. map string_bytes all.items ≡ unused (map string_bytes entries.now) (pointed texts.now) rows.now) }
{
    let mut all = Vec::new(alloc);
    for entry in entries {
        if !is_used(entry.as_str(), texts, rows) {
            all.push(entry.clone()?)?;
        }
    }
    Ok(all)
}

/// Whether an entry that names a file matches a location of one of these rows, or any other entry one of these texts.
fn is_used(entry: &str, texts: &[&str], rows: &[Broken]) -> bool
    ensures { result ≡ is_used (pointed texts.now) rows.now entry.now }
{
    match split_file(entry) {
        Some((file, target)) => is_used_in(file, target, rows),
        None => is_used_by(entry, texts),
    }
}

/// Whether the entry matches one of these texts.
fn is_used_by(entry: &str, texts: &[&str]) -> bool
    ensures { result ≡ list_any (matches entry.now) (pointed texts.now) }
{
    for text in texts {
        if matches(entry, text) {
            return true;
        }
    }
    false
}
