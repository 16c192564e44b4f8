//! The entries of an ignore list that name a file and a target, such as `docs/old.html: ../about.html`.
ghost use Rattle.std.specs.Prelude.{◌≡◌, MatchOption, false, map, not, string_bytes, true};
ghost use Rattle.std.specs.List.{list_any};
ghost use Rattle.site_check.specs.Broken.{file_in, fits, is_place_ignored, matches_place, names_file, target_in};
ghost use Rattle.site_check.specs.Ignored.{matches_row};
ghost use Rattle.site_check.specs.Reported.{is_gone, places_left, rows_left, target_row, with_left};

use crate::ignored::split_entry;
use crate::pattern::{fits, matches};
use check_report::{Broken, Place};

/// Splits an entry into a file and a target at the first `: `. `None` if it has none.
pub(crate) fn split_file(entry: &str) -> Option<(&str, &str)>
    ensures { MatchOption result (names_file entry.now ≡ false) (λ x. (names_file entry.now ≡ true) × (x.0.now ≡ file_in entry.now) × (x.1.now ≡ target_in entry.now)) }
{
    match entry.split_once(": ") {
        Some((file, target)) => Some((file, target)),
        None => None,
    }
}

/// Leaves out the locations that an entry with a file matches, and the rows of which it leaves out all locations.
pub(crate) fn leave_out(entries: &[String], rows: &mut Vec<Broken>)
    ensures { map target_row rows.new.items ≡ rows_left (map string_bytes entries.now) (map target_row rows.old.items) }
{
    let keeps = |row: &mut Broken| -> bool
        ensures { (result ≡ not (is_gone (map string_bytes entries.entry.now) (target_row row.entry.now))) × (target_row row.exit.now ≡ with_left (map string_bytes entries.entry.now) (target_row row.entry.now)) }
    { is_left(entries, row) };
    rows.retain_mut(keeps);
}

/// Leaves out the locations of a row that an entry with a file matches. Returns whether the row stays: it has locations left, or had none.
fn is_left(entries: &[String], row: &mut Broken) -> bool
    ensures stays { result ≡ not (is_gone (map string_bytes entries.now) (target_row row.old)) }
    ensures row { target_row row.new ≡ with_left (map string_bytes entries.now) (target_row row.old) }
{
    let had_none = row.places.is_empty();
    leave_places(entries, row.target.as_str(), &mut row.places);
    had_none || !row.places.is_empty()
}

/// Leaves out the locations of links to a target that an entry with a file matches.
fn leave_places(entries: &[String], target: &str, places: &mut Vec<Place>)
    ensures { places.new.items ≡ places_left (map string_bytes entries.now) target.now places.old.items }
{
    places.retain(|place| !is_place_ignored(entries, target, place.file.as_str()));
}

/// Whether an entry with a file matches the location of a link to a target in this file.
pub(crate) fn is_place_ignored(entries: &[String], target: &str, file: &str) -> bool
    ensures { result ≡ is_place_ignored (map string_bytes entries.now) target.now file.now }
{
    let mut rest = entries;
    'entries: while let Some((entry, more)) = split_entry(rest) {
        if matches_place(entry.as_str(), target, file) {
            return true;
        }
        rest = more;
    }
    false
}

/// Whether an entry names a file, and matches the location of a link to a target in this file.
fn matches_place(entry: &str, target: &str, file: &str) -> bool
    ensures { result ≡ matches_place entry.now target.now file.now }
{
    match split_file(entry) {
        Some((pattern, rest)) => matches(rest, target) && fits(pattern, file),
        None => false,
    }
}

/// Whether a location of one of these rows is in a file that the pattern fits, and its target matches the rest of the entry.
pub(crate) fn is_used_in(pattern: &str, rest: &str, rows: &[Broken]) -> bool
    ensures { result ≡ list_any (matches_row pattern.now rest.now) rows.now }
{
    for row in rows {
        if matches(rest, row.target.as_str()) && has_place(pattern, row.places.as_slice()) {
            return true;
        }
    }
    false
}

/// Whether one of the locations is in a file that the pattern fits.
fn has_place(pattern: &str, places: &[Place]) -> bool
    ensures { result ≡ list_any (λ place. fits pattern.now (string_bytes place.file)) places.now }
{
    for place in places {
        if fits(pattern, place.file.as_str()) {
            return true;
        }
    }
    false
}
