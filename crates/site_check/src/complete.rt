//! Whether the rows of missing pages and missing anchors have the locations of all links to them.
ghost use Rattle.std.specs.Prelude.{◌≡◌, true, All, MatchOption, Some, map, slice_get, string_bytes};
ghost use Rattle.site_check.specs.Anchors.{anchor_text};
ghost use Rattle.site_check.specs.Complete.{HasPoint, IsInRow, IsKept, IsKeptPlace, is_row_of, is_same_point};
ghost use Rattle.site_check.specs.Located.{page_text, placed_at};
ghost use Rattle.site_check.specs.Locations.{location_of};
ghost use Rattle.site_check.specs.declared.linked.Linked.{Linked};
ghost use Rattle.site_check.specs.declared.missing_anchors.MissingAnchor.{MissingAnchor};

use crate::file_entries::is_place_ignored;
use crate::leads::{ANCHORS, PAGES};
use crate::linked::Linked;
use crate::located::{TargetPlace, list_of};
use crate::missing_anchors::MissingAnchor;
use crate::shown::shown;
use check_report::{Broken, Place};

/// The number of a row, and that of a location in it.
#[derive(Clone, Copy)]
struct RowPlace {
    row: usize,
    place: usize,
}

/// The missing pages among the results, and the missing anchors, as they are printed.
#[derive(Clone, Copy)]
pub(crate) struct Targets<'a> {
    pub(crate) front: &'a str,
    pub(crate) linked: &'a [Linked<'a>],
    pub(crate) anchors: &'a [MissingAnchor],
}

/// Whether the row of each missing page and each missing anchor has the locations of all links to it, except those that an entry of the
/// ignore list matches. The locations are sorted by their targets, and the rows are in the order of the targets. `check_site` makes such
/// rows, but no clause of the functions that make them says so: call this for a proof.
pub(crate) fn has_all_places(
    targets: Targets<'_>,
    ignores: &[String],
    rows: &[Broken],
    places: &[TargetPlace],
) -> bool
    ensures { result ≡ true → All (IsKeptPlace targets.entry.front.now (map string_bytes ignores.now) targets.entry.linked.now targets.entry.anchors.now rows.now) (map placed_at places.now) }
{
    let mut last = RowPlace { row: 0, place: 0 };
    for one in places {
        match place_after(targets, ignores, rows, last, one) {
            Some(next) => last = next,
            None => return false,
        }
    }
    true
}

/// Finds the location of a link in the row of its target, at `last` or after it. Returns `last` if no row needs the location, and `None` if
/// a row lacks it.
fn place_after(
    targets: Targets<'_>,
    ignores: &[String],
    rows: &[Broken],
    last: RowPlace,
    one: &TargetPlace,
) -> Option<RowPlace>
    ensures { MatchOption result (Unit {0}) (λ _. IsKeptPlace targets.entry.front.now (map string_bytes ignores.now) targets.entry.linked.now targets.entry.anchors.now rows.now (placed_at one.now)) }
{
    if one.list == PAGES {
        return page_place(targets, ignores, rows, last, one);
    }
    if one.list == ANCHORS {
        return anchor_place(targets, ignores, rows, last, one);
    }
    Some(last)
}

/// The same for a link to the missing page with this number.
fn page_place(
    targets: Targets<'_>,
    ignores: &[String],
    rows: &[Broken],
    last: RowPlace,
    one: &TargetPlace,
) -> Option<RowPlace>
    ensures { MatchOption result (Unit {0}) (λ _. (target : Linked) → slice_get targets.entry.linked.now one.now.number ≡ Some target → IsKept (map string_bytes ignores.now) rows.now 0 (page_text targets.entry.front.now target) (location_of one.now.place)) }
{
    match targets.linked.get(one.number) {
        Some(target) => {
            let target = Shown {
                list: PAGES,
                text: shown(targets.front, target.result.url.as_str()),
            };
            find_place(ignores, rows, target, last, &one.place)
        }
        None => Some(last),
    }
}

/// The same for a link to the missing anchor with this number.
fn anchor_place(
    targets: Targets<'_>,
    ignores: &[String],
    rows: &[Broken],
    last: RowPlace,
    one: &TargetPlace,
) -> Option<RowPlace>
    ensures { MatchOption result (Unit {0}) (λ _. (target : MissingAnchor) → slice_get targets.entry.anchors.now one.now.number ≡ Some target → IsKept (map string_bytes ignores.now) rows.now 1 (anchor_text target) (location_of one.now.place)) }
{
    match targets.anchors.get(one.number) {
        Some(target) => {
            let target = Shown {
                list: ANCHORS,
                text: target.text.as_str(),
            };
            find_place(ignores, rows, target, last, &one.place)
        }
        None => Some(last),
    }
}

/// A target of a list, as it is printed.
#[derive(Clone, Copy)]
struct Shown<'a> {
    list: usize,
    text: &'a str,
}

/// Finds a location in a row of this target, at `last` or after it. Returns `last` if an entry of the ignore list matches the location.
fn find_place(
    ignores: &[String],
    rows: &[Broken],
    target: Shown<'_>,
    last: RowPlace,
    place: &Place,
) -> Option<RowPlace>
    ensures { MatchOption result (Unit {0}) (λ _. IsKept (map string_bytes ignores.now) rows.now target.entry.list target.entry.text.now (location_of place.now)) }
{
    if has_place(rows, target, last, place) {
        return Some(last);
    }
    let next = RowPlace {
        row: last.row,
        place: last.place.saturating_add(1),
    };
    if has_place(rows, target, next, place) {
        return Some(next);
    }
    if is_place_ignored(ignores, target.text, place.file.as_str()) {
        return Some(last);
    }
    let found = place_from(rows, target, last.row, place);
    if has_place(rows, target, found, place) {
        Some(found)
    } else {
        None
    }
}

/// Whether the row with this number is one of this target, and its location with this number is at the same character as another one.
fn has_place(rows: &[Broken], target: Shown<'_>, at: RowPlace, place: &Place) -> bool
    ensures { result ≡ true → IsInRow rows.now target.entry.list target.entry.text.now (location_of place.now) }
{
    match rows.get(at.row) {
        Some(row) => {
            if !is_row_of(target, row) {
                return false;
            }
            has_point(row.places.as_slice(), at.place, place)
        }
        None => false,
    }
}

/// Whether the row is one of this target.
fn is_row_of(target: Shown<'_>, row: &Broken) -> bool
    ensures { result ≡ is_row_of target.entry.list target.entry.text.now row.now }
{
    list_of(row.kind) == target.list && row.target.as_str() == target.text
}

/// Whether the location with this number is at the same character as another one.
fn has_point(places: &[Place], number: usize, place: &Place) -> bool
    ensures { result ≡ true → HasPoint (map location_of places.now) (location_of place.now) }
{
    match places.get(number) {
        Some(own) => is_same_point(own, place),
        None => false,
    }
}

/// Whether two locations are at the same character of the same file.
fn is_same_point(a: &Place, b: &Place) -> bool
    ensures { result ≡ is_same_point (location_of a.now) (location_of b.now) }
{
    a.file.as_str() == b.file.as_str() && a.line == b.line && a.column == b.column
}

/// The number of the first row of this target, from this row on, that has the location, and the number of the location in it. There can be
/// several rows of a target, because two anchors with different fragments can be printed alike.
fn place_from(rows: &[Broken], target: Shown<'_>, from: usize, place: &Place) -> RowPlace {
    let (_, following) = rows.split_at(from.min(rows.len()));
    let passed = following
        .iter()
        .position(|row| is_row_of(target, row) && point_in(row, place) < row.places.len())
        .unwrap_or(following.len());
    let number = match following.get(passed) {
        Some(row) => point_in(row, place),
        None => 0,
    };
    RowPlace {
        row: from.saturating_add(passed),
        place: number,
    }
}

/// The number of the first location of the row that is at the same character as another one. The number of locations if there is none.
fn point_in(row: &Broken, place: &Place) -> usize {
    row.places
        .iter()
        .position(|own| is_same_point(own, place))
        .unwrap_or(row.places.len())
}
