//! The rows of a check: pages that are not there, and pages that moved.
ghost use Rattle.std.specs.Prelude.{◌≡◌, ◌++◌, ◌∷◌, [], OnOk, IfOk, map, not, string_bytes, flat_map, option_map};
ghost use Rattle.check_report.specs.declared.value.Kind.TheVariants.{NoPage};
ghost use Rattle.site_check.specs.Broken.{linked_at, result_at, rows_with, shown, ways_with};
ghost use Rattle.site_check.specs.Hints.{hint_of, hints_at, hints_in, hints_in_row};
ghost use Rattle.site_check.specs.Ignored.{anchor_in, anchors_in};
ghost use Rattle.site_check.specs.Invalid.{invalid_row_in, invalid_rows_in};
ghost use Rattle.site_check.specs.Leads.{is_reported};
ghost use Rattle.site_check.specs.Leaving.{leaving_in, leaving_row_in};
ghost use Rattle.site_check.specs.Located.{KeepsRows, located_row, page_text, placed_at, row_unless};
ghost use Rattle.site_check.specs.Locations.{location_of};
ghost use Rattle.site_check.specs.Names.{AreNamed, AreNames, own_name, reported_name};
ghost use Rattle.site_check.specs.RowMeanings.{row_in, rows_in, way_of};

use crate::hints::hint_of;
use crate::input::CheckInput;
use crate::leads::{PAGES, is_reported};
use crate::linked::Linked;
use crate::located::{TargetPlace, row_places};
use crate::names::{Named, same_name};
use crate::shown::shown;
use check_report::{Broken, Kind, Place, Redirect};
use crawl_keys::CanonUrl;
use crawl_pages::{NoMemory, Page};
use std::alloc::Global;

/// The rows of the missing pages, in order, with the locations of the links to each. `places` are the locations of links, sorted by their
/// targets.
#[tactic(auto, using(crate::proofs::LocatedRows::keeps_none))]
pub(crate) fn broken_rows(
    alloc: Global,
    input: CheckInput<'_>,
    named: Named<'_, '_>,
    linked: &[Linked<'_>],
    places: &[TargetPlace],
) -> Result<Vec<Broken>, NoMemory>
    requires { AreNames named.files.now named.exact.now named.lower.now }
    ensures rows { IfOk result (λ all. rows_in all.items ≡ flat_map (rows_with input.entry.front.now (map string_bytes input.entry.ignores.now)) (map linked_at linked.now)) }
    ensures names { IfOk result (λ all. AreNamed input.entry.front.now named.entry.files.now all.items) }
    ensures anchors { IfOk result (λ all. anchors_in all.items ≡ []) }
    ensures invalid { IfOk result (λ all. invalid_rows_in all.items ≡ []) }
    ensures leaving { IfOk result (λ all. leaving_in all.items ≡ []) }
    ensures hints { IfOk result (λ all. hints_in all.items ≡ flat_map (hints_at input.entry.front.now (map string_bytes input.entry.ignores.now) named.entry.files.now) (map result_at linked.now)) }
    ensures located { IfOk result (λ all. KeepsRows (map placed_at places.now) 0 (map (page_text input.entry.front.now) linked.now) [] (map located_row all.items)) }
{
    let mut all = Vec::new(alloc);
    for (index, one) in linked.iter().enumerate() {
        let text = shown(input.front, one.result.url.as_str());
        let own = row_places(alloc, places, PAGES, index, text)?;
        push_row(alloc, input, named, one, own, &mut all)?;
    }
    Ok(all)
}

/// Appends the row of a result's page, if the page is missing and no entry matches it.
#[tactic(auto, using(crate::proofs::AllRows::own_row, crate::proofs::AllRows::other_row, crate::proofs::AllRows::own_hint, crate::proofs::AllRows::other_hint))]
fn push_row(
    alloc: Global,
    input: CheckInput<'_>,
    named: Named<'_, '_>,
    one: &Linked<'_>,
    places: Vec<Place>,
    all: &mut Vec<Broken>,
) -> Result<(), NoMemory>
    requires { AreNames named.files.now named.exact.now named.lower.now }
    ensures rows { OnOk result (rows_in all.new.items ≡ rows_in all.old.items ++ rows_with input.entry.front.now (map string_bytes input.entry.ignores.now) (linked_at one.now)) }
    ensures names { OnOk result (AreNamed input.entry.front.now named.entry.files.now all.old.items → AreNamed input.entry.front.now named.entry.files.now all.new.items) }
    ensures anchors { OnOk result (anchors_in all.new.items ≡ anchors_in all.old.items) }
    ensures invalid { OnOk result (invalid_rows_in all.new.items ≡ invalid_rows_in all.old.items) }
    ensures leaving { OnOk result (leaving_in all.new.items ≡ leaving_in all.old.items) }
    ensures hints { OnOk result (hints_in all.new.items ≡ hints_in all.old.items ++ hints_at input.entry.front.now (map string_bytes input.entry.ignores.now) named.entry.files.now one.now.result.now) }
    ensures located { OnOk result (map located_row all.new.items ≡ map located_row all.old.items ++ row_unless (not (is_reported input.entry.front.now (map string_bytes input.entry.ignores.now) one.now.result.now)) NoPage (page_text input.entry.front.now one.now) (map location_of places.items)) }
{
    if !is_reported(input.front, input.ignores, one.result) {
        return Ok(());
    }
    let row = missing_row(alloc, input.front, named, one, places)?;
    all.push(row)?;
    Ok(())
}

/// The row of a missing page, with the locations of the links to it.
fn missing_row(
    alloc: Global,
    front: &str,
    named: Named<'_, '_>,
    one: &Linked<'_>,
    places: Vec<Place>,
) -> Result<Broken, NoMemory>
    requires { AreNames named.files.now named.exact.now named.lower.now }
    ensures row { IfOk result (λ row. row_in row ≡ record { text = shown front.now one.now.result.now.url; pages = one.now.pages } ∷ []) }
    ensures name { IfOk result (λ row. reported_name row ≡ own_name front.now named.entry.files.now row) }
    ensures anchor { IfOk result (λ row. anchor_in row ≡ []) }
    ensures invalid { IfOk result (λ row. invalid_row_in row ≡ []) }
    ensures leaving { IfOk result (λ row. leaving_row_in row ≡ []) }
    ensures hint { IfOk result (λ row. hints_in_row row ≡ hint_of named.entry.files.now one.now.result.now.url ∷ []) }
    ensures located { IfOk result (λ row. located_row row ≡ record { kind = NoPage; target = shown front.now one.now.result.now.url; places = map location_of places.items }) }
{
    let url = one.result.url.as_str();
    let text = shown(front, url);
    let name = same_name(alloc, front, named, text, places.as_slice())?;
    let hint = hint_of(alloc, named.files, url)?;
    let target = String::from_str(alloc, text)?;
    Ok(Broken {
        target,
        kind: Kind::NoPage,
        pages: one.pages,
        places,
        same_name: name,
        hint,
    })
}

/// The rows of the pages that moved and are linked to, in order.
pub(crate) fn redirect_rows(
    alloc: Global,
    front: &str,
    linked: &[Linked<'_>],
) -> Result<Vec<Redirect>, NoMemory>
    ensures { IfOk result (λ all. map way_of all.items ≡ flat_map (ways_with front.now) (map linked_at linked.now)) }
{
    let mut all = Vec::new(alloc);
    for one in linked {
        push_way(alloc, front, one, &mut all)?;
    }
    Ok(all)
}

/// Appends the row of a result's page, if the page moved and at least one page links to it.
fn push_way(
    alloc: Global,
    front: &str,
    one: &Linked<'_>,
    all: &mut Vec<Redirect>,
) -> Result<(), NoMemory>
    ensures { OnOk result (map way_of all.new.items ≡ map way_of all.old.items ++ ways_with front.now (linked_at one.now)) }
{
    let Page::Moved { to } = &one.result.page else {
        return Ok(());
    };
    if one.pages == 0 {
        return Ok(());
    }
    let page = String::from_str(alloc, shown(front, one.result.url.as_str()))?;
    let target = target_of(alloc, front, to)?;
    all.push(Redirect {
        page,
        target,
        pages: one.pages,
    })?;
    Ok(())
}

/// Returns the target of a redirect as it is printed, if the redirect has one.
fn target_of(alloc: Global, front: &str, to: &Option<CanonUrl>) -> Result<Option<String>, NoMemory>
    ensures { IfOk result (λ target. option_map string_bytes target ≡ option_map (shown front.now) to.now) }
{
    match to {
        Some(url) => {
            let text = String::from_str(alloc, shown(front, url.as_str()))?;
            Ok(Some(text))
        }
        None => Ok(None),
    }
}
