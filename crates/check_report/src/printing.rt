//! Prints a report.
ghost use Rattle.std.specs.Prelude.{◌≡◌, ℕ, [], ◌∷◌, IfOk, OnOk, flat_map, map, string_bytes};
ghost use Rattle.check_report.specs.Printing.{Adds, printed, printed_annotations, printed_json, printed_page, printed_text, text_order};
ghost use Rattle.check_report.specs.Order.{link_of, ordered_places, shown_places};
ghost use Rattle.check_report.specs.Rows as line;
ghost use Rattle.check_report.specs.Rows.{line_of, bare_lines, broken_lines, broken_section, counts_of, edge, external_of, external_section, file_lines, hint_lines, if_listed, left_out, lines_in, link_line, listed, name_section, other_rows, place_lines, redirect_section, rest_lines, rows_of, target_lines, worst_section};

use crate::as_annotations::put_annotation;
use crate::as_json::put_json;
use crate::as_page::put_page;
use crate::as_text::put_text;
use crate::form::Form;
use crate::ordered::{
    Link, PLACES_LIMIT, links_by_file, ordered_places, ordered_targets, shown_places,
};
use crate::put::NoMemory;
use crate::row::{Counts, Row, Section};
use crate::value::{
    BaseHint, Broken, Contents, External, FileCount, Findings, Lists, Place, Redirect,
};
use crate::view::{Order, View};
use std::alloc::Global;

/// All locations of each target, as they are given.
const GIVEN: View = View {
    order: Order::Given,
    all: true,
};

/// All locations of each target, by target.
const BY_TARGET: View = View {
    order: Order::Target,
    all: true,
};

/// Prints a report as text: the totals, the broken links by file or by target, the files with the most of them, and the other sections
/// that have rows. Colour is ANSI escape codes.
///
/// # Errors
/// Out of memory.
pub fn print_text(
    alloc: Global,
    findings: &Findings<'_>,
    contents: Contents<'_>,
    colour: bool,
) -> Result<Vec<u8>, NoMemory>
    ensures { IfOk result (λ text. text.items ≡ printed_text colour contents.entry findings.now) }
{
    let view = View {
        order: text_order(contents.lists),
        all: contents.lists.all,
    };
    print(alloc, findings, contents, view, Form::Text(colour))
}

/// The order of a report as text.
fn text_order(lists: Lists) -> Order
    ensures { result ≡ text_order lists }
{
    if lists.by_target {
        Order::Target
    } else {
        Order::File
    }
}

/// Prints a report as JSON, one object per line.
///
/// # Errors
/// Out of memory.
pub fn print_json(
    alloc: Global,
    findings: &Findings<'_>,
    contents: Contents<'_>,
) -> Result<Vec<u8>, NoMemory>
    ensures { IfOk result (λ text. text.items ≡ printed_json contents.entry findings.now) }
{
    print(alloc, findings, contents, GIVEN, Form::Json)
}

/// Prints a report as GitHub annotations: an `::error` command for each location of a broken link.
///
/// # Errors
/// Out of memory.
pub fn print_annotations(
    alloc: Global,
    findings: &Findings<'_>,
    contents: Contents<'_>,
) -> Result<Vec<u8>, NoMemory>
    ensures { IfOk result (λ text. text.items ≡ printed_annotations contents.entry findings.now) }
{
    print(
        alloc,
        findings,
        contents,
        GIVEN,
        Form::Annotations(contents.folder),
    )
}

/// Prints a report as an HTML page that loads nothing from the network. It shows every row without scripts. With scripts it shows
/// the broken links by target, by target's folder or by file, and can search them. Each location is a link if the URL of the sources is
/// given.
///
/// # Errors
/// Out of memory.
pub fn print_page(
    alloc: Global,
    findings: &Findings<'_>,
    contents: Contents<'_>,
) -> Result<Vec<u8>, NoMemory>
    ensures { IfOk result (λ text. text.items ≡ printed_page contents.entry findings.now) }
{
    print(
        alloc,
        findings,
        contents,
        BY_TARGET,
        Form::Page(contents.source_url),
    )
}

/// Prints the report in this form. The view says how broken links are listed.
fn print(
    alloc: Global,
    findings: &Findings<'_>,
    contents: Contents<'_>,
    view: View,
    form: Form<'_>,
) -> Result<Vec<u8>, NoMemory>
    ensures { IfOk result (λ text. text.items ≡ printed form.entry view contents.entry findings.now) }
{
    let mut out = Vec::new(alloc);
    put_rows(&mut out, findings, contents, view, form)?;
    Ok(out)
}

/// Appends the rows of the report: the totals, the hint at BASE, and then each section that has rows.
fn put_rows(
    out: &mut Vec<u8>,
    findings: &Findings<'_>,
    contents: Contents<'_>,
    view: View,
    form: Form<'_>,
) -> Result<(), NoMemory>
    ensures { OnOk result (Adds form.entry out.old.items out.new.items (rows_of view contents.entry findings.now)) }
{
    let shown = listed(findings, contents.lists);
    put_row(out, form, total_of(findings, contents))?;
    put_hint(out, form, findings.base_hint)?;
    put_broken(out, form, shown.broken, view)?;
    put_worst(out, form, shown.worst)?;
    put_others(out, form, &shown, external_of(contents))
}

/// Appends the lists of other things than broken links, each if it has rows, and the last row.
fn put_others(
    out: &mut Vec<u8>,
    form: Form<'_>,
    findings: &Findings<'_>,
    external: &[External],
) -> Result<(), NoMemory>
    ensures { OnOk result (Adds form.entry out.old.items out.new.items (other_rows external.now findings.now)) }
{
    put_redirects(out, form, findings.redirects)?;
    put_names(out, form, Section::Unreached, findings.unreached)?;
    put_names(out, form, Section::Unlisted, findings.unlisted)?;
    put_external(out, form, external)?;
    put_names(out, form, Section::Unused, findings.unused_ignores)?;
    put_row(out, form, Row::Last)
}

/// The first row of a report: the name of the site, the totals, and the optional counts.
fn total_of<'r>(findings: &Findings<'r>, contents: Contents<'_>) -> Row<'r>
    ensures { line_of result ≡ line.total findings.now.base.now findings.now.totals (counts_of contents.entry findings.now) }
{
    Row::Total {
        base: findings.base,
        totals: findings.totals,
        counts: counts_of(findings, contents),
    }
}

/// The optional counts: those of the lists that the report has.
fn counts_of(findings: &Findings<'_>, contents: Contents<'_>) -> Counts
    ensures { result ≡ counts_of contents.entry findings.now }
{
    Counts {
        unreached: if contents.lists.unreached {
            Some(findings.unreached.len())
        } else {
            None
        },
        unlisted: if contents.lists.unlisted {
            Some(findings.unlisted.len())
        } else {
            None
        },
        external: match contents.external {
            Some(urls) => Some(urls.len()),
            None => None,
        },
    }
}

/// The findings with the lists that the report has; the others are empty.
fn listed<'r>(findings: &Findings<'r>, lists: Lists) -> Findings<'r>
    ensures broken { result.broken.now ≡ (listed lists findings.now).broken.now }
    ensures worst { result.worst.now ≡ (listed lists findings.now).worst.now }
    ensures redirects { result.redirects.now ≡ (listed lists findings.now).redirects.now }
    ensures unreached { result.unreached.now ≡ (listed lists findings.now).unreached.now }
    ensures unlisted { result.unlisted.now ≡ (listed lists findings.now).unlisted.now }
    ensures unused { result.unused_ignores.now ≡ (listed lists findings.now).unused_ignores.now }
{
    Findings {
        unreached: if_listed(lists.unreached, findings.unreached),
        unlisted: if_listed(lists.unlisted, findings.unlisted),
        ..*findings
    }
}

/// The rows if they are listed, otherwise none.
pub fn if_listed<T>(listed: bool, rows: &[T]) -> &[T]
    ensures { result.now ≡ (if_listed listed rows.entry).now }
{
    if listed { rows } else { &[] }
}

/// The external links that the report lists; none if it does not list them.
fn external_of(contents: Contents<'_>) -> &[External]
    ensures { result.now ≡ external_of contents.entry }
{
    match contents.external {
        Some(urls) => urls,
        None => &[],
    }
}

/// Appends a row.
fn put_row(out: &mut Vec<u8>, form: Form<'_>, row: Row<'_>) -> Result<(), NoMemory>
    ensures { OnOk result (Adds form.entry out.old.items out.new.items (line_of row.entry ∷ [])) }
{
    match form {
        Form::Text(colour) => put_text(out, row, colour),
        Form::Json => put_json(out, row),
        Form::Annotations(folder) => put_annotation(out, folder, row),
        Form::Page(source_url) => put_page(out, source_url, row),
    }
}

/// Appends the start or the end of a section if the section has rows.
fn put_edge(out: &mut Vec<u8>, form: Form<'_>, row: Row<'_>, rows: usize) -> Result<(), NoMemory>
    ensures { OnOk result (Adds form.entry out.old.items out.new.items (edge rows (line_of row.entry))) }
{
    if rows > 0 {
        put_row(out, form, row)
    } else {
        Ok(())
    }
}

/// Appends the hint at BASE, if there is one.
#[tactic(auto, using(crate::proofs::Adding::adds_none))]
fn put_hint(out: &mut Vec<u8>, form: Form<'_>, hint: Option<&BaseHint>) -> Result<(), NoMemory>
    ensures { OnOk result (Adds form.entry out.old.items out.new.items (hint_lines hint.entry)) }
{
    match hint {
        Some(hint) => put_row(out, form, Row::Hint(hint)),
        None => Ok(()),
    }
}

/// Appends the section of the broken links, if there are any.
#[tactic(auto, using(crate::proofs::Adding::section_more))]
fn put_broken(
    out: &mut Vec<u8>,
    form: Form<'_>,
    targets: &[Broken],
    view: View,
) -> Result<(), NoMemory>
    ensures { OnOk result (Adds form.entry out.old.items out.new.items (broken_section view targets.now)) }
{
    let rows = targets.len();
    put_edge(out, form, Row::Begin(Section::Broken), rows)?;
    put_ordered(out, form, targets, view)?;
    put_edge(out, form, Row::Finish(Section::Broken), rows)
}

/// Appends the rows of the broken links, by file or by target.
fn put_ordered(
    out: &mut Vec<u8>,
    form: Form<'_>,
    targets: &[Broken],
    view: View,
) -> Result<(), NoMemory>
    ensures { OnOk result (Adds form.entry out.old.items out.new.items (broken_lines view targets.now)) }
{
    let ordered = ordered_targets(*out.allocator(), targets, view.order)?;
    put_lines(out, form, ordered.as_slice(), view)
}

/// Appends the rows of these targets, by file or one target after the other.
fn put_lines(
    out: &mut Vec<u8>,
    form: Form<'_>,
    targets: &[&Broken],
    view: View,
) -> Result<(), NoMemory>
    ensures { OnOk result (Adds form.entry out.old.items out.new.items (lines_in view.order view (map (λ target. target.now) targets.now))) }
{
    match view.order {
        Order::File => put_files(out, form, targets, view.all),
        Order::Given => put_targets(out, form, targets, view),
        Order::Target => put_targets(out, form, targets, view),
    }
}

// ---- by target

/// Appends the rows of each target.
#[tactic(auto, using(crate::proofs::Adding::adds_none))]
fn put_targets(
    out: &mut Vec<u8>,
    form: Form<'_>,
    targets: &[&Broken],
    view: View,
) -> Result<(), NoMemory>
    ensures { OnOk result (Adds form.entry out.old.items out.new.items (flat_map (λ target. target_lines view target.now) targets.now)) }
{
    for target in targets {
        put_target(out, form, *target, view)?;
    }
    Ok(())
}

/// Appends a target, its locations, and the number of locations that are not listed.
#[tactic(auto, using(crate::proofs::Adding::target_more))]
fn put_target(
    out: &mut Vec<u8>,
    form: Form<'_>,
    target: &Broken,
    view: View,
) -> Result<(), NoMemory>
    ensures { OnOk result (Adds form.entry out.old.items out.new.items (target_lines view target.now)) }
{
    put_row(out, form, Row::Broken(target))?;
    put_listed(out, form, target, view)?;
    put_left_out(out, form, target.places.len(), view.all)
}

/// Appends a row for each location of the target that is listed.
fn put_listed(
    out: &mut Vec<u8>,
    form: Form<'_>,
    target: &Broken,
    view: View,
) -> Result<(), NoMemory>
    ensures { OnOk result (Adds form.entry out.old.items out.new.items (place_lines target.now (shown_places view.all (ordered_places view.order target.now.places.items)))) }
{
    let places = ordered_places(*out.allocator(), target.places.as_slice(), view.order)?;
    put_places(out, form, target, shown_places(places.as_slice(), view.all))
}

/// Appends a row for each of these locations of links to the target.
#[tactic(auto, using(crate::proofs::Adding::adds_none, crate::proofs::Adding::row_more, crate::proofs::Adding::rows_all))]
fn put_places(
    out: &mut Vec<u8>,
    form: Form<'_>,
    target: &Broken,
    places: &[&Place],
) -> Result<(), NoMemory>
    ensures { OnOk result (Adds form.entry out.old.items out.new.items (map (λ place. line.place target.now place.now) places.now)) }
{
    for place in places {
        put_row(out, form, Row::Place(target, *place))?;
    }
    Ok(())
}

/// Appends the number of locations that are not listed, if there are any. `places` is the number of all locations.
fn put_left_out(out: &mut Vec<u8>, form: Form<'_>, places: usize, all: bool) -> Result<(), NoMemory>
    ensures { OnOk result (Adds form.entry out.old.items out.new.items (left_out all line.more places)) }
{
    if all || places <= PLACES_LIMIT {
        Ok(())
    } else {
        put_row(out, form, Row::More(places - PLACES_LIMIT))
    }
}

// ---- by file

/// Appends the links to these targets by file, then the targets without locations, then those of which not all locations are listed.
fn put_files(
    out: &mut Vec<u8>,
    form: Form<'_>,
    targets: &[&Broken],
    all: bool,
) -> Result<(), NoMemory>
    ensures { OnOk result (Adds form.entry out.old.items out.new.items (file_lines all (map (λ target. target.now) targets.now))) }
{
    let links = links_by_file(*out.allocator(), targets, all)?;
    put_links(out, form, links.as_slice())?;
    put_bare(out, form, targets)?;
    put_rests(out, form, targets, all)
}

/// Appends a row for each of these links.
#[tactic(auto, using(crate::proofs::Adding::adds_none, crate::proofs::Adding::row_more, crate::proofs::Adding::rows_all))]
fn put_links(out: &mut Vec<u8>, form: Form<'_>, links: &[Link<'_>]) -> Result<(), NoMemory>
    ensures { OnOk result (Adds form.entry out.old.items out.new.items (map (λ link. link_line (link_of link)) links.now)) }
{
    for link in links {
        put_row(out, form, Row::Place(link.target, link.place))?;
    }
    Ok(())
}

/// Appends a row for each target without locations.
#[tactic(auto, using(crate::proofs::Adding::adds_none))]
fn put_bare(out: &mut Vec<u8>, form: Form<'_>, targets: &[&Broken]) -> Result<(), NoMemory>
    ensures { OnOk result (Adds form.entry out.old.items out.new.items (flat_map (λ target. bare_lines target.now) targets.now)) }
{
    for target in targets {
        put_bare_target(out, form, *target)?;
    }
    Ok(())
}

/// Appends a row for the target if it has no locations.
#[tactic(auto, using(crate::proofs::Adding::adds_none))]
fn put_bare_target(out: &mut Vec<u8>, form: Form<'_>, target: &Broken) -> Result<(), NoMemory>
    ensures { OnOk result (Adds form.entry out.old.items out.new.items (bare_lines target.now)) }
{
    if target.places.len() > 0 {
        Ok(())
    } else {
        put_row(out, form, Row::Broken(target))
    }
}

/// Appends a row for each target of which not all locations are listed.
#[tactic(auto, using(crate::proofs::Adding::adds_none))]
fn put_rests(
    out: &mut Vec<u8>,
    form: Form<'_>,
    targets: &[&Broken],
    all: bool,
) -> Result<(), NoMemory>
    ensures { OnOk result (Adds form.entry out.old.items out.new.items (flat_map (λ target. rest_lines all target.now) targets.now)) }
{
    for target in targets {
        put_rest(out, form, *target, all)?;
    }
    Ok(())
}

/// Appends a row for the target if not all of its locations are listed.
fn put_rest(out: &mut Vec<u8>, form: Form<'_>, target: &Broken, all: bool) -> Result<(), NoMemory>
    ensures { OnOk result (Adds form.entry out.old.items out.new.items (rest_lines all target.now)) }
{
    let places = target.places.len();
    if all || places <= PLACES_LIMIT {
        Ok(())
    } else {
        put_row(out, form, Row::Rest(target, places - PLACES_LIMIT))
    }
}

// ---- other sections

/// Appends the section of the files with the most broken links, if there are any.
#[tactic(auto, using(crate::proofs::Adding::section_more))]
fn put_worst(out: &mut Vec<u8>, form: Form<'_>, counts: &[FileCount]) -> Result<(), NoMemory>
    ensures { OnOk result (Adds form.entry out.old.items out.new.items (worst_section counts.now)) }
{
    let rows = counts.len();
    put_edge(out, form, Row::Begin(Section::Worst), rows)?;
    put_counts(out, form, counts)?;
    put_edge(out, form, Row::Finish(Section::Worst), rows)
}

/// Appends a row for each of these files.
#[tactic(auto, using(crate::proofs::Adding::adds_none))]
fn put_counts(out: &mut Vec<u8>, form: Form<'_>, counts: &[FileCount]) -> Result<(), NoMemory>
    ensures { OnOk result (Adds form.entry out.old.items out.new.items (map line.worst counts.now)) }
{
    for count in counts {
        put_row(out, form, Row::Worst(count))?;
    }
    Ok(())
}

/// Appends the section of the redirects that pages link to, if there are any.
#[tactic(auto, using(crate::proofs::Adding::section_more))]
fn put_redirects(out: &mut Vec<u8>, form: Form<'_>, pages: &[Redirect]) -> Result<(), NoMemory>
    ensures { OnOk result (Adds form.entry out.old.items out.new.items (redirect_section pages.now)) }
{
    let rows = pages.len();
    put_edge(out, form, Row::Begin(Section::Redirects), rows)?;
    put_moved(out, form, pages)?;
    put_edge(out, form, Row::Finish(Section::Redirects), rows)
}

/// Appends a row for each of these redirects.
#[tactic(auto, using(crate::proofs::Adding::adds_none))]
fn put_moved(out: &mut Vec<u8>, form: Form<'_>, pages: &[Redirect]) -> Result<(), NoMemory>
    ensures { OnOk result (Adds form.entry out.old.items out.new.items (map line.redirect pages.now)) }
{
    for page in pages {
        put_row(out, form, Row::Redirect(page))?;
    }
    Ok(())
}

/// Appends the section of the external URLs, if there are any.
#[tactic(auto, using(crate::proofs::Adding::section_more))]
fn put_external(out: &mut Vec<u8>, form: Form<'_>, urls: &[External]) -> Result<(), NoMemory>
    ensures { OnOk result (Adds form.entry out.old.items out.new.items (external_section urls.now)) }
{
    let rows = urls.len();
    put_edge(out, form, Row::Begin(Section::External), rows)?;
    put_urls(out, form, urls)?;
    put_edge(out, form, Row::Finish(Section::External), rows)
}

/// Appends a row for each of these external URLs.
#[tactic(auto, using(crate::proofs::Adding::adds_none))]
fn put_urls(out: &mut Vec<u8>, form: Form<'_>, urls: &[External]) -> Result<(), NoMemory>
    ensures { OnOk result (Adds form.entry out.old.items out.new.items (map line.external urls.now)) }
{
    for url in urls {
        put_row(out, form, Row::External(url))?;
    }
    Ok(())
}

/// Appends a section of names, if there are any: the unreached files, the documents that no sitemap lists, or the unused entries of
/// the ignore list.
#[tactic(auto, using(crate::proofs::Adding::section_more))]
fn put_names(
    out: &mut Vec<u8>,
    form: Form<'_>,
    section: Section,
    texts: &[String],
) -> Result<(), NoMemory>
    ensures { OnOk result (Adds form.entry out.old.items out.new.items (name_section section texts.now)) }
{
    let rows = texts.len();
    put_edge(out, form, Row::Begin(section), rows)?;
    put_texts(out, form, section, texts)?;
    put_edge(out, form, Row::Finish(section), rows)
}

/// Appends a row for each of these names.
#[tactic(auto, using(crate::proofs::Adding::adds_none, crate::proofs::Adding::row_more, crate::proofs::Adding::adds_same, crate::proofs::Adding::rows_all))]
fn put_texts(
    out: &mut Vec<u8>,
    form: Form<'_>,
    section: Section,
    texts: &[String],
) -> Result<(), NoMemory>
    ensures { OnOk result (Adds form.entry out.old.items out.new.items (map (λ text. line.name section (string_bytes text)) texts.now)) }
{
    for text in texts {
        put_row(out, form, Row::Name(section, text.as_str()))?;
    }
    Ok(())
}
