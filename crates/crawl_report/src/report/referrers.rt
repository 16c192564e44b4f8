//! Which pages link to the missing URLs of a report, and to the moved ones.
ghost use Rattle.std.specs.Prelude.{◌≡◌, ℕ, List, ◌∷◌, true, IfOk, IsSome, map, filter, bytes_eq};
ghost use Rattle.std.specs.List.{list_any, flat_map};
ghost use Rattle.crawl_pages.specs.declared.page.PageResult.{PageResult};
ghost use Rattle.crawl_report.specs.Lines as line;
ghost use Rattle.crawl_report.specs.Lines.{line_of};
ghost use Rattle.crawl_report.specs.Printing.{Adds};
ghost use Rattle.crawl_report.specs.Rows.{is_listed, source_lines, lines_at, lines_of_all};
ghost use Rattle.crawl_sources.specs.Tallies.{count_of, pointed, IsTally};

use crate::out::Out;
use crate::row::Row;
use crate::sections::Sources;
use crawl_pages::{NoMemory, PageResult};
use crawl_sources::{Tallies, Tally, tally_links, tally_of};
use std::alloc::Global;

/// Prints the sources of the missing URLs, and if `moved`, of the moved ones.
pub fn with_sources(
    alloc: Global,
    out: Out,
    pages: &[PageResult],
    sources: Sources,
    moved: bool,
) -> Result<Out, NoMemory>
    ensures { IfOk result (λ more. Adds out more (source_lines sources moved pages.now)) }
{
    match sources {
        Sources::None => Ok(out),
        Sources::First => with_all(alloc, out, pages, false, moved),
        Sources::All => with_all(alloc, out, pages, true, moved),
    }
}

/// Prints how many pages link to each missing URL, and the first of them; if `all`, also each of them. If `moved`, also prints
/// this for the moved URLs.
fn with_all(
    alloc: Global,
    out: Out,
    pages: &[PageResult],
    all: bool,
    moved: bool,
) -> Result<Out, NoMemory>
    ensures { IfOk result (λ more. Adds out more (lines_of_all all moved pages.now)) }
{
    let listed = listed(alloc, pages, moved)?;
    let tallies = tally_links(alloc, &listed, pages, all)?;
    with_listed(out, &listed, &tallies, all)
}

/// Returns the results whose sources are printed, in their order.
fn listed(alloc: Global, pages: &[PageResult], moved: bool) -> Result<Vec<&PageResult>, NoMemory>
    ensures { IfOk result (λ all. pointed all.items ≡ filter (is_listed moved) pages.now) }
{
    pages
        .iter()
        .filter(|one| is_listed(one, moved))
        .collect(alloc)
}

/// Whether the sources of this result are printed: if it is missing and, with `moved`, also if it has moved.
fn is_listed(one: &PageResult, moved: bool) -> bool
    ensures { result ≡ is_listed moved one.now }
{
    one.page.is_missing() || moved && one.page.is_moved()
}

/// Prints the sources of each of these, by the counts that are kept for their URLs.
fn with_listed<'a>(
    mut out: Out,
    listed: &[&'a PageResult],
    tallies: &Tallies<'a>,
    all: bool,
) -> Result<Out, NoMemory>
    requires { (url : List ℕ) → list_any (λ r. bytes_eq r.url url) (pointed listed.now) ≡ true → IsSome (count_of tallies.now url) }
    ensures { (results : List PageResult) → ((url : List ℕ) → IsTally all results url (count_of tallies.now url)) → IfOk result (λ more. Adds out more (flat_map (λ r. lines_at all results r.url) (pointed listed.now))) }
{
    for one in listed {
        let tally = tally_of(tallies, &one.url);
        let url = one.url.as_str();
        out = with_tally(out, tally, url)?;
    }
    Ok(out)
}

/// Prints the number of pages that link to the URL and the first of them, then each page that the tally keeps.
fn with_tally(out: Out, tally: &Tally<'_>, url: &str) -> Result<Out, NoMemory>
    ensures { IfOk result (λ more. Adds out more (line.from tally.now.count tally.now.page url.now ∷ map (λ page. line.link page url.now) tally.now.all)) }
{
    let out = out.with(Row::From {
        pages: tally.count(),
        first: tally.page(),
        url,
    })?;
    with_links(out, tally.all(), url)
}

/// Prints a line for each of these pages, which link to the URL.
#[tactic(auto, using(crate::proofs::Adding::adds_none, crate::proofs::Adding::pointed_line_at, crate::proofs::Adding::adds_same, crate::proofs::Adding::lines_all))]
fn with_links(mut out: Out, pages: &[&str], url: &str) -> Result<Out, NoMemory>
    ensures { IfOk result (λ more. Adds out more (map (λ page. line.link page url.now) (pointed pages.now))) }
{
    for page in pages {
        out = out.with(link_row(page, url))?;
    }
    Ok(out)
}

/// Returns the row of a page that links to the URL.
fn link_row<'r>(page: &&'r str, url: &'r str) -> Row<'r>
    ensures { line_of result ≡ line.link page.now.now url.now }
{
    Row::Link { page: *page, url }
}
