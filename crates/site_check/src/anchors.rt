//! Links to anchors that documents do not have.
ghost use Rattle.std.specs.Prelude.{◌≡◌, ◌∷◌, ◌++◌, ℕ, List, [], IfOk, OnOk, Some, map, option_map, string_bytes};
ghost use Rattle.document_links.specs.Anchors.{link_of};
ghost use Rattle.site_files.specs.declared.files.SiteFiles.{SiteFiles};
ghost use Rattle.check_report.specs.declared.value.Kind.TheVariants.{NoAnchor};
ghost use Rattle.site_check.specs.Broken.{is_ignored};
ghost use Rattle.site_check.specs.Complete.{is_taken};
ghost use Rattle.site_check.specs.Documents.{AreInOrder, AreSearchable, document_of, found_of, kept_by, kept_if};
ghost use Rattle.site_check.specs.Hints.{hints_in};
ghost use Rattle.site_check.specs.Ignored.{anchors_in, anchors_left};
ghost use Rattle.site_check.specs.Invalid.{invalid_rows_in};
ghost use Rattle.site_check.specs.LackedLinks.{lack_if, lack_of, lacks_of, link_in, links_from, links_in, links_of, links_to, links_to_each};
ghost use Rattle.site_check.specs.Lacks.{AreLacks};
ghost use Rattle.site_check.specs.Leaving.{leaving_in};
ghost use Rattle.site_check.specs.Located.{KeepsRows, located_row, placed_at, row_unless};
ghost use Rattle.site_check.specs.Locations.{location_of};
ghost use Rattle.site_check.specs.Names.{AreNamed};
ghost use Rattle.site_check.specs.AnchorGroups.{anchor_row};
ghost use Rattle.site_check.specs.Anchors.{anchor_text};
ghost use Rattle.site_check.specs.RowMeanings.{rows_in};

use crate::ignored::is_ignored;
use crate::leads::ANCHORS;
use crate::located::{TargetPlace, is_taken, row_places};
use crate::missing_anchors::{Anchor, MissingAnchor, MissingAnchorLink, sort_by_anchor};
use crate::site_pages::{DocumentUrl, Pages};
use check_report::{Broken, Kind, Place};
use crawl_pages::{NoMemory, PageResult};
use document_links::{AnchorLink, Anchors, PageAnchors};
use page_anchors::is_indicated;
use site_files::SiteFiles;
use std::alloc::Global;

/// Links of the result with this number to anchors of a document, by the index of their target.
#[derive(Clone, Copy)]
pub(crate) struct LinksTo<'a> {
    document: DocumentUrl<'a>,
    source: usize,
    anchors: &'a Anchors,
    target: usize,
}

/// The links to anchors of documents in each result whose number has the remainder `rest` by `of`.
fn every_links<'a>(
    alloc: Global,
    pages: Pages<'a>,
    files: &SiteFiles<'_>,
    rest: usize,
    of: usize,
) -> Result<Vec<LinksTo<'a>>, NoMemory>
    ensures { IfOk result (λ all. AreSearchable files.now pages.entry → map links_of all.items ≡ links_from (document_of pages.entry.anchors.now pages.entry.aliases.now files.now pages.entry.results.now) (kept_by pages.entry.anchors.now (is_taken of rest)) 0 pages.entry.results.now) }
{
    let mut all = Vec::new(alloc);
    for (source, one) in pages.results.iter().enumerate() {
        let page = kept_if(pages, is_taken(of, rest, source), one);
        push_page(pages, files, source, page, &mut all)?;
    }
    Ok(all)
}

/// The anchors of a result's page, if the result is taken, its page was found and that is a document.
fn kept_if<'a>(pages: Pages<'a>, is_taken: bool, one: &PageResult) -> Option<&'a PageAnchors>
    ensures { AreInOrder pages.entry.anchors.now pages.entry.aliases.now pages.entry.results.now → option_map (λ page. page.now) result ≡ kept_if pages.entry.anchors.now is_taken one.now }
{
    if is_taken {
        pages.anchors_of(one)
    } else {
        None
    }
}

/// Appends a page's links to anchors of documents, if there is a page.
fn push_page<'a>(
    pages: Pages<'a>,
    files: &SiteFiles<'_>,
    source: usize,
    page: Option<&'a PageAnchors>,
    all: &mut Vec<LinksTo<'a>>,
) -> Result<(), NoMemory>
    ensures { OnOk result (AreSearchable files.now pages.entry → map links_of all.new.items ≡ map links_of all.old.items ++ links_in (document_of pages.entry.anchors.now pages.entry.aliases.now files.now pages.entry.results.now) source (option_map (λ own. own.now) page.entry)) }
{
    match page {
        Some(page) => push_links(pages, files, source, page, all),
        None => Ok(()),
    }
}

/// Appends a page's links to anchors of documents.
fn push_links<'a>(
    pages: Pages<'a>,
    files: &SiteFiles<'_>,
    source: usize,
    page: &'a PageAnchors,
    all: &mut Vec<LinksTo<'a>>,
) -> Result<(), NoMemory>
    ensures { OnOk result (AreSearchable files.now pages.entry → map links_of all.new.items ≡ map links_of all.old.items ++ links_to_each (document_of pages.entry.anchors.now pages.entry.aliases.now files.now pages.entry.results.now) source page.now.anchors 0 page.now.targets.items) }
{
    for (target, to) in page.targets.iter().enumerate() {
        push_target(
            source,
            &page.anchors,
            target,
            pages.find_target(files, to),
            all,
        )?;
    }
    Ok(())
}

/// Appends the links to a target, if it leads to a document.
fn push_target<'a>(
    source: usize,
    anchors: &'a Anchors,
    target: usize,
    document: Option<DocumentUrl<'a>>,
    all: &mut Vec<LinksTo<'a>>,
) -> Result<(), NoMemory>
    ensures { OnOk result (map links_of all.new.items ≡ map links_of all.old.items ++ links_to source anchors.now target (option_map found_of document.entry)) }
{
    match document {
        Some(document) => {
            all.push(LinksTo {
                document,
                source,
                anchors,
                target,
            })?;
            Ok(())
        }
        None => Ok(()),
    }
}

/// The links in these results to anchors that documents lack, sorted by the anchors. They are looked up document by document, so that
/// the ids of a document stay in the processor's cache.
pub(crate) fn every_lacked<'a>(
    alloc: Global,
    pages: Pages<'a>,
    files: &SiteFiles<'_>,
    rest: usize,
    of: usize,
) -> Result<Vec<MissingAnchorLink<'a>>, NoMemory>
    ensures { IfOk result (λ all. AreSearchable files.now pages.entry → AreLacks pages.entry.anchors.now pages.entry.aliases.now files.now pages.entry.results.now (is_taken of rest) (map lack_of all.items)) }
{
    let mut links = every_links(alloc, pages, files, rest, of)?;
    links.sort_by(|a: &LinksTo<'_>, b: &LinksTo<'_>| a.document.number.cmp(&b.document.number))?;
    let mut all = Vec::new(alloc);
    for own in &links {
        push_lacked(alloc, *own, &mut all)?;
    }
    sort_by_anchor(&mut all)?;
    Ok(all)
}

/// Appends the links to anchors that the document lacks.
fn push_lacked<'a>(
    alloc: Global,
    links: LinksTo<'a>,
    all: &mut Vec<MissingAnchorLink<'a>>,
) -> Result<(), NoMemory>
    ensures { OnOk result (map lack_of all.new.items ≡ map lack_of all.old.items ++ lacks_of (links_of links.entry)) }
{
    let (begin, end) = links.anchors.links_to(links.target);
    let count = end.saturating_sub(begin);
    for index in 0..count {
        push_number(alloc, links, begin + index, all)?;
    }
    Ok(())
}

/// Appends the link with this number, if it leads to an anchor that the document lacks.
fn push_number<'a>(
    alloc: Global,
    links: LinksTo<'a>,
    number: usize,
    all: &mut Vec<MissingAnchorLink<'a>>,
) -> Result<(), NoMemory>
    ensures { OnOk result (map lack_of all.new.items ≡ map lack_of all.old.items ++ lack_if (links_of links.entry) (link_in (links_of links.entry) number)) }
{
    match links.anchors.link(number) {
        Some(link) => push_link(alloc, links, link, all),
        None => Ok(()),
    }
}

/// Appends a link, if it leads to an anchor that the document lacks.
fn push_link<'a>(
    alloc: Global,
    links: LinksTo<'a>,
    link: AnchorLink<'a>,
    all: &mut Vec<MissingAnchorLink<'a>>,
) -> Result<(), NoMemory>
    ensures { OnOk result (map lack_of all.new.items ≡ map lack_of all.old.items ++ lack_if (links_of links.entry) (Some (link_of link.entry))) }
{
    let fragment = link.fragment;
    let is_there = is_indicated(alloc, &links.document.document.anchors.ids, fragment)?;
    if !is_there {
        all.push(MissingAnchorLink {
            anchor: Anchor {
                url: links.document.url,
                fragment,
            },
            source: links.source,
            index: link.index,
        })?;
    }
    Ok(())
}

/// Appends the rows of these anchors, in order, without those that an entry matches. `places` are the locations of links, sorted by their
/// targets.
#[tactic(auto, using(crate::proofs::LocatedRows::keeps_none))]
pub(crate) fn push_anchors(
    alloc: Global,
    ignores: &[String],
    anchors: &[MissingAnchor],
    places: &[TargetPlace],
    all: &mut Vec<Broken>,
) -> Result<(), NoMemory>
    ensures rows { OnOk result (rows_in all.new.items ≡ rows_in all.old.items) }
    ensures names { OnOk result ((front : List ℕ) (files : SiteFiles) → AreNamed front files all.old.items → AreNamed front files all.new.items) }
    ensures anchors { OnOk result (anchors_in all.new.items ≡ anchors_in all.old.items ++ anchors_left (map string_bytes ignores.now) (map anchor_row anchors.now)) }
    ensures invalid { OnOk result (invalid_rows_in all.new.items ≡ invalid_rows_in all.old.items) }
    ensures leaving { OnOk result (leaving_in all.new.items ≡ leaving_in all.old.items) }
    ensures hints { OnOk result (hints_in all.new.items ≡ hints_in all.old.items) }
    ensures located { OnOk result (KeepsRows (map placed_at places.now) 1 (map anchor_text anchors.now) (map located_row all.old.items) (map located_row all.new.items)) }
{
    for (index, anchor) in anchors.iter().enumerate() {
        let own = row_places(alloc, places, ANCHORS, index, anchor.text.as_str())?;
        push_anchor(ignores, anchor, own, all)?;
    }
    Ok(())
}

/// Appends the row of an anchor, unless an entry matches it.
fn push_anchor(
    ignores: &[String],
    anchor: &MissingAnchor,
    places: Vec<Place>,
    all: &mut Vec<Broken>,
) -> Result<(), NoMemory>
    ensures rows { OnOk result (rows_in all.new.items ≡ rows_in all.old.items) }
    ensures names { OnOk result ((front : List ℕ) (files : SiteFiles) → AreNamed front files all.old.items → AreNamed front files all.new.items) }
    ensures anchors { OnOk result (anchors_in all.new.items ≡ anchors_in all.old.items ++ anchors_left (map string_bytes ignores.now) (anchor_row anchor.now ∷ [])) }
    ensures invalid { OnOk result (invalid_rows_in all.new.items ≡ invalid_rows_in all.old.items) }
    ensures leaving { OnOk result (leaving_in all.new.items ≡ leaving_in all.old.items) }
    ensures hints { OnOk result (hints_in all.new.items ≡ hints_in all.old.items) }
    ensures located { OnOk result (map located_row all.new.items ≡ map located_row all.old.items ++ row_unless (is_ignored (map string_bytes ignores.now) (anchor_text anchor.now)) NoAnchor (anchor_text anchor.now) (map location_of places.items)) }
{
    if is_ignored(ignores, anchor.text.as_str()) {
        return Ok(());
    }
    let target = anchor.text.clone()?;
    all.push(Broken {
        target,
        kind: Kind::NoAnchor,
        pages: anchor.pages,
        places,
        same_name: None,
        hint: None,
    })?;
    Ok(())
}
