//! The invalid links of a site's pages, by their texts.
ghost use Rattle.std.specs.Prelude.{◌≡◌, ◌∷◌, ◌++◌, ℕ, Bool, List, [], true, IfOk, MatchOption, OnOk, map, string_bytes, option_map};
ghost use Rattle.std.specs.Cmp.Lexicographic.{slice_cmp};
ghost use Rattle.std.specs.List.{list_any};
ghost use Rattle.std.specs.Ordering.{nat_cmp};
ghost use Rattle.site_files.specs.declared.files.SiteFiles.{SiteFiles};
ghost use Rattle.site_check.specs.Broken.{is_ignored};
ghost use Rattle.site_check.specs.Hints.{hints_in};
ghost use Rattle.site_check.specs.Ignored.{not_ignored, anchors_in};
ghost use Rattle.site_check.specs.Invalid.{AreTexts, invalid_at, invalid_in, invalid_rows_in, invalid_with, link_text, link_texts, next_text, once, rises, row_kind, row_of, text_of, texts_if, texts_in};
ghost use Rattle.site_check.specs.Leaving.{leaving_in};
ghost use Rattle.site_check.specs.Located.{KeepsRows, located_row, placed_at, row_unless};
ghost use Rattle.site_check.specs.Locations.{location_of};
ghost use Rattle.site_check.specs.Names.{AreNamed};
ghost use Rattle.site_check.specs.RowMeanings.{rows_in};

use crate::ignored::is_ignored;
use crate::input::CheckInput;
use crate::leads::{Lead, TEXTS};
use crate::located::{TargetPlace, row_places};
use check_report::{Broken, Kind, Place};
use crawl_keys::CanonUrl;
use crawl_pages::{NoMemory, PageResult};
use document_links::{InvalidKind, InvalidLink, LinkPlaces};
use hash_order::HashedText;
use std::alloc::Global;
use std::cmp::Ordering;
use std::collections::BTreeMap;

/// An invalid link, and the number of the result that has it.
#[derive(Clone, Copy)]
pub(crate) struct PageLink<'a> {
    source: usize,
    link: &'a InvalidLink,
}

/// A text of invalid links.
#[derive(Clone, Copy)]
pub(crate) struct InvalidText<'a> {
    /// The first link with this text.
    link: &'a InvalidLink,
    /// The number of results that have such a link.
    pages: u64,
}

impl<'a> PageLink<'a> {
    /// The text of the link.
    fn text(&self) -> &'a str
        ensures { result.now ≡ link_text self.now }
    {
        self.link.text.as_str()
    }

    /// By texts.
    fn order(&self, other: &PageLink<'_>) -> Ordering
        ensures { result ≡ slice_cmp nat_cmp (link_text self.now) (link_text other.now) }
    {
        self.text().cmp(other.text())
    }

    /// The link as one that leads to the text with this number.
    fn lead_to(&self, number: usize) -> Lead {
        Lead {
            source: self.source,
            index: self.link.index,
            number,
        }
    }
}

impl<'a> InvalidText<'a> {
    /// The text itself.
    pub(crate) fn text(&self) -> &'a str
        ensures { result.now ≡ text_of self.now }
    {
        self.link.text.as_str()
    }
}

/// The invalid links of the documents that have any, by the documents' URLs.
type InvalidLinks<'a> = BTreeMap<HashedText<'a>, &'a [InvalidLink]>;

/// The texts of the invalid links in found pages, each once and in ascending order, if the check lists invalid links. Appends
/// the links with a text that no entry matches to `leads`.
#[tactic(auto, using(crate::proofs::TextsOnce::no_texts))]
pub(crate) fn invalid_texts<'a>(
    alloc: Global,
    input: CheckInput<'a>,
    results: &'a [PageResult],
    leads: &mut Vec<Lead>,
) -> Result<Vec<InvalidText<'a>>, NoMemory>
    ensures { IfOk result (λ texts. AreTexts (texts_if input.entry.scope.invalid input.entry.places.now results.now) (map text_of texts.items)) }
{
    if !input.scope.invalid {
        return Ok(Vec::new(alloc));
    }
    let links = sorted_links(alloc, input.places, results)?;
    let texts = distinct_texts(alloc, input.ignores, links.as_slice(), leads)?;
    Ok(texts)
}

/// The invalid links in found pages, in the order of their texts, and those with the same text in the order of the results.
fn sorted_links<'a>(
    alloc: Global,
    places: &'a [LinkPlaces],
    results: &'a [PageResult],
) -> Result<Vec<PageLink<'a>>, NoMemory>
    ensures sorted { IfOk result (λ links. rises (map link_text links.items) ≡ true) }
    ensures same { IfOk result (λ links. (test : List ℕ → Bool) → list_any test (map link_text links.items) ≡ list_any test (texts_in (invalid_in places.now) results.now)) }
{
    let documents = invalid_documents(alloc, places)?;
    let mut links = found_links(alloc, &documents, results)?;
    links.sort_by(|a: &PageLink<'_>, b: &PageLink<'_>| a.order(b))?;
    Ok(links)
}

/// Returns a table of the invalid links of each document that has any, by the document's URL.
#[tactic(auto, using(crate::proofs::LeadsFound::document_more))]
fn invalid_documents<'a>(
    alloc: Global,
    places: &'a [LinkPlaces],
) -> Result<InvalidLinks<'a>, NoMemory>
    ensures { IfOk result (λ documents. (url : List ℕ) → invalid_at documents url ≡ invalid_in places.now url) }
{
    let mut documents = BTreeMap::new(alloc);
    for one in places {
        add_document(one, &mut documents)?;
    }
    Ok(documents)
}

/// Adds the invalid links of a document, if it has any.
#[tactic(auto, using(crate::proofs::LeadsFound::list_put))]
fn add_document<'a>(one: &'a LinkPlaces, documents: &mut InvalidLinks<'a>) -> Result<(), NoMemory>
    ensures { OnOk result ((url : List ℕ) → invalid_at documents.new url ≡ invalid_with url (invalid_at documents.old url) one.now) }
{
    if !one.invalid.is_empty() {
        documents.insert(one.url.hashed(), one.invalid.as_slice())?;
    }
    Ok(())
}

/// The invalid links in found pages, in the order of the results.
fn found_links<'a>(
    alloc: Global,
    documents: &InvalidLinks<'a>,
    results: &'a [PageResult],
) -> Result<Vec<PageLink<'a>>, NoMemory>
    ensures { IfOk result (λ links. map link_text links.items ≡ texts_in (invalid_at documents.now) results.now) }
{
    let mut links = Vec::new(alloc);
    for (source, one) in results.iter().enumerate() {
        if one.page.is_found() {
            push_links(source, links_of(documents, &one.url), &mut links)?;
        }
    }
    Ok(links)
}

/// The invalid links of the document at this URL.
fn links_of<'a>(documents: &InvalidLinks<'a>, url: &'a CanonUrl) -> &'a [InvalidLink]
    ensures { result.now ≡ invalid_at documents.now url.now }
{
    match documents.get(&url.hashed()) {
        Some(own) => *own,
        None => &[],
    }
}

/// Appends these links of the result with this number.
fn push_links<'a>(
    source: usize,
    own: &'a [InvalidLink],
    links: &mut Vec<PageLink<'a>>,
) -> Result<(), NoMemory>
    ensures { OnOk result (map link_text links.new.items ≡ map link_text links.old.items ++ link_texts own.now) }
{
    for link in own {
        links.push(PageLink { source, link })?;
    }
    Ok(())
}

/// The texts of these links, which are sorted by them, each once. Appends the links with a text that no entry matches to `leads`.
#[tactic(auto, using(crate::proofs::TextsOnce::link_end))]
fn distinct_texts<'a>(
    alloc: Global,
    ignores: &[String],
    links: &[PageLink<'a>],
    leads: &mut Vec<Lead>,
) -> Result<Vec<InvalidText<'a>>, NoMemory>
    ensures { IfOk result (λ texts. map text_of texts.items ≡ once (map link_text links.now)) }
{
    let mut texts = Vec::new(alloc);
    let mut last = None;
    for (index, link) in links.iter().enumerate() {
        let following = links.get(index..).unwrap_or(&[]);
        add_text(*link, last, following, &mut texts)?;
        push_lead(ignores, *link, texts.len().saturating_sub(1), leads)?;
        last = Some(*link);
    }
    Ok(texts)
}

/// Appends a link as one to the text with this number, unless an entry matches the text.
fn push_lead(
    ignores: &[String],
    link: PageLink<'_>,
    number: usize,
    leads: &mut Vec<Lead>,
) -> Result<(), NoMemory> {
    if !is_ignored(ignores, link.text()) {
        leads.push(link.lead_to(number))?;
    }
    Ok(())
}

/// Appends the text of a link, unless the last link has the same one. `links` begins with the link, and has all with its text.
fn add_text<'a>(
    link: PageLink<'a>,
    last: Option<PageLink<'a>>,
    links: &[PageLink<'a>],
    texts: &mut Vec<InvalidText<'a>>,
) -> Result<(), NoMemory>
    ensures { OnOk result (map text_of texts.new.items ≡ map text_of texts.old.items ++ next_text (option_map link_text last.entry) (link_text link.entry)) }
{
    if let Some(last) = last
        && last.text() == link.text()
    {
        return Ok(());
    }
    texts.push(InvalidText {
        link: link.link,
        pages: page_count(links),
    })?;
    Ok(())
}

/// The number of results that have one of the first links with the same text.
fn page_count(links: &[PageLink<'_>]) -> u64 {
    let mut count: u64 = 0;
    let mut last: Option<PageLink<'_>> = None;
    for link in links {
        match last {
            Some(last) if last.text() != link.text() => return count,
            Some(last) if last.source == link.source => (),
            _ => count = count.saturating_add(1),
        }
        last = Some(*link);
    }
    count
}

/// Appends the rows of these texts, in order, without those that an entry matches. `places` are the locations of links, sorted by their
/// targets.
#[tactic(auto, using(crate::proofs::LocatedRows::keeps_none))]
pub(crate) fn push_texts(
    alloc: Global,
    ignores: &[String],
    texts: &[InvalidText<'_>],
    places: &[TargetPlace],
    all: &mut Vec<Broken>,
) -> Result<(), NoMemory>
    ensures rows { OnOk result (rows_in all.new.items ≡ rows_in all.old.items) }
    ensures names { OnOk result ((front : List ℕ) (files : SiteFiles) → AreNamed front files all.old.items → AreNamed front files all.new.items) }
    ensures anchors { OnOk result (anchors_in all.new.items ≡ anchors_in all.old.items) }
    ensures invalid { OnOk result (invalid_rows_in all.new.items ≡ invalid_rows_in all.old.items ++ map row_of (not_ignored (map string_bytes ignores.now) (map text_of texts.now))) }
    ensures leaving { OnOk result (leaving_in all.new.items ≡ leaving_in all.old.items) }
    ensures hints { OnOk result (hints_in all.new.items ≡ hints_in all.old.items) }
    ensures located { OnOk result (KeepsRows (map placed_at places.now) 2 (map text_of texts.now) (map located_row all.old.items) (map located_row all.new.items)) }
{
    for (index, text) in texts.iter().enumerate() {
        let own = row_places(alloc, places, TEXTS, index, text.text())?;
        push_row(ignores, *text, own, all)?;
    }
    Ok(())
}

/// Appends the row of a text, unless an entry matches it.
fn push_row(
    ignores: &[String],
    text: InvalidText<'_>,
    places: Vec<Place>,
    all: &mut Vec<Broken>,
) -> Result<(), NoMemory>
    ensures rows { OnOk result (rows_in all.new.items ≡ rows_in all.old.items) }
    ensures names { OnOk result ((front : List ℕ) (files : SiteFiles) → AreNamed front files all.old.items → AreNamed front files all.new.items) }
    ensures anchors { OnOk result (anchors_in all.new.items ≡ anchors_in all.old.items) }
    ensures invalid { OnOk result (invalid_rows_in all.new.items ≡ invalid_rows_in all.old.items ++ map row_of (not_ignored (map string_bytes ignores.now) (text_of text.entry ∷ []))) }
    ensures leaving { OnOk result (leaving_in all.new.items ≡ leaving_in all.old.items) }
    ensures hints { OnOk result (hints_in all.new.items ≡ hints_in all.old.items) }
    ensures located { OnOk result (map located_row all.new.items ≡ map located_row all.old.items ++ row_unless (is_ignored (map string_bytes ignores.now) (text_of text.entry)) (row_kind text.entry.link.now.kind) (text_of text.entry) (map location_of places.items)) }
{
    let link = text.link;
    if is_ignored(ignores, link.text.as_str()) {
        return Ok(());
    }
    let target = link.text.clone()?;
    all.push(Broken {
        target,
        kind: row_kind(link.kind),
        pages: text.pages,
        places,
        same_name: None,
        hint: None,
    })?;
    Ok(())
}

/// The kind of a row for a link of this kind.
fn row_kind(kind: InvalidKind) -> Kind
    ensures { result ≡ row_kind kind }
{
    match kind {
        InvalidKind::NotUrl => Kind::NotUrl,
        InvalidKind::UnknownScheme => Kind::UnknownScheme,
        InvalidKind::LocalFile => Kind::LocalFile,
    }
}
