//! The locations of broken links. Only files that have one are read again.
ghost use Rattle.std.specs.Prelude.{◌≡◌, ◌++◌, [], true, All, IfOk, IsPermutation, MatchOption, OnOk, length, map, option_map, string_bytes, take_while};
ghost use Rattle.site_check.specs.Complete.{HasPlace, HasTaken, is_taken};
ghost use Rattle.site_check.specs.Broken.{result_at};
ghost use Rattle.site_check.specs.Located.{IsFileOf, IsFirstPage, IsRowPlace, IsTargetPlace, IsToTarget, LeadsAsSaid, Pushes, PushesPlaces, comes_last, document_of, is_of, is_to, link_places, list_of, placed_at, places_from, put_last};
ghost use Rattle.site_check.specs.Locations.{ascends, comes_before, if_any, in_row, is_earlier, location_in, location_of, root_of, text_kind, unless_same};

use crate::check_error::CheckError;
use crate::leads::{ANCHORS, ListedLead, PAGES, TEXTS, URLS};
use crate::own_links::{LinkSite, own_links, page_of_file};
use crate::site_pages::Site;
use crate::worst::is_less;
use check_report::{Kind, Place};
use crawl_keys::CanonUrl;
use crawl_pages::NoMemory;
use document_links::{Syntax, TextKind, TextPlace};
use site_files::{Body, FileBytes, FileKind, SiteFile, SiteFiles};
use std::alloc::Global;
use std::cmp::Ordering;

/// The number of the list with the target of a row of this kind.
pub(crate) fn list_of(kind: Kind) -> usize
    ensures { result ≡ list_of kind }
{
    match kind {
        Kind::NoPage => PAGES,
        Kind::NoAnchor => ANCHORS,
        Kind::NotUrl => TEXTS,
        Kind::UnknownScheme => TEXTS,
        Kind::LocalFile => TEXTS,
        Kind::Leaves => URLS,
        Kind::OutsideBase => URLS,
        Kind::NotInMap => URLS,
    }
}

/// The location of a link to a target of a list.
#[derive(Drop)]
pub(crate) struct TargetPlace {
    /// The number of the list.
    pub(crate) list: usize,
    /// The number of the target in the list.
    pub(crate) number: usize,
    pub(crate) place: Place,
}

// ---- links in files

/// The links of one result, and those of the results after it.
#[derive(Clone, Copy)]
pub(crate) struct PageLeads<'a> {
    /// The number of the result.
    source: usize,
    own: &'a [ListedLead],
    more: &'a [ListedLead],
}

/// The locations of the links of the pages that one of `of` threads takes: those of the results whose numbers have the remainder `rest`
/// by `of`. The links of a page are consecutive. Its file is read again.
///
/// # Errors
/// `FileUnread`, `FileChanged`, `LinkLost`, `NoMemory`.
#[tactic(auto, using(crate::proofs::Placed::all_contained, crate::proofs::AllPlaced::passed_none))]
pub(crate) fn every_place<B: FileBytes>(
    alloc: Global,
    on: LinkSite<'_, '_, '_>,
    leads: &[ListedLead],
    bytes: &B,
    rest: usize,
    of: usize,
) -> Result<Vec<TargetPlace>, CheckError>
    ensures links { IfOk result (λ all. All (IsTargetPlace (LeadsAsSaid on.entry.site.pages.results.now (map result_at on.entry.linked.now)) on.entry.site.files.now on.entry.site.pages.results.now (B.reads bytes.now) leads.now) (map placed_at all.items)) }
    ensures whole { IfOk result (λ all. All (HasTaken (LeadsAsSaid on.entry.site.pages.results.now (map result_at on.entry.linked.now)) on.entry.site.files.now on.entry.site.pages.results.now (B.reads bytes.now) of rest (map placed_at all.items)) leads.now) }
{
    let mut all = Vec::new(alloc);
    let mut body = Body::new(alloc);
    let mut left = leads;
    'pages: loop {
        match first_page(left) {
            Some(page) => {
                left = page.more;
                if is_taken(of, rest, page.source) {
                    push_page(alloc, on, page, bytes, &mut body, &mut all)?;
                }
            }
            None => return Ok(all),
        }
    }
}

/// Whether of `of` threads the one with the number `rest` reads the file of the result with this number.
pub(crate) fn is_taken(of: usize, rest: usize, source: usize) -> bool
    ensures { result ≡ is_taken of rest source }
{
    0 < of && source % of == rest
}

/// Splits off the links of the first result. `None` if there are no links.
fn first_page(leads: &[ListedLead]) -> Option<PageLeads<'_>>
    ensures { MatchOption result (leads.now ≡ []) (IsFirstPage leads.now) }
{
    match leads.split_first() {
        Some((first, following)) => {
            let source = first.lead.source;
            let count = count_of(following, source);
            let (own, more) = leads.split_at(count.saturating_add(1).min(leads.len()));
            Some(PageLeads { source, own, more })
        }
        None => None,
    }
}

/// The number of links at the front that the result with this number has.
fn count_of(leads: &[ListedLead], source: usize) -> usize
    ensures { result ≡ length (take_while (is_of source) leads.now) }
{
    leads.iter().take_while(|one| is_of(source, *one)).count()
}

/// Whether the result with this number has the link.
fn is_of(source: usize, one: &ListedLead) -> bool
    ensures { result ≡ is_of source one.now }
{
    one.lead.source == source
}

/// Appends the locations of the links of a result, whose file is read again into `body`. Each result with a link that has an index has a
/// file, but this is checked, because a contract promises it.
///
/// # Errors
/// `FileUnread`, `FileChanged`, `LinkLost`, `NoMemory`.
fn push_page<B: FileBytes>(
    alloc: Global,
    on: LinkSite<'_, '_, '_>,
    page: PageLeads<'_>,
    bytes: &B,
    body: &mut Body,
    all: &mut Vec<TargetPlace>,
) -> Result<(), CheckError>
    requires { All (λ one. one.lead.source ≡ page.source) page.own.now }
    ensures links { OnOk result (Pushes (IsTargetPlace (LeadsAsSaid on.entry.site.pages.results.now (map result_at on.entry.linked.now)) on.entry.site.files.now on.entry.site.pages.results.now (B.reads bytes.now) page.entry.own.now) (map placed_at all.old.items) (map placed_at all.new.items)) }
    ensures whole { OnOk result (All (HasPlace (LeadsAsSaid on.entry.site.pages.results.now (map result_at on.entry.linked.now)) on.entry.site.files.now on.entry.site.pages.results.now (B.reads bytes.now) (map placed_at all.new.items)) page.entry.own.now) }
{
    let Some(file) = file_of(on.site, page.source) else {
        return Err(CheckError::LinkLost);
    };
    body.clear();
    if bytes.read(file.file, body)?.is_some() {
        return Err(CheckError::FileUnread);
    }
    push_places(alloc, on, page.own, file, body.as_slice(), all)?;
    Ok(())
}

/// The file of the result with this number, if it can have links.
fn file_of<'p, 'f>(site: Site<'p, 'f>, source: usize) -> Option<PageFile<'p, 'f>>
    ensures { MatchOption result (Unit {0}) (λ page. IsFileOf site.entry.files.now site.entry.pages.results.now source page.url.now (document_of page.file)) }
{
    let one = site.pages.results.get(source)?;
    let number = site.files.find(one.url.as_str())?;
    match site.files.document(number) {
        Some(file) => Some(PageFile {
            url: &one.url,
            file,
        }),
        None => None,
    }
}

/// A file, and the URL of its page.
#[derive(Clone, Copy)]
pub(crate) struct PageFile<'p, 'f> {
    url: &'p CanonUrl,
    file: SiteFile<'f>,
}

/// Appends the locations of these links in the contents of this file.
fn push_places(
    alloc: Global,
    on: LinkSite<'_, '_, '_>,
    leads: &[ListedLead],
    page: PageFile<'_, '_>,
    body: &[u8],
    all: &mut Vec<TargetPlace>,
) -> Result<(), CheckError>
    ensures { OnOk result (PushesPlaces (LeadsAsSaid on.entry.site.pages.results.now (map result_at on.entry.linked.now)) (root_of on.entry.site.files.now) page.entry.url.now page.entry.file.name.now (text_kind on.entry.site.files.now.rules.now.styles page.entry.file.kind) body.now leads.now (map placed_at all.old.items) (map placed_at all.new.items)) }
{
    let kind = text_kind(on.site.files.rules().styles, page.file.kind);
    let from = page_of_file(page.url, root_of(on.site.files));
    let links = own_links(alloc, body, kind, from, on, leads)?;
    push_all(alloc, page.file.name, links.places.as_slice(), leads, all)?;
    Ok(())
}

/// How a file of this kind is written. `styles` is whether the links of styles count.
fn text_kind(styles: bool, kind: FileKind) -> TextKind
    ensures { result ≡ text_kind styles kind }
{
    match kind {
        FileKind::Html => TextKind::Document {
            syntax: Syntax::Html,
            styles,
        },
        FileKind::Xml => TextKind::Document {
            syntax: Syntax::Xhtml,
            styles,
        },
        FileKind::Svg => TextKind::Document {
            syntax: Syntax::Xhtml,
            styles,
        },
        FileKind::Style => TextKind::StyleSheet,
        FileKind::Feed => TextKind::Feed,
        FileKind::UrlList => TextKind::UrlList,
        FileKind::Unknown => TextKind::Document {
            syntax: Syntax::Html,
            styles,
        },
    }
}

/// The path of the top, if absolute paths are below it: as `saved_site`, which this crate does not use, has it for the links of a page.
fn root_of<'a>(files: &'a SiteFiles<'_>) -> Option<&'a str>
    ensures { option_map (λ path. path.now) result ≡ root_of files.now }
{
    if files.rules().rooted {
        files.top().strip_prefix(files.origin())
    } else {
        None
    }
}

/// Appends the locations of these links, which are at these places of the file with this name.
fn push_all(
    alloc: Global,
    name: &str,
    places: &[TextPlace],
    leads: &[ListedLead],
    all: &mut Vec<TargetPlace>,
) -> Result<(), NoMemory>
    ensures { OnOk result (map placed_at all.new.items ≡ map placed_at all.old.items ++ places_from name.now places.now 0 leads.now) }
{
    for (number, one) in leads.iter().enumerate() {
        push_link(alloc, name, *one, places.get(number), all)?;
    }
    Ok(())
}

/// Appends the location of a link, which is at this place of the file with this name, if there is one.
fn push_link(
    alloc: Global,
    name: &str,
    one: ListedLead,
    place: Option<&TextPlace>,
    all: &mut Vec<TargetPlace>,
) -> Result<(), NoMemory>
    ensures { OnOk result (map placed_at all.new.items ≡ map placed_at all.old.items ++ link_places name.now one (option_map (λ place. place.now) place.entry)) }
{
    match place {
        Some(place) => {
            let place = place_in(alloc, name, place)?;
            let number = one.lead.number;
            all.push(TargetPlace {
                list: one.list,
                number,
                place,
            })?;
            Ok(())
        }
        None => Ok(()),
    }
}

/// A location in the file with this name. The text of the link is empty if the file has no link there any more.
fn place_in(alloc: Global, name: &str, place: &TextPlace) -> Result<Place, NoMemory>
    ensures { IfOk result (λ at. location_of at ≡ location_in name.now place.now) }
{
    let file = String::from_str(alloc, name)?;
    let written = if_any(alloc, place.written.as_str())?;
    Ok(Place {
        file,
        line: place.line,
        column: place.column,
        written,
    })
}

/// A copy of a text, unless it is empty.
fn if_any(alloc: Global, text: &str) -> Result<Option<String>, NoMemory>
    ensures { IfOk result (λ copy. option_map string_bytes copy ≡ if_any text.now) }
{
    if text.is_empty() {
        return Ok(None);
    }
    let copy = String::from_str(alloc, text)?;
    Ok(Some(copy))
}

// ---- locations of rows

/// Sorts locations by their targets, and those of a target by file, line and column.
pub(crate) fn sort_by_target(places: &mut Vec<TargetPlace>) -> Result<(), NoMemory>
    ensures { IsPermutation places.old.items places.new.items }
{
    places.sort_by(|a: &TargetPlace, b: &TargetPlace| a.order(b))
}

impl TargetPlace {
    /// By targets, files, lines and columns.
    fn order(&self, other: &TargetPlace) -> Ordering {
        let place = &self.place;
        let following = &other.place;
        (self.list, self.number)
            .cmp(&(other.list, other.number))
            .then(
                (place.file.as_str(), place.line, place.column).cmp(&(
                    following.file.as_str(),
                    following.line,
                    following.column,
                )),
            )
    }
}

/// The locations of the links to the target with this number of a list, which is reported with this text: in the order of files, lines and
/// columns, each once. `places` are sorted by their targets. A link that is written as this text loses its text.
#[tactic(auto, using(crate::proofs::Placed::row_none))]
pub(crate) fn row_places(
    alloc: Global,
    places: &[TargetPlace],
    list: usize,
    number: usize,
    target: &str,
) -> Result<Vec<Place>, NoMemory>
    ensures links { IfOk result (λ all. All (IsRowPlace (map placed_at places.now) list number target.now) (map location_of all.items)) }
    ensures order { IfOk result (λ all. ascends (map location_of all.items) ≡ true) }
{
    let own = places_to(places, list, number);
    let mut all = Vec::new(alloc);
    for one in own {
        push_location(alloc, target, &one.place, &mut all)?;
    }
    Ok(all)
}

/// The locations of the links to this target.
#[tactic(auto, using(crate::proofs::WorstFiles::within_files))]
fn places_to(places: &[TargetPlace], list: usize, number: usize) -> &[TargetPlace]
    ensures { All (IsToTarget (map placed_at places.now) list number) (map placed_at result.now) }
{
    let begin = places.partition_point(|one| (one.list, one.number).cmp(&(list, number)).is_lt());
    let (_, following) = places.split_at(begin);
    let (own, _) = following.split_at(count_to(following, list, number));
    own
}

/// The number of locations at the front whose links lead to this target.
fn count_to(places: &[TargetPlace], list: usize, number: usize) -> usize
    ensures { result ≡ length (take_while (λ one. is_to list number (placed_at one)) places.now) }
{
    places
        .iter()
        .take_while(|one| is_to(list, number, *one))
        .count()
}

/// Whether the link at a location leads to this target.
fn is_to(list: usize, number: usize, one: &TargetPlace) -> bool
    ensures { result ≡ is_to list number (placed_at one.now) }
{
    one.list == list && one.number == number
}

/// Appends a location as a row with this target has it, if it comes after the last.
fn push_location(
    alloc: Global,
    target: &str,
    place: &Place,
    all: &mut Vec<Place>,
) -> Result<(), NoMemory>
    ensures { OnOk result (map location_of all.new.items ≡ put_last target.now (map location_of all.old.items) (location_of place.now)) }
{
    if !comes_last(all.as_slice(), place) {
        return Ok(());
    }
    let own = row_place(alloc, target, place)?;
    all.push(own)?;
    Ok(())
}

/// Whether the last of some locations comes before this one.
fn comes_last(all: &[Place], place: &Place) -> bool
    ensures { result ≡ comes_last (map location_of all.now) (location_of place.now) }
{
    match all.split_last() {
        Some((last, _)) => comes_before(last, place),
        None => true,
    }
}

/// Whether one location comes before another: by file, line and column.
fn comes_before(a: &Place, b: &Place) -> bool
    ensures { result ≡ comes_before (location_of a.now) (location_of b.now) }
{
    is_less(a.file.as_str(), b.file.as_str())
        || a.file.as_str() == b.file.as_str() && is_earlier(a, b)
}

/// Whether one location comes before another in the same file.
fn is_earlier(a: &Place, b: &Place) -> bool
    ensures { result ≡ is_earlier (location_of a.now) (location_of b.now) }
{
    a.line < b.line || a.line == b.line && a.column < b.column
}

/// A location as a row with this target has it: without the link as written, if that is the target.
fn row_place(alloc: Global, target: &str, place: &Place) -> Result<Place, NoMemory>
    ensures { IfOk result (λ own. location_of own ≡ in_row target.now (location_of place.now)) }
{
    let file = place.file.clone()?;
    let written = unless_same(alloc, target, &place.written)?;
    Ok(Place {
        file,
        line: place.line,
        column: place.column,
        written,
    })
}

/// A copy of the link as written, unless that is how the target is reported.
fn unless_same(
    alloc: Global,
    target: &str,
    written: &Option<String>,
) -> Result<Option<String>, NoMemory>
    ensures { IfOk result (λ copy. option_map string_bytes copy ≡ unless_same target.now (option_map string_bytes written.now)) }
{
    match written {
        Some(text) => {
            if text.as_str() == target {
                return Ok(None);
            }
            let copy = String::from_str(alloc, text.as_str())?;
            Ok(Some(copy))
        }
        None => Ok(None),
    }
}
