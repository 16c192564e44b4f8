//! Links that lead out of the site: to URLs on its host that are not below its top.
ghost use Rattle.std.specs.Prelude.{◌≡◌, ◌∷◌, ◌++◌, ◌+◌, ◌<◌, ℕ, List, [], None, Some, drop, true, if◌then◌else◌, IfOk, MatchOption, OnOk, length, map, option_map, string_bytes};
ghost use Rattle.std.specs.List.{flat_map};
ghost use Rattle.crawl_sources.specs.Tallies.{pointed};
ghost use Rattle.site_files.specs.declared.files.SiteFiles.{SiteFiles};
ghost use Rattle.site_check.specs.Broken.{begins, is_ignored, linked_at};
ghost use Rattle.site_check.specs.Hints.{hints_in};
ghost use Rattle.site_check.specs.Ignored.{anchors_in};
ghost use Rattle.site_check.specs.Invalid.{invalid_rows_in};
ghost use Rattle.site_check.specs.Leads.{indices_in, leads_from, number_at, number_in, target_at};
ghost use Rattle.site_check.specs.Leaving.{after_front, is_left, is_outside, leaving_in, leaving_kind, outside_at, outside_linked, outside_number, outside_of, outside_row, outside_targets, outside_text, page_at_path, page_below, page_for, page_of_file, path_from, row_at, shown_at, steps_up, with_slash};
ghost use Rattle.site_check.specs.Located.{KeepsRows, located_row, placed_at, row_unless};
ghost use Rattle.site_check.specs.Locations.{location_of};
ghost use Rattle.site_check.specs.Names.{AreNamed};
ghost use Rattle.site_check.specs.RowMeanings.{rows_in};
ghost use Rattle.site_check.specs.Totals.{is_leaving};

use crate::ignored::is_ignored;
use crate::input::CheckInput;
use crate::leads::{
    Lead, Maps, Target, TargetNumbers, URLS, insert_all, link_indices, push_target,
};
use crate::linked::{Linked, linked_among};
use crate::located::{TargetPlace, row_places};
use crate::maps::folder_of;
use crate::outside::Outside;
use crate::shown::{begins, is_below};
use crate::site_pages::Site;
use crate::threads::leads_by;
use check_report::{Broken, Kind, Place};
use crawl_pages::{NoMemory, PageResult};
use site_files::{SiteFiles, before_query};
use std::alloc::Global;
use std::collections::BTreeMap;
use std::thread::Threads;

/// The missing results on the site's host that are not below its top, in order, each with how many of the site's results link to its URL.
#[tactic(auto, using(crate::proofs::Outsides::none_outside))]
pub(crate) fn outside_urls<'a, R: Threads + Sync>(
    rt: &R,
    alloc: Global,
    input: CheckInput<'a>,
    site: Site<'a, '_>,
) -> Result<Vec<Outside<'a>>, NoMemory>
    ensures { IfOk result (λ all. map outside_at all.items ≡ outside_linked input.entry.rooted input.entry.maps.now site.entry.files.now site.entry.pages.results.now input.entry.found.now) }
{
    let found = outside_results(alloc, site.files, input.found)?;
    if found.is_empty() {
        return Ok(Vec::new(alloc));
    }
    let results = site.pages.results;
    let linked = linked_among(rt, alloc, found.as_slice(), results, site.files.threads())?;
    with_texts(alloc, site.files, input, linked.as_slice())
}

/// The missing results on the site's host that are not below its top, in order.
fn outside_results<'a>(
    alloc: Global,
    files: &SiteFiles<'_>,
    results: &'a [PageResult],
) -> Result<Vec<&'a PageResult>, NoMemory>
    ensures { IfOk result (λ all. pointed all.items ≡ outside_of files.now results.now) }
{
    let mut all = Vec::new(alloc);
    for one in results {
        if is_left(files, one) {
            all.push(one)?;
        }
    }
    Ok(all)
}

/// Whether a result is outside the site. A page at such a URL is one below the top, whose URL is spelled in another way.
fn is_left(files: &SiteFiles<'_>, one: &PageResult) -> bool
    ensures { result ≡ is_left files.now one.now }
{
    one.page.is_missing() && is_outside(files, one.url.as_str())
}

/// Whether a URL is on the site's host, and not below its top.
fn is_outside(files: &SiteFiles<'_>, url: &str) -> bool
    ensures { result ≡ is_outside files.now url.now }
{
    is_below(files.origin(), url) && !begins(files.top(), url)
}

/// These results with their URLs as they are shown, and the folders in which they were looked up.
fn with_texts<'a>(
    alloc: Global,
    files: &SiteFiles<'_>,
    input: CheckInput<'a>,
    linked: &[Linked<'a>],
) -> Result<Vec<Outside<'a>>, NoMemory>
    ensures { IfOk result (λ all. map outside_at all.items ≡ map (outside_row input.entry.rooted input.entry.maps.now files.now) (map linked_at linked.now)) }
{
    let mut all = Vec::new(alloc);
    for one in linked {
        all.push(with_text(alloc, files, input, *one)?)?;
    }
    Ok(all)
}

/// A result with its URL as it is shown, and the folder in which it was looked up.
fn with_text<'a>(
    alloc: Global,
    files: &SiteFiles<'_>,
    input: CheckInput<'a>,
    linked: Linked<'a>,
) -> Result<Outside<'a>, NoMemory>
    ensures { IfOk result (λ one. outside_at one ≡ outside_row input.entry.rooted input.entry.maps.now files.now (linked_at linked.entry)) }
{
    let url = linked.result.url.as_str();
    let text = outside_text(alloc, files, input.rooted, url)?;
    let folder = folder_of(input.maps, url);
    let kind = kind_of(input.rooted, folder);
    let page = page_for(alloc, files, kind, url)?;
    Ok(Outside {
        linked,
        text,
        kind,
        folder,
        page,
    })
}

/// The page that may be meant by a URL that is outside the site in this way.
fn page_for(
    alloc: Global,
    files: &SiteFiles<'_>,
    kind: Kind,
    url: &str,
) -> Result<Option<String>, NoMemory>
    ensures { IfOk result (λ page. option_map string_bytes page ≡ page_for kind (page_below files.now url.now)) }
{
    match kind {
        Kind::OutsideBase => page_below(alloc, files, url),
        Kind::NoPage
        | Kind::NoAnchor
        | Kind::NotUrl
        | Kind::UnknownScheme
        | Kind::LocalFile
        | Kind::Leaves
        | Kind::NotInMap => Ok(None),
    }
}

/// The top of the site, if this URL lacks only its last slash. Otherwise the page that has the same path below the top as the URL has
/// below the host.
fn page_below(alloc: Global, files: &SiteFiles<'_>, url: &str) -> Result<Option<String>, NoMemory>
    ensures { IfOk result (λ page. option_map string_bytes page ≡ page_below files.now url.now) }
{
    let own = before_query(url);
    let folder = with_slash(alloc, own)?;
    if folder.as_str() == files.top() {
        return Ok(Some(folder));
    }
    page_at_path(alloc, files, own)
}

/// The page of the site that has the same path below the top as this URL has below the host.
fn page_at_path(alloc: Global, files: &SiteFiles<'_>, url: &str) -> Result<Option<String>, NoMemory>
    ensures { IfOk result (λ page. option_map string_bytes page ≡ page_at_path files.now url.now) }
{
    let host = with_slash(alloc, files.origin())?;
    match after_front(host.as_str(), url) {
        Some(path) => {
            let mut text = String::from_str(alloc, files.top())?;
            text.push_str(path)?;
            Ok(page_of_file(files, text))
        }
        None => Ok(None),
    }
}

/// A text and a slash.
fn with_slash(alloc: Global, text: &str) -> Result<String, NoMemory>
    ensures { IfOk result (λ new. string_bytes new ≡ with_slash text.now) }
{
    let mut new = String::from_str(alloc, text)?;
    new.push_str("/")?;
    Ok(new)
}

/// What follows the front of a URL, if it begins with that.
#[tactic(auto, using(crate::proofs::Fronts::front_after, crate::proofs::Fronts::none_after))]
fn after_front<'a>(front: &str, url: &'a str) -> Option<&'a str>
    ensures { option_map (λ rest. rest.now) result ≡ after_front front.now url.now }
{
    match url.strip_prefix(front) {
        Some(rest) => Some(rest),
        None => None,
    }
}

/// The URL, if a file has it.
fn page_of_file(files: &SiteFiles<'_>, url: String) -> Option<String>
    ensures { option_map string_bytes result ≡ page_of_file files.now (string_bytes url) }
{
    match files.file_of(url.as_str()) {
        Some(_) => Some(url),
        None => None,
    }
}

/// The kind of the row of a URL that was looked up in this folder, if in any.
fn kind_of(rooted: bool, folder: Option<&str>) -> Kind
    ensures exact { result ≡ leaving_kind rooted (option_map (λ folder. folder.now) folder.entry) }
    ensures leaving { is_leaving result ≡ true }
{
    match folder {
        Some(_) => Kind::NotInMap,
        None if rooted => Kind::Leaves,
        None => Kind::OutsideBase,
    }
}

/// A URL that is not below the top, as it is shown: as a path from the top if the URL of the folder is not known.
fn outside_text(
    alloc: Global,
    files: &SiteFiles<'_>,
    rooted: bool,
    url: &str,
) -> Result<String, NoMemory>
    ensures { IfOk result (λ text. string_bytes text ≡ outside_text rooted files.now url.now) }
{
    if rooted {
        return path_from(alloc, files.top(), url);
    }
    let text = String::from_str(alloc, url)?;
    Ok(text)
}

/// A URL as a path from the top: a `../` for each folder of the top that the URL does not have, and then what only the URL has.
fn path_from(alloc: Global, top: &str, url: &str) -> Result<String, NoMemory>
    ensures { IfOk result (λ text. string_bytes text ≡ path_from top.now url.now) }
{
    let mut folders = top;
    let mut rest = url;
    'folders: while let Some((below, following)) = shared_folder(folders, rest) {
        folders = below;
        rest = following;
    }
    let mut text = steps_up(alloc, folders.as_bytes())?;
    text.push_str(rest)?;
    Ok(text)
}

/// What is below the first folder, if a top and a URL have the same one.
fn shared_folder<'t, 'u>(top: &'t str, url: &'u str) -> Option<(&'t str, &'u str)>
    ensures { MatchOption result (path_from top.now url.now ≡ steps_up top.now ++ url.now) (λ x. (path_from top.now url.now ≡ path_from x.0.now x.1.now) × (length x.0.now < length top.now)) }
{
    match top.split_once('/') {
        Some((folder, below)) => match url.split_once('/') {
            Some((other, following)) => if folder == other {
                Some((below, following))
            } else {
                None
            },
            None => None,
        },
        None => None,
    }
}

/// A `../` for each folder that a text names.
fn steps_up(alloc: Global, folders: &[u8]) -> Result<String, NoMemory>
    ensures { IfOk result (λ text. string_bytes text ≡ steps_up folders.now) }
{
    let mut text = String::new(alloc);
    for byte in folders {
        if *byte == b'/' {
            text.push_str("../")?;
        }
    }
    Ok(text)
}

/// The links of the site's pages to these URLs, without those to URLs that an entry matches.
pub(crate) fn outside_leads<'a, R: Threads + Sync>(
    rt: &R,
    alloc: Global,
    input: CheckInput<'a>,
    site: Site<'a, '_>,
    outside: &'a [Outside<'a>],
) -> Result<Vec<Lead>, NoMemory>
    ensures { IfOk result (λ all. all.items ≡ leads_from (number_in (outside_targets (map string_bytes input.entry.ignores.now) 0 outside.now)) (indices_in input.entry.places.now) 0 site.entry.pages.results.now) }
{
    let numbers = outside_numbers(alloc, input.ignores, outside)?;
    if numbers.is_empty() {
        return Ok(Vec::new(alloc));
    }
    let indices = link_indices(alloc, input.places)?;
    let maps = Maps {
        numbers: &numbers,
        indices: &indices,
    };
    leads_by(rt, alloc, maps, site.pages.results, site.files.threads())
}

/// The numbers of these URLs, without those that an entry matches.
fn outside_numbers<'a>(
    alloc: Global,
    ignores: &[String],
    outside: &'a [Outside<'a>],
) -> Result<TargetNumbers<'a>, NoMemory>
    ensures { IfOk result (λ numbers. (url : List ℕ) → number_at numbers url ≡ number_in (outside_targets (map string_bytes ignores.now) 0 outside.now) url) }
{
    let targets = outside_targets(alloc, ignores, outside)?;
    let mut numbers = BTreeMap::new(alloc);
    insert_all(&mut numbers, targets.as_slice())?;
    Ok(numbers)
}

/// These URLs with their numbers, without those that an entry matches.
#[tactic(auto, using(crate::proofs::Outsides::outside_more))]
fn outside_targets<'a>(
    alloc: Global,
    ignores: &[String],
    outside: &'a [Outside<'a>],
) -> Result<Vec<Target<'a>>, NoMemory>
    ensures { IfOk result (λ all. map target_at all.items ≡ outside_targets (map string_bytes ignores.now) 0 outside.now) }
{
    let mut all = Vec::new(alloc);
    for (index, one) in outside.iter().enumerate() {
        let number = outside_number(ignores, index, one);
        push_target(&one.linked.result.url, number, &mut all)?;
    }
    Ok(all)
}

/// The number, unless an entry matches the URL.
fn outside_number(ignores: &[String], number: usize, one: &Outside<'_>) -> Option<usize>
    ensures { result ≡ outside_number (map string_bytes ignores.now) number one.now }
{
    let text = one.text.as_str();
    if is_ignored(ignores, text) {
        None
    } else {
        Some(number)
    }
}

/// Appends the rows of these URLs, in order, without those that an entry matches. `places` are the locations of links, sorted by their
/// targets.
#[tactic(auto, using(crate::proofs::LocatedRows::keeps_none))]
pub(crate) fn push_outside(
    alloc: Global,
    ignores: &[String],
    outside: &[Outside<'_>],
    places: &[TargetPlace],
    all: &mut Vec<Broken>,
) -> Result<(), NoMemory>
    ensures rows { OnOk result (rows_in all.new.items ≡ rows_in all.old.items) }
    ensures names { OnOk result ((front : List ℕ) (files : SiteFiles) → AreNamed front files all.old.items → AreNamed front files all.new.items) }
    ensures anchors { OnOk result (anchors_in all.new.items ≡ anchors_in all.old.items) }
    ensures invalid { OnOk result (invalid_rows_in all.new.items ≡ invalid_rows_in all.old.items) }
    ensures leaving { OnOk result (leaving_in all.new.items ≡ leaving_in all.old.items ++ flat_map (row_at (map string_bytes ignores.now)) (map outside_at outside.now)) }
    ensures hints { OnOk result (hints_in all.new.items ≡ hints_in all.old.items) }
    ensures located { OnOk result (KeepsRows (map placed_at places.now) 3 (map shown_at outside.now) (map located_row all.old.items) (map located_row all.new.items)) }
{
    for (index, one) in outside.iter().enumerate() {
        let own = row_places(alloc, places, URLS, index, one.text.as_str())?;
        push_row(alloc, ignores, one, own, all)?;
    }
    Ok(())
}

/// Appends the row of a URL, unless an entry matches it.
#[tactic(auto, using(crate::proofs::LeavingRows::no_page, crate::proofs::LeavingRows::no_anchor, crate::proofs::LeavingRows::no_text, crate::proofs::LeavingRows::no_hint, crate::proofs::LeavingRows::own_name))]
fn push_row(
    alloc: Global,
    ignores: &[String],
    one: &Outside<'_>,
    places: Vec<Place>,
    all: &mut Vec<Broken>,
) -> Result<(), NoMemory>
    ensures rows { OnOk result (rows_in all.new.items ≡ rows_in all.old.items) }
    ensures names { OnOk result ((front : List ℕ) (files : SiteFiles) → AreNamed front files all.old.items → AreNamed front files all.new.items) }
    ensures anchors { OnOk result (anchors_in all.new.items ≡ anchors_in all.old.items) }
    ensures invalid { OnOk result (invalid_rows_in all.new.items ≡ invalid_rows_in all.old.items) }
    ensures leaving { OnOk result (leaving_in all.new.items ≡ leaving_in all.old.items ++ row_at (map string_bytes ignores.now) (outside_at one.now)) }
    ensures hints { OnOk result (hints_in all.new.items ≡ hints_in all.old.items) }
    ensures located { OnOk result (map located_row all.new.items ≡ map located_row all.old.items ++ row_unless (is_ignored (map string_bytes ignores.now) (shown_at one.now)) one.now.kind (shown_at one.now) (map location_of places.items)) }
{
    if is_ignored(ignores, one.text.as_str()) {
        return Ok(());
    }
    let target = one.text.clone()?;
    let hint = copy(alloc, one.folder)?;
    let page = copy(alloc, one.page.as_deref())?;
    all.push(Broken {
        target,
        kind: one.kind,
        pages: one.linked.pages,
        places,
        same_name: page,
        hint,
    })?;
    Ok(())
}

/// Copies a text, if there is one.
fn copy(alloc: Global, text: Option<&str>) -> Result<Option<String>, NoMemory>
    ensures { IfOk result (λ copy. option_map string_bytes copy ≡ option_map (λ text. text.now) text.entry) }
{
    match text {
        Some(text) => {
            let copy = String::from_str(alloc, text)?;
            Ok(Some(copy))
        }
        None => Ok(None),
    }
}
