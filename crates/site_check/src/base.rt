//! Paths from the root that lead to missing pages, folders of the site, and which text most of some are.
ghost use Rattle.std.specs.Prelude.{◌≡◌, ◌<◌, ◌+◌, ◌^◌, ◌++◌, ℕ, List, IfOk, OnOk, Some, bytes_eq, option_map, slice_get, string_bytes};
ghost use Rattle.std.specs.List.{flat_map};
ghost use Rattle.crawl_sources.specs.Tallies.{pointed};
ghost use Rattle.site_files.specs.Files.{PageFile, pages_of};
ghost use Rattle.site_check.specs.Base.{count_at, has_folder, is_in_folder, is_often, is_rooted, often_first, one_if, path_count, place_path, root_paths, row_paths, target_path};

use crate::shown::{begins, shown};
use crate::totals::is_page;
use check_report::{Broken, Place};
use crawl_pages::NoMemory;
use hash_order::HashedText;
use site_files::{SiteFiles, before_query};
use std::alloc::Global;
use std::collections::BTreeMap;

/// The paths of the missing pages below the top, one for each location of a link that is written as a path from the root.
pub(crate) fn root_paths<'a>(
    alloc: Global,
    top: &str,
    rows: &'a [Broken],
) -> Result<Vec<&'a str>, NoMemory>
    ensures { IfOk result (λ paths. pointed paths.items ≡ root_paths top.now rows.now) }
{
    let mut paths = Vec::new(alloc);
    for row in rows {
        push_row(top, row, &mut paths)?;
    }
    Ok(paths)
}

/// Appends the paths of a row, if it is that of a missing page. The top itself has none.
fn push_row<'a>(top: &str, row: &'a Broken, paths: &mut Vec<&'a str>) -> Result<(), NoMemory>
    ensures { OnOk result (pointed paths.new.items ≡ pointed paths.old.items ++ row_paths top.now row.now) }
{
    let path = target_path(top, row);
    if is_page(row.kind) && path != "./" {
        push_places(path, row.places.as_slice(), paths)?;
    }
    Ok(())
}

/// The path of a target below the top, without its query.
fn target_path<'a>(top: &str, row: &'a Broken) -> &'a str
    ensures { result.now ≡ target_path top.now row.now }
{
    before_query(shown(top, row.target.as_str()))
}

/// Appends a path for each of these locations whose link is written as a path from the root.
fn push_places<'a>(
    path: &'a str,
    places: &[Place],
    paths: &mut Vec<&'a str>,
) -> Result<(), NoMemory>
    ensures { OnOk result (pointed paths.new.items ≡ pointed paths.old.items ++ flat_map (place_path path.now) places.now) }
{
    for place in places {
        push_place(path, place, paths)?;
    }
    Ok(())
}

/// Appends the path, if the link at the location is written as a path from the root.
fn push_place<'a>(path: &'a str, place: &Place, paths: &mut Vec<&'a str>) -> Result<(), NoMemory>
    ensures { OnOk result (pointed paths.new.items ≡ pointed paths.old.items ++ place_path path.now place.now) }
{
    if is_rooted(&place.written) {
        paths.push(path)?;
    }
    Ok(())
}

/// Whether a link is written as a path from the root: it begins with one slash.
fn is_rooted(written: &Option<String>) -> bool
    ensures { result ≡ is_rooted (option_map string_bytes written.now) }
{
    match written {
        Some(written) => begins("/", written.as_str()) && !begins("//", written.as_str()),
        None => false,
    }
}

/// The numbers of equal texts.
pub(crate) type PathCounts<'a> = BTreeMap<HashedText<'a>, u64>;

/// Counts how many of the texts are each.
#[tactic(auto, using(crate::proofs::RootFolders::counts_more, crate::proofs::RootFolders::counts_end))]
pub(crate) fn path_counts<'a>(
    alloc: Global,
    folders: &[&'a str],
) -> Result<PathCounts<'a>, NoMemory>
    ensures { IfOk result (λ counts. (folder : List ℕ) → count_at counts folder ≡ path_count (pointed folders.now) folder) }
{
    let mut counts = BTreeMap::new(alloc);
    for folder in folders {
        count_path(*folder, &mut counts)?;
    }
    Ok(counts)
}

/// Counts a text.
pub(crate) fn count_path<'a>(folder: &'a str, counts: &mut PathCounts<'a>) -> Result<(), NoMemory>
    ensures { OnOk result (count_at counts.old folder.now + 1 < 2 ^ 64 → (other : List ℕ) → count_at counts.new other ≡ one_if (bytes_eq folder.now other) + count_at counts.old other) }
{
    let count = count_at(counts, folder).saturating_add(1);
    counts.insert(HashedText::from(folder), count)?;
    Ok(())
}

/// How often this text was counted.
pub(crate) fn count_at<'a>(counts: &PathCounts<'a>, folder: &'a str) -> u64
    ensures { result ≡ count_at counts.now folder.now }
{
    counts.get(&HashedText::from(folder)).copied().unwrap_or(0)
}

/// The first text that is at least half of all, and at least two of them.
#[tactic(auto, using(crate::proofs::RootFolders::often_here, crate::proofs::RootFolders::often_skip, crate::proofs::RootFolders::often_none))]
pub(crate) fn often_first<'a>(
    of: u64,
    counts: &PathCounts<'a>,
    folders: &[&'a str],
) -> Option<&'a str>
    ensures { option_map (λ folder. folder.now) result ≡ often_first of (count_at counts.now) (pointed folders.now) }
{
    for folder in folders {
        if is_often_first(of, counts, *folder) {
            return Some(*folder);
        }
    }
    None
}

/// Whether at least half of all, and at least two, are this text.
fn is_often_first<'a>(of: u64, counts: &PathCounts<'a>, folder: &'a str) -> bool
    ensures { result ≡ is_often of (count_at counts.now folder.now) }
{
    is_often(of, count_at(counts, folder))
}

/// Whether a count is at least two, and at least half of all.
fn is_often(of: u64, count: u64) -> bool
    ensures { result ≡ is_often of count }
{
    2 <= count && of.saturating_sub(count) <= count
}

/// Whether a page of the site is in the folder, which ends with a slash.
#[tactic(auto, using(crate::proofs::RootFolders::page_found, crate::proofs::RootFolders::page_passed, crate::proofs::RootFolders::pages_end))]
pub(crate) fn has_folder(files: &SiteFiles<'_>, folder: &str) -> bool
    ensures { result ≡ has_folder files.now folder.now }
{
    for number in 0..files.page_count() {
        if is_in_folder(files, folder, number) {
            return true;
        }
    }
    false
}

/// Whether the page with this number is in the folder.
fn is_in_folder(files: &SiteFiles<'_>, folder: &str, number: usize) -> bool
    ensures { (page : PageFile) → slice_get (pages_of files.now) number ≡ Some page → result ≡ is_in_folder files.now folder.now page }
{
    match files.page(number) {
        Some((url, _)) => begins(folder, shown(files.top(), url)),
        None => false,
    }
}
