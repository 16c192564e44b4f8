//! The files with most broken links.
ghost use Rattle.std.specs.Prelude.{◌≡◌, ◌||◌, ◌++◌, ℕ, List, [], false, IfOk, OnOk, bytes_eq, fold, length, map, not, string_bytes, take_while};
ghost use Rattle.std.specs.Cmp.Lexicographic.{slice_cmp};
ghost use Rattle.std.specs.Ordering.{is_lt, nat_cmp};
ghost use Rattle.crawl_sources.specs.Tallies.{pointed};
ghost use Rattle.site_check.specs.Base.{count_at, path_count};
ghost use Rattle.site_check.specs.Worst.{counted, file_links, files_in, is_before, is_done, links_of, put_ten, put_undone, undone, worst_of};

use crate::base::{PathCounts, count_at, count_path, path_counts};
use check_report::{Broken, FileCount, Place};
use crawl_pages::NoMemory;
use std::alloc::Global;
use std::collections::BTreeMap;

/// The number of files that are listed, at most.
const LISTED: usize = 10;

/// The files with most broken links, at most ten: those with more links first, and of those with equally many links the one with the lesser
/// name first.
pub(crate) fn worst(alloc: Global, broken: &[Broken]) -> Result<Vec<FileCount>, NoMemory>
    ensures { IfOk result (λ all. map file_links all.items ≡ worst_of broken.now) }
{
    let files = files_in(alloc, broken)?;
    let files = files.as_slice();
    let counts = path_counts(alloc, files)?;
    let first = first_files(alloc, &counts, files)?;
    copies(alloc, first.as_slice())
}

/// The files of all locations, one for each location.
fn files_in(alloc: Global, broken: &[Broken]) -> Result<Vec<&str>, NoMemory>
    ensures { IfOk result (λ files. pointed files.items ≡ files_in broken.now) }
{
    let mut files = Vec::new(alloc);
    for row in broken {
        push_files(row.places.as_slice(), &mut files)?;
    }
    Ok(files)
}

/// Appends the files of these locations.
fn push_files<'a>(places: &'a [Place], files: &mut Vec<&'a str>) -> Result<(), NoMemory>
    ensures { OnOk result (pointed files.new.items ≡ pointed files.old.items ++ map (λ place. string_bytes place.file) places.now) }
{
    for place in places {
        files.push(place.file.as_str())?;
    }
    Ok(())
}

/// A file, and how many broken links are in it.
#[derive(Clone, Copy)]
struct Count<'a> {
    file: &'a str,
    links: u64,
}

/// The first files, at most ten, in the order of their counts.
fn first_files<'a>(
    alloc: Global,
    counts: &PathCounts<'a>,
    files: &[&'a str],
) -> Result<Vec<Count<'a>>, NoMemory>
    ensures { (all : List (List ℕ)) → ((file : List ℕ) → count_at counts.now file ≡ path_count all file) → IfOk result (λ first. map links_of first.items ≡ fold put_ten [] (map (counted all) (undone (λ _. false) (pointed files.now)))) }
{
    let mut done = BTreeMap::new(alloc);
    let mut first = Vec::new(alloc);
    for file in files {
        insert_file(counts, *file, &mut done, &mut first)?;
    }
    Ok(first)
}

/// Inserts a file among the first with its count, unless it is done.
fn insert_file<'a>(
    counts: &PathCounts<'a>,
    file: &'a str,
    done: &mut PathCounts<'a>,
    first: &mut Vec<Count<'a>>,
) -> Result<(), NoMemory>
    ensures done { OnOk result ((other : List ℕ) → is_done done.new other ≡ (is_done done.old other || bytes_eq file.now other)) }
    ensures first { OnOk result ((all : List (List ℕ)) → count_at counts.now file.now ≡ path_count all file.now → map links_of first.new.items ≡ put_undone (is_done done.old file.now) (map links_of first.old.items) (counted all file.now)) }
{
    if is_done(done, file) {
        return Ok(());
    }
    count_path(file, done)?;
    let links = count_at(counts, file);
    insert(Count { file, links }, first)?;
    Ok(())
}

/// Whether a file is done.
fn is_done<'a>(done: &PathCounts<'a>, file: &'a str) -> bool
    ensures { result ≡ is_done done.now file.now }
{
    count_at(done, file) != 0
}

/// Inserts a file before the first that comes after it, and leaves out what comes after ten.
#[tactic(auto, using(crate::proofs::WorstFiles::put_there, crate::proofs::WorstFiles::within_files))]
fn insert<'a>(count: Count<'a>, first: &mut Vec<Count<'a>>) -> Result<(), NoMemory>
    ensures { OnOk result (map links_of first.new.items ≡ put_ten (map links_of first.old.items) (links_of count.entry)) }
{
    let place = place_of(count, first.as_slice());
    first.insert(place, count)?;
    first.truncate(LISTED);
    Ok(())
}

/// The number of files that do not come after this one, at the front.
fn place_of(count: Count<'_>, first: &[Count<'_>]) -> usize
    ensures { result ≡ length (take_while (λ other. not (is_before (links_of count.entry) (links_of other))) first.now) }
{
    first
        .iter()
        .take_while(|other| comes_first(*other, count))
        .count()
}

/// Whether a file does not come after another.
fn comes_first(other: &Count<'_>, count: Count<'_>) -> bool
    ensures { result ≡ not (is_before (links_of count.entry) (links_of other.now)) }
{
    !is_before(count, *other)
}

/// Whether a file comes before another: with more links, or with equally many and a lesser name.
fn is_before(count: Count<'_>, other: Count<'_>) -> bool
    ensures { result ≡ is_before (links_of count.entry) (links_of other.entry) }
{
    other.links < count.links || count.links == other.links && is_less(count.file, other.file)
}

/// Whether a text is less than another, byte by byte.
pub(crate) fn is_less(text: &str, other: &str) -> bool
    ensures { result ≡ is_lt (slice_cmp nat_cmp text.now other.now) }
{
    text.as_bytes().cmp(other.as_bytes()).is_lt()
}

/// Returns these counts with copies of the file names, in the same order.
fn copies(alloc: Global, counts: &[Count<'_>]) -> Result<Vec<FileCount>, NoMemory>
    ensures { IfOk result (λ all. map file_links all.items ≡ map links_of counts.now) }
{
    let mut all = Vec::new(alloc);
    for count in counts {
        all.push(FileCount {
            file: String::from_str(alloc, count.file)?,
            links: count.links,
        })?;
    }
    Ok(all)
}
