//! Files that a search does not reach.
ghost use Rattle.std.specs.Prelude.{◌≡◌, ◌==◌, ◌||◌, ◌++◌, ◌∷◌, [], ℕ, if◌then◌else◌, IfOk, OnOk, length, map, nat_lt, not, slice_get, string_bytes};
ghost use Rattle.std.specs.List.{list_any};
ghost use Rattle.site_files.specs.Files.{pages_of};
ghost use Rattle.site_check.specs.Unreached.{is_file, is_left, is_marked, is_page_of, left_among, left_at, page_file, unreached_in, unreached_of};

use crate::input::CheckInput;
use crate::shown::shown;
use crawl_pages::{NoMemory, PageResult};
use site_files::SiteFiles;
use std::alloc::Global;

/// The first URL of each file that the search did not reach, in order, as they are printed, if the check lists them.
pub(crate) fn unreached(
    alloc: Global,
    input: CheckInput<'_>,
    files: &SiteFiles<'_>,
) -> Result<Vec<String>, NoMemory>
    ensures { IfOk result (λ all. map string_bytes all.items ≡ unreached_in input.entry.front.now files.now input.entry.reached) }
{
    match input.reached {
        Some(results) => unreached_of(alloc, input.front, files, results),
        None => Ok(Vec::new(alloc)),
    }
}

/// The first URL of each file of which none of these results found a page, in order, as they are printed.
fn unreached_of(
    alloc: Global,
    front: &str,
    files: &SiteFiles<'_>,
    results: &[PageResult],
) -> Result<Vec<String>, NoMemory>
    ensures { IfOk result (λ all. map string_bytes all.items ≡ unreached_of front.now files.now results.now) }
{
    let mut marks = no_marks(alloc, files)?;
    unmarked(alloc, front, files, results, &mut marks)
}

/// A mark for each file, none of them set.
#[tactic(auto, using(crate::proofs::Marks::none_marked))]
fn no_marks(alloc: Global, files: &SiteFiles<'_>) -> Result<Vec<bool>, NoMemory>
    ensures { IfOk result (λ marks. (index : ℕ) → is_marked marks.items index ≡ not (nat_lt index (length files.now.names.now))) }
{
    let marks = vec![in alloc; false; files.name_count()]?;
    Ok(marks)
}

/// The first URL of each file that is not marked and of which none of these results found a page, in order, as they are printed. Marks
/// all files.
fn unmarked(
    alloc: Global,
    front: &str,
    files: &SiteFiles<'_>,
    results: &[PageResult],
    marks: &mut [bool],
) -> Result<Vec<String>, NoMemory>
    ensures { IfOk result (λ all. map string_bytes all.items ≡ left_among (λ index. is_marked marks.old index || list_any (is_page_of files.now index) results.now) front.now (pages_of files.now)) }
{
    mark_results(files, results, marks);
    left_pages(alloc, front, files, marks)
}

/// Marks the files of which one of these results found a page.
fn mark_results(files: &SiteFiles<'_>, results: &[PageResult], marks: &mut [bool])
    ensures { (index : ℕ) → is_marked marks.new index ≡ (is_marked marks.old index || list_any (is_page_of files.now index) results.now) }
{
    for one in results {
        mark_result(files, one, marks);
    }
}

/// Marks the file of the page that a result found, if it did.
fn mark_result(files: &SiteFiles<'_>, one: &PageResult, marks: &mut [bool])
    ensures { (index : ℕ) → is_marked marks.new index ≡ (is_marked marks.old index || is_page_of files.now index one.now) }
{
    if one.page.is_missing() {
        return;
    }
    mark_file(files.file_of(one.url.as_str()), marks);
}

/// Marks a file, if there is one.
fn mark_file(file: Option<usize>, marks: &mut [bool])
    ensures { (index : ℕ) → is_marked marks.new index ≡ (is_marked marks.old index || is_file index file) }
{
    match file {
        Some(own) => mark(own, marks),
        None => {}
    }
}

/// Marks the file with this index. An index that no file has counts as marked.
#[tactic(auto, using(crate::proofs::Marks::marked, crate::proofs::Marks::marked_past))]
fn mark(own: usize, marks: &mut [bool])
    ensures { (index : ℕ) → is_marked marks.new index ≡ (is_marked marks.old index || own == index) }
{
    if marks.len() <= own {
        return;
    }
    marks[own] = true;
}

/// Whether a page has a file that is not marked.
fn is_left(file: Option<usize>, marks: &[bool]) -> bool
    ensures { result ≡ is_left (is_marked marks.now) file }
{
    match file {
        Some(own) => !is_marked(own, marks),
        None => false,
    }
}

/// Whether the file with this index is marked.
#[tactic(auto, using(crate::proofs::Marks::mark_past, crate::proofs::Marks::mark_there))]
fn is_marked(own: usize, marks: &[bool]) -> bool
    ensures { result ≡ is_marked marks.now own }
{
    if marks.len() <= own {
        return true;
    }
    marks[own]
}

/// The first URL of each file that is not marked, in order, as they are printed. Marks these files.
fn left_pages(
    alloc: Global,
    front: &str,
    files: &SiteFiles<'_>,
    marks: &mut [bool],
) -> Result<Vec<String>, NoMemory>
    ensures { IfOk result (λ all. map string_bytes all.items ≡ left_among (is_marked marks.old) front.now (pages_of files.now)) }
{
    let mut all = Vec::new(alloc);
    for number in 0..files.page_count() {
        push_page(alloc, front, files, number, marks, &mut all)?;
    }
    Ok(all)
}

/// Appends the URL of the page with this number as it is printed, and marks its file, if that is not marked.
fn push_page(
    alloc: Global,
    front: &str,
    files: &SiteFiles<'_>,
    number: usize,
    marks: &mut [bool],
    all: &mut Vec<String>,
) -> Result<(), NoMemory>
    ensures marks { OnOk result ((index : ℕ) → is_marked marks.new index ≡ (is_marked marks.old index || is_file index (page_file (slice_get (pages_of files.now) number)))) }
    ensures pushed { OnOk result (map string_bytes all.new.items ≡ map string_bytes all.old.items ++ left_at (is_marked marks.old) front.now (slice_get (pages_of files.now) number)) }
{
    match files.page(number) {
        Some((url, file)) => push_url(alloc, shown(front, url), file, marks, all),
        None => Ok(()),
    }
}

/// Appends the text of a page with this file and marks the file, if it is not marked.
fn push_url(
    alloc: Global,
    text: &str,
    file: Option<usize>,
    marks: &mut [bool],
    all: &mut Vec<String>,
) -> Result<(), NoMemory>
    ensures marks { OnOk result ((index : ℕ) → is_marked marks.new index ≡ (is_marked marks.old index || is_file index file)) }
    ensures pushed { OnOk result (map string_bytes all.new.items ≡ map string_bytes all.old.items ++ (if is_left (is_marked marks.old) file then text.now ∷ [] else [])) }
{
    if !is_left(file, marks) {
        return Ok(());
    }
    mark_file(file, marks);
    all.push(String::from_str(alloc, text)?)?;
    Ok(())
}
