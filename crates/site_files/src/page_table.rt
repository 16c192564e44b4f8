//! The pages of a site by their URLs.
ghost use Rattle.std.specs.Prelude.{◌≡◌, [], IfOk, IsSorted, length, option_map, slice_get};
ghost use Rattle.site_files.specs.Entries.{Finds, IsInOrder, IsOnce, cmp_urls, entry_at, file_in, file_with, is_again};
ghost use Rattle.site_files.specs.Pages.{found_file};

use crawl_keys::CanonUrl;
use std::alloc::{AllocError, Global};
use std::marker::Model;

/// What a server returns for a URL.
#[derive(Drop)]
pub(crate) enum Source {
    /// The file with this index among the names. The URL is the file's own, at which its links are followed.
    File(usize),
    /// The index file with this index among the names, if the URL is that of its name. Its own URL is that of its folder, if it has that.
    Index(usize),
    /// A redirect to this URL.
    Moved(String),
}

/// A page of a site.
#[derive(Drop)]
pub(crate) struct Entry {
    pub(crate) url: CanonUrl,
    pub(crate) source: Source,
}

/// Pages in the order of their URLs, each URL once.
#[derive(Drop)]
pub(crate) struct PageTable {
    entries: Vec<Entry>,
}

impl Model for PageTable {
    ghost use Rattle.std.specs.Prelude.{List};
    ghost use Rattle.std.specs.List.Sorted.{IsStrictlySortedBy};
    ghost use Rattle.site_files.specs.Entries.{cmp_urls};
    ghost use Rattle.site_files.specs.declared.page_table.Entry.{Entry};

    ghost Value = { List Entry };

    ghost view = { λ table. table.entries.items };

    ghost invariant = { λ table. IsStrictlySortedBy cmp_urls table.entries.items };
}

impl PageTable {
    /// No pages.
    #[tactic(auto, using(crate::proofs::Table::none_ascend))]
    pub(crate) fn empty(alloc: Global) -> PageTable
        ensures { result ≡ [] }
    {
        PageTable {
            entries: Vec::new(alloc),
        }
    }

    /// The first page with each URL. The others are added to `doubles`, in the order of their URLs.
    #[tactic(auto, using(crate::proofs::Table::once_in_order))]
    pub(crate) fn new(
        entries: Vec<Entry>,
        doubles: &mut Vec<Entry>,
    ) -> Result<PageTable, AllocError>
        ensures { IfOk result (IsOnce entries.items) }
    {
        let ordered = in_order(entries)?;
        let entries = first_of_each(ordered, doubles)?;
        Ok(PageTable { entries })
    }

    /// The number of pages.
    pub(crate) fn len(&self) -> usize
        ensures { result ≡ length self.now }
    {
        self.entries.len()
    }

    /// The page with this number.
    pub(crate) fn get(&self, number: usize) -> Option<&Entry>
        ensures { option_map (λ entry. entry.now) result ≡ slice_get self.now number }
    {
        self.entries.get(number)
    }

    /// The number of the page with this URL.
    pub(crate) fn find(&self, url: &str) -> Option<usize>
        ensures { Finds self.now url.now result }
    {
        self.entries
            .as_slice()
            .binary_search_by(|entry| entry.url.as_str().cmp(url))
            .ok()
    }

    /// The index of the file of the page with this URL, if there is such a page and it has a file.
    #[tactic(auto, using(crate::proofs::Table::file_there, crate::proofs::Table::no_file))]
    pub(crate) fn file_at(&self, url: &str) -> Option<usize>
        ensures { result ≡ found_file (entry_at self.now url.now) }
    {
        match self.find(url) {
            Some(number) => self.file(number),
            None => None,
        }
    }

    /// The index of the file of the page with this number.
    fn file(&self, number: usize) -> Option<usize>
        ensures { result ≡ file_with self.now number }
    {
        match self.get(number) {
            Some(entry) => file_in(&entry.source),
            None => None,
        }
    }
}

/// The pages in the order of their URLs. Of those with one URL, the first stays the first.
fn in_order(entries: Vec<Entry>) -> Result<Vec<Entry>, AllocError>
    ensures { IfOk result (λ ordered. IsInOrder entries.items ordered.items) }
{
    let mut ordered = entries;
    ordered.sort_by(|a: &Entry, b: &Entry| a.url.as_str().cmp(b.url.as_str()))?;
    Ok(ordered)
}

/// The first page with each URL, of pages in the order of their URLs. The others are added to `doubles`.
#[tactic(auto, using(crate::proofs::Table::kept_again, crate::proofs::Table::kept_next))]
fn first_of_each(entries: Vec<Entry>, doubles: &mut Vec<Entry>) -> Result<Vec<Entry>, AllocError>
    requires { IsSorted cmp_urls entries.items }
    ensures { IfOk result (λ kept. IsOnce entries.items kept.items) }
{
    let mut kept: Vec<Entry> = Vec::new(*entries.allocator());
    'entries: for entry in entries {
        if is_again(kept.as_slice(), &entry) {
            doubles.push(entry)?;
        } else {
            kept.push(entry)?;
        }
    }
    Ok(kept)
}

/// The index of the file among the names; a redirect has none.
pub(crate) fn file_in(source: &Source) -> Option<usize>
    ensures { result ≡ file_in source.now }
{
    match source {
        Source::File(index) => Some(*index),
        Source::Index(index) => Some(*index),
        Source::Moved(_) => None,
    }
}

/// Whether the last of the pages has the URL of this one.
#[tactic(auto, using(crate::proofs::Table::again_at))]
fn is_again(kept: &[Entry], entry: &Entry) -> bool
    ensures { result ≡ is_again kept.now entry.now }
{
    match kept.split_last() {
        Some((last, _)) => entry.url.as_str() == last.url.as_str(),
        None => false,
    }
}
