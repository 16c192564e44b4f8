//! The pages of a site that a list has.
ghost use Rattle.std.specs.Prelude.{◌≡◌, [], true, IfErr, IfOk, string_bytes};
ghost use Rattle.site_files.specs.Below.{IsTop, begins};
ghost use Rattle.site_files.specs.Entries.{response_of, texts};
ghost use Rattle.site_files.specs.Files.{IsOfList, IsOfListed, has_own};
ghost use Rattle.site_files.specs.Links.{IsLinked};
ghost use Rattle.site_files.specs.Listed.{HasListed, IsListed, content_response, name_of};

use crate::error::SiteError;
use crate::files::SiteFiles;
use crate::notes::{Left, Note};
use crate::page_table::{Entry, PageTable, Source};
use crate::rules::Rules;
use crate::site::Site;
use crate::site_list::{Content, ListedUrl, SiteList};
use crawl_keys::CanonUrl;
use std::alloc::{AllocError, Global};

impl<'a> SiteFiles<'a> {
    /// The pages of a site that a list has: its URLs below the top. Of several lines with one URL the first counts. Of the rules only
    /// `exact` says what a URL leads to: without it, another spelling of a listed URL leads to its page.
    ///
    /// # Errors
    /// `BadBase`; `NoneListed` if no URL is below the top; `NoMemory`.
    pub fn listed(
        alloc: Global,
        list: &'a SiteList,
        base: &str,
        rules: &'a Rules,
    ) -> Result<SiteFiles<'a>, SiteError>
        ensures error { IfErr result (IsOfListed base.now list.now.urls.items) }
        ensures some { IfOk result (λ files. has_own (string_bytes files.site.top) list.now.urls.items ≡ true) }
        ensures top { IfOk result (λ files. IsTop base.now (string_bytes files.site.top)) }
        ensures url { IfOk result (λ files. files.site.top_url ≡ string_bytes files.site.top) }
        ensures list { IfOk result (IsOfList list.now rules.now) }
        ensures pages { IfOk result (λ files. IsListed (string_bytes files.site.top) list.now.urls.items (texts list.now.names.items) files.pages) }
        ensures links { IfOk result (λ files. IsLinked (string_bytes files.site.top) [] files.linked) }
    {
        let site = Site::at(alloc, base)?;
        let urls = list.urls.as_slice();
        let names = list.names.as_slice();
        if !has_own(site.top.as_str(), urls) {
            return Err(SiteError::NoneListed);
        }
        let mut notes = Vec::new(alloc);
        let pages = site.listed(urls, names, &mut notes)?;
        let linked = site.linked_folders(&[])?;
        let skipped = site.skipped_links(&[])?;
        Ok(SiteFiles {
            site,
            pages,
            homes: PageTable::empty(alloc),
            own: Vec::new(alloc),
            linked,
            skipped,
            names,
            rules,
            listed: Some(urls),
            notes,
        })
    }
}

impl Site {
    /// The pages of the listed URLs below the top, each URL once. Adds notes about the lines that have no page.
    #[tactic(auto, using(crate::proofs::ListedPages::listed_once))]
    fn listed(
        &self,
        urls: &[ListedUrl],
        names: &[String],
        notes: &mut Vec<Note>,
    ) -> Result<PageTable, AllocError>
        ensures { IfOk result (IsListed (string_bytes self.now.top) urls.now (texts names.now)) }
    {
        let alloc = *self.top.allocator();
        let entries = entries_below(alloc, self.top.as_str(), urls, names)?;
        note_others(&self.top_url, urls.len(), entries.len(), notes)?;
        let mut doubles = Vec::new(alloc);
        let pages = PageTable::new(entries, &mut doubles)?;
        note_repeated(doubles.as_slice(), notes)?;
        Ok(pages)
    }
}

/// The pages of the listed URLs below the top, in the order of the lines.
#[tactic(auto, using(crate::proofs::ListedPages::nothing_yet, crate::proofs::ListedPages::line_listed, crate::proofs::ListedPages::line_left_out, crate::proofs::ListedPages::all_listed))]
fn entries_below(
    alloc: Global,
    top: &str,
    urls: &[ListedUrl],
    names: &[String],
) -> Result<Vec<Entry>, AllocError>
    ensures { IfOk result (λ entries. HasListed top.now urls.now (texts names.now) entries.items) }
{
    let mut entries = Vec::new(alloc);
    'urls: for (index, one) in urls.iter().enumerate() {
        if is_below(top, &one.url) {
            let url = one.url.clone()?;
            let source = source_of(alloc, index, one.content, names)?;
            entries.push(Entry { url, source })?;
        }
    }
    Ok(entries)
}

/// Whether some listed URL is below the top.
fn has_own(top: &str, urls: &[ListedUrl]) -> bool
    ensures { result ≡ has_own top.now urls.now }
{
    urls.iter().any(|one| is_below(top, &one.url))
}

/// Whether a URL begins with the top.
fn is_below(top: &str, url: &CanonUrl) -> bool
    ensures { result ≡ begins top.now url.now }
{
    url.as_str().as_bytes().starts_with(top.as_bytes())
}

/// What the line with this index has for its URL.
fn source_of(
    alloc: Global,
    index: usize,
    content: Content,
    names: &[String],
) -> Result<Source, AllocError>
    ensures { IfOk result (λ source. response_of source ≡ content_response (texts names.now) index content) }
{
    match content {
        Content::File(_) => Ok(Source::File(index)),
        Content::Redirect => {
            let target = String::from_str(alloc, name_at(names, index))?;
            Ok(Source::Moved(target))
        }
    }
}

/// The name in the line with this index.
fn name_at(names: &[String], index: usize) -> &str
    ensures { result.now ≡ name_of (texts names.now) index }
{
    match names.get(index) {
        Some(name) => name.as_str(),
        None => "",
    }
}

/// Adds a note about each line whose URL an earlier line has. `doubles` are the pages of these lines.
fn note_repeated(doubles: &[Entry], notes: &mut Vec<Note>) -> Result<(), AllocError> {
    for double in doubles {
        let note = Note::at(*notes.allocator(), Left::ListedTwice, &double.url)?;
        notes.push(note)?;
    }
    Ok(())
}

/// Adds a note about the number of listed URLs that are not below the top.
fn note_others(
    top: &CanonUrl,
    all: usize,
    below: usize,
    notes: &mut Vec<Note>,
) -> Result<(), AllocError> {
    let others = all.saturating_sub(below);
    if others > 0 {
        notes.push(Note::at(*notes.allocator(), Left::Elsewhere(others), top)?)?;
    }
    Ok(())
}
