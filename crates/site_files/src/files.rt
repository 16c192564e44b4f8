//! The file of each page of a site.
ghost use Rattle.std.specs.Prelude.{◌≡◌, IfErr, IfOk, true, length, slice_get, string_bytes, option_map};
ghost use Rattle.site_files.specs.Below.{IsTop};
ghost use Rattle.site_files.specs.Files.{IsOfFiles};
ghost use Rattle.site_files.specs.Entries.{Finds, IsTable, entry_at, texts};
ghost use Rattle.site_files.specs.Hints.{HasHomes};
ghost use Rattle.site_files.specs.Kinds.{is_page, is_read};
ghost use Rattle.site_files.specs.Links.{IsLinked};
ghost use Rattle.site_files.specs.Files.{IsOfNames, document_at, document_of, file_kind, has_file, kind_at, line_kind, moved_to, name_at, named_kind, page_file, page_of, pages_of, server_of, site_file, target_in, url_of};
ghost use Rattle.site_files.specs.Own.{HaveOwn, number_in, own_of, own_url_at};
ghost use Rattle.site_files.specs.Pages.{found_file};
ghost use Rattle.site_files.specs.Serving.{Serves, folder_with};
ghost use Rattle.site_files.specs.Skipped.{AreSkipped};

use crate::alias::{FolderLink, LinkedFolders};
use crate::error::SiteError;
use crate::kinds::{FileKind, is_page, kind_of};
use crate::notes::Note;
use crate::own_pages::own_numbers;
use crate::page_table::{Entry, PageTable, Source, file_in};
use crate::pages::ends_in_slash;
use crate::rules::{Rules, split_name};
use crate::site::Site;
use crate::site_list::ListedUrl;
use crate::skipped::{SkippedLink, SkippedLinks};
use crawl_keys::CanonUrl;
use std::alloc::{AllocError, Global};

/// The names of a site's files, the URL of its top, and the rules. A name that ends with a slash is a folder.
#[derive(Clone, Copy)]
pub struct SiteNames<'a> {
    pub names: &'a [String],
    /// The folders among them that are listed by another name.
    pub links: &'a [FolderLink],
    /// The symbolic links that are not among them, because they lead out of the folder or to nothing.
    pub skipped: &'a [SkippedLink],
    pub base: &'a str,
    pub rules: &'a Rules,
}

/// A file of a site.
#[derive(Clone, Copy)]
pub struct SiteFile<'a> {
    /// Its index among the names of the site.
    pub index: usize,
    pub name: &'a str,
    pub kind: FileKind,
}

impl SiteFile<'_> {
    /// Whether it is known to be a page: an HTML or XHTML document.
    pub fn is_page(&self) -> bool
        ensures { result ≡ is_page self.now.kind }
    {
        is_page(self.kind)
    }
}

/// The pages of a site by their URLs, and their files.
#[derive(Drop)]
pub struct SiteFiles<'a> {
    pub(crate) site: Site,
    pub(crate) pages: PageTable,
    /// The pages that folders have under other rules.
    pub(crate) homes: PageTable,
    /// For each name the number of the page at the URL of its folder, if that page is the file with this name.
    pub(crate) own: Vec<Option<usize>>,
    /// The folders to which symbolic links lead.
    pub(crate) linked: LinkedFolders,
    /// The symbolic links that are not followed.
    pub(crate) skipped: SkippedLinks,
    pub(crate) names: &'a [String],
    pub(crate) rules: &'a Rules,
    /// What the list of the site has, by the indices of names, if there is a list.
    pub(crate) listed: Option<&'a [ListedUrl]>,
    /// The notes about files and listed URLs without a page.
    pub(crate) notes: Vec<Note>,
}

impl<'a> SiteFiles<'a> {
    /// The pages and files of a site.
    ///
    /// # Errors
    /// `NoFiles` if no name is that of a file, which is tested first; `BadBase`; `NoMemory`.
    #[tactic(auto, using(crate::proofs::OwnPages::have_own, crate::proofs::Serving::serves_folder))]
    pub fn new(alloc: Global, input: SiteNames<'a>) -> Result<SiteFiles<'a>, SiteError>
        ensures error { IfErr result (IsOfFiles input.entry.names.now) }
        ensures files { IfOk result (λ _. has_file input.entry.names.now ≡ true) }
        ensures top { IfOk result (λ files. IsTop input.entry.base.now (string_bytes files.site.top)) }
        ensures names { IfOk result (IsOfNames input.entry.names.now input.entry.rules.now) }
        ensures url { IfOk result (λ files. files.site.top_url ≡ string_bytes files.site.top) }
        ensures table { IfOk result (λ files. IsTable (server_of files) (texts input.entry.names.now) files.pages) }
        ensures own { IfOk result (λ files. HaveOwn (server_of files) (texts input.entry.names.now) files.pages files.own.items) }
        ensures links { IfOk result (λ files. IsLinked (string_bytes files.site.top) input.entry.links.now files.linked) }
        ensures skipped { IfOk result (λ files. AreSkipped (string_bytes files.site.top) input.entry.skipped.now files.skipped) }
        ensures server { IfOk result (λ files. Serves (server_of files) (folder_with input.entry.names.now input.entry.links.now) files.pages files.linked) }
        ensures homes { IfOk result (λ files. HasHomes (server_of files) (texts input.entry.names.now) files.homes) }
    {
        let SiteNames {
            names,
            links,
            skipped,
            base,
            rules,
        } = input;
        if !has_file(names) {
            return Err(SiteError::NoFiles);
        }
        let site = Site::at(alloc, base)?;
        let mut notes = Vec::new(alloc);
        let pages = site.table(names, rules, &mut notes)?;
        let own = own_numbers(&site, &pages, names, rules)?;
        let linked = site.linked_folders(links)?;
        let skipped = site.skipped_links(skipped)?;
        let homes = site.homes(names, rules)?;
        Ok(SiteFiles {
            site,
            pages,
            homes,
            own,
            linked,
            skipped,
            names,
            rules,
            listed: None,
            notes,
        })
    }

    /// Adds the notes about the files and listed URLs without a page.
    pub fn copy_notes(&self, notes: &mut Vec<Note>) -> Result<(), AllocError> {
        for note in &self.notes {
            notes.push(note.copy()?)?;
        }
        Ok(())
    }

    /// The URL of the site's top.
    pub fn top(&self) -> &str
        ensures { result.now ≡ string_bytes self.now.site.top }
    {
        self.site.top.as_str()
    }

    /// The URL of the top as that of a page.
    pub fn top_url(&self) -> &CanonUrl
        ensures { result.now ≡ self.now.site.top_url }
    {
        &self.site.top_url
    }

    /// The scheme and the authority of all URLs.
    pub fn origin(&self) -> &str
        ensures { result.now ≡ string_bytes self.now.site.origin }
    {
        self.site.origin.as_str()
    }

    /// The number of pages, without other spellings and queries.
    pub fn page_count(&self) -> usize
        ensures { result ≡ length (pages_of self.now) }
    {
        self.pages.len()
    }

    /// The URL of a page, and the index of its file in the names, if it has one.
    pub fn page(&self, number: usize) -> Option<(&str, Option<usize>)>
        ensures { option_map (λ page. page_file page.0.now page.1) result ≡ slice_get (pages_of self.now) number }
    {
        match self.pages.get(number) {
            Some(entry) => Some(page_of(entry)),
            None => None,
        }
    }

    /// The URL of the page with this number.
    pub fn url(&self, number: usize) -> Option<&CanonUrl>
        ensures { option_map (λ url. url.now) result ≡ url_of self.now number }
    {
        match self.pages.get(number) {
            Some(entry) => Some(&entry.url),
            None => None,
        }
    }

    /// The own URL of the file of the page with this number, or `None` for a redirect.
    pub fn own_url(&self, number: usize) -> Option<&CanonUrl>
        ensures { option_map (λ url. url.now) result ≡ own_url_at self.now number }
    {
        match self.pages.get(number) {
            Some(entry) => self.own_url_of(entry),
            None => None,
        }
    }

    /// The own URL of the file of a page.
    fn own_url_of<'s>(&'s self, entry: &'s Entry) -> Option<&'s CanonUrl>
        ensures { option_map (λ url. url.now) result ≡ own_of self.now.pages self.now.own.items entry.now }
    {
        let file = file_in(&entry.source)?;
        match self.folder_number(file) {
            Some(number) => self.url(number),
            None => Some(&entry.url),
        }
    }

    /// The number of the page at the URL of the folder of the file with this index, if that page is the file.
    fn folder_number(&self, file: usize) -> Option<usize>
        ensures { result ≡ number_in self.now.own.items file }
    {
        match self.own.get(file) {
            Some(number) => *number,
            None => None,
        }
    }

    /// The file of the page with this number, if it has one that can have links. Without `Rules.styles`, a style sheet has none, and
    /// without `Rules.sniff`, neither has a file of unknown kind.
    pub fn document(&self, number: usize) -> Option<SiteFile<'a>>
        ensures { option_map (λ file. site_file file.index file.kind file.name.now) result ≡ document_at self.now number }
    {
        match self.page(number) {
            Some((_, Some(index))) => self.document_of(index),
            _ => None,
        }
    }

    /// The file with this index, if it can have links.
    pub(crate) fn document_of(&self, index: usize) -> Option<SiteFile<'a>>
        ensures { option_map (λ file. site_file file.index file.kind file.name.now) result ≡ document_of self.now index }
    {
        let name = self.name(index)?;
        let kind = self.kind_at(index, name)?;
        Some(SiteFile { index, name, kind })
    }

    /// The kind of the file with this index and name, if links of such a file are read.
    fn kind_at(&self, index: usize, name: &str) -> Option<FileKind>
        ensures { result ≡ kind_at self.now index name.now }
    {
        let kind = self.file_kind(index, name)?;
        if is_read(self.rules, kind) {
            Some(kind)
        } else {
            None
        }
    }

    /// The kind of the file with this index and name: by its type in the list or, without a list, by its name.
    fn file_kind(&self, index: usize, name: &str) -> Option<FileKind>
        ensures { result ≡ file_kind self.now.rules.now self.now.listed index name.now }
    {
        match self.listed {
            Some(urls) => line_kind(urls, index),
            None => named_kind(self.rules, name),
        }
    }

    /// The URL to which the page with this number is moved, without a query, if the page is a redirect.
    pub fn moved_to(&self, number: usize) -> Option<&str>
        ensures { option_map (λ target. target.now) result ≡ moved_to self.now number }
    {
        match self.pages.get(number) {
            Some(entry) => target_in(&entry.source),
            None => None,
        }
    }

    /// The page with this URL, by its number.
    pub fn find(&self, url: &str) -> Option<usize>
        ensures { Finds self.now.pages url.now result }
    {
        self.pages.find(url)
    }

    /// The number of names.
    pub fn name_count(&self) -> usize
        ensures { result ≡ length self.now.names.now }
    {
        self.names.len()
    }

    /// The name with this index.
    pub fn name(&self, index: usize) -> Option<&'a str>
        ensures { option_map (λ name. name.now) result ≡ name_at self.now index }
    {
        let names = self.names;
        match names.get(index) {
            Some(name) => Some(name.as_str()),
            None => None,
        }
    }

    /// The index of the file of the page at a URL, or `None`. Pages at other spellings or with a query are not found.
    pub fn file_of(&self, url: &str) -> Option<usize>
        ensures { result ≡ found_file (entry_at self.now.pages url.now) }
    {
        self.pages.file_at(url)
    }

    /// The rules by which the names become pages.
    pub fn rules(&self) -> &Rules
        ensures { result.now ≡ self.now.rules.now }
    {
        self.rules
    }

    /// The number of threads that make the pages.
    pub fn threads(&self) -> usize {
        self.rules.threads
    }
}

/// The kind of the file in the line with this index.
fn line_kind(urls: &[ListedUrl], index: usize) -> Option<FileKind>
    ensures { result ≡ line_kind urls.now index }
{
    match urls.get(index) {
        Some(one) => one.content.kind(),
        None => None,
    }
}

/// The kind of a file with this name.
fn named_kind(rules: &Rules, name: &str) -> Option<FileKind>
    ensures { result ≡ named_kind rules.now name.now }
{
    let (path, _) = split_name(name, rules.queries);
    kind_of(path.as_bytes())
}

/// Whether some name is that of a file.
fn has_file(names: &[String]) -> bool
    ensures { result ≡ has_file names.now }
{
    names.iter().any(|name| !ends_in_slash(name.as_bytes()))
}

/// Whether files of this kind are read.
fn is_read(rules: &Rules, kind: FileKind) -> bool
    ensures { result ≡ is_read rules.now kind }
{
    match kind {
        FileKind::Style => rules.styles,
        FileKind::Unknown => rules.sniff,
        _ => true,
    }
}

/// Returns the URL of a page and the index of its file among the names. A page that is a redirect has no file.
fn page_of(entry: &Entry) -> (&str, Option<usize>)
    ensures { page_file result.0.now result.1 ≡ page_of entry.now }
{
    (entry.url.as_str(), file_in(&entry.source))
}

/// The target of a redirect.
fn target_in(source: &Source) -> Option<&str>
    ensures { option_map (λ target. target.now) result ≡ target_in source.now }
{
    match source {
        Source::Moved(target) => Some(target.as_str()),
        _ => None,
    }
}
