//! The pages of a site, by the names of its files.
ghost use Rattle.std.specs.Prelude.{◌≡◌, ◌++◌, ◌∷◌, ◌<◌, [], IfErr, IfOk, None, Ok, OnOk, filter_map, length, option_to_list, string_bytes, true, option_map};
ghost use Rattle.std.specs.List.{flat_map, list_any};
ghost use Rattle.site_files.specs.Entries.{Adds, IsTable, Lists, response_of, server_at, texts};
ghost use Rattle.site_files.specs.Files.{IsOfUrl};
ghost use Rattle.site_files.specs.Pages.{Found, ends_in_slash, folder_of, index_page, index_pages, moved_page, named_page, named_pages, page, pages};
ghost use Rattle.site_files.specs.Server.{key_with, url_of};

use crate::below::is_slash;
use crate::error::SiteError;
use crate::notes::{Left, Note};
use crate::page_table::{Entry, PageTable, Source};
use crate::rules::{Rules, split_name};
use crate::site::{Site, url_at};
use std::alloc::AllocError;

impl Site {
    /// The pages of files with these names, each URL once. Adds a note about each file that has no page because another file has its
    /// URL.
    pub(crate) fn table(
        &self,
        names: &[String],
        rules: &Rules,
        notes: &mut Vec<Note>,
    ) -> Result<PageTable, SiteError>
        ensures error { IfErr result IsOfUrl }
        ensures table { IfOk result (IsTable (server_at rules.now self.now) (texts names.now)) }
    {
        let mut doubles = Vec::new(*self.top.allocator());
        let pages = PageTable::new(self.pages(names, rules)?, &mut doubles)?;
        note_doubles(doubles.as_slice(), names, rules, notes)?;
        Ok(pages)
    }

    /// The pages of files with these names: at their names, at those of their folders, and those of folders without their slashes.
    fn pages(&self, names: &[String], rules: &Rules) -> Result<Vec<Entry>, SiteError>
        ensures error { IfErr result IsOfUrl }
        ensures pages { IfOk result (λ entries. Lists entries.items (pages (server_at rules.now self.now) (texts names.now))) }
    {
        // Lists in the order of names, which is nearly that of URLs, so little is left to sort.
        let mut entries = Vec::new(*self.top.allocator());
        self.push_files(names, rules, &mut entries)?;
        self.push_indices(names, rules, &mut entries)?;
        self.push_folders(names, &mut entries)?;
        Ok(entries)
    }

    /// Adds the page at the URL of each file's name.
    fn push_files(
        &self,
        names: &[String],
        rules: &Rules,
        entries: &mut Vec<Entry>,
    ) -> Result<(), SiteError>
        ensures error { IfErr result IsOfUrl }
        ensures pages { OnOk result (Adds entries.old.items entries.new.items (named_pages (server_at rules.now self.now) (texts names.now))) }
    {
        'names: for (index, name) in names.iter().enumerate() {
            self.push_file(index, name.as_str(), rules, entries)?;
        }
        Ok(())
    }

    /// Adds the page at the URL of a name, if that is the name of a file.
    fn push_file(
        &self,
        index: usize,
        name: &str,
        rules: &Rules,
        entries: &mut Vec<Entry>,
    ) -> Result<(), SiteError>
        ensures error { IfErr result IsOfUrl }
        ensures page { OnOk result (Adds entries.old.items entries.new.items (option_to_list (named_page (server_at rules.now self.now) index name.now))) }
    {
        if ends_in_slash(name.as_bytes()) {
            return Ok(());
        }
        let (path, query) = split_name(name, rules.queries);
        let source = name_source(path.as_bytes(), index, rules);
        self.push(path.as_bytes(), query, source, entries)
    }

    /// Adds the page at the URL of the folder of each index file.
    fn push_indices(
        &self,
        names: &[String],
        rules: &Rules,
        entries: &mut Vec<Entry>,
    ) -> Result<(), SiteError>
        ensures error { IfErr result IsOfUrl }
        ensures pages { OnOk result (Adds entries.old.items entries.new.items (flat_map (index_pages (server_at rules.now self.now) (texts names.now)) (texts rules.now.index_files.items))) }
    {
        'indices: for index_file in &rules.index_files {
            self.push_index_files(names, index_file.as_str(), rules, entries)?;
        }
        Ok(())
    }

    /// Adds the page at the URL of the folder of each file with this name.
    fn push_index_files(
        &self,
        names: &[String],
        index_file: &str,
        rules: &Rules,
        entries: &mut Vec<Entry>,
    ) -> Result<(), SiteError>
        ensures error { IfErr result IsOfUrl }
        ensures pages { OnOk result (Adds entries.old.items entries.new.items (index_pages (server_at rules.now self.now) (texts names.now) index_file.now)) }
    {
        'names: for (index, name) in names.iter().enumerate() {
            self.push_index(index, name.as_str(), index_file, rules, entries)?;
        }
        Ok(())
    }

    /// Adds the page at the URL of the folder of a file, if the file has this name.
    fn push_index(
        &self,
        index: usize,
        name: &str,
        index_file: &str,
        rules: &Rules,
        entries: &mut Vec<Entry>,
    ) -> Result<(), SiteError>
        ensures error { IfErr result IsOfUrl }
        ensures page { OnOk result (Adds entries.old.items entries.new.items (option_to_list (index_page (server_at rules.now self.now) index_file.now index name.now))) }
    {
        if ends_in_slash(name.as_bytes()) {
            return Ok(());
        }
        let (path, query) = split_name(name, rules.queries);
        match folder_of(path.as_bytes(), index_file.as_bytes()) {
            Some(folder) => self.push(folder, query, Source::File(index), entries),
            None => Ok(()),
        }
    }

    /// Adds the pages of folders without their slashes.
    fn push_folders(&self, names: &[String], entries: &mut Vec<Entry>) -> Result<(), SiteError>
        ensures error { IfErr result IsOfUrl }
        ensures pages { OnOk result (Adds entries.old.items entries.new.items (filter_map (moved_page (string_bytes self.now.top)) (texts names.now))) }
    {
        'names: for name in names {
            self.push_folder(name.as_bytes(), entries)?;
        }
        Ok(())
    }

    /// Adds the page of a folder without its slash, which is moved to the folder with it.
    fn push_folder(&self, name: &[u8], entries: &mut Vec<Entry>) -> Result<(), SiteError>
        ensures error { IfErr result IsOfUrl }
        ensures page { OnOk result (Adds entries.old.items entries.new.items (option_to_list (moved_page (string_bytes self.now.top) name.now))) }
    {
        if !ends_in_slash(name) {
            return Ok(());
        }
        let target = self.url_of(name, None)?;
        let folder = &name[..name.len() - 1];
        self.push(folder, None, Source::Moved(target), entries)
    }

    /// Adds the page at a path.
    pub(crate) fn push(
        &self,
        path: &[u8],
        query: Option<&str>,
        source: Source,
        entries: &mut Vec<Entry>,
    ) -> Result<(), SiteError>
        ensures error { IfErr result IsOfUrl }
        ensures page { OnOk result (Adds entries.old.items entries.new.items (page (url_of (string_bytes self.now.top) (key_with (option_map (λ q. q.now) query.entry) path.now)) (response_of source) ∷ [])) }
    {
        let url = self.url_of(path, query)?;
        add(url.as_str(), source, entries)
    }
}

/// What a server returns for the URL of a file's name, if the file has this index and path.
fn name_source(path: &[u8], index: usize, rules: &Rules) -> Source
    ensures { response_of result ≡ Found index }
{
    if is_index(path, rules) {
        Source::Index(index)
    } else {
        Source::File(index)
    }
}

/// Whether the file with this path is an index file.
fn is_index(path: &[u8], rules: &Rules) -> bool {
    rules
        .index_files
        .iter()
        .any(|name| folder_of(path, name.as_bytes()).is_some())
}

/// Appends a page at the canonical URL of this text.
fn add(url: &str, source: Source, entries: &mut Vec<Entry>) -> Result<(), SiteError>
    ensures error { IfErr result IsOfUrl }
    ensures page { OnOk result (Adds entries.old.items entries.new.items (page url.now (response_of source) ∷ [])) }
{
    let url = url_at(*entries.allocator(), url)?;
    entries.push(Entry { url, source })?;
    Ok(())
}

/// The folder of the file with this path, if the file has this name.
pub(crate) fn folder_of<'a>(path: &'a [u8], name: &[u8]) -> Option<&'a [u8]>
    ensures { option_map (λ folder. folder.now) result ≡ folder_of name.now path.entry.now }
{
    match path.strip_suffix(name) {
        Some(folder) if folder.is_empty() || ends_in_slash(folder) => Some(folder),
        _ => None,
    }
}

/// Whether a name is that of a folder.
pub(crate) fn ends_in_slash(name: &[u8]) -> bool
    ensures value { result ≡ ends_in_slash name.now }
    ensures some { result ≡ true → 0 < length name.now }
{
    if name.is_empty() {
        return false;
    }
    is_slash(name[name.len() - 1])
}

/// Adds a note about each file that has no page because another file has its URL. `doubles` are the pages that are left out.
fn note_doubles(
    doubles: &[Entry],
    names: &[String],
    rules: &Rules,
    notes: &mut Vec<Note>,
) -> Result<(), AllocError> {
    for double in doubles {
        note_double(double, names, rules, notes)?;
    }
    Ok(())
}

/// Adds a note about the file of a page that is left out, unless the page is that of a folder. Its file also has one at its name.
fn note_double(
    entry: &Entry,
    names: &[String],
    rules: &Rules,
    notes: &mut Vec<Note>,
) -> Result<(), AllocError> {
    if let Source::File(index) | Source::Index(index) = &entry.source
        && let Some(name) = names.get(*index)
        && !is_of_folder(&entry.source, name.as_str(), rules)
    {
        notes.push(Note {
            left: Left::SameUrl,
            place: name.clone()?,
        })?;
    }
    Ok(())
}

/// Whether the page of the file with this name is that of a folder.
fn is_of_folder(source: &Source, name: &str, rules: &Rules) -> bool {
    let (path, _) = split_name(name, rules.queries);
    matches!(source, Source::File(_)) && is_index(path.as_bytes(), rules)
}
