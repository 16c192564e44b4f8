//! The own URLs of files: that of its folder for an index file, and that of its name for another one.
ghost use Rattle.std.specs.Prelude.{◌≡◌, ◌∷◌, [], IfErr, IfOk, option_map, option_to_list, string_bytes};
ghost use Rattle.site_files.specs.Entries.{response_of, server_at, texts};
ghost use Rattle.site_files.specs.Files.{IsOfUrl};
ghost use Rattle.site_files.specs.Own.{AreOwnNumbers, FindsOwn, is_file_at};
ghost use Rattle.site_files.specs.Pages.{folder_texts, index_text, is_found};
ghost use Rattle.site_files.specs.Server.{key_with, url_of};

use crate::error::SiteError;
use crate::page_table::{Entry, PageTable, Source};
use crate::pages::{ends_in_slash, folder_of};
use crate::rules::{Rules, split_name};
use crate::site::{Site, url_at};

/// For each name the number of the page at the URL of its folder, if that page is the file with this name. Of several such pages it is
/// that of the first index file in the rules.
pub(crate) fn own_numbers(
    site: &Site,
    pages: &PageTable,
    names: &[String],
    rules: &Rules,
) -> Result<Vec<Option<usize>>, SiteError>
    ensures error { IfErr result IsOfUrl }
    ensures own { IfOk result (λ own. AreOwnNumbers (server_at rules.now site.now) pages.now (texts names.now) own.items) }
{
    let mut own = Vec::new(*site.top.allocator());
    'names: for (index, name) in names.iter().enumerate() {
        own.push(own_number(site, pages, index, name.as_str(), rules)?)?;
    }
    Ok(own)
}

/// The number of the page at the URL of a file's folder, if that page is the file.
fn own_number(
    site: &Site,
    pages: &PageTable,
    index: usize,
    name: &str,
    rules: &Rules,
) -> Result<Option<usize>, SiteError>
    ensures error { IfErr result IsOfUrl }
    ensures own { IfOk result (FindsOwn pages.now index (folder_texts (server_at rules.now site.now) index name.now)) }
{
    'indices: for index_file in &rules.index_files {
        let number = folder_number(site, pages, index, name, index_file.as_str(), rules)?;
        if number.is_some() {
            return Ok(number);
        }
    }
    Ok(None)
}

/// The number of the page at the URL of a file's folder, if the file has the name of this index file and the page is the file.
fn folder_number(
    site: &Site,
    pages: &PageTable,
    index: usize,
    name: &str,
    index_file: &str,
    rules: &Rules,
) -> Result<Option<usize>, SiteError>
    ensures error { IfErr result IsOfUrl }
    ensures own { IfOk result (FindsOwn pages.now index (option_to_list (index_text (server_at rules.now site.now) index name.now index_file.now))) }
{
    if ends_in_slash(name.as_bytes()) {
        return Ok(None);
    }
    let (path, query) = split_name(name, rules.queries);
    match folder_of(path.as_bytes(), index_file.as_bytes()) {
        Some(folder) => page_number(site, pages, index, folder, query),
        None => Ok(None),
    }
}

/// The number of the page at the URL of a path, if that page is the file with this index.
#[tactic(auto, using(crate::proofs::OwnPages::own_here, crate::proofs::OwnPages::own_other, crate::proofs::OwnPages::own_missing))]
fn page_number(
    site: &Site,
    pages: &PageTable,
    index: usize,
    path: &[u8],
    query: Option<&str>,
) -> Result<Option<usize>, SiteError>
    ensures error { IfErr result IsOfUrl }
    ensures own { IfOk result (FindsOwn pages.now index (url_of (string_bytes site.now.top) (key_with (option_map (λ q. q.now) query.entry) path.now) ∷ [])) }
{
    let text = site.url_of(path, query)?;
    let url = url_at(*site.top.allocator(), text.as_str())?;
    let Some(number) = pages.find(url.as_str()) else {
        return Ok(None);
    };
    if is_file(pages, number, index) {
        Ok(Some(number))
    } else {
        Ok(None)
    }
}

/// Whether the page with this number is the file with this index.
fn is_file(pages: &PageTable, number: usize, index: usize) -> bool
    ensures { result ≡ is_file_at pages.now number index }
{
    match pages.get(number) {
        Some(entry) => is_of_file(entry, index),
        None => false,
    }
}

/// Whether a page is the file with this index.
fn is_of_file(entry: &Entry, index: usize) -> bool
    ensures { result ≡ is_found index (response_of entry.now.source) }
{
    match &entry.source {
        Source::File(file) | Source::Index(file) => *file == index,
        Source::Moved(_) => false,
    }
}
