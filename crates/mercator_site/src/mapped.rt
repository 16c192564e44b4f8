//! The folders of maps: their files, and whether they have a page at a URL out of the site.
ghost use Rattle.std.specs.Prelude.{◌≡◌, ◌++◌, IfErr, IfOk, OnOk, false, map, nat_lt, length, string_bytes};
ghost use Rattle.mercator_site.specs.Errors.{is_unfinished};
ghost use Rattle.mercator_site.specs.Maps.{AreMapped, IsMapped, has_nearer, has_page, is_found_in, is_mapped, is_nearer, is_nearest, left_at, left_for, looked_up, names_of, unmapped};

use crate::error::FolderError;
use crate::maps::FolderMap;
use crate::own::begins;
use crate::start::has_page;
use crawl_keys::CanonUrl;
use crawl_pages::{Page, PageResult};
use shown_text::shown;
use site_check::{MapName, is_under};
use site_files::{FolderNames, Rules, SiteError, SiteFiles, SiteNames, folder_names};
use std::alloc::{AllocError, Global};
use std::fs::Files;
use std::thread::Threads;

/// The names in the folder of a map.
#[derive(Drop)]
pub(crate) struct MapNames<'a> {
    map: &'a FolderMap,
    names: FolderNames,
}

/// The folder of a map, by its files.
#[derive(Drop)]
pub struct MappedFolder<'a> {
    /// The prefix of the map, and the name of the folder.
    pub name: MapName<'a>,
    /// The files, at their URLs below the prefix.
    pub files: SiteFiles<'a>,
}

/// Reads the names in the folders of maps. Names that are skipped are not noted.
///
/// # Errors
/// `CannotReadMap` for the first folder that cannot be read; `NoMemory`.
pub(crate) fn map_names<'a, R: Files<File: Send, Dir: Send> + Threads + Sync>(
    rt: &R,
    alloc: Global,
    maps: &'a [FolderMap],
    rules: &Rules,
) -> Result<Vec<MapNames<'a>>, FolderError>
    ensures maps { IfOk result (λ all. map (λ one. one.map.now) all.items ≡ maps.now) }
    ensures plain { IfErr result (λ error. is_unfinished error ≡ false) }
{
    let mut all = Vec::new(alloc);
    for map in maps {
        let names = names_in(rt, alloc, map.folder.as_str(), rules)?;
        all.push(MapNames { map, names })?;
    }
    Ok(all)
}

/// Reads the names in a folder.
fn names_in<R: Files<File: Send, Dir: Send> + Threads + Sync>(
    rt: &R,
    alloc: Global,
    folder: &str,
    rules: &Rules,
) -> Result<FolderNames, FolderError>
    ensures { IfErr result (λ error. is_unfinished error ≡ false) }
{
    match folder_names(rt, alloc, folder, rules) {
        Ok(names) => Ok(names),
        Err(error) => Err(error_of(alloc, folder, error)?),
    }
}

/// The error for an error of the folder of a map.
fn error_of(alloc: Global, folder: &str, error: SiteError) -> Result<FolderError, AllocError>
    ensures { IfOk result (λ error. is_unfinished error ≡ false) }
{
    match error {
        SiteError::Io(_) => Ok(FolderError::CannotReadMap(shown(alloc, folder)?)),
        SiteError::NoFiles => Ok(FolderError::NoMapFiles(shown(alloc, folder)?)),
        _ => Ok(FolderError::from(error)),
    }
}

/// The folders with these names.
///
/// # Errors
/// `NoMapFiles` for the first folder without files; `NoMemory`.
#[tactic(auto, using(crate::proofs::FolderMaps::mapped_more))]
pub(crate) fn mapped_folders<'a>(
    alloc: Global,
    maps: &'a [MapNames<'a>],
    rules: &'a Rules,
) -> Result<Vec<MappedFolder<'a>>, FolderError>
    ensures mapped { IfOk result (λ all. AreMapped rules.now (map (λ one. one.map.now) maps.now) all.items) }
    ensures plain { IfErr result (λ error. is_unfinished error ≡ false) }
{
    let mut all = Vec::new(alloc);
    for one in maps {
        all.push(mapped_folder(alloc, one, rules)?)?;
    }
    Ok(all)
}

/// The folder with these names.
fn mapped_folder<'a>(
    alloc: Global,
    one: &'a MapNames<'a>,
    rules: &'a Rules,
) -> Result<MappedFolder<'a>, FolderError>
    ensures mapped { IfOk result (λ folder. IsMapped rules.now one.now.map.now folder) }
    ensures plain { IfErr result (λ error. is_unfinished error ≡ false) }
{
    let prefix = one.map.prefix.as_str();
    let folder = one.map.folder.as_str();
    match SiteFiles::new(alloc, site_names(&one.names, prefix, rules)) {
        Ok(files) => Ok(MappedFolder {
            name: MapName { prefix, folder },
            files,
        }),
        Err(error) => Err(error_of(alloc, folder, error)?),
    }
}

/// The names in a folder, as those of a site's files.
pub(crate) fn site_names<'a>(
    found: &'a FolderNames,
    base: &'a str,
    rules: &'a Rules,
) -> SiteNames<'a>
    ensures base { result.base.now ≡ base.now }
    ensures rules { result.rules.now ≡ rules.now }
{
    SiteNames {
        names: found.names.as_slice(),
        links: found.links.as_slice(),
        skipped: found.skipped.as_slice(),
        base,
        rules,
    }
}

/// The prefixes and the names of these folders.
///
/// # Errors
/// Out of memory.
pub(crate) fn names_of<'a>(
    alloc: Global,
    folders: &'a [MappedFolder<'a>],
) -> Result<Vec<MapName<'a>>, AllocError>
    ensures { IfOk result (λ names. names.items ≡ names_of folders.now) }
{
    let mut names = Vec::new(alloc);
    for folder in folders {
        names.push(folder.name)?;
    }
    Ok(names)
}

/// The missing results at whose URLs these folders have no page either, in order.
///
/// # Errors
/// Out of memory.
pub(crate) fn unmapped(
    alloc: Global,
    folders: &[MappedFolder<'_>],
    results: &[PageResult],
) -> Result<Vec<PageResult>, AllocError>
    ensures { IfOk result (λ left. left.items ≡ unmapped folders.now results.now) }
{
    let mut left = Vec::new(alloc);
    for one in results {
        push_left(alloc, folders, one, &mut left)?;
    }
    Ok(left)
}

/// Appends a result that is left.
fn push_left(
    alloc: Global,
    folders: &[MappedFolder<'_>],
    one: &PageResult,
    left: &mut Vec<PageResult>,
) -> Result<(), AllocError>
    ensures { OnOk result (left.new.items ≡ left.old.items ++ left_at folders.now one.now) }
{
    match &one.page {
        Page::Missing => push_missing(alloc, folders, &one.url, left),
        _ => Ok(()),
    }
}

/// Appends a missing result at a URL, unless these folders have a page there.
fn push_missing(
    alloc: Global,
    folders: &[MappedFolder<'_>],
    url: &CanonUrl,
    left: &mut Vec<PageResult>,
) -> Result<(), AllocError>
    ensures { OnOk result (left.new.items ≡ left.old.items ++ left_for folders.now url.now) }
{
    if is_mapped(alloc, folders, url)? {
        return Ok(());
    }
    left.push(PageResult {
        url: url.clone()?,
        page: Page::Missing,
    })?;
    Ok(())
}

/// Whether the folder whose prefix is the longest that a URL is under has a page there.
#[tactic(auto, using(std::proofs::lemmas::List::Folds::list_any_at, std::proofs::lemmas::List::Folds::list_any_more))]
fn is_mapped(
    alloc: Global,
    folders: &[MappedFolder<'_>],
    url: &CanonUrl,
) -> Result<bool, AllocError>
    ensures { IfOk result (λ is. is ≡ is_mapped folders.now url.now) }
{
    for folder in folders {
        if is_found_in(alloc, folders, url, folder)? {
            return Ok(true);
        }
    }
    Ok(false)
}

/// Whether a folder is the one with the longest prefix that a URL is under, and has a page there.
fn is_found_in(
    alloc: Global,
    folders: &[MappedFolder<'_>],
    url: &CanonUrl,
    folder: &MappedFolder<'_>,
) -> Result<bool, AllocError>
    ensures { IfOk result (λ is. is ≡ is_found_in folders.now url.now folder.now) }
{
    if !is_nearest(folders, url, folder) {
        return Ok(false);
    }
    has_page(alloc, &folder.files, looked_up(folder, url))
}

/// Whether a URL is that of a folder or below it, and of no folder with a longer prefix.
fn is_nearest(folders: &[MappedFolder<'_>], url: &CanonUrl, folder: &MappedFolder<'_>) -> bool
    ensures { result ≡ is_nearest folders.now url.now folder.now }
{
    is_under(url.as_str(), folder.name) && !has_nearer(folders, url, folder)
}

/// Whether a URL is that of a folder with a longer prefix than this one, or below it.
fn has_nearer(folders: &[MappedFolder<'_>], url: &CanonUrl, folder: &MappedFolder<'_>) -> bool
    ensures { result ≡ has_nearer folders.now url.now folder.now }
{
    folders.iter().any(|other| is_nearer(url, folder, other))
}

/// Whether a URL is that of a folder or below it, and its prefix is longer than that of another one.
fn is_nearer(url: &CanonUrl, other: &MappedFolder<'_>, folder: &MappedFolder<'_>) -> bool
    ensures { result ≡ is_nearer url.now other.now folder.now }
{
    is_under(url.as_str(), folder.name) && other.name.prefix.len() < folder.name.prefix.len()
}

/// The URL that is looked up in a folder for a URL: for that of the folder without its slash that of the folder.
fn looked_up<'u>(folder: &'u MappedFolder<'_>, url: &'u CanonUrl) -> &'u CanonUrl
    ensures { result.now ≡ looked_up folder.now url.now }
{
    if begins(folder.name.prefix, url) {
        url
    } else {
        folder.files.top_url()
    }
}
