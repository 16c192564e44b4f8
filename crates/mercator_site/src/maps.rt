//! Maps: each has a folder in which links are looked up that lead out of the site, and the URL of that folder.
ghost use Rattle.std.specs.Prelude.{◌≡◌, ◌++◌, ◌∷◌, ℕ, IfOk, List, Ok, OnOk, [], false, map, string_bytes};
ghost use Rattle.crawl_keys.specs.CanonicalText.{canonical, resolve};
ghost use Rattle.mercator_site.specs.Maps.{AreMapsAt, AreMapsOf, ends, folder_in, link_in, with_slash};
ghost use Rattle.mercator_site.specs.Seeds.{seed_link};
ghost use Rattle.site_files.specs.Below.{is_below};

use crate::own::begins;
use crate::seeds::seed_link;
use crawl_keys::{CanonUrl, KeyError, canonical, resolve};
use site_files::is_below;
use std::alloc::{AllocError, AllocFailed, Global};

/// A folder in which links are looked up that lead out of the site.
#[derive(Drop)]
pub struct FolderMap {
    /// The URL of the folder. It ends with a slash, is on the site's host, and is not below the site's top.
    pub prefix: CanonUrl,
    /// The name of the folder.
    pub folder: String,
}

/// Why texts are not those of maps.
#[derive(Clone, Copy, Debug, PartialEq, Eq)]
pub enum MapError {
    /// BASE is not an http or https URL.
    BadBase,
    /// A text is not `PREFIX=FOLDER`, or one of the two is empty.
    NotMap,
    /// A PREFIX is not a URL on the site's host, or has a query or a fragment.
    NotOnHost,
    /// A PREFIX is below the site's top.
    WithinSite,
    /// Two maps have the same PREFIX.
    Twice,
    /// An allocation failed.
    NoMemory,
}

impl From<AllocError> for MapError {
    fn from(_refused: AllocError) -> MapError {
        MapError::NoMemory
    }
}

impl<T: Drop> From<AllocFailed<T>> for MapError {
    fn from(_refused: AllocFailed<T>) -> MapError {
        MapError::NoMemory
    }
}

/// The maps of texts, each of which is `PREFIX=FOLDER`: a link on the top of the site at BASE, and the name of a folder. If the URL of
/// the site is not known (`rooted`), a path from the root is one from the top.
///
/// # Errors
/// `BadBase`; the error of the first text that has one: `NotMap`, `NotOnHost`, `WithinSite`, `Twice`; `NoMemory`.
pub fn read_maps(
    alloc: Global,
    base: &str,
    rooted: bool,
    texts: &[String],
) -> Result<Vec<FolderMap>, MapError>
    ensures { IfOk result (λ maps. AreMapsOf base.now rooted (map string_bytes texts.now) maps.items) }
{
    let url = url_of(alloc, base)?;
    let top = top_at(alloc, &url)?;
    maps_at(alloc, &top, rooted, texts)
}

/// The URL of this text.
fn url_of(alloc: Global, text: &str) -> Result<CanonUrl, MapError>
    ensures { IfOk result (λ url. canonical text.now ≡ Ok url) }
{
    match canonical(alloc, text) {
        Ok(url) => Ok(url),
        Err(KeyError::NoMemory) => Err(MapError::NoMemory),
        Err(_) => Err(MapError::BadBase),
    }
}

/// The URL of the top of the site at a URL.
fn top_at(alloc: Global, url: &CanonUrl) -> Result<CanonUrl, MapError>
    ensures { IfOk result (λ top. canonical (with_slash url.now) ≡ Ok top) }
{
    let text = with_slash(alloc, url.as_str())?;
    url_of(alloc, text.as_str())
}

/// The text with a slash at its end.
fn with_slash(alloc: Global, text: &str) -> Result<String, AllocError>
    ensures { IfOk result (λ slashed. string_bytes slashed ≡ with_slash text.now) }
{
    let mut slashed = String::from_str(alloc, text)?;
    if !ends(b"/", text.as_bytes()) {
        slashed.push_str("/")?;
    }
    Ok(slashed)
}

/// Whether the text ends with these bytes.
pub(crate) fn ends(back: &[u8], text: &[u8]) -> bool
    ensures { result ≡ ends back.now text.now }
{
    text.ends_with(back)
}

/// The maps of these texts, on a site with this top.
fn maps_at(
    alloc: Global,
    top: &CanonUrl,
    rooted: bool,
    texts: &[String],
) -> Result<Vec<FolderMap>, MapError>
    ensures { IfOk result (λ maps. AreMapsAt top.now rooted (map string_bytes texts.now) maps.items) }
{
    let mut maps = Vec::new(alloc);
    for text in texts {
        push_map(alloc, top, rooted, text.as_str(), &mut maps)?;
    }
    Ok(maps)
}

/// Appends the map of a text, which has another prefix than the maps before it.
fn push_map(
    alloc: Global,
    top: &CanonUrl,
    rooted: bool,
    text: &str,
    maps: &mut Vec<FolderMap>,
) -> Result<(), MapError>
    ensures { (texts : List (List ℕ)) → AreMapsAt top.now rooted texts maps.old.items → OnOk result (AreMapsAt top.now rooted (texts ++ text.now ∷ []) maps.new.items) }
{
    let map = map_of(alloc, top, rooted, text)?;
    if has_prefix(maps.as_slice(), &map.prefix) {
        return Err(MapError::Twice);
    }
    maps.push(map)?;
    Ok(())
}

/// Whether one of the maps has this prefix.
fn has_prefix(maps: &[FolderMap], prefix: &CanonUrl) -> bool {
    for map in maps {
        if map.prefix == *prefix {
            return true;
        }
    }
    false
}

/// The map of a text.
fn map_of(alloc: Global, top: &CanonUrl, rooted: bool, text: &str) -> Result<FolderMap, MapError>
    ensures prefix { IfOk result (λ map. resolve top.now (link_in rooted text.now) ≡ Ok map.prefix) }
    ensures folder { IfOk result (λ map. string_bytes map.folder ≡ folder_in text.now) }
    ensures outside { IfOk result (λ map. is_below top.now map.prefix ≡ false) }
{
    match text.split_once('=') {
        Some((link, folder)) => {
            let prefix = prefix_of(alloc, top, rooted, link)?;
            if folder.is_empty() {
                return Err(MapError::NotMap);
            }
            Ok(FolderMap {
                prefix,
                folder: String::from_str(alloc, folder)?,
            })
        }
        None => Err(MapError::NotMap),
    }
}

/// The prefix of a map with this link.
fn prefix_of(alloc: Global, top: &CanonUrl, rooted: bool, link: &str) -> Result<CanonUrl, MapError>
    ensures resolved { IfOk result (λ prefix. resolve top.now (seed_link rooted (with_slash link.now)) ≡ Ok prefix) }
    ensures outside { IfOk result (λ prefix. is_below top.now prefix ≡ false) }
{
    if link.is_empty() {
        return Err(MapError::NotMap);
    }
    if has_query(link.as_bytes()) {
        return Err(MapError::NotOnHost);
    }
    let slashed = with_slash(alloc, link)?;
    let from_top = seed_link(alloc, rooted, slashed.as_str())?;
    let prefix = resolved(alloc, top, from_top.as_str())?;
    if is_below(alloc, top.as_str(), &prefix)? {
        return Err(MapError::WithinSite);
    }
    Ok(prefix)
}

/// Whether a link has a query or a fragment.
fn has_query(link: &[u8]) -> bool {
    link.contains(&b'?') || link.contains(&b'#')
}

/// The URL of a link on the top, which must be on the top's host.
fn resolved(alloc: Global, top: &CanonUrl, link: &str) -> Result<CanonUrl, MapError>
    ensures { IfOk result (λ url. resolve top.now link.now ≡ Ok url) }
{
    let root = link_on(alloc, top, "/")?;
    let url = link_on(alloc, top, link)?;
    if begins(root.as_str(), &url) {
        Ok(url)
    } else {
        Err(MapError::NotOnHost)
    }
}

/// The URL of a link on the top.
fn link_on(alloc: Global, top: &CanonUrl, link: &str) -> Result<CanonUrl, MapError>
    ensures { IfOk result (λ url. resolve top.now link.now ≡ Ok url) }
{
    match resolve(alloc, top, link) {
        Ok(url) => Ok(url),
        Err(KeyError::NoMemory) => Err(MapError::NoMemory),
        Err(_) => Err(MapError::NotOnHost),
    }
}
