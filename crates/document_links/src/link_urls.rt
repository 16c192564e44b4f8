//! The locations of links in a file, and the URLs to which they lead.
ghost use Rattle.std.specs.Prelude.{◌≡◌, ◌∷◌, ℕ, List, [], true, All, IfOk, None, map, slice_index_or};
ghost use Rattle.std.specs.Result.{result_ok};
ghost use Rattle.crawl_keys.specs.CanonicalText.{resolve};
ghost use Rattle.html_links.specs.Reads.{base_at};
ghost use Rattle.document_links.specs.LinkUrls.{AreFileLinks, AreUrlsIn, AreUrlsOf, IsUrlOf, query_charset};
ghost use Rattle.document_links.specs.Places.{ArePlacesIn, IsAmong};
ghost use Rattle.document_links.specs.Written.{can_write, has_no_base};

use crate::charset::{Charset, charset_of};
use crate::document::utf8_text;
use crate::document_start::without_mark;
use crate::file_links::{Reading, find_links};
use crate::link_texts::LinkTexts;
use crate::link_writer::LinkWriter;
use crate::places::{TextPlace, needed_count, places_of};
use crate::raw_links::RawLinks;
use crate::root::add_root;
use crate::text_kind::TextKind;
use crawl_keys::{Base, CanonUrl};
use std::alloc::{AllocError, Global};

/// The page of a file, from which its links lead.
#[derive(Clone, Copy)]
pub struct LinkPage<'a> {
    /// Its URL.
    pub url: &'a CanonUrl,
    /// The path of the site's top, as in `ReadOptions`.
    pub root: Option<&'a str>,
    /// Whether a document's `base` counts. If not, a document is read only up to the last link that is needed.
    pub base: bool,
}

/// Links of a file.
#[derive(Drop)]
pub struct FileLinks {
    pub places: Vec<TextPlace>,
    /// The URL to which each link leads, if it has a canonical URL.
    pub urls: Vec<Option<CanonUrl>>,
}

/// Finds the links with these indices among the links of a file, in the order of the indices. `text_places` finds the same locations, and
/// `read_document`, `read_style_sheet`, `read_feed` and `read_url_list` read links with the same URLs.
///
/// # Errors
/// Out of memory.
pub fn indexed_links(
    alloc: Global,
    body: &[u8],
    kind: TextKind,
    page: LinkPage<'_>,
    indices: &[usize],
) -> Result<FileLinks, AllocError>
    ensures { IfOk result (λ links. AreFileLinks page.entry.root page.entry.url.now kind body.now indices.now links.places.items links.urls.items) }
{
    let charset = charset_of(body, kind);
    let reading = Reading { kind, charset };
    match utf8_text(alloc, body, charset)? {
        Some(text) => links_in(alloc, text.as_slice(), reading, page, indices),
        None => links_in(alloc, without_mark(body), reading, page, indices),
    }
}

/// Finds links in a text in UTF-8, to which it was converted from its encoding.
fn links_in(
    alloc: Global,
    text: &[u8],
    reading: Reading,
    page: LinkPage<'_>,
    indices: &[usize],
) -> Result<FileLinks, AllocError>
    ensures located { IfOk result (λ links. ArePlacesIn reading.kind reading.charset text.now indices.now links.places.items) }
    ensures lead { IfOk result (λ links. AreUrlsIn page.entry.root page.entry.url.now reading.kind reading.charset text.now indices.now links.urls.items) }
{
    let mut raw = RawLinks::new(alloc);
    let needed = needed_links(page.base, indices);
    let found = find_links(alloc, text, reading, needed, &mut raw)?;
    let places = places_of(alloc, text, &raw, indices)?;
    let counted = base_if(page.base, found);
    let mut own = links_of(&raw, indices)?;
    let rooted = add_root(page.root, page.url, counted, &mut own)?;
    let charset = query_charset(reading.kind, reading.charset);
    let mut writer = LinkWriter::new(alloc, charset, rooted, page.url)?;
    let from = Base::new(alloc, page.url)?;
    let urls = urls_of(alloc, &mut writer, &from, &own)?;
    Ok(FileLinks { places, urls })
}

/// The number of links that are read: up to the last of those with these indices, or `None`, for all, if the base is needed.
fn needed_links(base: bool, indices: &[usize]) -> Option<usize>
    ensures among { All (IsAmong result) indices.now }
    ensures all { base ≡ true → result ≡ None }
{
    if base { None } else { needed_count(indices) }
}

/// The base, if it counts.
fn base_if(counts: bool, base: html_links::Base) -> html_links::Base
    ensures { (counts ≡ true → base_at base ≡ None) → base_at result ≡ None }
{
    if counts { base } else { None }
}

/// The links with these indices; an empty text if there is none.
fn links_of(raw: &RawLinks, indices: &[usize]) -> Result<RawLinks, AllocError>
    ensures { IfOk result (λ own. own.texts ≡ map (λ index. slice_index_or raw.now.texts index []) indices.now) }
{
    let mut own = RawLinks::new(raw.allocator());
    for index in indices {
        own.push_at(raw.position(*index), raw.text_or_empty(*index))?;
    }
    Ok(own)
}

/// The encoding of the queries of links: that of a document, and otherwise UTF-8.
fn query_charset(kind: TextKind, charset: Charset) -> Charset
    ensures { result ≡ query_charset kind charset }
{
    match kind {
        TextKind::Document { .. } => charset,
        TextKind::StyleSheet | TextKind::Feed | TextKind::UrlList => Charset::Utf8,
    }
}

/// The URLs of these links on a page, as this writer writes their texts.
fn urls_of(
    alloc: Global,
    writer: &mut LinkWriter,
    page: &Base,
    raw: &RawLinks,
) -> Result<Vec<Option<CanonUrl>>, AllocError>
    ensures { has_no_base writer.old.base ≡ true → writer.old.links ≡ [] → IfOk result (λ urls. AreUrlsOf writer.old.charset page.now raw.now.texts urls.items) }
{
    let mut urls = Vec::new(alloc);
    for index in 0..raw.len() {
        let url = url_of(alloc, writer, page, raw.text(index))?;
        urls.push(url)?;
    }
    Ok(urls)
}

/// The URL of a link on a page, as this writer writes its text.
fn url_of(
    alloc: Global,
    writer: &mut LinkWriter,
    page: &Base,
    text: &[u8],
) -> Result<Option<CanonUrl>, AllocError>
    ensures base { writer.new.base ≡ writer.old.base }
    ensures charset { writer.new.charset ≡ writer.old.charset }
    ensures links { IfOk result (λ _. writer.new.links ≡ []) }
    ensures url { has_no_base writer.old.base ≡ true → writer.old.links ≡ [] → IfOk result (λ url. IsUrlOf (can_write writer.old.charset text.now) page.now text.now url) }
{
    let texts = writer.texts_of(text)?;
    url_of_one(alloc, page, &texts)
}

/// The URL on a page of the only one of these texts. `None` if there is another number of texts.
#[tactic(auto, using(crate::proofs::Leading::only_text))]
fn url_of_one(alloc: Global, page: &Base, texts: &LinkTexts) -> Result<Option<CanonUrl>, AllocError>
    ensures { (text : List ℕ) → texts.now ≡ text ∷ [] → IfOk result (λ url. url ≡ result_ok (resolve page.now text)) }
{
    if texts.len() == 1 {
        page.link(alloc, texts.text(0))
    } else {
        Ok(None)
    }
}
