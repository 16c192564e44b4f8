//! Reads files without a `base`: style sheets, feeds and lists of URLs.
ghost use Rattle.std.specs.Prelude.{◌≡◌, ◌++◌, true, IfOk, IsAscii, None, OnOk};
ghost use Rattle.html_links.specs.Links.{needed_texts};
ghost use Rattle.html_links.specs.Reads.{base_at};
ghost use Rattle.document_links.specs.LinkUrls.{HasNoBase};
ghost use Rattle.document_links.specs.Places.{Positions};
ghost use Rattle.document_links.specs.Encoding.{HasFeed, HasFile, HasFileLinks, HasFileTexts, HasSheet, HasUrlList, is_known, links_in};
ghost use Rattle.document_links.specs.Places.{keeps_ascii};

use crate::charset::{Charset, charset_of, named_in_sheet};
use crate::document::{Document, ReadOptions, utf8_text, written_links};
use crate::document_start::without_mark;
use crate::feed::push_feed_links;
use crate::raw_links::RawLinks;
use crate::root::add_root;
use crate::text_kind::TextKind;
use crate::unknown::keep_known;
use crate::url_list::push_url_lines;
use crawl_keys::CanonUrl;
use html_links::{Base, read_places, read_style};
use std::alloc::{AllocError, Global};

/// Reads the style sheet at a URL: the links in its `url()` and `@import`. It has no anchors, and its links to anchors are not kept.
/// `room` is memory for its links, which is reused.
///
/// # Errors
/// Out of memory.
pub fn read_style_sheet(
    alloc: Global,
    body: &[u8],
    url: &CanonUrl,
    options: ReadOptions<'_>,
    room: &mut RawLinks,
) -> Result<Document, AllocError>
    // For a sheet in a known encoding: one text for each link, in order.
    ensures { IfOk result (λ sheet. HasSheet options.entry body.now sheet.links) }
{
    let charset = charset_of(body, TextKind::StyleSheet);
    let encoding = unknown_encoding(alloc, body, charset)?;
    let mut sheet = links_in_charset(
        alloc,
        body,
        Reading {
            kind: TextKind::StyleSheet,
            charset,
        },
        url,
        options,
        room,
    )?;
    sheet.encoding = encoding;
    Ok(sheet)
}

/// The name of a style sheet's encoding, if that is not a known one.
fn unknown_encoding(
    alloc: Global,
    body: &[u8],
    charset: Charset,
) -> Result<Option<String>, AllocError> {
    match charset {
        Charset::Other => {
            let name = named_in_sheet(body).unwrap_or(&[]);
            Ok(Some(String::from_utf8_lossy(alloc, name)?))
        }
        _ => Ok(None),
    }
}

/// Reads the sitemap or feed at a URL: the links in certain of its elements, depending on the name of the root element. Other XML
/// has none. It has no anchors, and its links to anchors are not kept. `room` is memory for its links, which is reused.
///
/// # Errors
/// Out of memory.
pub fn read_feed(
    alloc: Global,
    body: &[u8],
    url: &CanonUrl,
    options: ReadOptions<'_>,
    room: &mut RawLinks,
) -> Result<Document, AllocError>
    // One text for each link, in order.
    ensures { IfOk result (λ feed. HasFeed options.entry body.now feed.links) }
{
    let charset = charset_of(body, TextKind::Feed);
    links_in_charset(
        alloc,
        body,
        Reading {
            kind: TextKind::Feed,
            charset,
        },
        url,
        options,
        room,
    )
}

/// Reads the list of URLs at a URL: each line that is not empty is a link. It has no anchors, and its links to anchors are not kept.
/// `room` is memory for its links, which is reused.
///
/// # Errors
/// Out of memory.
pub fn read_url_list(
    alloc: Global,
    body: &[u8],
    url: &CanonUrl,
    options: ReadOptions<'_>,
    room: &mut RawLinks,
) -> Result<Document, AllocError>
    // One text for each link, in order.
    ensures { IfOk result (λ list. HasUrlList options.entry body.now list.links) }
{
    let charset = charset_of(body, TextKind::UrlList);
    links_in_charset(
        alloc,
        body,
        Reading {
            kind: TextKind::UrlList,
            charset,
        },
        url,
        options,
        room,
    )
}

/// How a file is read.
#[derive(Clone, Copy)]
pub(crate) struct Reading {
    pub(crate) kind: TextKind,
    pub(crate) charset: Charset,
}

/// Reads a file without a `base` in its encoding.
fn links_in_charset(
    alloc: Global,
    body: &[u8],
    reading: Reading,
    url: &CanonUrl,
    options: ReadOptions<'_>,
    room: &mut RawLinks,
) -> Result<Document, AllocError>
    requires { IsAscii body.now → keeps_ascii reading.charset ≡ true }
    ensures { IfOk result (λ file. HasFileLinks reading.kind options.entry reading.charset body.now file.links) }
{
    match utf8_text(alloc, body, reading.charset)? {
        Some(text) => links_in_text(alloc, text.as_slice(), reading, url, options, room),
        None => links_in_text(alloc, without_mark(body), reading, url, options, room),
    }
}

/// Reads a file without a `base` in UTF-8, to which it was converted from its encoding.
fn links_in_text(
    alloc: Global,
    text: &[u8],
    reading: Reading,
    url: &CanonUrl,
    options: ReadOptions<'_>,
    raw: &mut RawLinks,
) -> Result<Document, AllocError>
    ensures { IfOk result (λ file. HasFileTexts reading.kind options.entry reading.charset text.now file.links) }
{
    raw.clear()?;
    find_links(alloc, text, reading, None, raw)?;
    let base = add_root(options.root, url, None, raw)?;
    // Queries are in UTF-8, whatever the encoding of the file is.
    let mut writer = written_links(alloc, Charset::Utf8, base, url, options, raw)?;
    Ok(Document::written(&mut writer))
}

/// Finds the known links in a text in UTF-8, to which a file of this kind was converted from its encoding. Returns its base, if that is
/// known. If only a number of links is needed, the base and the links after them may be missing. `text_places` finds the same links.
pub(crate) fn find_links(
    alloc: Global,
    text: &[u8],
    reading: Reading,
    needed: Option<usize>,
    raw: &mut RawLinks,
) -> Result<Base, AllocError>
    ensures texts { is_known reading.charset ≡ true → OnOk result (needed_texts needed raw.new.texts ≡ needed_texts needed (raw.old.texts ++ links_in reading.kind text.now)) }
    ensures positions { is_known reading.charset ≡ true → OnOk result (Positions reading.kind needed text.now raw.old.positions.items raw.new.positions.items) }
    ensures base { needed ≡ None → is_known reading.charset ≡ true → HasNoBase reading.kind text.now → IfOk result (λ base. base_at base ≡ None) }
{
    match reading.charset {
        // All links are read, since the unknown ones do not count.
        Charset::Other => {
            let base = push_links(alloc, text, reading.kind, None, raw)?;
            keep_known(base, raw)
        }
        _ => push_links(alloc, text, reading.kind, needed, raw),
    }
}

/// Appends the links in a text, and returns its base, which only a document can have. If only a number of links is needed, a
/// document is read until there are enough.
fn push_links(
    alloc: Global,
    text: &[u8],
    kind: TextKind,
    needed: Option<usize>,
    raw: &mut RawLinks,
) -> Result<Base, AllocError>
    ensures texts { OnOk result (needed_texts needed raw.new.texts ≡ needed_texts needed (raw.old.texts ++ links_in kind text.now)) }
    ensures positions { OnOk result (Positions kind needed text.now raw.old.positions.items raw.new.positions.items) }
    ensures base { needed ≡ None → HasNoBase kind text.now → IfOk result (λ base. base_at base ≡ None) }
{
    match kind {
        TextKind::Document { syntax, styles } => {
            read_places(alloc, syntax, text, styles, needed, raw)
        }
        TextKind::StyleSheet => {
            read_style(alloc, text, text.len(), raw)?;
            Ok(None)
        }
        TextKind::Feed => {
            push_feed_links(text, raw)?;
            Ok(None)
        }
        TextKind::UrlList => {
            push_url_lines(text, raw)?;
            Ok(None)
        }
    }
}
