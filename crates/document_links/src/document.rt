//! Reads a document.
ghost use Rattle.std.specs.Prelude.{◌≡◌, ◌++◌, [], true, IfOk, OnOk, IfSome, IsAscii, IsSomeAnd, MatchOption, None};
ghost use Rattle.std.specs.Str.Lossy.{utf8_lossy};
ghost use Rattle.html_links.specs.Links.{base_of, ids_of, links_of};
ghost use Rattle.html_links.specs.Reads.{base_at};
ghost use Rattle.document_links.specs.Encoding.{HasLinkTexts, HasTexts, IsTextIn, is_known, text_in};
ghost use Rattle.document_links.specs.KeptAnchors.{HasAnchors, IsRead, IsReadIn};
ghost use Rattle.document_links.specs.Keeping.{AreKept};
ghost use Rattle.document_links.specs.Places.{keeps_ascii};
ghost use Rattle.document_links.specs.Written.{AreWritten, has_no_base};

use crate::anchor_targets::{AnchorTargets, anchors_of};
use crate::charset::{Charset, charset_of, from_utf16, from_windows};
use crate::document_start::{start_of, without_mark};
use crate::link_texts::LinkTexts;
use crate::link_writer::LinkWriter;
use crate::positions::InvalidLink;
use crate::prescan::declared;
use crate::raw_links::{RawIds, RawLinks};
use crate::root::add_root;
use crate::text_kind::TextKind;
use crate::unknown::{ascii_text, has_unknown, keep_known};
use crawl_keys::CanonUrl;
use html_links::{Base, Syntax, read_page, read_places};
use std::alloc::{AllocError, Global};

/// Which parts of a document are read, and how.
#[derive(Clone, Copy)]
pub struct ReadOptions<'a> {
    /// The syntax of the document.
    pub syntax: Syntax,
    /// Whether `url()` and `@import` in `style` elements and attributes are links.
    pub styles: bool,
    /// The path of the site's top, which ends with a slash, if links and a `base` that begin with one slash lead below the top.
    /// This is so in a folder whose URL is not known.
    pub root: Option<&'a str>,
    /// Whether anchors and links to anchors are read.
    pub anchors: bool,
    /// Whether the indices of links and the invalid links are kept.
    pub places: bool,
    /// The number of bytes of link texts after which no more links are read.
    pub byte_limit: usize,
}

impl ReadOptions<'_> {
    /// The kind of a document that is read with these options.
    fn kind(self) -> TextKind
        ensures { result ≡ TextKind.Document self.entry.syntax self.entry.styles }
    {
        TextKind::Document {
            syntax: self.syntax,
            styles: self.styles,
        }
    }
}

/// What was read of a document.
#[derive(Drop)]
pub struct Document {
    pub links: LinkTexts,
    /// Whether a link was skipped because it is too long.
    pub has_skipped: bool,
    /// Its anchors, if the options ask for them and they are known.
    pub anchors: Option<AnchorTargets>,
    /// The indices of the links with a canonical URL among all its links, if the options ask for them.
    pub positions: Vec<u32>,
    /// Its invalid links, if the options ask for indices.
    pub invalid: Vec<InvalidLink>,
    /// The name of its encoding, if that is not a known one.
    pub encoding: Option<String>,
}

impl Document {
    /// Returns a document without links.
    pub fn empty(alloc: Global) -> Document
        ensures { result.links ≡ [] }
    {
        Document {
            links: LinkTexts::new(alloc),
            has_skipped: false,
            anchors: None,
            positions: Vec::new(alloc),
            invalid: Vec::new(alloc),
            encoding: None,
        }
    }

    /// Returns the document with the links of the writer, without anchors.
    pub(crate) fn written(writer: &mut LinkWriter) -> Document
        ensures links { result.links ≡ writer.old.links }
        ensures base { writer.new.base ≡ writer.old.base }
        ensures charset { writer.new.charset ≡ writer.old.charset }
        ensures left { writer.new.links ≡ [] }
    {
        let links = writer.take_links();
        let (positions, invalid) = writer.take_positions();
        Document {
            links,
            has_skipped: writer.has_skipped,
            anchors: None,
            positions,
            invalid,
            encoding: None,
        }
    }
}

/// Reads the document at a URL. `room` is memory for its links, which is reused.
///
/// # Errors
/// Out of memory.
#[tactic(auto, using(crate::proofs::Encoded::of_kind))]
pub fn read_document(
    alloc: Global,
    body: &[u8],
    url: &CanonUrl,
    options: ReadOptions<'_>,
    room: &mut RawLinks,
) -> Result<Document, AllocError>
    // For a document in a known encoding without a `base`: the texts of each link, in order. If there is a root, paths that begin with one
    // slash are below it.
    ensures links { IfOk result (λ document. HasLinkTexts options.entry body.now document.links) }

    // The same text has the anchors.
    ensures read { IfOk result (λ document. IsRead options.entry url.now body.now document.links document.anchors) }
{
    let charset = charset_of(body, options.kind());
    let encoding = unknown_encoding(alloc, body, charset)?;
    let mut document = document_in(alloc, body, charset, url, options, room)?;
    document.encoding = encoding;
    Ok(document)
}

/// Reads a document in this encoding.
fn document_in(
    alloc: Global,
    body: &[u8],
    charset: Charset,
    url: &CanonUrl,
    options: ReadOptions<'_>,
    room: &mut RawLinks,
) -> Result<Document, AllocError>
    requires { IsAscii body.now → keeps_ascii charset ≡ true }
    ensures { IfOk result (λ document. IsReadIn options.entry charset url.now body.now document.links document.anchors) }
{
    match utf8_text(alloc, body, charset)? {
        Some(text) => text_document(alloc, text.as_slice(), charset, url, options, room),
        None => text_document(alloc, without_mark(body), charset, url, options, room),
    }
}

/// The name of a document's encoding, if that is not a known one.
fn unknown_encoding(
    alloc: Global,
    body: &[u8],
    charset: Charset,
) -> Result<Option<String>, AllocError> {
    match charset {
        Charset::Other => {
            let name = declared(start_of(body)).unwrap_or(&[]);
            Ok(Some(String::from_utf8_lossy(alloc, name)?))
        }
        _ => Ok(None),
    }
}

/// Reads a document in UTF-8. `charset` is its original encoding.
fn text_document(
    alloc: Global,
    text: &[u8],
    charset: Charset,
    url: &CanonUrl,
    options: ReadOptions<'_>,
    raw: &mut RawLinks,
) -> Result<Document, AllocError>
    ensures links { IfOk result (λ document. HasTexts options.entry charset text.now document.links) }
    ensures anchors { IfOk result (λ document. HasAnchors options.entry charset url.now text.now document.anchors) }
{
    let mut ids = RawIds::new(alloc);
    raw.clear()?;
    let found = read_known(alloc, text, charset, options, raw, &mut ids)?;
    let base = add_root(options.root, url, found, raw)?;
    // The base also applies to links before it, so all links are found first.
    let writer = written_links(alloc, charset, base, url, options, raw)?;
    // The clause is about the document, so it is taken out of the result for the prover.
    let document = document_of(options, charset, &ids, raw, writer, url)?;
    Ok(document)
}

/// The document with the links of the writer, and with its anchors if the options ask for them.
fn document_of(
    options: ReadOptions<'_>,
    charset: Charset,
    ids: &RawIds,
    raw: &RawLinks,
    mut writer: LinkWriter,
    url: &CanonUrl,
) -> Result<Document, AllocError>
    ensures links { IfOk result (λ document. document.links ≡ writer.links) }
    ensures anchors { is_known charset ≡ true → options.entry.anchors ≡ true → IfOk result (λ document. IsSomeAnd document.anchors (AreKept writer.base writer.charset url.now ids.now.ids raw.now.texts)) }
{
    let mut document = Document::written(&mut writer);
    if !options.anchors {
        return Ok(document);
    }
    let anchors = known_anchors(charset, ids, raw, writer, url)?;
    document.anchors = anchors;
    Ok(document)
}

/// The anchors of a document, if all its ids are known. Otherwise no link to an anchor is known to be broken.
fn known_anchors(
    charset: Charset,
    ids: &RawIds,
    raw: &RawLinks,
    writer: LinkWriter,
    url: &CanonUrl,
) -> Result<Option<AnchorTargets>, AllocError>
    requires { writer.links ≡ [] }
    ensures { is_known charset ≡ true → IfOk result (λ anchors. IsSomeAnd anchors (AreKept writer.base writer.charset url.now ids.now.ids raw.now.texts)) }
{
    match charset {
        Charset::Other if has_unknown(&ids.ids) => Ok(None),
        _ => {
            let anchors = anchors_of(raw.allocator(), &ids.ids, raw, writer, url)?;
            Ok(Some(anchors))
        }
    }
}

/// Writes the texts of these links of a page with this base.
pub(crate) fn written_links(
    alloc: Global,
    charset: Charset,
    base: Base,
    url: &CanonUrl,
    options: ReadOptions<'_>,
    raw: &RawLinks,
) -> Result<LinkWriter, AllocError>
    ensures texts { base_at base ≡ None → IfOk result (λ writer. AreWritten charset [] raw.now.texts writer.links options.entry.byte_limit) }
    ensures unbased { base_at base ≡ None → IfOk result (λ writer. has_no_base writer.base ≡ true) }
    ensures charset { IfOk result (λ writer. writer.charset ≡ charset) }
{
    let mut writer = LinkWriter::new(alloc, charset, base, url)?;
    writer.make_room(url, raw, options.places)?;
    writer.push_all(raw, options.byte_limit)?;
    Ok(writer)
}

/// Finds the known links of a document, and its known ids if the options ask for anchors.
fn read_known(
    alloc: Global,
    text: &[u8],
    charset: Charset,
    options: ReadOptions<'_>,
    raw: &mut RawLinks,
    ids: &mut RawIds,
) -> Result<Base, AllocError>
    ensures links { is_known charset ≡ true → OnOk result (raw.new.texts ≡ raw.old.texts ++ links_of options.entry.styles options.entry.syntax text.now) }
    ensures ids { options.entry.anchors ≡ true → OnOk result (ids.new.ids ≡ ids.old.ids ++ ids_of options.entry.syntax text.now) }
    ensures base { is_known charset ≡ true → IfOk result (λ base. base_at base ≡ base_of options.entry.syntax text.now) }
{
    let base = read_all(alloc, text, options, raw, ids)?;
    match charset {
        Charset::Other => keep_known(base, raw),
        _ => Ok(base),
    }
}

/// Finds the links of a document, and its ids if the options ask for anchors.
fn read_all(
    alloc: Global,
    text: &[u8],
    options: ReadOptions<'_>,
    raw: &mut RawLinks,
    ids: &mut RawIds,
) -> Result<Base, AllocError>
    ensures links { OnOk result (raw.new.texts ≡ raw.old.texts ++ links_of options.entry.styles options.entry.syntax text.now) }
    ensures ids { options.entry.anchors ≡ true → OnOk result (ids.new.ids ≡ ids.old.ids ++ ids_of options.entry.syntax text.now) }
    ensures base { IfOk result (λ base. base_at base ≡ base_of options.entry.syntax text.now) }
{
    if options.anchors {
        read_page(alloc, options.syntax, text, options.styles, raw, ids)
    } else {
        read_places(alloc, options.syntax, text, options.styles, None, raw)
    }
}

/// The text of a document in UTF-8, or `None` if it is the document itself without its byte order mark.
pub(crate) fn utf8_text(
    alloc: Global,
    body: &[u8],
    charset: Charset,
) -> Result<Option<Vec<u8>>, AllocError>
    ensures ascii { IsAscii body.now → keeps_ascii charset ≡ true → IfOk result (λ new. IfSome new (λ text. text.items ≡ body.now)) }
    ensures text { IfOk result (λ new. IsTextIn charset body.now (text_in body.now new)) }
{
    match charset {
        Charset::Utf8 => with_replacements(alloc, without_mark(body)),
        Charset::Utf16Le | Charset::Utf16Be => {
            let text = from_utf16(alloc, body, charset == Charset::Utf16Le)?;
            Ok(Some(text))
        }
        Charset::Windows1252 => {
            let text = from_windows(alloc, body)?;
            Ok(Some(text))
        }
        Charset::Other => {
            let text = ascii_text(alloc, body)?;
            Ok(Some(text))
        }
    }
}

/// The bytes with U+FFFD in place of invalid UTF-8, or `None` if all bytes are valid.
fn with_replacements(alloc: Global, bytes: &[u8]) -> Result<Option<Vec<u8>>, AllocError>
    ensures ascii { IsAscii bytes.now → IfOk result (λ new. IfSome new (λ text. text.items ≡ bytes.now)) }
    ensures text { IfOk result (λ new. MatchOption new (bytes.now ≡ utf8_lossy bytes.now) (λ text. text.items ≡ utf8_lossy bytes.now)) }
{
    if simdutf8::is_utf8(bytes) {
        return Ok(None);
    }
    let text = String::from_utf8_lossy(alloc, bytes)?;
    Ok(Some(text.into_bytes()))
}
