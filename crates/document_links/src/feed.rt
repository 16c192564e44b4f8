//! The links of a sitemap or a feed.
ghost use Rattle.std.specs.Prelude.{◌≡◌, ◌++◌, ◌-◌, IfOk, OnOk, option_map};
ghost use Rattle.std.specs.Char.{is_ascii_whitespace};
ghost use Rattle.std.specs.Option.{option_map_or};
ghost use Rattle.url.specs.Input.{trim_start};
ghost use Rattle.document_links.specs.Feeds.{feed_links_of, feed_positions_of, kind_after, kind_of, markup_links, markup_positions, part_links, part_of, part_positions, text_links, text_of, value_links, visible_text};
ghost use Rattle.html_links.specs.Positions.{all_at};
ghost use Rattle.document_links.specs.Markup.{value_of};

use crate::bytes::{after_front, split_byte};
use crate::cleaning::trimmed;
use crate::markup::{Markup, is_tag, markup_len, markup_of, section_of};
use crate::raw_links::RawLinks;
use crate::start_tag::{TagValue, closes, local_name, value_of};
use crate::unescaped::push_unescaped;
use std::alloc::{AllocError, Global};

/// What an XML document is, by the name of its root element.
#[derive(Clone, Copy)]
pub(crate) enum FeedKind {
    /// A sitemap, or an index of sitemaps.
    Sitemap,
    /// A feed of RSS.
    Rss,
    /// A feed of Atom.
    Atom,
    /// Anything else.
    Other,
}

/// The part of an element that is a link.
#[derive(Clone, Copy)]
pub(crate) enum LinkPart {
    /// Its text.
    Content,
    /// Its attribute `url`.
    Url,
    /// Its attribute `href`.
    Href,
    /// Its attribute `src`.
    Src,
    Nothing,
}

/// Appends the links of a sitemap or a feed. Other documents have none.
#[tactic(auto, using(html_links::proofs::Documents::cut_shorter))]
pub(crate) fn push_feed_links(text: &[u8], raw: &mut RawLinks) -> Result<(), AllocError>
    ensures texts { OnOk result (raw.new.texts ≡ raw.old.texts ++ feed_links_of text.now) }
    ensures positions { OnOk result (raw.new.positions.items ≡ raw.old.positions.items ++ feed_positions_of text.now) }
{
    let mut kind = None;
    let mut rest = text;
    'markup: while let Some((_, opened)) = split_byte(b'<', rest) {
        let markup = markup_of(opened);
        let (tag, more) = opened.split_at(markup_len(opened));
        kind = kind_after(markup, kind, tag);
        push_markup_links(markup, kind, Element { tag, more }, text.len(), raw)?;
        rest = more;
    }
    Ok(())
}

/// Markup from after its `<` to its end, and the bytes after it.
#[derive(Clone, Copy)]
struct Element<'a> {
    tag: &'a [u8],
    more: &'a [u8],
}

/// What the document is, if this markup comes next. The first start tag determines it.
fn kind_after(markup: Markup, kind: Option<FeedKind>, tag: &[u8]) -> Option<FeedKind>
    ensures { result ≡ kind_after markup kind tag.now }
{
    match markup {
        Markup::StartTag => Some(match kind {
            Some(kind) => kind,
            None => kind_of(local_name(tag)),
        }),
        _ => kind,
    }
}

/// What a document is, by the name of its root element.
fn kind_of(name: &[u8]) -> FeedKind
    ensures { result ≡ kind_of name.now }
{
    if name == b"urlset".as_slice() || name == b"sitemapindex".as_slice() {
        FeedKind::Sitemap
    } else if name == b"rss".as_slice() || name == b"RDF".as_slice() {
        FeedKind::Rss
    } else if name == b"feed".as_slice() {
        FeedKind::Atom
    } else {
        FeedKind::Other
    }
}

/// The part of an element that is a link, by its name.
fn part_of(kind: FeedKind, name: &[u8]) -> LinkPart
    ensures { result ≡ part_of kind name.now }
{
    match kind {
        FeedKind::Sitemap => {
            if name == b"loc".as_slice() {
                LinkPart::Content
            } else {
                LinkPart::Nothing
            }
        }
        FeedKind::Rss => {
            if name == b"link".as_slice() {
                LinkPart::Content
            } else if name == b"enclosure".as_slice() {
                LinkPart::Url
            } else {
                LinkPart::Nothing
            }
        }
        FeedKind::Atom => {
            if name == b"link".as_slice() {
                LinkPart::Href
            } else if name == b"content".as_slice() {
                LinkPart::Src
            } else {
                LinkPart::Nothing
            }
        }
        FeedKind::Other => LinkPart::Nothing,
    }
}

/// Appends the link of an element in such a document of this length.
fn push_markup_links(
    markup: Markup,
    kind: Option<FeedKind>,
    element: Element<'_>,
    length: usize,
    raw: &mut RawLinks,
) -> Result<(), AllocError>
    ensures texts { OnOk result (raw.new.texts ≡ raw.old.texts ++ markup_links markup kind element.entry.tag.now element.entry.more.now) }
    ensures positions { OnOk result (raw.new.positions.items ≡ raw.old.positions.items ++ markup_positions length markup kind element.entry.tag.now element.entry.more.now) }
{
    match (markup, kind) {
        (Markup::StartTag, Some(kind)) => {
            push_part_links(part_of(kind, local_name(element.tag)), element, length, raw)
        }
        _ => Ok(()),
    }
}

/// Appends the link in a part of an element, in a document of this length.
fn push_part_links(
    part: LinkPart,
    element: Element<'_>,
    length: usize,
    raw: &mut RawLinks,
) -> Result<(), AllocError>
    ensures texts { OnOk result (raw.new.texts ≡ raw.old.texts ++ part_links part element.entry.tag.now element.entry.more.now) }
    ensures positions { OnOk result (raw.new.positions.items ≡ raw.old.positions.items ++ part_positions length part element.entry.tag.now element.entry.more.now) }
{
    let end = length.saturating_sub(element.more.len());
    match part {
        LinkPart::Content => push_content(element, length, raw),
        LinkPart::Url => push_value(value_of(b"url", element.tag), end, raw),
        LinkPart::Href => push_value(value_of(b"href", element.tag), end, raw),
        LinkPart::Src => push_value(value_of(b"src", element.tag), end, raw),
        LinkPart::Nothing => Ok(()),
    }
}

/// Appends the value of an attribute as a link. The tag ends at the position `end`.
fn push_value(value: Option<TagValue<'_>>, end: usize, raw: &mut RawLinks) -> Result<(), AllocError>
    ensures texts { OnOk result (raw.new.texts ≡ raw.old.texts ++ value_links (option_map (λ one. one.text.now) value.entry)) }
    ensures positions { OnOk result (raw.new.positions.items ≡ raw.old.positions.items ++ all_at (end - option_map_or (λ one. one.left) value.entry 0) (value_links (option_map (λ one. one.text.now) value.entry))) }
{
    let Some(value) = value else {
        return Ok(());
    };
    let mut text = Vec::new(raw.allocator());
    push_unescaped(value.text, &mut text)?;
    push_text(end.saturating_sub(value.left), text.as_slice(), raw)
}

/// Appends the text of an element as a link, in a document of this length.
fn push_content(element: Element<'_>, length: usize, raw: &mut RawLinks) -> Result<(), AllocError>
    ensures texts { OnOk result (raw.new.texts ≡ raw.old.texts ++ part_links LinkPart.Content element.entry.tag.now element.entry.more.now) }
    ensures positions { OnOk result (raw.new.positions.items ≡ raw.old.positions.items ++ part_positions length LinkPart.Content element.entry.tag.now element.entry.more.now) }
{
    if closes(element.tag) {
        return Ok(());
    }
    let text = content_of(raw.allocator(), element.more)?;
    let begin = length.saturating_sub(visible_text(element.more).len());
    push_text(begin, text.as_slice(), raw)
}

/// The bytes of an element's text from the first one that is not white space. The text may be in a CDATA section.
fn visible_text(bytes: &[u8]) -> &[u8]
    ensures { result.now ≡ visible_text bytes.now }
{
    let text = after_space(bytes);
    if text.starts_with(b"<![CDATA[") {
        after_space(after_front(9, text))
    } else {
        text
    }
}

/// The bytes after the white space at the start.
fn after_space(bytes: &[u8]) -> &[u8]
    ensures { result.now ≡ trim_start is_ascii_whitespace bytes.now }
{
    bytes.trim_ascii_start()
}

/// The text from here to the next tag, without comments, instructions and declarations.
#[tactic(auto, using(crate::proofs::Feeding::last_text, crate::proofs::Feeding::text_at_tag, html_links::proofs::Documents::cut_shorter))]
fn content_of(alloc: Global, bytes: &[u8]) -> Result<Vec<u8>, AllocError>
    ensures { IfOk result (λ text. text.items ≡ text_of bytes.now) }
{
    let mut text = Vec::new(alloc);
    let mut rest = bytes;
    'pieces: loop {
        let Some((run, opened)) = split_byte(b'<', rest) else {
            push_unescaped(rest, &mut text)?;
            return Ok(text);
        };
        push_unescaped(run, &mut text)?;
        let markup = markup_of(opened);
        if is_tag(markup) {
            return Ok(text);
        }
        text.extend_from_slice(section_of(markup, opened))?;
        let (_, more) = opened.split_at(markup_len(opened));
        rest = more;
    }
}

/// Appends a text at this position as a link, unless a URL parser drops all of it.
pub(crate) fn push_text(position: usize, text: &[u8], raw: &mut RawLinks) -> Result<(), AllocError>
    ensures texts { OnOk result (raw.new.texts ≡ raw.old.texts ++ text_links text.now) }
    ensures positions { OnOk result (raw.new.positions.items ≡ raw.old.positions.items ++ all_at position (text_links text.now)) }
{
    if trimmed(text).is_empty() {
        return Ok(());
    }
    raw.push_at(position, text)
}
