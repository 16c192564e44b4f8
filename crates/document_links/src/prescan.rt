//! The encoding that a document declares, by the HTML Standard's prescan.
ghost use Rattle.std.specs.Prelude.{◌≡◌, ◌+◌, ◌≤◌, ◌||◌, ◌&&◌, codes, drop, false, length, option_map, take_while, true, MatchOption};
ghost use Rattle.std.specs.Char.{is_ascii_alphabetic, is_ascii_whitespace};
ghost use Rattle.html_links.specs.Shown.{Stopped, following};
ghost use Rattle.document_links.specs.Markup.{begins};
ghost use Rattle.document_links.specs.Prescan.{BeforeName, BeforeValue, Comment, Markup, Meta, after_spaces, begins_charset, declared, ended, first_is, follow, in_label, is_gap, label_at, label_in, label_of, new_tag, noted, opening_of, pragma_label, prescan, state_in, bare_label, unquoted};
ghost use Rattle.document_links.specs.Prescan.{first};
ghost use Rattle.document_links.specs.Scans.{BeginsName, Leaves, LeavesPiece, after_piece, following_name, is_inner, is_unquoted, meta_of, name_front, outcome};
ghost use Rattle.document_links.specs.Starts.{begins_in_any_case};

use crate::bytes::{after_byte, parts, split_byte};
use crate::document_start::{after_first, begins_in_any_case};
use crate::markup::is_quote;

/// The name of the encoding that the start of a document declares.
pub(crate) fn declared(start: &[u8]) -> Option<&[u8]>
    ensures { option_map (λ name. name.now) result ≡ declared start.now }
{
    let mut rest = start;
    'markup: while let Some((_, opened)) = split_byte(b'<', rest) {
        match read_markup(opened) {
            Scan::Name(name) => return Some(name),
            Scan::Text(more) => rest = more,
            Scan::Unfinished => return None,
        }
    }
    None
}

/// How markup ends.
#[derive(Clone, Copy)]
enum Scan<'a> {
    /// It is a `meta` with the name of an encoding.
    Name(&'a [u8]),
    /// This text comes after it.
    Text(&'a [u8]),
    Unfinished,
}

/// What begins with a `<`.
#[derive(Clone, Copy)]
enum Opening {
    Comment,
    Meta,
    /// Any other tag.
    Tag,
    /// Any other markup.
    Other,
    Nothing,
}

/// Reads markup from after its `<`.
fn read_markup(opened: &[u8]) -> Scan<'_>
    ensures reads { outcome result ≡ prescan (state_in (opening_of opened.now)) opened.now }
    ensures leaves { Leaves result (length opened.now) }
{
    match opening_of(opened) {
        Opening::Comment => read_comment(opened),
        Opening::Meta => read_tag(MetaTag::new(true), &opened[4..]),
        Opening::Tag => read_tag(MetaTag::new(false), after_tag_name(opened)),
        Opening::Other => read_other(opened),
        Opening::Nothing => Scan::Text(opened),
    }
}

/// What begins with a `<`, by the bytes after it.
fn opening_of(bytes: &[u8]) -> Opening
    ensures value { result ≡ opening_of bytes.now }
    ensures within { result ≡ Opening.Meta → 4 ≤ length bytes.now }
{
    if bytes.starts_with(b"!--") {
        Opening::Comment
    } else if is_meta(bytes) {
        Opening::Meta
    } else if begins_tag(bytes) {
        Opening::Tag
    } else if bytes.starts_with(b"!") || bytes.starts_with(b"/") || bytes.starts_with(b"?") {
        Opening::Other
    } else {
        Opening::Nothing
    }
}

/// Whether a `meta` begins here.
fn is_meta(bytes: &[u8]) -> bool
    ensures value { result ≡ (begins_in_any_case (codes "meta") bytes.now && first_is is_gap (drop 4 bytes.now)) }
    ensures within { result ≡ true → 4 ≤ length bytes.now }
{
    begins_in_any_case(bytes, b"meta") && begins_gap(&bytes[4..])
}

/// Whether the first byte is white space or a `/`.
fn begins_gap(bytes: &[u8]) -> bool
    ensures { result ≡ first_is is_gap bytes.now }
{
    match parts(bytes) {
        Some((first, _)) => is_gap(first),
        None => false,
    }
}

/// Whether a start tag or an end tag begins here.
fn begins_tag(bytes: &[u8]) -> bool
    ensures { result ≡ (first_is is_ascii_alphabetic bytes.now || (begins (codes "/") bytes.now && first_is is_ascii_alphabetic (drop 1 bytes.now))) }
{
    begins_letter(bytes) || (bytes.starts_with(b"/") && begins_letter(&bytes[1..]))
}

/// Whether the first byte is a letter.
fn begins_letter(bytes: &[u8]) -> bool
    ensures { result ≡ first_is is_ascii_alphabetic bytes.now }
{
    match parts(bytes) {
        Some((first, _)) => first.is_ascii_alphabetic(),
        None => false,
    }
}

/// Reads a comment. The first two dashes may be the last two.
fn read_comment(bytes: &[u8]) -> Scan<'_>
    ensures reads { outcome result ≡ prescan Comment bytes.now }
    ensures leaves { Leaves result (length bytes.now) }
{
    match after_first(bytes, b"-->") {
        Some(more) => Scan::Text(more),
        None => Scan::Unfinished,
    }
}

/// Reads markup up to the next `>`.
fn read_other(bytes: &[u8]) -> Scan<'_>
    ensures reads { outcome result ≡ prescan Markup bytes.now }
    ensures leaves { Leaves result (length bytes.now) }
{
    match split_byte(b'>', bytes) {
        Some((_, more)) => Scan::Text(more),
        None => Scan::Unfinished,
    }
}

/// The bytes after the name of a tag.
#[tactic(auto, using(std::proofs::lemmas::List::take_rest, html_links::proofs::Cuts::after_cut))]
fn after_tag_name(bytes: &[u8]) -> &[u8]
    ensures { result.now ≡ following is_unquoted bytes.now }
{
    &bytes[unquoted_len(bytes)..]
}

/// What the attributes of a `meta` say so far. Those of other tags are not kept.
#[derive(Clone, Copy)]
struct MetaTag<'a> {
    is_meta: bool,
    charset: Option<&'a [u8]>,
    /// Its `http-equiv`.
    header: Option<&'a [u8]>,
    content: Option<&'a [u8]>,
}

impl<'a> MetaTag<'a> {
    /// A tag whose attributes are not read yet.
    fn new(is_meta: bool) -> MetaTag<'a>
        ensures { meta_of result ≡ new_tag is_meta }
    {
        MetaTag {
            is_meta,
            charset: None,
            header: None,
            content: None,
        }
    }
}

/// Returns a tag with one more attribute.
fn noted<'a>(tag: MetaTag<'a>, name: &[u8], value: &'a [u8]) -> MetaTag<'a>
    ensures { meta_of result ≡ noted (meta_of tag.entry) name.now value.now }
{
    if !tag.is_meta {
        tag
    } else if name.eq_ignore_ascii_case(b"charset") {
        MetaTag {
            is_meta: true,
            charset: first(tag.charset, value),
            header: tag.header,
            content: tag.content,
        }
    } else if name.eq_ignore_ascii_case(b"http-equiv") {
        MetaTag {
            is_meta: true,
            charset: tag.charset,
            header: first(tag.header, value),
            content: tag.content,
        }
    } else if name.eq_ignore_ascii_case(b"content") {
        MetaTag {
            is_meta: true,
            charset: tag.charset,
            header: tag.header,
            content: first(tag.content, value),
        }
    } else {
        tag
    }
}

/// The first value of an attribute.
fn first<'a>(old: Option<&'a [u8]>, value: &'a [u8]) -> Option<&'a [u8]>
    ensures { option_map (λ one. one.now) result ≡ first (option_map (λ one. one.now) old.entry) value.now }
{
    match old {
        Some(old) => Some(old),
        None => Some(value),
    }
}

/// Reads a tag, from after its name.
fn read_tag<'a>(tag: MetaTag<'a>, text: &'a [u8]) -> Scan<'a>
    ensures reads { outcome result ≡ prescan (BeforeName (meta_of tag.entry)) text.now }
    ensures leaves { Leaves result (length text.now) }
{
    let mut tag = tag;
    let mut rest = text;
    'attributes: loop {
        match next_piece(rest) {
            Piece::Attribute(found) => {
                tag = noted(tag, found.name, found.value);
                rest = found.following;
            }
            Piece::End(more) => return ended(tag, more),
            Piece::Unfinished => return Scan::Unfinished,
        }
    }
}

/// What a tag declares after which this text comes.
fn ended<'a>(tag: MetaTag<'a>, more: &'a [u8]) -> Scan<'a>
    ensures reads { outcome result ≡ follow (ended (meta_of tag.entry)) (λ state. prescan state more.now) }
    ensures leaves { Leaves result (length more.now) }
{
    let label = label_of(tag);
    if label.is_empty() {
        Scan::Text(more)
    } else {
        Scan::Name(label)
    }
}

/// The name of an encoding that a tag declares; empty if there is none.
fn label_of<'a>(tag: MetaTag<'a>) -> &'a [u8]
    ensures { result.now ≡ label_of (meta_of tag.entry) }
{
    match tag.charset {
        Some(label) => bare_label(label),
        None => bare_label(pragma_label(tag)),
    }
}

/// The name without ASCII white space at its ends.
pub(crate) fn bare_label(label: &[u8]) -> &[u8]
    ensures { result.now ≡ bare_label label.now }
{
    label.trim_ascii_start().trim_ascii_end()
}

/// The name in the `content` of a `meta`, if that is the type of the document.
fn pragma_label<'a>(tag: MetaTag<'a>) -> &'a [u8]
    ensures { result.now ≡ pragma_label (meta_of tag.entry) }
{
    match tag.header {
        Some(header) => {
            if !header.eq_ignore_ascii_case(b"content-type") {
                return &[];
            }
            match tag.content {
                Some(content) => label_in(content),
                None => &[],
            }
        }
        None => &[],
    }
}

/// The name after the first `charset` that comes before a `=`; empty if there is none.
fn label_in(text: &[u8]) -> &[u8]
    ensures { result.now ≡ label_in text.now }
{
    let mut rest = text;
    'labels: while let Some((_, more)) = parts(rest) {
        if let Some(value) = after_charset(rest) {
            return label_at(skip_spaces(value));
        }
        rest = more;
    }
    &[]
}

/// The text after `charset` and `=`, if it begins with them.
fn after_charset(text: &[u8]) -> Option<&[u8]>
    ensures { MatchOption result (begins_charset text.now ≡ false) (λ value. (begins_charset text.now ≡ true) × (value.now ≡ drop 1 (after_spaces (drop 7 text.now)))) }
{
    if !begins_in_any_case(text, b"charset") {
        return None;
    }
    after_byte(b'=', skip_spaces(&text[7..]))
}

/// The name at the start of a text: in quotes, or up to white space or `;`. Empty if a quote is not closed.
#[tactic(auto, using(html_links::proofs::Cuts::front_cut))]
fn label_at(text: &[u8]) -> &[u8]
    ensures { result.now ≡ label_at text.now }
{
    let Some((first, inside)) = parts(text) else {
        return &[];
    };
    if is_quote(first) {
        unquoted(first, inside)
    } else {
        &text[..label_len(text)]
    }
}

/// The text up to the first such quote; empty if there is none.
fn unquoted(quote: u8, text: &[u8]) -> &[u8]
    ensures { result.now ≡ unquoted quote text.now }
{
    match split_byte(quote, text) {
        Some((label, _)) => label,
        None => &[],
    }
}

/// An attribute of a tag, and the text after it.
#[derive(Clone, Copy)]
struct Attribute<'a> {
    name: &'a [u8],
    value: &'a [u8],
    following: &'a [u8],
}

/// What comes next in a tag.
#[derive(Clone, Copy)]
enum Piece<'a> {
    Attribute(Attribute<'a>),
    /// The end of the tag, and the text after it.
    End(&'a [u8]),
    Unfinished,
}

/// The next piece of a tag.
fn next_piece(text: &[u8]) -> Piece<'_>
    ensures reads { (tag : Meta) → prescan (BeforeName tag) text.now ≡ after_piece result tag }
    ensures leaves { LeavesPiece result (length text.now) }
{
    let rest = skip_gap(text);
    let Some((first, more)) = parts(rest) else {
        return Piece::Unfinished;
    };
    if first == b'>' {
        return Piece::End(more);
    }
    read_attribute(rest)
}

/// An attribute that begins here.
fn read_attribute(text: &[u8]) -> Piece<'_>
    requires { BeginsName text.now }
    ensures reads { (tag : Meta) → prescan (BeforeName tag) text.now ≡ after_piece result tag }
    ensures leaves { LeavesPiece result (length text.now) }
{
    let (name, rest) = split_name(text);
    let rest = skip_spaces(rest);
    match after_byte(b'=', rest) {
        Some(more) => read_value(name, skip_spaces(more)),
        None => Piece::Attribute(Attribute {
            name,
            value: &[],
            following: rest,
        }),
    }
}

/// The name of an attribute, and the text after it. Its first byte may be a `=`.
#[tactic(auto, using(crate::proofs::Prescanning::name_cut))]
fn split_name(text: &[u8]) -> (&[u8], &[u8])
    requires { BeginsName text.now }
    ensures name { result.0.now ≡ name_front text.now }
    ensures rest { result.1.now ≡ following_name text.now }
{
    text.split_at(1 + name_len(&text[1..]))
}

/// An attribute, from the value of its name on.
#[tactic(auto, using(html_links::proofs::Cuts::front_cut, html_links::proofs::Cuts::after_cut))]
fn read_value<'a>(name: &'a [u8], text: &'a [u8]) -> Piece<'a>
    requires { Stopped is_ascii_whitespace text.now }
    ensures reads { (tag : Meta) → prescan (BeforeValue tag name.now) text.now ≡ after_piece result tag }
    ensures leaves { LeavesPiece result (length text.now + 1) }
{
    let Some((first, inside)) = parts(text) else {
        return Piece::Unfinished;
    };
    if !is_quote(first) {
        let (value, following) = text.split_at(unquoted_len(text));
        return Piece::Attribute(Attribute {
            name,
            value,
            following,
        });
    }
    match split_byte(first, inside) {
        Some((value, following)) => Piece::Attribute(Attribute {
            name,
            value,
            following,
        }),
        None => Piece::Unfinished,
    }
}

/// The bytes after white space.
fn skip_spaces(bytes: &[u8]) -> &[u8]
    ensures { result.now ≡ after_spaces bytes.now }
{
    bytes.trim_ascii_start()
}

/// The bytes after white space and `/`.
#[tactic(auto, using(std::proofs::lemmas::List::take_rest, html_links::proofs::Cuts::after_cut))]
fn skip_gap(bytes: &[u8]) -> &[u8]
    ensures { result.now ≡ following is_gap bytes.now }
{
    &bytes[gap_len(bytes)..]
}

/// The number of bytes of white space and `/` at the front.
fn gap_len(bytes: &[u8]) -> usize
    ensures { result ≡ length (take_while is_gap bytes.now) }
{
    bytes.iter().take_while(|byte| is_gap(**byte)).count()
}

/// The number of bytes at the front that continue a name.
fn name_len(bytes: &[u8]) -> usize
    ensures { result ≡ length (take_while is_inner bytes.now) }
{
    bytes.iter().take_while(|byte| is_inner(**byte)).count()
}

/// The number of bytes at the front that are neither white space nor `>`.
fn unquoted_len(bytes: &[u8]) -> usize
    ensures { result ≡ length (take_while is_unquoted bytes.now) }
{
    bytes.iter().take_while(|byte| is_unquoted(**byte)).count()
}

/// The number of bytes at the front that are neither white space nor `;`.
fn label_len(bytes: &[u8]) -> usize
    ensures { result ≡ length (take_while in_label bytes.now) }
{
    bytes.iter().take_while(|byte| in_label(**byte)).count()
}

/// Whether the byte is white space or `/`.
fn is_gap(byte: u8) -> bool
    ensures { result ≡ is_gap byte }
{
    byte.is_ascii_whitespace() || byte == b'/'
}

/// Whether the byte continues the name of an attribute.
fn is_inner(byte: u8) -> bool
    ensures { result ≡ is_inner byte }
{
    !(is_gap(byte) || byte == b'=' || byte == b'>')
}

/// Whether the byte is neither white space nor `>`.
fn is_unquoted(byte: u8) -> bool
    ensures { result ≡ is_unquoted byte }
{
    !(byte.is_ascii_whitespace() || byte == b'>')
}

/// Whether the byte is neither white space nor `;`.
fn in_label(byte: u8) -> bool
    ensures { result ≡ in_label byte }
{
    !(byte.is_ascii_whitespace() || byte == b';')
}
