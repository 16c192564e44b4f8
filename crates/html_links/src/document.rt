//! The start tags of a document.
ghost use Rattle.std.specs.Prelude.{◌≡◌, ◌<◌, ◌==◌, length, map, IfOk, take_while};
ghost use Rattle.html_links.specs.Tags.{tag_of, lower};
ghost use Rattle.html_links.specs.Comments.{bytes_at};
ghost use Rattle.html_links.specs.Shown.{Stopped};
ghost use Rattle.html_links.specs.declared.context.Context.{Context};
ghost use Rattle.html_links.specs.Document.{opening_of, read, tags_of, after_start, content_at, content_of, is_raw, Bogus, MarkupDeclaration, raw_content, script_content};
ghost use Rattle.html_links.specs.Markup.{in_tag_name, led_front, led_after, start_tag_at, read_rest, rest_of, MarkupReads, MarkupEnds, other_markup, MarkupLeaves, RestLeaves};

use crate::bytes::{Class, LAST_MARK, after_byte, after_first, class_of, parts, split_quoted};
use crate::cdata::after_cdata;
use crate::comments::after_comment;
use crate::context::{
    Context, Syntax, context_of, element_at, inner_context, is_foreign, outer_context, tag_context,
};
use crate::found::{Values, values_in};
use crate::lengths::may_be;
use crate::raw_text::{after_raw_text, same_name};
use crate::script::after_script;
use crate::tag::{AttributeAt, Piece, TagAt, next_piece, read_tag};
use std::alloc::{AllocError, Global};

/// What a byte after a `<` means.
#[derive(Clone, Copy)]
enum Opening {
    Bang,
    Solidus,
    Question,
    Letter,
    Plain,
}

/// What the content of an element is.
#[derive(Clone, Copy)]
enum Content {
    Raw,
    Script,
    Plain,
    Markup,
}

/// A start tag as written.
#[derive(Drop)]
pub struct StartTagAt<'a> {
    pub name: &'a [u8],
    pub attributes: Vec<AttributeAt<'a>>,
    pub self_closing: bool,
}

/// What follows a `<`: the name of a tag and the bytes after it, or the bytes after anything else.
#[derive(Clone, Copy)]
pub(crate) enum Markup<'a> {
    Start(&'a [u8], &'a [u8]),
    End(&'a [u8], &'a [u8]),
    Other(&'a [u8]),
    Unfinished,
}

/// What a byte opens after a `<`, in the Standard's tag open state. After a `</`, only a letter opens a tag.
#[inline(always)]
fn opening_of(byte: u8) -> Opening
    ensures { result ≡ opening_of byte }
{
    match byte {
        b'!' => Opening::Bang,
        b'/' => Opening::Solidus,
        b'?' => Opening::Question,
        b'A'..=b'Z' | b'a'..=b'z' => Opening::Letter,
        _ => Opening::Plain,
    }
}

/// Whether the byte continues the name of a tag. White space, `/` and `>` end the name.
#[inline(always)]
fn in_tag_name(byte: u8) -> bool
    ensures { result ≡ in_tag_name byte }
{
    byte > LAST_MARK || !matches!(class_of(byte), Class::Space | Class::Slash | Class::Greater)
}

/// The number of bytes at the front that continue the name of a tag.
fn tag_name_len(bytes: &[u8]) -> usize
    ensures { result ≡ length (take_while in_tag_name bytes.now) }
{
    bytes.iter().take_while(|byte| in_tag_name(**byte)).count()
}

/// The name of a tag, and the bytes after it. There must be a first byte, and it is part of the name whatever it is.
#[inline(always)]
#[tactic(auto, using(crate::proofs::Documents::led_cut))]
fn split_tag_name(bytes: &[u8]) -> (&[u8], &[u8])
    requires { 0 < length bytes.now }
    ensures name { result.0.now ≡ led_front in_tag_name bytes.now }
    ensures rest { result.1.now ≡ led_after in_tag_name bytes.now }
{
    bytes.split_at(1 + tag_name_len(&bytes[1..]))
}

/// The bytes after a bogus comment, which ends at the first `>`. The functions that this one and the next call return their results
/// in registers, so they do not slow down tags.
#[inline(always)]
#[tactic(auto, using(crate::proofs::Documents::to_greater, crate::proofs::Documents::cut_shorter))]
fn after_bogus(bytes: &[u8]) -> Option<&[u8]>
    ensures reads { (at : Context) → read at Bogus bytes.now ≡ read_rest at result }
    ensures leaves { RestLeaves result bytes.now }
{
    match after_first(b'>', bytes) {
        Some(rest) => Some(rest),
        None => None,
    }
}

/// The bytes after a construct that begins with `<!`, from those after that.
#[inline(always)]
fn after_declaration(context: Context, bytes: &[u8]) -> Option<&[u8]>
    ensures reads { read context MarkupDeclaration bytes.now ≡ read_rest context result }
    ensures leaves { RestLeaves result bytes.now }
{
    let Some(dashed) = after_byte(b'-', bytes) else {
        return after_marked(context, bytes);
    };
    match after_byte(b'-', dashed) {
        Some(text) => after_comment(text),
        None => after_bogus(dashed),
    }
}

/// The bytes after a construct that begins with `<!` and is not a comment: a CDATA section in foreign content, or a bogus comment.
#[inline(always)]
fn after_marked(context: Context, bytes: &[u8]) -> Option<&[u8]>
    requires { Stopped (λ c. c == 45) bytes.now }
    ensures reads { read context MarkupDeclaration bytes.now ≡ read_rest context result }
    ensures leaves { RestLeaves result bytes.now }
{
    if !is_foreign(context) {
        return after_bogus(bytes);
    }
    match after_byte(b'[', bytes) {
        Some(more) => after_cdata(more),
        None => after_bogus(bytes),
    }
}

/// What follows a `</`: an end tag if the first byte is a letter, and otherwise a bogus comment, which ends at the first `>`.
#[inline(always)]
#[tactic(auto, using(crate::proofs::Documents::led_shorter))]
fn after_end_open(bytes: &[u8]) -> Markup<'_>
    ensures reads { MarkupEnds result bytes.now }
    ensures leaves { MarkupLeaves result bytes.now }
{
    let Some((first, _)) = parts(bytes) else {
        return Markup::Unfinished;
    };
    match opening_of(first) {
        Opening::Letter => {
            let (name, rest) = split_tag_name(bytes);
            Markup::End(name, rest)
        }
        _ => other(after_bogus(bytes)),
    }
}

/// `Other` with the bytes after a comment or a doctype, or `Unfinished` if it does not end.
#[inline(always)]
fn other(rest: Option<&[u8]>) -> Markup<'_>
    ensures { result ≡ other_markup rest.entry }
{
    match rest {
        Some(rest) => Markup::Other(rest),
        None => Markup::Unfinished,
    }
}

/// What follows a `<`. This function is inlined, so its result stays in registers.
#[inline(always)]
#[tactic(auto, using(crate::proofs::Documents::led_shorter))]
pub(crate) fn next_markup(context: Context, bytes: &[u8]) -> Markup<'_>
    ensures reads { MarkupReads result context bytes.now }
    ensures leaves { MarkupLeaves result bytes.now }
{
    let Some((first, more)) = parts(bytes) else {
        return Markup::Unfinished;
    };
    match opening_of(first) {
        Opening::Bang => other(after_declaration(context, more)),
        Opening::Solidus => after_end_open(more),
        Opening::Question => other(after_bogus(more)),
        Opening::Letter => {
            let (name, rest) = split_tag_name(bytes);
            Markup::Start(name, rest)
        }
        Opening::Plain => Markup::Other(bytes),
    }
}

/// The bytes after a tag, from those after its name. Most end tags end there.
#[inline(always)]
pub(crate) fn after_tag(bytes: &[u8]) -> Option<&[u8]>
    ensures { bytes_at result ≡ rest_of (tag_of bytes.now) }
{
    match after_byte(b'>', bytes) {
        Some(last) => Some(last),
        None => after_pieces(bytes),
    }
}

/// The bytes after a tag, from those after its name, whatever attributes it has. `None` if the tag does not end.
#[inline(never)]
fn after_pieces(bytes: &[u8]) -> Option<&[u8]>
    ensures { bytes_at result ≡ rest_of (tag_of bytes.now) }
{
    let mut rest = bytes;
    'pieces: loop {
        match next_piece(rest) {
            Piece::Attribute(_, more) => rest = more,
            Piece::Slash(more) => rest = more,
            Piece::End(_, last) => return Some(last),
            Piece::Unfinished => return None,
        }
    }
}

/// The lengths of the names of elements whose content is text.
static TEXTS: [u16; 32] = [
    0x0, 0x0, 0x0, 0x0, 0x0, 0x0, 0x0, 0x0, 0x0, 0x20, 0x0, 0x0, 0x0, 0x0, 0xc0, 0x0, 0x100, 0x0,
    0x0, 0x30, 0x90, 0x0, 0x0, 0x0, 0x4, 0x0, 0x0, 0x0, 0x0, 0x0, 0x0, 0x0,
];

/// Whether the content of the element with this name, in any case, is raw text, in the Standard's RCDATA or RAWTEXT state.
fn is_raw(name: &[u8]) -> bool
    ensures { result ≡ is_raw (map lower name.now) }
{
    same_name(name, b"title")
        || same_name(name, b"textarea")
        || same_name(name, b"style")
        || same_name(name, b"xmp")
        || same_name(name, b"iframe")
        || same_name(name, b"noembed")
        || same_name(name, b"noframes")
}

/// What the content of an element in HTML is, by its name in any case.
fn content_of(name: &[u8]) -> Content
    ensures { result ≡ content_of (map lower name.now) }
{
    if is_raw(name) {
        Content::Raw
    } else if same_name(name, b"script") {
        Content::Script
    } else if same_name(name, b"plaintext") {
        Content::Plain
    } else {
        Content::Markup
    }
}

/// The bytes after an element whose text is raw, from those after its start tag.
#[tactic(auto, using(crate::proofs::Documents::raw_left, crate::proofs::Documents::rest_less, crate::proofs::Documents::tag_less))]
fn after_raw<'a>(name: &[u8], bytes: &'a [u8]) -> Option<&'a [u8]>
    requires { 0 < length name.now }
    ensures reads { (at : Context) → read at (raw_content (map lower name.now)) bytes.now ≡ read_rest at result }
    ensures leaves { RestLeaves result bytes.now }
{
    match after_raw_text(name, bytes) {
        Some(more) => after_tag(more),
        None => None,
    }
}

/// The bytes after a script, from those after its start tag.
#[tactic(auto, using(crate::proofs::Scripts::left, crate::proofs::Documents::rest_less, crate::proofs::Documents::tag_less))]
fn after_whole_script(bytes: &[u8]) -> Option<&[u8]>
    ensures reads { (at : Context) → read at script_content bytes.now ≡ read_rest at result }
    ensures leaves { RestLeaves result bytes.now }
{
    match after_script(bytes) {
        Some(more) => after_tag(more),
        None => None,
    }
}

/// The bytes after a start tag in this context, or after the end tag of its element if the content is text.
pub(crate) fn after_element<'a>(context: Context, name: &[u8], bytes: &'a [u8]) -> Option<&'a [u8]>
    ensures reads { (at : Context) → read at (after_start (content_at context (map lower name.now)) (map lower name.now)) bytes.now ≡ read_rest at result }
    ensures leaves { RestLeaves result bytes.now }
{
    if is_foreign(context) {
        return Some(bytes);
    }
    if !may_be(&TEXTS, name) {
        return Some(bytes);
    }
    match content_of(name) {
        Content::Raw => after_raw(name, bytes),
        Content::Script => after_whole_script(bytes),
        Content::Plain => None,
        Content::Markup => Some(bytes),
    }
}

/// The start tags of a document in HTML, in order.
pub fn tags<'a>(alloc: Global, bytes: &'a [u8]) -> Result<Vec<StartTagAt<'a>>, AllocError>
    ensures { IfOk result (λ tags. map start_tag_at tags.items ≡ tags_of bytes.now) }
{
    let mut tags = Vec::new(alloc);
    let mut context = context_of(Syntax::Html);
    let mut values = Values::none();
    let mut rest = bytes;
    'markup: loop {
        let Some((_, opened)) = split_quoted(b'<', rest) else {
            return Ok(tags);
        };
        match next_markup(context, opened) {
            Markup::Start(name, more) => {
                let own = tag_context(context, name);
                let element = element_at(own, name);
                let Some(_) = values_in(element, more, &mut values) else {
                    return Ok(tags);
                };
                let Some(found) = read_tag(alloc, more)? else {
                    return Ok(tags);
                };
                let TagAt {
                    attributes,
                    self_closing,
                    rest: last,
                } = found;
                tags.push(StartTagAt {
                    name,
                    attributes,
                    self_closing,
                })?;
                let Some(left) = after_element(own, name, last) else {
                    return Ok(tags);
                };
                context = inner_context(own, name, element, &values);
                rest = left;
            }
            Markup::End(name, more) => {
                let Some(last) = after_tag(more) else {
                    return Ok(tags);
                };
                context = outer_context(context, name);
                rest = last;
            }
            Markup::Other(more) => rest = more,
            Markup::Unfinished => return Ok(tags),
        }
    }
}
