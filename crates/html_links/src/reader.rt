//! The reader of a document.
ghost use Rattle.std.specs.Prelude.{◌≡◌, ◌++◌, [], map, IfOk, OnOk, bytes_eq};
ghost use Rattle.html_links.specs.Comments.{bytes_at};
ghost use Rattle.html_links.specs.Tags.{lower};
ghost use Rattle.html_links.specs.References.{text_of};
ghost use Rattle.html_links.specs.Values.{values_at};
ghost use Rattle.html_links.specs.Links.{value_links, text_links, begins_fragment, is_link_type, types_after, is_related, is_keyword, submits, submits_nothing, is_open_graph, is_card, names_url, is_data, names_data, form_if, meta_form, first_form, second_form, first_links, second_links, third_links, links_of, ids_with, anchors_with, ids_of, base_of, base_with, or_later, inner_form, inner_third, inner_links_with, inner_links_of, is_base, srcdoc_links};
ghost use Rattle.html_links.specs.Positions.{all_at, positions_of};
ghost use Rattle.html_links.specs.Reads.{base_at};

use crate::bytes::parts;
use crate::context::{Syntax, context_of};
use crate::element::Element;
use crate::found::{Values, is_absent};
use crate::links::{DocumentIds, Links};
use crate::next_tag::next_tag;
use crate::placed::push_tag;
use crate::raw_text::same_name;
use crate::references::{decode, is_coded};
use crate::refresh::target_of;
use crate::srcset::{push_candidates, split_unspaced};
use crate::style::push_urls;
use std::alloc::{AllocError, Global};

/// The `href` of a document's first `base` that has one, with its character references decoded.
pub type Base = Option<Vec<u8>>;

/// How the value of an attribute names documents.
#[derive(Clone, Copy)]
pub(crate) enum Form {
    Link,
    /// A link that may not begin with `#`, since that leads to an anchor of the document in a `srcdoc`.
    Outward,
    List,
    Refresh,
    Style,
    Nothing,
}

/// Passes on the links of a document as `read_places` does, and its ids: each `id` of a tag, and each `name` of an `a`.
///
/// # Errors
/// If an allocation fails.
pub fn read_page<L: Links, I: DocumentIds>(
    alloc: Global,
    syntax: Syntax,
    document: &[u8],
    styles: bool,
    links: &mut L,
    ids: &mut I,
) -> Result<Base, AllocError>
    ensures links { OnOk result (L.texts links.new ≡ L.texts links.old ++ links_of styles syntax document.now) }
    ensures positions { OnOk result (L.positions links.new ≡ L.positions links.old ++ positions_of styles syntax document.now) }
    ensures ids { OnOk result (I.texts ids.new ≡ I.texts ids.old ++ ids_of syntax document.now) }
    ensures base { IfOk result (λ base. base_at base ≡ base_of syntax document.now) }
{
    let mut decoded = Vec::new(alloc);
    let mut base = None;
    let mut values = Values::none();
    let mut context = context_of(syntax);
    let mut rest = document;
    'tags: while let Some(tag) = next_tag(context, rest, &mut values) {
        push_tag(styles, document.len(), tag, &values, &mut decoded, links)?;
        push_ids(tag.name, &values, &mut decoded, ids)?;
        take_base(alloc, &mut base, tag.element, &values)?;
        context = tag.context;
        rest = tag.rest;
    }
    Ok(base)
}

/// Passes on the ids of a tag with this name: its `id`, and then its `name` if the tag is an `a`.
#[inline(always)]
fn push_ids<I: DocumentIds>(
    name: &[u8],
    values: &Values<'_>,
    decoded: &mut Vec<u8>,
    ids: &mut I,
) -> Result<(), AllocError>
    ensures { OnOk result (I.texts ids.new ≡ I.texts ids.old ++ ids_with (map lower name.now) (values_at values.now)) }
{
    push_id(values.id, decoded, ids)?;
    push_anchor(name, values, decoded, ids)
}

/// Passes on the value of the `name` attribute if the tag is an `a`, in any case.
#[inline(always)]
fn push_anchor<I: DocumentIds>(
    name: &[u8],
    values: &Values<'_>,
    decoded: &mut Vec<u8>,
    ids: &mut I,
) -> Result<(), AllocError>
    ensures { OnOk result (I.texts ids.new ≡ I.texts ids.old ++ anchors_with (map lower name.now) (values_at values.now)) }
{
    if same_name(name, b"a") {
        push_id(values.name, decoded, ids)
    } else {
        Ok(())
    }
}

/// Passes on an id with its character references decoded. It may overwrite `decoded`.
fn push_id<I: DocumentIds>(
    value: Option<&[u8]>,
    decoded: &mut Vec<u8>,
    ids: &mut I,
) -> Result<(), AllocError>
    ensures { OnOk result (I.texts ids.new ≡ I.texts ids.old ++ value_links Form.Link (bytes_at value.entry)) }
{
    let Some(value) = value else {
        return Ok(());
    };
    if !is_coded(value) {
        return ids.push(value);
    }
    decoded.clear();
    decode(value, decoded)?;
    ids.push(decoded.as_slice())
}

/// Stores the base of a tag, if there is no base yet.
#[inline(always)]
pub(crate) fn take_base(
    alloc: Global,
    base: &mut Base,
    element: Element,
    values: &Values<'_>,
) -> Result<(), AllocError>
    ensures { OnOk result (base_at base.new ≡ or_later (base_at base.old) (base_with element (values_at values.now))) }
{
    if base.is_some() {
        return Ok(());
    }
    match element {
        Element::Base => match values.first {
            Some(href) => {
                let mut text = Vec::new(alloc);
                decode(href, &mut text)?;
                *base = Some(text);
                Ok(())
            }
            None => Ok(()),
        },
        _ => Ok(()),
    }
}

/// Passes on the links of the first value, all at this position.
#[inline(always)]
pub(crate) fn push_first<L: Links>(
    element: Element,
    values: &Values<'_>,
    position: usize,
    decoded: &mut Vec<u8>,
    links: &mut L,
) -> Result<(), AllocError>
    ensures texts { OnOk result (L.texts links.new ≡ L.texts links.old ++ first_links element (values_at values.now)) }
    ensures positions { OnOk result (L.positions links.new ≡ L.positions links.old ++ all_at position (first_links element (values_at values.now))) }
{
    let Some(value) = values.first else {
        return Ok(());
    };
    let form = first_form(element, values, decoded)?;
    push_some(form, value, position, decoded, links)
}

/// Passes on the links of the second value, all at this position.
#[inline(always)]
pub(crate) fn push_second<L: Links>(
    element: Element,
    values: &Values<'_>,
    position: usize,
    decoded: &mut Vec<u8>,
    links: &mut L,
) -> Result<(), AllocError>
    ensures texts { OnOk result (L.texts links.new ≡ L.texts links.old ++ second_links element (values_at values.now)) }
    ensures positions { OnOk result (L.positions links.new ≡ L.positions links.old ++ all_at position (second_links element (values_at values.now))) }
{
    let Some(value) = values.second else {
        return Ok(());
    };
    let form = second_form(element, values, decoded)?;
    push_some(form, value, position, decoded, links)
}

/// Passes on the links of the third value, all at this position.
#[inline(always)]
pub(crate) fn push_third<L: Links>(
    element: Element,
    values: &Values<'_>,
    position: usize,
    decoded: &mut Vec<u8>,
    links: &mut L,
) -> Result<(), AllocError>
    ensures texts { OnOk result (L.texts links.new ≡ L.texts links.old ++ third_links element (values_at values.now)) }
    ensures positions { OnOk result (L.positions links.new ≡ L.positions links.old ++ all_at position (third_links element (values_at values.now))) }
{
    match element {
        Element::Image => push_value(Form::Link, values.third, position, decoded, links),
        Element::InlineFrame => push_srcdoc(values.third, position, decoded, links),
        _ => Ok(()),
    }
}

/// Passes on the links of the document in a `srcdoc`, all at this position.
#[inline(never)]
fn push_srcdoc<L: Links>(
    value: Option<&[u8]>,
    position: usize,
    decoded: &mut Vec<u8>,
    links: &mut L,
) -> Result<(), AllocError>
    ensures texts { OnOk result (L.texts links.new ≡ L.texts links.old ++ srcdoc_links (bytes_at value.entry)) }
    ensures positions { OnOk result (L.positions links.new ≡ L.positions links.old ++ all_at position (srcdoc_links (bytes_at value.entry))) }
{
    let Some(value) = value else {
        return Ok(());
    };
    let mut document = Vec::new(*decoded.allocator());
    decode(value, &mut document)?;
    push_document(document.as_slice(), position, decoded, links)
}

/// Passes on the links of a document in a `srcdoc` up to its `base`, without those of its styles and of a `srcdoc` in it. All are at
/// this position.
#[tactic(auto, using(crate::proofs::Passing::more_inner, crate::proofs::Passing::last_inner, crate::proofs::Placing::more_inner_at, crate::proofs::Placing::last_inner_at, crate::proofs::Placing::no_inner_at))]
fn push_document<L: Links>(
    document: &[u8],
    position: usize,
    decoded: &mut Vec<u8>,
    links: &mut L,
) -> Result<(), AllocError>
    ensures texts { OnOk result (L.texts links.new ≡ L.texts links.old ++ inner_links_of document.now) }
    ensures positions { OnOk result (L.positions links.new ≡ L.positions links.old ++ all_at position (inner_links_of document.now)) }
{
    let mut values = Values::none();
    let mut context = context_of(Syntax::Html);
    let mut rest = document;
    'tags: while let Some(tag) = next_tag(context, rest, &mut values) {
        if is_base(tag.element, &values) {
            return Ok(());
        }
        push_inner(tag.element, &values, position, decoded, links)?;
        context = tag.context;
        rest = tag.rest;
    }
    Ok(())
}

/// Whether the tag is a `base` with an `href`.
fn is_base(element: Element, values: &Values<'_>) -> bool
    ensures { result ≡ is_base element (values_at values.now) }
{
    match element {
        Element::Base => !is_absent(values.first),
        _ => false,
    }
}

/// Passes on the links of a tag's values in a document in a `srcdoc`, all at this position.
#[tactic(auto, using(crate::proofs::Placing::three_at))]
fn push_inner<L: Links>(
    element: Element,
    values: &Values<'_>,
    position: usize,
    decoded: &mut Vec<u8>,
    links: &mut L,
) -> Result<(), AllocError>
    ensures texts { OnOk result (L.texts links.new ≡ L.texts links.old ++ inner_links_with element (values_at values.now)) }
    ensures positions { OnOk result (L.positions links.new ≡ L.positions links.old ++ all_at position (inner_links_with element (values_at values.now))) }
{
    let first = inner_form(first_form(element, values, decoded)?);
    push_value(first, values.first, position, decoded, links)?;
    let second = inner_form(second_form(element, values, decoded)?);
    push_value(second, values.second, position, decoded, links)?;
    push_inner_third(element, values, position, decoded, links)
}

/// Passes on the link of the third value in a document in a `srcdoc`, at this position.
fn push_inner_third<L: Links>(
    element: Element,
    values: &Values<'_>,
    position: usize,
    decoded: &mut Vec<u8>,
    links: &mut L,
) -> Result<(), AllocError>
    ensures texts { OnOk result (L.texts links.new ≡ L.texts links.old ++ inner_third element (values_at values.now)) }
    ensures positions { OnOk result (L.positions links.new ≡ L.positions links.old ++ all_at position (inner_third element (values_at values.now))) }
{
    match element {
        Element::Image => push_value(Form::Outward, values.third, position, decoded, links),
        _ => Ok(()),
    }
}

/// How a value names documents in a document in a `srcdoc`, if it does so like this on a page.
fn inner_form(form: Form) -> Form
    ensures { result ≡ inner_form form }
{
    match form {
        Form::Link => Form::Outward,
        _ => form,
    }
}

/// How the first value names documents.
#[inline(always)]
fn first_form(
    element: Element,
    values: &Values<'_>,
    decoded: &mut Vec<u8>,
) -> Result<Form, AllocError>
    ensures { IfOk result (λ form. form ≡ first_form element (values_at values.now)) }
{
    match element {
        Element::Base | Element::Font => Ok(Form::Nothing),
        Element::Meta => meta_form(values, decoded),
        Element::Link => Ok(form_if(is_related(values.third, values.name, decoded)?, Form::Link)),
        Element::Input => Ok(form_if(is_keyword(b"image", values.third, decoded)?, Form::Link)),
        Element::Button => Ok(form_if(!submits_nothing(values.third, decoded)?, Form::Link)),
        Element::Param => Ok(form_if(names_data(values.name, decoded)?, Form::Link)),
        _ => Ok(Form::Link),
    }
}

/// How the second value names documents.
#[inline(always)]
fn second_form(
    element: Element,
    values: &Values<'_>,
    decoded: &mut Vec<u8>,
) -> Result<Form, AllocError>
    ensures { IfOk result (λ form. form ≡ second_form element (values_at values.now)) }
{
    match element {
        Element::Base | Element::Font | Element::Meta => Ok(Form::Nothing),
        Element::Link => Ok(form_if(is_related(values.third, values.name, decoded)?, Form::List)),
        Element::Image | Element::Source => Ok(Form::List),
        Element::Input => Ok(form_if(submits(values.third, decoded)?, Form::Link)),
        _ => Ok(Form::Link),
    }
}

/// The form if the condition is true, and otherwise `Nothing`.
fn form_if(is: bool, form: Form) -> Form
    ensures { result ≡ form_if is form }
{
    if is { form } else { Form::Nothing }
}

/// How the `content` of a `meta` names documents: as a refresh by its `http-equiv`, or as a link by its `property` or `name`.
fn meta_form(values: &Values<'_>, decoded: &mut Vec<u8>) -> Result<Form, AllocError>
    ensures { IfOk result (λ form. form ≡ meta_form (values_at values.now)) }
{
    if is_keyword(b"refresh", values.second, decoded)? {
        return Ok(Form::Refresh);
    }
    if names_url(values.third, decoded)? {
        return Ok(Form::Link);
    }
    Ok(form_if(names_url(values.name, decoded)?, Form::Link))
}

/// Whether the `type` of an `input` says that it submits its form.
fn submits(kind: Option<&[u8]>, decoded: &mut Vec<u8>) -> Result<bool, AllocError>
    ensures { IfOk result (λ is. is ≡ submits (bytes_at kind.entry)) }
{
    if is_keyword(b"image", kind, decoded)? {
        return Ok(true);
    }
    is_keyword(b"submit", kind, decoded)
}

/// Whether the `type` of a `button` says that it does not submit its form.
fn submits_nothing(kind: Option<&[u8]>, decoded: &mut Vec<u8>) -> Result<bool, AllocError>
    ensures { IfOk result (λ is. is ≡ submits_nothing (bytes_at kind.entry)) }
{
    if is_keyword(b"reset", kind, decoded)? {
        return Ok(true);
    }
    is_keyword(b"button", kind, decoded)
}

/// Whether a value is this keyword, in any case.
fn is_keyword(word: &[u8], value: Option<&[u8]>, decoded: &mut Vec<u8>) -> Result<bool, AllocError>
    ensures { IfOk result (λ is. is ≡ is_keyword word.now (bytes_at value.entry)) }
{
    let Some(value) = value else {
        return Ok(false);
    };
    decoded.clear();
    decode(value, decoded)?;
    Ok(same_name(decoded.as_slice(), word))
}

/// Whether the `property` or the `name` of a `meta` says that its content is a URL.
fn names_url(name: Option<&[u8]>, decoded: &mut Vec<u8>) -> Result<bool, AllocError>
    ensures { IfOk result (λ is. is ≡ names_url (bytes_at name.entry)) }
{
    let Some(name) = name else {
        return Ok(false);
    };
    decoded.clear();
    decode(name, decoded)?;
    let name = decoded.as_slice();
    Ok(is_open_graph(name) || is_card(name))
}

/// Whether the two texts are equal. Letters in different cases are different.
fn is_text(found: &[u8], text: &[u8]) -> bool
    ensures { result ≡ bytes_eq found.now text.now }
{
    found == text
}

/// Whether the name is that of an Open Graph property whose value is a URL. It must be in lower case.
fn is_open_graph(name: &[u8]) -> bool
    ensures { result ≡ is_open_graph name.now }
{
    is_text(name, b"og:url")
        || is_text(name, b"og:image")
        || is_text(name, b"og:image:url")
        || is_text(name, b"og:image:secure_url")
        || is_text(name, b"og:video")
        || is_text(name, b"og:video:url")
        || is_text(name, b"og:video:secure_url")
        || is_text(name, b"og:audio")
        || is_text(name, b"og:audio:url")
        || is_text(name, b"og:audio:secure_url")
}

/// Whether the name is that of a property of X's cards whose value is a URL. It must be in lower case.
fn is_card(name: &[u8]) -> bool
    ensures { result ≡ is_card name.now }
{
    is_text(name, b"twitter:image")
        || is_text(name, b"twitter:image:src")
        || is_text(name, b"twitter:player")
        || is_text(name, b"twitter:player:stream")
}

/// Whether the `name` of a `param` says that its value is the URL of a plugin's data.
fn names_data(name: Option<&[u8]>, decoded: &mut Vec<u8>) -> Result<bool, AllocError>
    ensures { IfOk result (λ is. is ≡ names_data (bytes_at name.entry)) }
{
    let Some(name) = name else {
        return Ok(false);
    };
    decoded.clear();
    decode(name, decoded)?;
    Ok(is_data(decoded.as_slice()))
}

/// Whether the name, in any case, is that of a plugin's parameter whose value is the URL of its data.
fn is_data(name: &[u8]) -> bool
    ensures { result ≡ is_data name.now }
{
    same_name(name, b"movie")
        || same_name(name, b"src")
        || same_name(name, b"data")
        || same_name(name, b"url")
}

/// Whether the `rel` of a `link`, or its `itemprop` if it has no `rel`, makes it a link to a document.
fn is_related(
    rel: Option<&[u8]>,
    item: Option<&[u8]>,
    decoded: &mut Vec<u8>,
) -> Result<bool, AllocError>
    ensures { IfOk result (λ is. is ≡ is_related (bytes_at rel.entry) (bytes_at item.entry)) }
{
    let Some(value) = rel else {
        return Ok(!is_absent(item));
    };
    decoded.clear();
    decode(value, decoded)?;
    Ok(has_link_type(decoded.as_slice()))
}

/// Passes on the links of a value, all at this position. Most values are absent, which is tested inline.
#[inline(always)]
pub(crate) fn push_value<L: Links>(
    form: Form,
    value: Option<&[u8]>,
    position: usize,
    decoded: &mut Vec<u8>,
    links: &mut L,
) -> Result<(), AllocError>
    ensures texts { OnOk result (L.texts links.new ≡ L.texts links.old ++ value_links form (bytes_at value.entry)) }
    ensures positions { OnOk result (L.positions links.new ≡ L.positions links.old ++ all_at position (value_links form (bytes_at value.entry))) }
{
    let Some(value) = value else {
        return Ok(());
    };
    push_some(form, value, position, decoded, links)
}

/// Passes on the links of a value as written, with its character references decoded, all at this position. It may overwrite `decoded`.
#[inline(never)]
fn push_some<L: Links>(
    form: Form,
    value: &[u8],
    position: usize,
    decoded: &mut Vec<u8>,
    links: &mut L,
) -> Result<(), AllocError>
    ensures texts { OnOk result (L.texts links.new ≡ L.texts links.old ++ text_links form (text_of value.now)) }
    ensures positions { OnOk result (L.positions links.new ≡ L.positions links.old ++ all_at position (text_links form (text_of value.now))) }
{
    let alloc = *decoded.allocator();
    if !is_coded(value) {
        return push_text(alloc, form, value, position, links);
    }
    decoded.clear();
    decode(value, decoded)?;
    push_text(alloc, form, decoded.as_slice(), position, links)
}

/// Passes on the links of a text in which character references are already decoded, all at this position.
fn push_text<L: Links>(
    alloc: Global,
    form: Form,
    text: &[u8],
    position: usize,
    links: &mut L,
) -> Result<(), AllocError>
    ensures texts { OnOk result (L.texts links.new ≡ L.texts links.old ++ text_links form text.now) }
    ensures positions { OnOk result (L.positions links.new ≡ L.positions links.old ++ all_at position (text_links form text.now)) }
{
    match form {
        Form::Link => links.push(position, text),
        Form::Outward => if begins_fragment(text) {
            Ok(())
        } else {
            links.push(position, text)
        },
        Form::List => push_candidates(text, position, links),
        Form::Refresh => match target_of(text) {
            Some(target) => links.push(position, target),
            None => Ok(()),
        },
        Form::Style => push_urls(alloc, text, position, links),
        Form::Nothing => Ok(()),
    }
}

/// Whether the text begins with `#`.
fn begins_fragment(text: &[u8]) -> bool
    ensures { result ≡ begins_fragment text.now }
{
    match parts(text) {
        Some((first, _)) => first == b'#',
        None => false,
    }
}

/// Whether a keyword of a `rel` makes a link to a document. A keyword that names a host does not.
fn is_link_type(word: &[u8]) -> bool
    ensures { result ≡ is_link_type word.now }
{
    !(same_name(word, b"") || same_name(word, b"preconnect") || same_name(word, b"dns-prefetch"))
}

/// Whether some keyword of a `rel` makes a link to a document.
#[tactic(auto, using(crate::proofs::Linking::found_type, crate::proofs::Linking::type_run, crate::proofs::Linking::next_word))]
fn has_link_type(rel: &[u8]) -> bool
    ensures { result ≡ types_after [] rel.now }
{
    let mut rest = rel;
    'keywords: loop {
        let (word, spaced) = split_unspaced(rest);
        if is_link_type(word) {
            return true;
        }
        let Some((_, more)) = parts(spaced) else {
            return false;
        };
        rest = more;
    }
}
