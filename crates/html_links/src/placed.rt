//! The links of a document, and their positions in it.
ghost use Rattle.std.specs.Prelude.{◌≡◌, ◌++◌, true, length, map, IfOk, OnOk, None, bytes_eq};
ghost use Rattle.html_links.specs.Tags.{lower};
ghost use Rattle.html_links.specs.Comments.{bytes_at};
ghost use Rattle.html_links.specs.References.{text_of};
ghost use Rattle.html_links.specs.Seen.{seen_at, sheet_of};
ghost use Rattle.html_links.specs.Values.{values_at};
ghost use Rattle.html_links.specs.Links.{AreEnough, base_of, needed_texts, links_at, links_of, links_with, style_links_with, value_links};
ghost use Rattle.html_links.specs.Positions.{needed_positions, positions_at, positions_of, positions_with, style_positions, style_positions_with};
ghost use Rattle.html_links.specs.Reads.{base_at};

use crate::context::{Syntax, context_of};
use crate::element::Element;
use crate::found::Values;
use crate::links::{CountedLinks, Links};
use crate::next_tag::{NextTag, next_tag};
use crate::reader::{Base, Form, push_first, push_second, push_third, push_value, take_base};
use crate::references::decode;
use crate::style::{read_style, sheet_of};
use std::alloc::{AllocError, Global};

/// Passes on the links of a document in order, and if `styles` is set those of its styles, each with its position. Returns the base.
///
/// If only a number of links is needed, the document is read up to the tag after which `links` has that number, and the base may be
/// missing.
///
/// # Errors
/// If an allocation fails.
pub fn read_places<L: CountedLinks>(
    alloc: Global,
    syntax: Syntax,
    document: &[u8],
    styles: bool,
    needed: Option<usize>,
    links: &mut L,
) -> Result<Base, AllocError>
    ensures links { OnOk result (needed_texts needed (L.texts links.new) ≡ needed_texts needed (L.texts links.old ++ links_of styles syntax document.now)) }
    ensures positions { OnOk result (needed_positions needed (L.positions links.new) ≡ needed_positions needed (L.positions links.old ++ positions_of styles syntax document.now)) }
    ensures base { needed ≡ None → IfOk result (λ base. base_at base ≡ base_of syntax document.now) }
{
    let mut decoded = Vec::new(alloc);
    let mut base = None;
    let mut values = Values::none();
    let mut context = context_of(syntax);
    let mut rest = document;
    'tags: while let Some(tag) = next_tag(context, rest, &mut values) {
        push_tag(styles, document.len(), tag, &values, &mut decoded, links)?;
        if has_enough(needed, links) {
            return Ok(base);
        }
        take_base(alloc, &mut base, tag.element, &values)?;
        context = tag.context;
        rest = tag.rest;
    }
    Ok(base)
}

/// Whether there are enough links.
#[inline(always)]
fn has_enough<L: CountedLinks>(needed: Option<usize>, links: &L) -> bool
    ensures texts { result ≡ true → AreEnough needed (length (L.texts links.now)) }
    ensures positions { result ≡ true → AreEnough needed (length (L.positions links.now)) }
{
    match needed {
        Some(needed) => links.count() >= needed,
        None => false,
    }
}

/// Passes on the links of a tag in a document that ends at this position, and if `styles` is set those of its styles before them.
#[inline(always)]
pub(crate) fn push_tag<L: Links>(
    styles: bool,
    end: usize,
    tag: NextTag<'_>,
    values: &Values<'_>,
    decoded: &mut Vec<u8>,
    links: &mut L,
) -> Result<(), AllocError>
    ensures texts { OnOk result (L.texts links.new ≡ L.texts links.old ++ links_at styles (seen_at tag.entry (values_at values.now))) }
    ensures positions { OnOk result (L.positions links.new ≡ L.positions links.old ++ positions_at styles end (seen_at tag.entry (values_at values.now))) }
{
    if !styles {
        return push_placed(end, tag.element, values, decoded, links);
    }
    push_styles(end, tag, values, decoded, links)?;
    push_placed(end, tag.element, values, decoded, links)
}

/// Passes on the links of the values of an element in a document that ends at this position.
#[inline(always)]
fn push_placed<L: Links>(
    end: usize,
    element: Element,
    values: &Values<'_>,
    decoded: &mut Vec<u8>,
    links: &mut L,
) -> Result<(), AllocError>
    ensures texts { OnOk result (L.texts links.new ≡ L.texts links.old ++ links_with element (values_at values.now)) }
    ensures positions { OnOk result (L.positions links.new ≡ L.positions links.old ++ positions_with end element (values_at values.now)) }
{
    let first = end.saturating_sub(values.first_left);
    push_first(element, values, first, decoded, links)?;
    let second = end.saturating_sub(values.second_left);
    push_second(element, values, second, decoded, links)?;
    let third = end.saturating_sub(values.third_left);
    push_third(element, values, third, decoded, links)
}

/// Passes on the links of a tag's `style`, and those of the style sheet in the element, in a document that ends at this position.
fn push_styles<L: Links>(
    end: usize,
    tag: NextTag<'_>,
    values: &Values<'_>,
    decoded: &mut Vec<u8>,
    links: &mut L,
) -> Result<(), AllocError>
    ensures texts { OnOk result (L.texts links.new ≡ L.texts links.old ++ style_links_with (values_at values.now) (sheet_of tag.entry.own (map lower tag.entry.name.now) values.now.self_closing tag.entry.text.now)) }
    ensures positions { OnOk result (L.positions links.new ≡ L.positions links.old ++ style_positions_with end (values_at values.now) (sheet_of tag.entry.own (map lower tag.entry.name.now) values.now.self_closing tag.entry.text.now) (length tag.entry.text.now)) }
{
    push_style(end, values, decoded, links)?;
    let sheet = sheet_of(tag.own, tag.name, values.self_closing, tag.text);
    let after = tag.text.len().saturating_sub(sheet.len());
    read_style(
        *decoded.allocator(),
        sheet,
        end.saturating_sub(after),
        links,
    )
}

/// Passes on the links of a tag's `style` in a document that ends at this position.
#[tactic(auto, using(crate::proofs::Placing::as_written))]
fn push_style<L: Links>(
    end: usize,
    values: &Values<'_>,
    decoded: &mut Vec<u8>,
    links: &mut L,
) -> Result<(), AllocError>
    ensures texts { OnOk result (L.texts links.new ≡ L.texts links.old ++ value_links Form.Style (bytes_at values.now.style)) }
    ensures positions { OnOk result (L.positions links.new ≡ L.positions links.old ++ style_positions end (bytes_at values.now.style) values.now.style_left) }
{
    let Some(style) = values.style else {
        return Ok(());
    };
    let position = end.saturating_sub(values.style_left);
    if !is_as_written(style, decoded)? {
        return push_value(Form::Style, values.style, position, decoded, links);
    }
    let after = values.style_left.saturating_sub(style.len());
    read_style(
        *decoded.allocator(),
        style,
        end.saturating_sub(after),
        links,
    )
}

/// Whether the text of a value is the value as written: it has no character references and no NUL. It overwrites `decoded`.
fn is_as_written(value: &[u8], decoded: &mut Vec<u8>) -> Result<bool, AllocError>
    ensures { IfOk result (λ is. is ≡ bytes_eq (text_of value.now) value.now) }
{
    decoded.clear();
    decode(value, decoded)?;
    Ok(decoded.as_slice() == value)
}
