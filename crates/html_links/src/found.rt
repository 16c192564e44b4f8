//! The attributes of a tag that are read.
ghost use Rattle.std.specs.Prelude.{◌≡◌, true, codes};
ghost use Rattle.html_links.specs.Tags.{tag_of};
ghost use Rattle.html_links.specs.Comments.{bytes_at};
ghost use Rattle.html_links.specs.Shown.{attribute_at};
ghost use Rattle.html_links.specs.Elements.{attribute_names_at, names_of_attributes};
ghost use Rattle.html_links.specs.Passed.{name_nothing};
ghost use Rattle.html_links.specs.Values.{is_absent, or_left, or_named, values_at, no_values, with_attribute, values_in, tag_values};

use crate::element::{AttributeNames, Element, has_rare_names, names_of_attributes};
use crate::lengths::may_be;
use crate::raw_text::same_name;
use crate::tag::{AttributeAt, Piece, next_piece};

/// The values of the attributes that are read, as written, the first of each name.
#[derive(Clone, Copy)]
pub(crate) struct Values<'a> {
    pub(crate) first: Option<&'a [u8]>,
    pub(crate) second: Option<&'a [u8]>,
    pub(crate) third: Option<&'a [u8]>,
    pub(crate) style: Option<&'a [u8]>,
    pub(crate) id: Option<&'a [u8]>,
    pub(crate) name: Option<&'a [u8]>,
    /// Whether the tag has a slash before its `>`.
    pub(crate) self_closing: bool,
    /// The number of bytes from the first value on, or 0 if it is absent.
    pub(crate) first_left: usize,
    /// That number for the second value.
    pub(crate) second_left: usize,
    /// That number for the third value.
    pub(crate) third_left: usize,
    /// That number for the value of `style`.
    pub(crate) style_left: usize,
}

impl<'a> Values<'a> {
    /// The values before any tag is read: all of them are absent.
    pub(crate) fn none() -> Values<'a>
        ensures { values_at result ≡ no_values }
    {
        Values {
            first: None,
            second: None,
            third: None,
            style: None,
            id: None,
            name: None,
            self_closing: false,
            first_left: 0,
            second_left: 0,
            third_left: 0,
            style_left: 0,
        }
    }

    /// Whether none of them names a document or an anchor, or is a style.
    #[inline(always)]
    pub(crate) fn name_nothing(&self) -> bool
        ensures { result ≡ name_nothing (values_at self.now) }
    {
        is_absent(self.first)
            && is_absent(self.second)
            && is_absent(self.style)
            && is_absent(self.id)
    }

    /// Makes all values absent, and the tag one that does not close itself, before a tag is read.
    #[inline(always)]
    pub(crate) fn clear(&mut self)
        ensures { values_at self.new ≡ no_values }
    {
        self.first = None;
        self.second = None;
        self.third = None;
        self.style = None;
        self.id = None;
        self.name = None;
        self.self_closing = false;
        self.first_left = 0;
        self.second_left = 0;
        self.third_left = 0;
        self.style_left = 0;
    }
}

/// The lengths of the names of attributes that are read of an element that has no rare names, or of each.
static LENGTHS: [u16; 32] = [
    0x0, 0x0, 0x200, 0x40, 0x8, 0x0, 0x200, 0x0, 0x208, 0x482, 0x0, 0x0, 0x80, 0x0, 0x8, 0x0, 0xa0,
    0x0, 0x4, 0x2034, 0x8, 0x0, 0x10, 0x0, 0x200, 0x0, 0x0, 0x0, 0x0, 0x0, 0x0, 0x0,
];

/// Whether no attribute with the name was found. An attribute without a value is present, and its value is empty.
#[inline(always)]
pub(crate) fn is_absent(value: Option<&[u8]>) -> bool
    ensures { result ≡ is_absent (bytes_at value.entry) }
{
    match value {
        Some(_) => false,
        None => true,
    }
}

/// Takes the value of an attribute if it has this name and no value was taken before.
#[inline(always)]
fn take_named<'a>(value: &mut Option<&'a [u8]>, name: &[u8], attribute: AttributeAt<'a>)
    ensures { bytes_at value.new ≡ or_named (bytes_at value.old) name.now (attribute_at attribute.entry) }
{
    if value.is_none() && same_name(attribute.name, name) {
        *value = Some(attribute.value);
    }
}

/// Takes the value of an attribute and the number of bytes from it on, if it has this name and no value was taken before.
#[inline(always)]
fn take_placed<'a>(
    value: &mut Option<&'a [u8]>,
    left: &mut usize,
    name: &[u8],
    attribute: AttributeAt<'a>,
)
    ensures value { bytes_at value.new ≡ or_named (bytes_at value.old) name.now (attribute_at attribute.entry) }
    ensures left { left.new ≡ or_left (bytes_at value.old) left.old name.now (attribute_at attribute.entry) }
{
    if same_name(attribute.name, name) && value.is_none() {
        *value = Some(attribute.value);
        *left = attribute.left;
    }
}

/// Whether the name is `href` in lower case. A name in another case is compared later, with all names that are read.
#[inline(always)]
fn is_href(name: &[u8]) -> bool
    ensures { result ≡ true → name.now ≡ codes "href" }
{
    matches!(name, [b'h', b'r', b'e', b'f'])
}

/// Whether an attribute with this name is the link of an `a` by its four letters, as most links are.
#[inline(always)]
fn is_link(element: Element, name: &[u8]) -> bool
    ensures { result ≡ true → (element ≡ Element.Anchor) × (name.now ≡ codes "href") }
{
    match element {
        Element::Anchor => is_href(name),
        _ => false,
    }
}

/// Takes the `href` of an `a`.
#[inline(always)]
#[tactic(auto, using(crate::proofs::Naming::or_none))]
fn take_link<'a>(values: &mut Values<'a>, attribute: AttributeAt<'a>)
    requires { attribute.name.now ≡ codes "href" }
    ensures { values_at values.new ≡ with_attribute (values_at values.old) (names_of_attributes Element.Anchor) (attribute_at attribute.entry) }
{
    if values.first.is_none() {
        values.first = Some(attribute.value);
        values.first_left = attribute.left;
    }
}

/// Takes the values of another attribute.
#[inline(always)]
fn take_attribute<'a>(values: &mut Values<'a>, element: Element, attribute: AttributeAt<'a>)
    ensures { values_at values.new ≡ with_attribute (values_at values.old) (names_of_attributes element) (attribute_at attribute.entry) }
{
    if is_link(element, attribute.name) {
        take_link(values, attribute);
        return;
    }
    if !has_rare_names(element) && !may_be(&LENGTHS, attribute.name) {
        return;
    }
    take_other(values, &names_of_attributes(element), attribute);
}

/// Takes the values of another attribute, by the names that are read.
#[inline(always)]
fn take_other<'a>(
    values: &mut Values<'a>,
    names_to_read: &AttributeNames,
    attribute: AttributeAt<'a>,
)
    ensures { values_at values.new ≡ with_attribute (values_at values.old) (attribute_names_at names_to_read.now) (attribute_at attribute.entry) }
{
    take_placed(
        &mut values.first,
        &mut values.first_left,
        names_to_read.first,
        attribute,
    );
    take_placed(
        &mut values.second,
        &mut values.second_left,
        names_to_read.second,
        attribute,
    );
    take_placed(
        &mut values.third,
        &mut values.third_left,
        names_to_read.third,
        attribute,
    );
    take_placed(
        &mut values.style,
        &mut values.style_left,
        b"style",
        attribute,
    );
    take_named(&mut values.id, b"id", attribute);
    take_named(&mut values.name, names_to_read.name, attribute);
}

/// Finds the values of a tag that are read, from the bytes after its name. Returns the bytes after the tag, or nothing if the tag
/// does not end.
#[inline(always)]
pub(crate) fn values_in<'a>(
    element: Element,
    bytes: &'a [u8],
    values: &mut Values<'a>,
) -> Option<&'a [u8]>
    ensures { tag_values (values_at values.new) result ≡ values_in (names_of_attributes element) (tag_of bytes.now) }
{
    values.clear();
    let mut rest = bytes;
    'pieces: loop {
        match next_piece(rest) {
            Piece::Attribute(attribute, more) => {
                take_attribute(values, element, attribute);
                rest = more;
            }
            Piece::Slash(more) => rest = more,
            Piece::End(self_closing, last) => {
                values.self_closing = self_closing;
                return Some(last);
            }
            Piece::Unfinished => return None,
        }
    }
}
