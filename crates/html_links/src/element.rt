//! The elements whose attributes name documents, and these attributes.
ghost use Rattle.std.specs.Prelude.{◌≡◌, map};
ghost use Rattle.html_links.specs.Tags.{lower};
ghost use Rattle.html_links.specs.Comments.{bytes_at};
ghost use Rattle.html_links.specs.Elements.{is_anchor, is_background, is_embedded, is_inert, is_shadow, is_usual, element_of, has_rare_names, attribute_names_at, names_of_attributes, attribute_names};

use crate::lengths::may_be;
use crate::raw_text::same_name;

/// The kinds of elements, by the attributes in which they name documents.
#[derive(Clone, Copy)]
pub(crate) enum Element {
    Anchor,
    Annotation,
    Area,
    Background,
    Base,
    Button,
    Embedded,
    Font,
    Frame,
    Image,
    InlineFrame,
    Input,
    Link,
    Math,
    Meta,
    Object,
    Param,
    Source,
    Svg,
    Template,
    Video,
    Other,
}

/// The names of the attributes that are read of an element. An empty name is that of no attribute.
#[derive(Clone, Copy)]
pub(crate) struct AttributeNames {
    pub(crate) first: &'static [u8],
    pub(crate) second: &'static [u8],
    pub(crate) third: &'static [u8],
    pub(crate) name: &'static [u8],
}

/// The lengths of the names of elements that name documents, whose content is text, or that begin SVG or MathML.
static LENGTHS: [u16; 32] = [
    0x0, 0x19, 0x28, 0x0, 0x0, 0x10, 0x10, 0x0, 0x0, 0x34, 0x0, 0x0, 0x8, 0x8, 0xc0, 0x20, 0x110,
    0x0, 0x0, 0x34, 0x92, 0x4, 0x10, 0x0, 0x4, 0x0, 0x0, 0x0, 0x0, 0x0, 0x0, 0x0,
];

/// Whether the element with this name, in any case, has links in `href` and `xlink:href`: `a`, and `image` and `use` of SVG.
fn is_anchor(name: &[u8]) -> bool
    ensures { result ≡ is_anchor (map lower name.now) }
{
    same_name(name, b"a") || same_name(name, b"image") || same_name(name, b"use")
}

/// Whether the element with this name, in any case, has a link in `background`: `body`, and a table, its sections, rows and
/// cells.
fn is_background(name: &[u8]) -> bool
    ensures { result ≡ is_background (map lower name.now) }
{
    same_name(name, b"body")
        || same_name(name, b"table")
        || same_name(name, b"td")
        || same_name(name, b"th")
        || same_name(name, b"tr")
        || same_name(name, b"thead")
        || same_name(name, b"tbody")
        || same_name(name, b"tfoot")
}

/// Whether the element with this name, in any case, has a link in `src`, and in no other attribute.
fn is_embedded(name: &[u8]) -> bool
    ensures { result ≡ is_embedded (map lower name.now) }
{
    same_name(name, b"audio")
        || same_name(name, b"embed")
        || same_name(name, b"script")
        || same_name(name, b"track")
}

/// Whether the first letter and the length of a name show that the element names no documents and has no text.
#[inline(always)]
pub(crate) fn is_usual(name: &[u8]) -> bool
    ensures { result ≡ is_usual name.now }
{
    !may_be(&LENGTHS, name)
}

/// The element with this name, in any case.
pub(crate) fn element_of(name: &[u8]) -> Element
    ensures { result ≡ element_of (map lower name.now) }
{
    if is_anchor(name) {
        Element::Anchor
    } else if same_name(name, b"img") {
        Element::Image
    } else if same_name(name, b"source") {
        Element::Source
    } else if is_embedded(name) {
        Element::Embedded
    } else if is_background(name) {
        Element::Background
    } else if same_name(name, b"area") {
        Element::Area
    } else if same_name(name, b"base") {
        Element::Base
    } else if same_name(name, b"link") {
        Element::Link
    } else if same_name(name, b"meta") {
        Element::Meta
    } else if same_name(name, b"object") {
        Element::Object
    } else if same_name(name, b"video") {
        Element::Video
    } else if same_name(name, b"template") {
        Element::Template
    } else if same_name(name, b"frame") {
        Element::Frame
    } else if same_name(name, b"iframe") {
        Element::InlineFrame
    } else if same_name(name, b"input") {
        Element::Input
    } else if same_name(name, b"button") {
        Element::Button
    } else if same_name(name, b"param") {
        Element::Param
    } else if same_name(name, b"svg") {
        Element::Svg
    } else if same_name(name, b"math") {
        Element::Math
    } else {
        Element::Other
    }
}

/// The attributes that name documents, in the order of their links, and those that decide whether others do.
pub(crate) fn names_of_attributes(element: Element) -> AttributeNames
    ensures { attribute_names_at result ≡ names_of_attributes element }
{
    match element {
        Element::Anchor => names(b"href", b"xlink:href", b""),
        Element::Annotation => names(b"href", b"xlink:href", b"encoding"),
        Element::Area | Element::Base => names(b"href", b"", b""),
        Element::Background => names(b"background", b"", b""),
        Element::Embedded => names(b"src", b"", b""),
        Element::Button => names(b"formaction", b"", b"type"),
        Element::Font => names(b"color", b"face", b"size"),
        Element::Frame => names(b"src", b"longdesc", b""),
        Element::Image => names(b"src", b"srcset", b"longdesc"),
        Element::InlineFrame => names(b"src", b"longdesc", b"srcdoc"),
        Element::Source => names(b"src", b"srcset", b""),
        Element::Input => names(b"src", b"formaction", b"type"),
        Element::Link => AttributeNames {
            first: b"href",
            second: b"imagesrcset",
            third: b"rel",
            name: b"itemprop",
        },
        Element::Meta => names(b"content", b"http-equiv", b"property"),
        Element::Object => names(b"data", b"", b""),
        Element::Param => names(b"value", b"", b""),
        Element::Video => names(b"src", b"poster", b""),
        Element::Template => names(b"", b"", b"shadowrootmode"),
        Element::Math | Element::Svg | Element::Other => names(b"", b"", b""),
    }
}

/// Whether some attributes are read only of this element.
#[inline(always)]
pub(crate) fn has_rare_names(element: Element) -> bool
    ensures { result ≡ has_rare_names element }
{
    matches!(element, Element::Annotation | Element::Font)
}

/// The names of the first, second and third attribute that are read, and `name`. An empty name is that of no attribute.
fn names(first: &'static [u8], second: &'static [u8], third: &'static [u8]) -> AttributeNames
    ensures { attribute_names_at result ≡ attribute_names first.now second.now third.now }
{
    AttributeNames {
        first,
        second,
        third,
        name: b"name",
    }
}

/// Whether the contents of the element are not part of the page, by the third value that is read of it.
pub(crate) fn is_inert(element: Element, mode: Option<&[u8]>) -> bool
    ensures { result ≡ is_inert element (bytes_at mode.entry) }
{
    match element {
        Element::Template => !is_shadow(mode),
        _ => false,
    }
}

/// Whether a template becomes a shadow root, by the value of its `shadowrootmode` as written.
fn is_shadow(mode: Option<&[u8]>) -> bool
    ensures { result ≡ is_shadow (bytes_at mode.entry) }
{
    match mode {
        Some(mode) => same_name(mode, b"open") || same_name(mode, b"closed"),
        None => false,
    }
}
