//! The contexts of tags: HTML content, elements of SVG and MathML, and XML.
ghost use Rattle.std.specs.Prelude.{◌≡◌, map};
ghost use Rattle.html_links.specs.Tags.{lower};
ghost use Rattle.html_links.specs.Comments.{bytes_at};
ghost use Rattle.html_links.specs.Values.{values_at};
ghost use Rattle.html_links.specs.Contexts.{context_of, is_foreign, one_more, is_block, is_heading, is_list, is_phrase, is_inserted, is_breakout, is_root, is_svg_point, is_text_point, is_html_encoding, is_annotation, is_html_font, tag_context, foreign_element, xml_element, element_at, html_content, svg_content, math_content, content_context, inner_context, around_point, outer_context, has_templates, ends_template, opens_template, closes_itself};

use crate::element::{Element, element_of};
use crate::found::{Values, is_absent};
use crate::raw_text::same_name;

/// How a document is written.
#[derive(Clone, Copy)]
pub enum Syntax {
    Html,
    Xhtml,
}

/// The context of a tag. A number is that of the integration points around it, and a second one that of the `svg` and `math` elements
/// that are open in the element of SVG or MathML around it.
#[derive(Clone, Copy)]
pub(crate) enum Context {
    Html(u8),
    Svg(u8, u8),
    Math(u8, u8),
    Xml,
}

/// The context in which a document begins.
pub(crate) fn context_of(syntax: Syntax) -> Context
    ensures { result ≡ context_of syntax }
{
    match syntax {
        Syntax::Html => Context::Html(0),
        Syntax::Xhtml => Context::Xml,
    }
}

/// Whether no element has raw text, a tag may close itself, and there are CDATA sections.
#[inline(always)]
pub(crate) fn is_foreign(context: Context) -> bool
    ensures { result ≡ is_foreign context }
{
    !matches!(context, Context::Html(_))
}

/// One more, but no more than 255.
fn one_more(count: u8) -> u8
    ensures { result ≡ one_more count }
{
    if count == 255 { 255 } else { count + 1 }
}

/// Whether the name, in any case, is that of a block of HTML, other than a list or a heading, that ends foreign content.
fn is_block(name: &[u8]) -> bool
    ensures { result ≡ is_block (map lower name.now) }
{
    same_name(name, b"blockquote")
        || same_name(name, b"body")
        || same_name(name, b"center")
        || same_name(name, b"div")
        || same_name(name, b"head")
        || same_name(name, b"hr")
        || same_name(name, b"listing")
        || same_name(name, b"p")
        || same_name(name, b"pre")
        || same_name(name, b"table")
}

/// Whether the name, in any case, is that of a heading, which ends foreign content.
fn is_heading(name: &[u8]) -> bool
    ensures { result ≡ is_heading (map lower name.now) }
{
    same_name(name, b"h1")
        || same_name(name, b"h2")
        || same_name(name, b"h3")
        || same_name(name, b"h4")
        || same_name(name, b"h5")
        || same_name(name, b"h6")
}

/// Whether the name, in any case, is that of a list or its items, which end foreign content.
fn is_list(name: &[u8]) -> bool
    ensures { result ≡ is_list (map lower name.now) }
{
    same_name(name, b"dd")
        || same_name(name, b"dl")
        || same_name(name, b"dt")
        || same_name(name, b"li")
        || same_name(name, b"menu")
        || same_name(name, b"ol")
        || same_name(name, b"ul")
}

/// Whether the name, in any case, is that of an element in a line of text that ends foreign content.
fn is_phrase(name: &[u8]) -> bool
    ensures { result ≡ is_phrase (map lower name.now) }
{
    same_name(name, b"b")
        || same_name(name, b"big")
        || same_name(name, b"code")
        || same_name(name, b"em")
        || same_name(name, b"i")
        || same_name(name, b"nobr")
        || same_name(name, b"s")
        || same_name(name, b"small")
        || same_name(name, b"span")
        || same_name(name, b"strike")
        || same_name(name, b"strong")
        || same_name(name, b"sub")
        || same_name(name, b"sup")
        || same_name(name, b"tt")
        || same_name(name, b"u")
        || same_name(name, b"var")
}

/// Whether the name, in any case, is that of another element that ends foreign content.
fn is_inserted(name: &[u8]) -> bool
    ensures { result ≡ is_inserted (map lower name.now) }
{
    same_name(name, b"br")
        || same_name(name, b"embed")
        || same_name(name, b"img")
        || same_name(name, b"meta")
        || same_name(name, b"ruby")
}

/// Whether a start tag with this name, in any case, ends foreign content, whatever attributes it has.
fn is_breakout(name: &[u8]) -> bool
    ensures { result ≡ is_breakout (map lower name.now) }
{
    is_phrase(name) || is_block(name) || is_list(name) || is_heading(name) || is_inserted(name)
}

/// Whether the name, in any case, is that of an element that begins SVG or MathML.
fn is_root(name: &[u8]) -> bool
    ensures { result ≡ is_root (map lower name.now) }
{
    same_name(name, b"svg") || same_name(name, b"math")
}

/// Whether the name, in any case, is that of an element of SVG whose content is HTML.
fn is_svg_point(name: &[u8]) -> bool
    ensures { result ≡ is_svg_point (map lower name.now) }
{
    same_name(name, b"foreignobject") || same_name(name, b"desc") || same_name(name, b"title")
}

/// Whether the name, in any case, is that of an element of MathML whose content is text.
fn is_text_point(name: &[u8]) -> bool
    ensures { result ≡ is_text_point (map lower name.now) }
{
    same_name(name, b"mi")
        || same_name(name, b"mo")
        || same_name(name, b"mn")
        || same_name(name, b"ms")
        || same_name(name, b"mtext")
}

/// Whether the value of an `encoding`, as written, says that the content is HTML.
fn is_html_encoding(value: Option<&[u8]>) -> bool
    ensures { result ≡ is_html_encoding (bytes_at value.entry) }
{
    match value {
        Some(value) => same_name(value, b"text/html") || same_name(value, b"application/xhtml+xml"),
        None => false,
    }
}

/// Whether the element is an annotation of a formula whose content is HTML.
fn is_annotation(element: Element, values: &Values<'_>) -> bool
    ensures { result ≡ is_annotation element (values_at values.now) }
{
    match element {
        Element::Annotation => is_html_encoding(values.third),
        _ => false,
    }
}

/// Whether the element is a `font` with an attribute of HTML.
fn is_html_font(element: Element, values: &Values<'_>) -> bool
    ensures { result ≡ is_html_font element (values_at values.now) }
{
    match element {
        Element::Font => {
            !(is_absent(values.first) && is_absent(values.second) && is_absent(values.third))
        }
        _ => false,
    }
}

/// The element with this name, in any case, in a context.
pub(crate) fn element_at(context: Context, name: &[u8]) -> Element
    ensures { result ≡ element_at context (map lower name.now) }
{
    match context {
        Context::Html(_) => element_of(name),
        Context::Svg(_, _) | Context::Math(_, _) => foreign_element(name),
        Context::Xml => xml_element(element_of(name)),
    }
}

/// The element of SVG or MathML with this name, in any case. Each has links in `href` and `xlink:href`.
fn foreign_element(name: &[u8]) -> Element
    ensures { result ≡ foreign_element (map lower name.now) }
{
    if same_name(name, b"font") {
        Element::Font
    } else if same_name(name, b"annotation-xml") {
        Element::Annotation
    } else {
        Element::Anchor
    }
}

/// An element in XML, by the element of HTML with its name. If there is none, it may be one of SVG.
fn xml_element(element: Element) -> Element
    ensures { result ≡ xml_element element }
{
    match element {
        Element::Other => Element::Anchor,
        _ => element,
    }
}

/// The context of a start tag with this name, in any case. Some names end foreign content.
pub(crate) fn tag_context(context: Context, name: &[u8]) -> Context
    ensures { result ≡ tag_context context (map lower name.now) }
{
    match context {
        Context::Svg(points, _) | Context::Math(points, _) => {
            if is_breakout(name) {
                Context::Html(points)
            } else {
                context
            }
        }
        _ => context,
    }
}

/// The context of the content of an element in HTML content.
fn html_content(points: u8, element: Element) -> Context
    ensures { result ≡ html_content points element }
{
    match element {
        Element::Svg => Context::Svg(points, 0),
        Element::Math => Context::Math(points, 0),
        _ => Context::Html(points),
    }
}

/// The context of the content of an element of SVG.
fn svg_content(points: u8, nested: u8, name: &[u8]) -> Context
    ensures { result ≡ svg_content points nested (map lower name.now) }
{
    if is_svg_point(name) {
        Context::Html(one_more(points))
    } else if is_root(name) {
        Context::Svg(points, one_more(nested))
    } else {
        Context::Svg(points, nested)
    }
}

/// The context of the content of an element of MathML, which may be an annotation in HTML.
fn math_content(points: u8, nested: u8, name: &[u8], annotation: bool) -> Context
    ensures { result ≡ math_content points nested (map lower name.now) annotation }
{
    if is_text_point(name) || annotation {
        Context::Html(one_more(points))
    } else if is_root(name) {
        Context::Math(points, one_more(nested))
    } else {
        Context::Math(points, nested)
    }
}

/// The context of the content of an element that does not close itself, by the context of its start tag.
fn content_context(context: Context, name: &[u8], element: Element, values: &Values<'_>) -> Context
    ensures { result ≡ content_context context (map lower name.now) element (values_at values.now) }
{
    match context {
        Context::Html(points) => html_content(points, element),
        Context::Svg(points, nested) => {
            if is_html_font(element, values) {
                Context::Html(points)
            } else {
                svg_content(points, nested, name)
            }
        }
        Context::Math(points, nested) => {
            if is_html_font(element, values) {
                Context::Html(points)
            } else {
                math_content(points, nested, name, is_annotation(element, values))
            }
        }
        Context::Xml => Context::Xml,
    }
}

/// The context after a start tag, by its own.
#[inline(always)]
pub(crate) fn inner_context(
    context: Context,
    name: &[u8],
    element: Element,
    values: &Values<'_>,
) -> Context
    ensures { result ≡ inner_context context (map lower name.now) element (values_at values.now) }
{
    if values.self_closing {
        context
    } else {
        content_context(context, name, element, values)
    }
}

/// The context after an end tag in HTML content. The end tag of an integration point ends it.
fn around_point(points: u8, name: &[u8]) -> Context
    ensures { result ≡ around_point points (map lower name.now) }
{
    if points == 0 {
        Context::Html(points)
    } else if is_svg_point(name) {
        Context::Svg(points - 1, 0)
    } else if is_text_point(name) || same_name(name, b"annotation-xml") {
        Context::Math(points - 1, 0)
    } else {
        Context::Html(points)
    }
}

/// The context after an end tag with this name, in any case.
pub(crate) fn outer_context(context: Context, name: &[u8]) -> Context
    ensures { result ≡ outer_context context (map lower name.now) }
{
    match context {
        Context::Html(points) => around_point(points, name),
        Context::Svg(points, nested) => {
            if is_root(name) {
                if nested == 0 {
                    Context::Html(points)
                } else {
                    Context::Svg(points, nested - 1)
                }
            } else {
                tag_context(context, name)
            }
        }
        Context::Math(points, nested) => {
            if is_root(name) {
                if nested == 0 {
                    Context::Html(points)
                } else {
                    Context::Math(points, nested - 1)
                }
            } else {
                tag_context(context, name)
            }
        }
        Context::Xml => Context::Xml,
    }
}

/// Whether an element `template` in this context has template contents.
fn has_templates(context: Context) -> bool
    ensures { result ≡ has_templates context }
{
    !matches!(context, Context::Svg(_, _) | Context::Math(_, _))
}

/// Whether the end tag in this context, with this name in any case, is that of a template with contents.
pub(crate) fn ends_template(context: Context, name: &[u8]) -> bool
    ensures { result ≡ ends_template context (map lower name.now) }
{
    same_name(name, b"template") && has_templates(context)
}

/// Whether the start tag in this context, with this name in any case, opens a template with contents. In HTML it does not close
/// itself.
pub(crate) fn opens_template(context: Context, name: &[u8], self_closing: bool) -> bool
    ensures { result ≡ opens_template context (map lower name.now) self_closing }
{
    ends_template(context, name) && !closes_itself(context, self_closing)
}

/// Whether a start tag closes its element.
pub(crate) fn closes_itself(context: Context, self_closing: bool) -> bool
    ensures { result ≡ closes_itself context self_closing }
{
    self_closing && is_foreign(context)
}
