//! The next start tag of a document.
ghost use Rattle.std.specs.Prelude.{◌≡◌, ◌==◌, ◌∷◌, [], map, not, true, false, codes, bytes_eq, Some, IfSome, MatchOption};
ghost use Rattle.html_links.specs.Tags.{lower, tag_of};
ghost use Rattle.html_links.specs.Shown.{following};
ghost use Rattle.html_links.specs.Elements.{names_of_attributes, is_usual};
ghost use Rattle.html_links.specs.Values.{values_at, values_in, tag_values, tag_with, no_values};
ghost use Rattle.html_links.specs.declared.context.Context.TheVariants.{Html};
ghost use Rattle.html_links.specs.Contexts.{inner_context};
ghost use Rattle.html_links.specs.Document.{after_start, content_at, read};
ghost use Rattle.html_links.specs.Seen.{ContentLeaves, LeavesTag, opened, seen_from, seen_rest, seen_with, seen_within};
ghost use Rattle.html_links.specs.Passed.{Finds, Steps, StepsTag};

use crate::bytes::{after_byte, split_quoted};
use crate::context::{
    Context, closes_itself, element_at, inner_context, outer_context, tag_context,
};
use crate::document::{Markup, after_element, after_tag, next_markup};
use crate::element::{Element, is_inert, is_usual};
use crate::found::{Values, values_in};
use crate::raw_text::same_name;
use crate::tag::after_class;
use crate::template::after_template;

/// A start tag: its name, its element and context, and the bytes after the tag. If its contents have no
/// tags of the page, also the context and the bytes after these contents.
#[derive(Clone, Copy)]
pub(crate) struct NextTag<'a> {
    pub(crate) name: &'a [u8],
    pub(crate) element: Element,
    pub(crate) own: Context,
    pub(crate) text: &'a [u8],
    pub(crate) context: Context,
    pub(crate) rest: &'a [u8],
}

/// What the next `<` begins: something that names nothing, with the bytes after it; a tag that may name something; or something
/// that does not end.
#[derive(Clone, Copy)]
enum Step<'a> {
    Pass(&'a [u8]),
    Take(NextTag<'a>),
    End,
}

/// The first start tag that begins in these bytes, ends, and may name something, and its values that are read.
#[inline(always)]
pub(crate) fn next_tag<'a>(
    context: Context,
    bytes: &'a [u8],
    values: &mut Values<'a>,
) -> Option<NextTag<'a>>
    ensures finds { Finds result (values_at values.new) (seen_from context bytes.now) }
    ensures leaves { LeavesTag result bytes.now }
{
    match context {
        Context::Html(0) => next_page_tag(bytes, values),
        _ => next_inner_tag(context, bytes, values),
    }
}

/// The first such tag in HTML content that is in no integration point, as most tags are.
#[inline(always)]
#[tactic(auto, using(crate::proofs::Passing::has_same, crate::proofs::Passing::has_then))]
fn next_page_tag<'a>(bytes: &'a [u8], values: &mut Values<'a>) -> Option<NextTag<'a>>
    ensures finds { Finds result (values_at values.new) (seen_from (Html 0) bytes.now) }
    ensures leaves { LeavesTag result bytes.now }
{
    let mut rest = bytes;
    'markup: loop {
        match next_step(rest, values) {
            Step::Pass(more) => rest = more,
            Step::Take(tag) => return Some(tag),
            Step::End => return None,
        }
    }
}

/// The first such tag in another context. Each start tag is taken.
#[inline(never)]
#[tactic(auto, using(crate::proofs::Passing::has_same, crate::proofs::Passing::has_then))]
fn next_inner_tag<'a>(
    context: Context,
    bytes: &'a [u8],
    values: &mut Values<'a>,
) -> Option<NextTag<'a>>
    ensures finds { Finds result (values_at values.new) (seen_from context bytes.now) }
    ensures leaves { LeavesTag result bytes.now }
{
    let mut at = context;
    let mut rest = bytes;
    'markup: loop {
        match inner_step(&mut at, rest, values) {
            Step::Pass(more) => rest = more,
            Step::Take(tag) => return Some(tag),
            Step::End => return None,
        }
    }
}

/// What the first `<` in these bytes begins, in HTML content that is in no integration point.
#[inline(always)]
fn next_step<'a>(bytes: &'a [u8], values: &mut Values<'a>) -> Step<'a>
    ensures { Steps result (Html 0) (values_at values.new) bytes.now (seen_from (Html 0) bytes.now) }
{
    let Some(opened) = after_less(bytes) else {
        return Step::End;
    };
    match next_markup(Context::Html(0), opened) {
        Markup::Start(name, more) => start_tag(name, more, values),
        Markup::End(_, more) => match after_tag(more) {
            Some(last) => Step::Pass(last),
            None => Step::End,
        },
        Markup::Other(more) => Step::Pass(more),
        Markup::Unfinished => Step::End,
    }
}

/// What the first `<` in these bytes begins, in this context. An end tag changes the context.
fn inner_step<'a>(context: &mut Context, bytes: &'a [u8], values: &mut Values<'a>) -> Step<'a>
    ensures { Steps result context.new (values_at values.new) bytes.now (seen_from context.old bytes.now) }
{
    let Some(opened) = after_less(bytes) else {
        return Step::End;
    };
    match next_markup(*context, opened) {
        Markup::Start(name, more) => relevant_tag(*context, name, more, values),
        Markup::End(name, more) => match after_tag(more) {
            Some(last) => {
                *context = outer_context(*context, name);
                Step::Pass(last)
            }
            None => Step::End,
        },
        Markup::Other(more) => Step::Pass(more),
        Markup::Unfinished => Step::End,
    }
}

/// The bytes after the first `<`. Tags often follow one another. This case needs no search, so the next step need not wait for
/// the result of one.
#[inline(always)]
fn after_less(bytes: &[u8]) -> Option<&[u8]>
    ensures { MatchOption result (following (λ c. not (c == 60)) bytes.now ≡ []) (λ opened. 60 ∷ opened.now ≡ following (λ c. not (c == 60)) bytes.now) }
{
    if let Some(opened) = after_byte(b'<', bytes) {
        return Some(opened);
    }
    match split_quoted(b'<', bytes) {
        Some((_, opened)) => Some(opened),
        None => None,
    }
}

/// A start tag, from the bytes after its name.
#[inline(always)]
fn start_tag<'a>(name: &'a [u8], bytes: &'a [u8], values: &mut Values<'a>) -> Step<'a>
    ensures { StepsTag result (Html 0) (values_at values.new) name.now bytes.now }
{
    if is_usual(name) {
        usual_tag(name, bytes, values)
    } else if same_name(name, b"a") {
        anchor_tag(name, bytes, values)
    } else {
        relevant_tag(Context::Html(0), name, bytes, values)
    }
}

/// A start tag whose element names no documents and has no text.
#[inline(always)]
fn usual_tag<'a>(name: &'a [u8], bytes: &'a [u8], values: &mut Values<'a>) -> Step<'a>
    requires { is_usual name.now ≡ true }
    ensures { StepsTag result (Html 0) (values_at values.new) name.now bytes.now }
{
    if let Some(last) = after_plain(bytes) {
        return Step::Pass(last);
    }
    let Some(last) = usual_values(bytes, values) else {
        return Step::End;
    };
    if values.name_nothing() {
        return Step::Pass(last);
    }
    Step::Take(NextTag {
        name,
        element: Element::Other,
        own: Context::Html(0),
        text: last,
        context: Context::Html(0),
        rest: last,
    })
}

/// The bytes after a tag without attributes, or with only a `class`, from those after its name.
#[inline(always)]
fn after_plain(bytes: &[u8]) -> Option<&[u8]>
    ensures { IfSome result (λ last. Some (tag_with no_values last.now) ≡ values_in (names_of_attributes Element.Other) (tag_of bytes.now)) }
{
    if let Some(last) = after_byte(b'>', bytes) {
        return Some(last);
    }
    let Some(quoted) = after_class(bytes) else {
        return None;
    };
    match split_quoted(b'"', quoted) {
        Some((_, rest)) => after_byte(b'>', rest),
        None => None,
    }
}

/// Finds the values of a tag whose element names no documents, from the bytes after its name. Returns the bytes after the tag.
#[inline(never)]
fn usual_values<'a>(bytes: &'a [u8], values: &mut Values<'a>) -> Option<&'a [u8]>
    ensures { tag_values (values_at values.new) result ≡ values_in (names_of_attributes Element.Other) (tag_of bytes.now) }
{
    values_in(Element::Other, bytes, values)
}

/// The start tag of an `a`. This function and the next are not inlined, so the values stay in the caller's memory, and are
/// written only when one is found.
#[inline(never)]
#[tactic(auto, using(crate::proofs::Passing::has_same, crate::proofs::Passing::open_start))]
fn anchor_tag<'a>(name: &'a [u8], bytes: &'a [u8], values: &mut Values<'a>) -> Step<'a>
    requires { bytes_eq (map lower name.now) (codes "a") ≡ true }
    ensures { StepsTag result (Html 0) (values_at values.new) name.now bytes.now }
{
    match values_in(Element::Anchor, bytes, values) {
        Some(last) => Step::Take(NextTag {
            name,
            element: Element::Anchor,
            own: Context::Html(0),
            text: last,
            context: Context::Html(0),
            rest: last,
        }),
        None => Step::End,
    }
}

/// The start tag of an element that may name documents or have text, in this context.
#[inline(never)]
#[tactic(auto, using(crate::proofs::Passing::has_same, crate::proofs::Passing::open_start))]
fn relevant_tag<'a>(
    context: Context,
    name: &'a [u8],
    bytes: &'a [u8],
    values: &mut Values<'a>,
) -> Step<'a>
    ensures { StepsTag result context (values_at values.new) name.now bytes.now }
{
    let own = tag_context(context, name);
    let element = element_at(own, name);
    let Some(text) = values_in(element, bytes, values) else {
        return Step::End;
    };
    match after_contents(own, name, element, values, text) {
        Some((after, rest)) => Step::Take(NextTag {
            name,
            element,
            own,
            text,
            context: after,
            rest,
        }),
        None => Step::Take(NextTag {
            name,
            element,
            own,
            text,
            context: own,
            rest: &[],
        }),
    }
}

/// The context and the bytes after the contents of an element if these have no tags of the page, and otherwise those after its
/// start tag, which is in the given context.
#[tactic(auto, using(crate::proofs::Templates::none_within))]
fn after_contents<'a>(
    context: Context,
    name: &[u8],
    element: Element,
    values: &Values<'a>,
    text: &'a [u8],
) -> Option<(Context, &'a [u8])>
    ensures reads { seen_within (opened context (seen_with (map lower name.now) element (values_at values.now) [] 0))
        (read (inner_context context (map lower name.now) element (values_at values.now)) (after_start (content_at context (map lower name.now)) (map lower name.now)) text.now) ≡ seen_rest result }
    ensures leaves { ContentLeaves result text.now }
{
    let Some(rest) = after_element(context, name, text) else {
        return None;
    };
    let after = inner_context(context, name, element, values);
    if is_inert(element, values.third) && !closes_itself(context, values.self_closing) {
        after_template(after, rest)
    } else {
        Some((after, rest))
    }
}
