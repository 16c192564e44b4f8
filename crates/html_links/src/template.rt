//! The contents of a template.
ghost use Rattle.std.specs.Prelude.{◌≡◌, true, false};
ghost use Rattle.html_links.specs.Document.{Data, read};
ghost use Rattle.html_links.specs.Seen.{ContentLeaves, seen_rest, seen_within};
ghost use Rattle.html_links.specs.Template.{InnerReads, InnerLeaves, TagReads};

use crate::bytes::split_quoted;
use crate::context::{
    Context, element_at, ends_template, inner_context, opens_template, outer_context, tag_context,
};
use crate::document::{Markup, after_element, after_tag, next_markup};
use crate::found::{Values, values_in};

/// What comes next in a template's contents, with the context and the bytes after it: the start tag of a template, the end tag of
/// one, or anything else. Something that does not end is unfinished.
#[derive(Clone, Copy)]
enum Inner<'a> {
    Opens(Context, &'a [u8]),
    Closes(Context, &'a [u8]),
    Other(Context, &'a [u8]),
    Unfinished,
}

/// The context and the bytes after the end tag of a template, from those after its start tag. Its contents may have templates.
/// `None` if the template is not closed.
#[inline(never)]
pub(crate) fn after_template(context: Context, bytes: &[u8]) -> Option<(Context, &[u8])>
    ensures reads { seen_within 1 (read context Data bytes.now) ≡ seen_rest result }
    ensures leaves { ContentLeaves result bytes.now }
{
    let mut at = context;
    let mut rest = bytes;
    let mut inner: usize = 0;
    'markup: loop {
        match next_inner(at, rest) {
            Inner::Opens(after, more) => {
                inner += 1;
                at = after;
                rest = more;
            }
            Inner::Closes(after, more) => {
                if inner == 0 {
                    return Some((after, more));
                }
                inner -= 1;
                at = after;
                rest = more;
            }
            Inner::Other(after, more) => {
                at = after;
                rest = more;
            }
            Inner::Unfinished => return None,
        }
    }
}

/// The next tag or comment in a template's contents.
fn next_inner(context: Context, bytes: &[u8]) -> Inner<'_>
    ensures reads { InnerReads result context bytes.now }
    ensures leaves { InnerLeaves result bytes.now }
{
    let Some((_, opened)) = split_quoted(b'<', bytes) else {
        return Inner::Unfinished;
    };
    match next_markup(context, opened) {
        Markup::Start(name, more) => inner_start(context, name, more),
        Markup::End(name, more) => inner_end(context, name, more),
        Markup::Other(more) => Inner::Other(context, more),
        Markup::Unfinished => Inner::Unfinished,
    }
}

/// A start tag, from the bytes after its name.
fn inner_start<'a>(context: Context, name: &[u8], bytes: &'a [u8]) -> Inner<'a>
    ensures reads { TagReads result context false name.now bytes.now }
    ensures leaves { InnerLeaves result bytes.now }
{
    let own = tag_context(context, name);
    let element = element_at(own, name);
    let mut values = Values::none();
    let Some(text) = values_in(element, bytes, &mut values) else {
        return Inner::Unfinished;
    };
    let after = inner_context(own, name, element, &values);
    match after_element(own, name, text) {
        Some(rest) => {
            if opens_template(own, name, values.self_closing) {
                Inner::Opens(after, rest)
            } else {
                Inner::Other(after, rest)
            }
        }
        None => Inner::Unfinished,
    }
}

/// An end tag, from the bytes after its name.
#[tactic(auto, using(crate::proofs::Documents::tag_rest_less))]
fn inner_end<'a>(context: Context, name: &[u8], bytes: &'a [u8]) -> Inner<'a>
    ensures reads { TagReads result context true name.now bytes.now }
    ensures leaves { InnerLeaves result bytes.now }
{
    let Some(rest) = after_tag(bytes) else {
        return Inner::Unfinished;
    };
    let after = outer_context(context, name);
    if ends_template(context, name) {
        Inner::Closes(after, rest)
    } else {
        Inner::Other(after, rest)
    }
}
