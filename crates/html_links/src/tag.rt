//! A start tag, from the bytes after its name.
ghost use Rattle.std.specs.Prelude.{◌≡◌, ◌∷◌, ◌++◌, ◌+◌, length, codes, IfOk, IfSome};
ghost use Rattle.html_links.specs.Tags.{tag_of};
ghost use Rattle.html_links.specs.Shown.{is_space, BeginsName, Stopped, tag_at, Reads, ReadsValue, Leaves};

use crate::bytes::{
    Class, after_byte, class_of, parts, skip_space, split_name, split_quoted, split_unquoted,
};
use std::alloc::{AllocError, Global};

/// An attribute as written in the document: its name in any case, and its value without quotes.
#[derive(Clone, Copy)]
pub struct AttributeAt<'a> {
    pub name: &'a [u8],
    pub value: &'a [u8],
    /// The number of bytes from the first byte of the value on. A value that is missing is at the end of the name.
    pub left: usize,
}

/// A tag, and the bytes after its `>`.
#[derive(Drop)]
pub struct TagAt<'a> {
    pub attributes: Vec<AttributeAt<'a>>,
    pub self_closing: bool,
    pub rest: &'a [u8],
}

/// What comes next in a tag, and the bytes after it.
#[derive(Clone, Copy)]
pub(crate) enum Piece<'a> {
    Attribute(AttributeAt<'a>, &'a [u8]),
    Slash(&'a [u8]),
    End(bool, &'a [u8]),
    Unfinished,
}

/// The bytes after an `="`, with which most values begin.
#[inline(always)]
fn after_quote(bytes: &[u8]) -> Option<&[u8]>
    ensures { IfSome result (λ more. bytes.now ≡ 61 ∷ 34 ∷ more.now) }
{
    match bytes {
        [b'=', b'"', more @ ..] => Some(more),
        _ => None,
    }
}

/// The bytes after the `class="` that follows the name in most tags.
#[inline(always)]
#[tactic(auto, using(crate::proofs::Cuts::if_some, std::proofs::lemmas::Slice::Eq::strip_prefix_is))]
pub(crate) fn after_class(bytes: &[u8]) -> Option<&[u8]>
    ensures { IfSome result (λ more. bytes.now ≡ codes " class=" ++ 34 ∷ more.now) }
{
    bytes.strip_prefix(b" class=\"")
}

/// The bytes after the `href="` of a link.
#[inline(always)]
#[tactic(auto, using(crate::proofs::Cuts::if_some, std::proofs::lemmas::Slice::Eq::strip_prefix_is))]
fn after_href(bytes: &[u8]) -> Option<&[u8]>
    ensures { IfSome result (λ more. bytes.now ≡ codes " href=" ++ 34 ∷ more.now) }
{
    bytes.strip_prefix(b" href=\"")
}

/// An attribute, from the bytes after the first quote of its value.
#[inline(always)]
#[tactic(auto, using(crate::proofs::Documents::cut_shorter))]
fn quoted<'a>(name: &'a [u8], bytes: &'a [u8]) -> Piece<'a>
    ensures reads { ReadsValue result name.now (34 ∷ bytes.now) }
    ensures leaves { Leaves result (length bytes.now) }
{
    let left = bytes.len();
    match split_quoted(b'"', bytes) {
        Some((value, rest)) => Piece::Attribute(AttributeAt { name, value, left }, rest),
        None => Piece::Unfinished,
    }
}

/// An attribute whose name begins here.
#[inline(always)]
fn attribute(bytes: &[u8]) -> Piece<'_>
    requires { BeginsName bytes.now }
    ensures reads { Reads result bytes.now }
    ensures leaves { Leaves result (length bytes.now) }
{
    let (name, after) = split_name(bytes);
    if let Some(more) = after_quote(after) {
        return quoted(name, more);
    }
    let left = after.len();
    let rest = skip_space(after);
    match after_byte(b'=', rest) {
        Some(more) => value(name, skip_space(more)),
        None => Piece::Attribute(
            AttributeAt {
                name,
                value: &[],
                left,
            },
            rest,
        ),
    }
}

/// The value of an attribute, after the `=` and white space.
#[inline(always)]
fn value<'a>(name: &'a [u8], bytes: &'a [u8]) -> Piece<'a>
    requires { Stopped is_space bytes.now }
    ensures reads { ReadsValue result name.now bytes.now }
    ensures leaves { Leaves result (length bytes.now + 1) }
{
    let Some((first, more)) = parts(bytes) else {
        return Piece::Unfinished;
    };
    match class_of(first) {
        Class::Quote => {
            let left = more.len();
            match split_quoted(b'"', more) {
                Some((value, rest)) => Piece::Attribute(AttributeAt { name, value, left }, rest),
                None => Piece::Unfinished,
            }
        }
        Class::Apostrophe => {
            let left = more.len();
            match split_quoted(b'\'', more) {
                Some((value, rest)) => Piece::Attribute(AttributeAt { name, value, left }, rest),
                None => Piece::Unfinished,
            }
        }
        Class::Greater => {
            let left = bytes.len();
            Piece::Attribute(
                AttributeAt {
                    name,
                    value: &[],
                    left,
                },
                bytes,
            )
        }
        _ => {
            let left = bytes.len();
            let (value, rest) = split_unquoted(bytes);
            Piece::Attribute(AttributeAt { name, value, left }, rest)
        }
    }
}

/// The next piece of a tag. Most are a `class` or a `href`, which are known by their bytes together.
#[inline(always)]
pub(crate) fn next_piece(bytes: &[u8]) -> Piece<'_>
    ensures reads { Reads result bytes.now }
    ensures leaves { Leaves result (length bytes.now) }
{
    match after_class(bytes) {
        Some(more) => quoted(b"class", more),
        None => match after_href(bytes) {
            Some(more) => quoted(b"href", more),
            None => any_piece(bytes),
        },
    }
}

/// The next piece of a tag, whatever it is.
#[inline(always)]
fn any_piece(bytes: &[u8]) -> Piece<'_>
    ensures reads { Reads result bytes.now }
    ensures leaves { Leaves result (length bytes.now) }
{
    let rest = skip_space(bytes);
    let Some((first, more)) = parts(rest) else {
        return Piece::Unfinished;
    };
    match class_of(first) {
        Class::Greater => Piece::End(false, more),
        Class::Slash => match after_byte(b'>', more) {
            Some(last) => Piece::End(true, last),
            None => Piece::Slash(more),
        },
        _ => attribute(rest),
    }
}

/// The attributes of a start tag, from the bytes after its name. `None` if the tag does not end.
pub fn read_tag<'a>(alloc: Global, bytes: &'a [u8]) -> Result<Option<TagAt<'a>>, AllocError>
    ensures { IfOk result (λ tag. tag_at tag ≡ tag_of bytes.now) }
{
    let mut attributes = Vec::new(alloc);
    let mut rest = bytes;
    'pieces: loop {
        match next_piece(rest) {
            Piece::Attribute(attribute, more) => {
                attributes.push(attribute)?;
                rest = more;
            }
            Piece::Slash(more) => rest = more,
            Piece::End(self_closing, rest) => {
                return Ok(Some(TagAt {
                    attributes,
                    self_closing,
                    rest,
                }));
            }
            Piece::Unfinished => return Ok(None),
        }
    }
}
