//! The end of a raw text.
ghost use Rattle.std.specs.Prelude.{◌≡◌, ◌<◌, ◌&&◌, length, map, take_while};
ghost use Rattle.std.specs.Char.{to_ascii_lowercase};
ghost use Rattle.html_links.specs.Comments.{bytes_at};
ghost use Rattle.html_links.specs.Shown.{front, following};
ghost use Rattle.html_links.specs.Tags.{is_letter};
ghost use Rattle.html_links.specs.RawText.{Text, run, ends_at, same_name};

use crate::bytes::{Class, after_byte, class_of, parts, split_quoted};

/// Whether the byte is an ASCII letter.
pub(crate) fn is_letter(byte: u8) -> bool
    ensures { result ≡ is_letter byte }
{
    matches!(byte, b'A'..=b'Z' | b'a'..=b'z')
}

/// The number of ASCII letters at the front.
fn letters_len(bytes: &[u8]) -> usize
    ensures { result ≡ length (take_while is_letter bytes.now) }
{
    bytes.iter().take_while(|byte| is_letter(**byte)).count()
}

/// The ASCII letters at the front, and the bytes after them.
#[tactic(auto, using(crate::proofs::Cuts::front_cut, crate::proofs::Cuts::after_cut))]
fn split_letters(bytes: &[u8]) -> (&[u8], &[u8])
    ensures letters { result.0.now ≡ front is_letter bytes.now }
    ensures rest { result.1.now ≡ following is_letter bytes.now }
{
    bytes.split_at(letters_len(bytes))
}

/// Whether the name of an end tag ends before these bytes: the first is white space, `/` or `>`. False if there are none.
fn ends_name(bytes: &[u8]) -> bool
    ensures { result ≡ ends_at bytes.now }
{
    match parts(bytes) {
        Some((first, _)) => {
            matches!(
                class_of(first),
                Class::Space | Class::Slash | Class::Greater
            )
        }
        None => false,
    }
}

/// Whether the names are equal in any case. Most are equal in the same case, which is tested first.
pub(crate) fn same_name(found: &[u8], name: &[u8]) -> bool
    ensures { result ≡ same_name found.now name.now }
{
    found == name || found.eq_ignore_ascii_case(name)
}

/// Whether `found`, with `rest` after it, is the name in an end tag of the element: the Standard's appropriate end tag token.
fn is_end(found: &[u8], rest: &[u8], name: &[u8]) -> bool
    ensures { result ≡ (ends_at rest.now && same_name found.now name.now) }
{
    ends_name(rest) && same_name(found, name)
}

/// The bytes after the name of the end tag that ends the text of this element. `None` if the text does not end.
pub fn after_raw_text<'a>(name: &[u8], bytes: &'a [u8]) -> Option<&'a [u8]>
    requires { 0 < length name.now }
    ensures { bytes_at result ≡ run (map to_ascii_lowercase name.now) Text bytes.now }
{
    let mut rest = bytes;
    'tags: loop {
        let Some((_, opened)) = split_quoted(b'<', rest) else {
            return None;
        };
        match after_byte(b'/', opened) {
            Some(slashed) => {
                let (found, more) = split_letters(slashed);
                if is_end(found, more, name) {
                    return Some(more);
                }
                rest = more;
            }
            None => rest = opened,
        }
    }
}
