//! Names by their first letter and their length.
ghost use Rattle.std.specs.Prelude.{◌≡◌, ◌%◌};
ghost use Rattle.html_links.specs.Lengths.{has_length, may_be};

use crate::bytes::parts;

/// Whether a table has, for a letter, the length of a name with `more` bytes after it.
#[inline(always)]
fn has_length(lengths: &[u16; 32], letter: u8, more: usize) -> bool
    ensures { result ≡ has_length lengths.now (letter % 32) more }
{
    more < 16 && (lengths[usize::from(letter % 32)] >> more) % 2 == 1
}

/// Whether a name may be one of those whose lengths a table has by their first letter, in any case. An empty one always may.
#[inline(always)]
pub(crate) fn may_be(lengths: &[u16; 32], name: &[u8]) -> bool
    ensures { result ≡ may_be lengths.now name.now }
{
    match parts(name) {
        Some((first, rest)) => has_length(lengths, first, rest.len()),
        None => true,
    }
}
