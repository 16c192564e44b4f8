//! The number of bytes with which all URLs begin.
ghost use Rattle.std.specs.Prelude.{◌+◌, ◌*◌, ◌≤◌};
ghost use Rattle.result_order.specs.Sorting.{AllBeginAlike, IsAlikeUntil, pages_of};
ghost use Rattle.result_order.specs.Sixteens.{AreAlikeWithin};

use crate::numbered::{BYTES, Numbered, byte_at, text_of};

/// Numbers have only bytes of a URL before this index.
const END: usize = 4096;

/// Returns an index before which all URLs are the same, if they are so before `from`. It leaves room for `levels` numbers.
pub fn beginning_of(pages: &[Numbered], from: usize, levels: usize) -> usize
    requires alike { AllBeginAlike from (pages_of pages.now) }
    requires room { from + 16 * levels ≤ 4096 }
    ensures alike { AllBeginAlike result (pages_of pages.now) }
    ensures room { result + 16 * levels ≤ 4096 }
{
    let Some(first) = pages.first() else {
        return from;
    };
    let text = text_of(first);
    alike_in_all(text, pages, from, last_of(text, from, levels))
}

/// Returns the index at which the search for the common beginning ends: the end of the text, or less to leave room for `levels`
/// numbers.
fn last_of(text: &[u8], from: usize, levels: usize) -> usize
    requires { from + 16 * levels ≤ 4096 }
    ensures least { from ≤ result }
    ensures room { result + 16 * levels ≤ 4096 }
{
    text.len().min(END - BYTES * levels).max(from)
}

/// Returns the index up to which all URLs have the same bytes as the text, from `from` on; it is at most `most`.
fn alike_in_all(text: &[u8], pages: &[Numbered], from: usize, most: usize) -> usize
    requires { from ≤ most }
    ensures { IsAlikeUntil from most text.now pages.now result }
{
    let mut end = most;
    for one in pages {
        end = alike_to(text, text_of(one), from, end);
        if end == from {
            return from;
        }
    }
    end
}

/// Returns the index up to which two texts have the same bytes, from `from` on; it is at most `most`.
fn alike_to(first: &[u8], second: &[u8], from: usize, most: usize) -> usize
    requires { from ≤ most }
    ensures least { from ≤ result }
    ensures most { result ≤ most }
    ensures alike { AreAlikeWithin from result first.now second.now }
{
    for index in from..most {
        if byte_at(first, index) != byte_at(second, index) {
            return index;
        }
    }
    most
}
