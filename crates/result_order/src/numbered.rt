//! A result with sixteen bytes of its URL as a number.
ghost use Rattle.std.specs.Prelude.{◌≡◌, ◌+◌, ◌≤◌, slice_index};
ghost use Rattle.result_order.specs.Sixteens.{IsSixteen};

use crawl_pages::PageResult;

/// The number of bytes of a URL in a number.
pub const BYTES: usize = 16;

/// A result, and sixteen bytes of its URL as a number.
#[derive(Drop)]
pub struct Numbered {
    pub number: u128,
    pub page: PageResult,
}

/// Returns the bytes of the result's URL, by which results are sorted.
pub fn text_of(numbered: &Numbered) -> &[u8]
    ensures { result.now ≡ numbered.now.page.url }
{
    numbered.page.url.as_str().as_bytes()
}

/// Returns sixteen bytes of a text as a number, the most significant first. After the end of the text come zeros.
pub fn number_at(text: &[u8], from: usize) -> u128
    requires { from + 16 ≤ 4096 }
    ensures { IsSixteen text.now from result }
{
    if text.len() < from + BYTES {
        return number_near_end(text, from);
    }
    u128::from_be_bytes([
        text[from],
        text[from + 1],
        text[from + 2],
        text[from + 3],
        text[from + 4],
        text[from + 5],
        text[from + 6],
        text[from + 7],
        text[from + 8],
        text[from + 9],
        text[from + 10],
        text[from + 11],
        text[from + 12],
        text[from + 13],
        text[from + 14],
        text[from + 15],
    ])
}

/// Returns what [`number_at`] does, for a text that may end before the sixteenth byte.
fn number_near_end(text: &[u8], from: usize) -> u128
    requires { from + 16 ≤ 4096 }
    ensures { IsSixteen text.now from result }
{
    let bytes = [
        byte_at(text, from),
        byte_at(text, from + 1),
        byte_at(text, from + 2),
        byte_at(text, from + 3),
        byte_at(text, from + 4),
        byte_at(text, from + 5),
        byte_at(text, from + 6),
        byte_at(text, from + 7),
        byte_at(text, from + 8),
        byte_at(text, from + 9),
        byte_at(text, from + 10),
        byte_at(text, from + 11),
        byte_at(text, from + 12),
        byte_at(text, from + 13),
        byte_at(text, from + 14),
        byte_at(text, from + 15),
    ];
    u128::from_be_bytes(bytes)
}

/// Returns the byte at an index, or 0 after the end.
pub fn byte_at(text: &[u8], index: usize) -> u8
    ensures { result ≡ slice_index text.now index }
{
    match text.get(index) {
        Some(byte) => *byte,
        None => 0,
    }
}
