//! Finds a location in a text by its line and column.
use memchr::memchr_iter;

/// The position of the character at a line and a column, both from 1. Lines end at a line feed.
pub(crate) fn position_of(text: &[u8], line: u64, column: u64) -> Option<usize> {
    let start = line_start(text, line)?;
    let rest = text.get(start..)?;
    let own = nth_character(rest, column.saturating_sub(1))?;
    Some(start.saturating_add(own))
}

/// The position of the start of a line.
fn line_start(text: &[u8], line: u64) -> Option<usize> {
    match line.checked_sub(2) {
        None => Some(0),
        Some(before) => {
            let before = usize::try_from(before).ok()?;
            let end = memchr_iter(b'\n', text).nth(before)?;
            Some(end.saturating_add(1))
        }
    }
}

/// The position of the character of UTF-8 with this number, from 0.
fn nth_character(text: &[u8], number: u64) -> Option<usize> {
    let mut left = number;
    for (index, byte) in text.iter().enumerate() {
        if *byte & 0xc0 != 0x80 {
            if left == 0 {
                return Some(index);
            }
            left = left.saturating_sub(1);
        }
    }
    None
}
