//! Inputs and their limits, with a reader that returns one byte at a time.
use crate::tests::runs::Reader;
use mercator::testing::{InputLimits, Unread, read_input};
use std::alloc::Global;

/// An input, the most bytes and the most reads, and the error if it is not read.
const ROWS: &[(&str, usize, u32, Option<Unread>)] = &[
    ("abcd", 4, 9, None),
    ("abcd", 3, 9, Some(Unread::Beyond)),
    ("abcd", 4, 5, None),
    ("abcd", 4, 4, Some(Unread::Beyond)),
    ("", 0, 1, None),
    ("", 0, 0, Some(Unread::Beyond)),
];

/// Whether the input is read completely, or fails with this error.
fn holds(alloc: Global, row: &(&str, usize, u32, Option<Unread>)) -> bool {
    let (text, bytes, reads, unread) = *row;
    let mut reader = Reader {
        left: text.as_bytes(),
        most: 1,
        fails: false,
    };
    match read_input(alloc, &mut reader, InputLimits { bytes, reads }) {
        Ok(found) => unread.is_none() && found.as_slice() == text.as_bytes(),
        Err(why) => unread == Some(why),
    }
}

#[test]
fn limits_of_an_input(rt: HostRuntime) {
    for row in ROWS {
        assert!(rt; holds(rt.alloc(), row), "{}, {}", row.1, row.2);
    }
}
