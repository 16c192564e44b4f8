//! The escapes of the table, by which a line can hold any character.
use std::alloc::Global;

/// The state of the reader of a text: outside an escape, after its backslash, or in the
/// hexadecimal digits of a character's number, which a semicolon ends.
#[derive(Clone, Copy)]
enum Place {
    Outside,
    AfterBackslash,
    InNumber(u32),
}

/// The text that an escaped one means.
pub fn unescape(alloc: Global, escaped: &str) -> Option<String> {
    let mut text = String::new(alloc);
    let mut place = Place::Outside;
    for c in escaped.chars() {
        let (next, shown) = step(place, c);
        if let Some(shown) = shown {
            text.push(shown).ok()?;
        }
        place = next;
    }
    Some(text)
}

/// The state of the reader after one more character, and the character that ended there.
fn step(place: Place, c: char) -> (Place, Option<char>) {
    match (place, c) {
        (Place::Outside, '\\') => (Place::AfterBackslash, None),
        (Place::Outside, _) => (Place::Outside, Some(c)),
        (Place::AfterBackslash, 'u') => (Place::InNumber(0), None),
        (Place::AfterBackslash, _) => (Place::Outside, Some(named(c))),
        (Place::InNumber(number), ';') => (Place::Outside, char::from_u32(number)),
        (Place::InNumber(number), _) => {
            let digit = c.to_digit(16).unwrap_or(0);
            (
                Place::InNumber(number.wrapping_mul(16).wrapping_add(digit)),
                None,
            )
        }
    }
}

/// The character that a letter after a backslash means.
fn named(letter: char) -> char {
    match letter {
        's' => ' ',
        't' => '\t',
        'n' => '\n',
        'r' => '\r',
        _ => letter,
    }
}
