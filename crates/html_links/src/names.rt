//! The named character references.
ghost use Rattle.std.specs.Prelude.{◌≡◌, ◌<◌, length};
ghost use Rattle.html_links.specs.Names.{named, is_mark, counts, list_of, number_in, part_of, start_at, list_at, bytes_at};

mod table;

use table::{ROWS, STARTS};

/// The index of the list with the row of a name.
fn list_of(name: &[u8]) -> usize
    ensures { result ≡ list_of name.now }
{
    match name {
        [first, second, rest @ ..] => {
            (usize::from(*first) * 23 + usize::from(*second) * 29 + rest.len() % 256 * 47) % 256
        }
        _ => 0,
    }
}

/// The number at this index, or 0 if there is none.
fn number_in(numbers: &[u16], index: usize) -> usize
    ensures { result ≡ number_in numbers.now index }
{
    match numbers.get(index) {
        Some(number) => usize::from(*number),
        None => 0,
    }
}

/// The bytes from index `start` to before index `end`. No bytes if `start` is above `end`, or `end` above the length.
fn part_of(bytes: &[u8], start: usize, end: usize) -> &[u8]
    ensures { result.now ≡ part_of bytes.now start end }
{
    if start <= end && end <= bytes.len() {
        &bytes[start..end]
    } else {
        &[]
    }
}

/// The byte index in `ROWS` at which this list begins. For 256, it is the end of the last list, and for a greater number 0.
#[tactic(auto, unfolding(crate::specs::Names::start_at))]
fn start_at(index: usize) -> usize
    ensures { result ≡ start_at index }
{
    number_in(&STARTS, index)
}

/// The rows of this list, each with a space after it. There are 256 lists.
#[tactic(auto, unfolding(crate::specs::Names::list_at))]
fn list_at(index: usize) -> &'static [u8]
    requires { index < 256 }
    ensures { result.now ≡ list_at index }
{
    part_of(ROWS.as_bytes(), start_at(index), start_at(index + 1))
}

/// Whether the byte after a name in its row says that the name counts.
fn is_mark(closed: bool, byte: u8) -> bool
    ensures { result ≡ is_mark closed byte }
{
    byte == b'=' || closed && byte == b';'
}

/// Whether a row is that of a name, and the name counts.
fn counts(closed: bool, name: &[u8], row: &[u8]) -> bool
    ensures { result ≡ counts closed name.now row.now }
{
    row.len() > name.len() && &row[..name.len()] == name && is_mark(closed, row[name.len()])
}

/// The text of a name after an `&`. `closed` says whether a `;` follows the name.
pub(crate) fn named(closed: bool, name: &[u8]) -> Option<&'static [u8]>
    ensures { bytes_at result ≡ named closed name.now }
{
    let Some(row) = list_at(list_of(name))
        .split(|byte| *byte == b' ')
        .find(|row| counts(closed, name, row))
    else {
        return None;
    };
    Some(&row[name.len() + 1..])
}
