//! Appends texts and numbers.
ghost use Rattle.std.specs.Prelude.{◌≡◌, ◌++◌, OnOk, decimal, string_bytes};
ghost use Rattle.check_report.specs.Text.{code, counted, counted_if, counted_some, noted, noun};

use itoa::Buffer;
use std::alloc::AllocError;

/// An allocation failed.
pub type NoMemory = AllocError;

/// Appends a text.
pub fn put(out: &mut Vec<u8>, text: &str) -> Result<(), NoMemory>
    ensures { OnOk result (out.new.items ≡ out.old.items ++ text.now) }
{
    out.extend_from_slice(text.as_bytes())
}

/// Appends a count in decimal digits.
fn put_count(out: &mut Vec<u8>, count: u64) -> Result<(), NoMemory>
    ensures { OnOk result (out.new.items ≡ out.old.items ++ decimal count) }
{
    let mut buffer = Buffer::new();
    put(out, buffer.format(count))
}

/// Appends a word and a count.
pub fn put_counted(out: &mut Vec<u8>, word: &str, count: u64) -> Result<(), NoMemory>
    ensures { OnOk result (out.new.items ≡ out.old.items ++ counted word.now count) }
{
    put(out, word)?;
    put_count(out, count)
}

/// Appends a word and a count if there is a count.
pub fn put_counted_if(out: &mut Vec<u8>, word: &str, count: Option<usize>) -> Result<(), NoMemory>
    ensures { OnOk result (out.new.items ≡ out.old.items ++ counted_if word.now count) }
{
    match count {
        Some(count) => put_counted(out, word, count as u64),
        None => Ok(()),
    }
}

/// Appends a word and a count if the count is not 0.
pub fn put_counted_some(out: &mut Vec<u8>, word: &str, count: u64) -> Result<(), NoMemory>
    ensures { OnOk result (out.new.items ≡ out.old.items ++ counted_some word.now count) }
{
    if count == 0 {
        Ok(())
    } else {
        put_counted(out, word, count)
    }
}

/// Appends a count in decimal digits to a text in memory.
pub fn push_count(text: &mut String, count: u64) -> Result<(), NoMemory>
    ensures { OnOk result (string_bytes text.new ≡ string_bytes text.old ++ decimal count) }
{
    let mut buffer = Buffer::new();
    text.push_str(buffer.format(count))
}

/// Appends a text between two others.
pub fn push_around(
    text: &mut String,
    before: &str,
    inner: &str,
    after: &str,
) -> Result<(), NoMemory>
    ensures { OnOk result (string_bytes text.new ≡ string_bytes text.old ++ (before.now ++ inner.now ++ after.now)) }
{
    text.push_str(before)?;
    text.push_str(inner)?;
    text.push_str(after)
}

/// Appends a blank and a note in parentheses, or nothing if the note is empty.
pub fn put_note(out: &mut Vec<u8>, blank: &str, note: &str) -> Result<(), NoMemory>
    ensures { OnOk result (out.new.items ≡ out.old.items ++ noted blank.now note.now) }
{
    if note.is_empty() {
        return Ok(());
    }
    put(out, blank)?;
    put(out, "(")?;
    put(out, note)?;
    put(out, ")")
}

/// Appends an escape code if the report has colour.
pub fn put_code(out: &mut Vec<u8>, colour: bool, text: &str) -> Result<(), NoMemory>
    ensures { OnOk result (out.new.items ≡ out.old.items ++ code colour text.now) }
{
    if colour { put(out, text) } else { Ok(()) }
}

/// The singular after the count 1, otherwise the plural.
pub fn noun(count: u64, one: &'static str, many: &'static str) -> &'static str
    ensures { result.now ≡ noun count one.now many.now }
{
    if count == 1 { one } else { many }
}
