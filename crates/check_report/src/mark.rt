//! Writes JSON mark by mark: the start or the end of an object or array, a name, or a whole member.
ghost use Rattle.std.specs.Prelude.{◌≡◌, ◌++◌, OnOk, flat_map};
ghost use Rattle.check_report.specs.Objects.{mark_tokens};

use crate::member::{put_count, put_text};
use crate::put::NoMemory;
use json::Writer;

/// A mark of a JSON text.
#[derive(Clone, Copy)]
pub enum Mark<'a> {
    BeginObject,
    EndObject,
    BeginArray,
    EndArray,
    /// The name of a member.
    Key(&'static str),
    /// A member whose value is a string.
    Text(&'static str, &'a str),
    /// A member whose value is a number.
    Count(&'static str, u64),
}

/// Writes these marks.
pub fn put_marks(out: &mut Writer, marks: &[Mark<'_>]) -> Result<(), NoMemory>
    ensures tokens { OnOk result (out.new.tokens ≡ out.old.tokens ++ flat_map mark_tokens marks.now) }
    ensures before { out.new.before ≡ out.old.before }
{
    for mark in marks {
        put_mark(out, *mark)?;
    }
    Ok(())
}

/// Writes a mark.
fn put_mark(out: &mut Writer, mark: Mark<'_>) -> Result<(), NoMemory>
    ensures tokens { OnOk result (out.new.tokens ≡ out.old.tokens ++ mark_tokens mark.entry) }
    ensures before { out.new.before ≡ out.old.before }
{
    match mark {
        Mark::BeginObject => out.begin_object(),
        Mark::EndObject => out.end_object(),
        Mark::BeginArray => out.begin_array(),
        Mark::EndArray => out.end_array(),
        Mark::Key(name) => out.key(name),
        Mark::Text(name, text) => put_text(out, name, text),
        Mark::Count(name, count) => put_count(out, name, count),
    }
}
