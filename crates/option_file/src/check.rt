//! Which options a file may set, and whether it sets only these.
use crate::error::FileError;
use std::alloc::{AllocError, Global};
use toml::{Table, Value};

/// The options that a file may set, by their values.
#[derive(Clone, Copy)]
pub struct Known {
    /// Those that are `true` or `false`.
    pub flags: &'static [&'static str],
    /// Those that are a text, which is not empty.
    pub texts: &'static [&'static str],
    /// Those that are such a text or a list of such texts.
    pub lists: &'static [&'static str],
    /// Those that are one of some texts.
    pub choices: &'static [(&'static str, &'static [&'static str])],
}

/// The values of an option.
#[derive(Clone, Copy)]
enum Kind {
    Flag,
    Text,
    Texts,
    Choice(&'static [&'static str]),
}

/// Checks that each member of a table is a known option with a value that it may have.
///
/// # Errors
/// `Unknown`, `WrongValue`, `NoMemory`, for the first such member in the order of names.
pub(crate) fn check_members(alloc: Global, table: &Table, known: Known) -> Result<(), FileError> {
    for (name, value) in table {
        check_member(alloc, name.as_str(), value, known)?;
    }
    Ok(())
}

/// Checks one member.
fn check_member(alloc: Global, name: &str, value: &Value, known: Known) -> Result<(), FileError> {
    let Some(kind) = kind_of(known, name) else {
        return Err(FileError::Unknown(String::from_str(alloc, name)?));
    };
    if is_value(kind, value) {
        return Ok(());
    }
    let name = String::from_str(alloc, name)?;
    Err(FileError::WrongValue(name, values_of(alloc, kind)?))
}

/// The kind of the option with this name, if a file may set it.
fn kind_of(known: Known, name: &str) -> Option<Kind> {
    if has(known.flags, name) {
        Some(Kind::Flag)
    } else if has(known.texts, name) {
        Some(Kind::Text)
    } else if has(known.lists, name) {
        Some(Kind::Texts)
    } else {
        choice_of(known.choices, name)
    }
}

/// The kind of the option with this name, if it is one of these.
fn choice_of(choices: &[(&'static str, &'static [&'static str])], name: &str) -> Option<Kind> {
    for choice in choices {
        if choice.0 == name {
            return Some(Kind::Choice(choice.1));
        }
    }
    None
}

/// Whether a name or text is one of these.
fn has(names: &[&'static str], name: &str) -> bool {
    for one in names {
        if *one == name {
            return true;
        }
    }
    false
}

/// Whether an option of this kind may have this value.
fn is_value(kind: Kind, value: &Value) -> bool {
    match (kind, value) {
        (Kind::Flag, Value::Boolean(_)) => true,
        (Kind::Text, Value::String(text)) => !text.is_empty(),
        (Kind::Texts, Value::String(text)) => !text.is_empty(),
        (Kind::Texts, Value::Array(values)) => are_texts(values.as_slice()),
        (Kind::Choice(names), Value::String(text)) => has(names, text.as_str()),
        _ => false,
    }
}

/// Whether all values are texts that are not empty.
fn are_texts(values: &[Value]) -> bool {
    for value in values {
        match value.as_str() {
            Some(text) if !text.is_empty() => {}
            _ => return false,
        }
    }
    true
}

/// Says which values an option of this kind may have.
fn values_of(alloc: Global, kind: Kind) -> Result<String, AllocError> {
    match kind {
        Kind::Flag => String::from_str(alloc, "true or false"),
        Kind::Text => String::from_str(alloc, "a string that is not empty"),
        Kind::Texts => String::from_str(alloc, "a string or a list of strings, none of them empty"),
        Kind::Choice(names) => listed(alloc, names),
    }
}

/// Lists the names: `one of a, b, c`.
fn listed(alloc: Global, names: &[&'static str]) -> Result<String, AllocError> {
    let mut text = String::from_str(alloc, "one of")?;
    let mut before = " ";
    for name in names {
        text.push_str(before)?;
        text.push_str(name)?;
        before = ", ";
    }
    Ok(text)
}
