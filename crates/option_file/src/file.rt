//! A file of options, and what it sets.
ghost use Rattle.std.specs.Prelude.{◌≡◌, Some, true, false, IfOk, option_map, option_and_then, unwrap_or};
ghost use Rattle.std.specs.Option.{option_map_or};
ghost use Rattle.toml.specs.Data.{as_bool, as_str, get_member};
ghost use Rattle.toml.specs.View.{table_view, view};
ghost use Rattle.option_file.specs.Files.{members_of};
ghost use Rattle.toml.specs.Parse.{parse_document};

use crate::check::{Known, check_members};
use crate::error::FileError;
use std::alloc::{AllocError, Global};
use toml::{Table, Value};

/// The options that a file sets.
#[derive(Drop)]
pub struct OptionFile {
    table: Table,
}

impl OptionFile {
    /// Reads a file with these bytes, which may set only the known options, each by a value of its kind.
    ///
    /// # Errors
    /// `NotToml`, `Unknown`, `WrongValue`, `NoMemory`.
    pub fn read(alloc: Global, bytes: &[u8], known: Known) -> Result<OptionFile, FileError>
        ensures { IfOk result (λ file. parse_document bytes.now ≡ Some (members_of file)) }
    {
        let table = table_of(alloc, bytes)?;
        check_members(alloc, &table, known)?;
        Ok(OptionFile { table })
    }

    /// Whether the file sets this option to anything but `false`.
    pub fn has(&self, name: &str) -> bool
        ensures { result ≡ option_map_or (λ value. unwrap_or (as_bool value) true) (get_member name.now (members_of self.now)) false }
    {
        match self.value(name) {
            Some(value) => value.as_bool().unwrap_or(true),
            None => false,
        }
    }

    /// Whether the file sets this option to `true`.
    pub fn flag(&self, name: &str) -> bool
        ensures { result ≡ unwrap_or (option_and_then as_bool (get_member name.now (members_of self.now))) false }
    {
        match self.value(name) {
            Some(value) => value.as_bool().unwrap_or(false),
            None => false,
        }
    }

    /// The text to which the file sets this option.
    pub fn text(&self, name: &str) -> Option<&str>
        ensures { option_map (λ text. text.now) result ≡ option_and_then as_str (get_member name.now (members_of self.now)) }
    {
        match self.value(name) {
            Some(value) => value.as_str(),
            None => None,
        }
    }

    /// Appends the texts to which the file sets this option: one, or those of a list.
    pub fn push_texts(
        &self,
        alloc: Global,
        name: &str,
        texts: &mut Vec<String>,
    ) -> Result<(), AllocError> {
        match self.value(name) {
            Some(Value::String(text)) => push_text(alloc, text.as_str(), texts),
            Some(Value::Array(values)) => push_all(alloc, values.as_slice(), texts),
            _ => Ok(()),
        }
    }

    /// The value of an option.
    fn value(&self, name: &str) -> Option<&Value>
        ensures { option_map (λ value. view value.now) result ≡ get_member name.now (members_of self.now) }
    {
        self.table.get(name)
    }
}

/// The table of a file with these bytes.
fn table_of(alloc: Global, bytes: &[u8]) -> Result<Table, FileError>
    ensures { IfOk result (λ table. parse_document bytes.now ≡ Some (table_view table)) }
{
    match toml::table_from_slice(alloc, bytes) {
        Ok(table) => Ok(table),
        Err(error) => Err(not_toml(alloc, bytes, error)?),
    }
}

/// The error for bytes that are not TOML.
fn not_toml(alloc: Global, bytes: &[u8], error: toml::de::Error) -> Result<FileError, AllocError> {
    let Some(span) = error.span() else {
        return Ok(FileError::NoMemory);
    };
    let message = String::from_str(alloc, error.message())?;
    Ok(FileError::NotToml(line_at(bytes, span.start), message))
}

/// The number of the line, from 1, in which this byte is.
fn line_at(bytes: &[u8], index: usize) -> usize {
    let mut line = 1usize;
    for byte in bytes.iter().take(index) {
        if *byte == b'\n' {
            line = line.saturating_add(1);
        }
    }
    line
}

/// Appends the texts among these values.
fn push_all(alloc: Global, values: &[Value], texts: &mut Vec<String>) -> Result<(), AllocError> {
    for value in values {
        if let Some(text) = value.as_str() {
            push_text(alloc, text, texts)?;
        }
    }
    Ok(())
}

/// Appends a text.
fn push_text(alloc: Global, text: &str, texts: &mut Vec<String>) -> Result<(), AllocError> {
    texts.push(String::from_str(alloc, text)?)?;
    Ok(())
}
