//! The options of a command line and of a configuration file together.
ghost use Rattle.std.specs.Prelude.{◌≡◌, option_map};
ghost use Rattle.mercator.specs.OptionValues.{flag_of, text_of};

use crate::commands::arguments::{is_named, named_value, values_of};
use clap::ArgMatches;
use option_file::OptionFile;
use std::alloc::{AllocError, Global};

/// The options of a command line and, if there is one, of a configuration file. An option of the command line replaces the same option of
/// the file, and those options of the file that cannot be used together with it.
#[derive(Clone, Copy)]
pub struct OptionValues<'a, 'm> {
    pub line: &'a ArgMatches<'m>,
    pub file: Option<&'a OptionFile>,
}

/// The pairs of options that cannot be used together. On the command line, `--format` can be used with the short form of the same format.
pub const RIVALS: &[(&str, &str)] = &[
    ("format", "json"),
    ("format", "html"),
    ("format", "annotations"),
    ("host", "index-file"),
    ("host", "fallback"),
    ("host", "exact"),
    ("host", "index"),
    ("fallback", "exact"),
    ("index", "index-file"),
    ("index", "fallback"),
    ("index", "exact"),
    ("index", "queries"),
    ("index", "follow"),
    ("fix", "index"),
    ("fix", "follow"),
];

impl OptionValues<'_, '_> {
    /// Whether an option without a value is given.
    pub fn flag(&self, name: &str) -> bool {
        let in_file = match self.file {
            Some(file) => file.flag(name),
            None => false,
        };
        flag_of(
            self.line.get_flag(name),
            in_file,
            is_replaced(self.line, name),
        )
    }

    /// The value of an option, unless it is the default.
    pub fn text(&self, name: &str) -> Option<&str> {
        let in_file = match self.file {
            Some(file) => file.text(name),
            None => None,
        };
        text_of(
            named_value(self.line, name),
            in_file,
            is_replaced(self.line, name),
        )
    }

    /// A copy of the value of an option.
    pub fn string(&self, alloc: Global, name: &str) -> Result<Option<String>, AllocError> {
        match self.text(name) {
            Some(text) => Ok(Some(String::from_str(alloc, text)?)),
            None => Ok(None),
        }
    }

    /// The values of an option that may be repeated.
    pub fn strings(&self, alloc: Global, name: &str) -> Result<Vec<String>, AllocError> {
        let mut values = values_of(alloc, self.line, name)?;
        if let Some(file) = self.file {
            if !is_replaced(self.line, name) {
                file.push_texts(alloc, name, &mut values)?;
            }
        }
        Ok(values)
    }
}

/// Whether the command line replaces this option of the file.
fn is_replaced(line: &ArgMatches<'_>, name: &str) -> bool {
    is_named(line, name)
        || RIVALS.iter().any(|pair| {
            pair.0 == name && is_named(line, pair.1) || pair.1 == name && is_named(line, pair.0)
        })
}

/// Whether an option is given, if it is or is not on the command line and in the file.
fn flag_of(on_line: bool, in_file: bool, is_replaced: bool) -> bool
    ensures { result ≡ flag_of on_line in_file is_replaced }
{
    on_line || !is_replaced && in_file
}

/// The value of an option, for its values on the command line and in the file.
fn text_of<'a>(
    on_line: Option<&'a str>,
    in_file: Option<&'a str>,
    is_replaced: bool,
) -> Option<&'a str>
    ensures { option_map (λ text. text.now) result ≡ text_of (option_map (λ text. text.now) on_line.entry) (option_map (λ text. text.now) in_file.entry) is_replaced }
{
    match on_line {
        Some(text) => Some(text),
        None => if is_replaced { None } else { in_file },
    }
}
