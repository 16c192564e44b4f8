//! The configuration file of a check.
ghost use Rattle.std.specs.Prelude.{IfErr, IfOk};
ghost use Rattle.mercator.specs.Plans.{IsShown};

use crate::commands::check_arguments::FORMATS;
use crate::commands::folder_arguments::{HOSTS, SUFFIXES};
use crate::commands::input::Unread;
use crate::commands::option_values::RIVALS;
use crate::commands::plan_error::{PlanError, bad_arguments};
use crate::commands::source::read_named;
use clap::ArgMatches;
use option_file::{FileError, Known, OptionFile};
use shown_text::shown;
use std::alloc::{AllocError, Global};
use std::fs::{self, Files};
use std::io::ErrorKind;

/// The name of the configuration file in the current directory.
const DEFAULT_NAME: &str = ".mercator.toml";

/// The options that a configuration file may set. `--follow`, `--fix` and `--dry-run` are not among them, nor are the
/// short forms of `--format`.
const KNOWN: Known = Known {
    flags: &[
        "by-target",
        "all-sources",
        "unreached",
        "sitemap",
        "external",
        "reachable",
        "no-anchors",
        "no-invalid",
        "no-styles",
        "exact",
        "queries",
    ],
    texts: &["base", "source-url", "ignore", "index"],
    lists: &["map", "seed", "index-file"],
    choices: &[("format", FORMATS), ("host", HOSTS), ("fallback", SUFFIXES)],
};

/// Reads the configuration file of a check, if there is one.
pub fn config_of<R: Files>(
    rt: &R,
    alloc: Global,
    found: &ArgMatches<'_>,
) -> Result<Option<OptionFile>, PlanError>
    ensures { IfErr result IsShown }
{
    match name_of(rt, found) {
        Some(name) => Ok(Some(read_config(rt, alloc, name)?)),
        None => Ok(None),
    }
}

/// The name of the configuration file: the one that the command line names, otherwise that of the current directory, if it is there.
fn name_of<'a, R: Files>(rt: &R, found: &ArgMatches<'a>) -> Option<&'a str> {
    if found.get_flag("no-config") {
        return None;
    }
    match found.get_str("config") {
        Some(name) => Some(name),
        None => if is_absent(rt, DEFAULT_NAME) {
            None
        } else {
            Some(DEFAULT_NAME)
        },
    }
}

/// Whether there is no file with this name.
fn is_absent<R: Files>(rt: &R, name: &str) -> bool {
    match fs::symlink_metadata(rt, name) {
        Ok(_) => false,
        Err(error) => error.kind() == ErrorKind::NotFound,
    }
}

/// Reads the configuration file with this name.
fn read_config<R: Files>(rt: &R, alloc: Global, name: &str) -> Result<OptionFile, PlanError>
    ensures { IfErr result IsShown }
{
    match read_named(rt, alloc, name) {
        Ok(bytes) => config_in(alloc, name, bytes.as_slice()),
        Err(why) => Err(unread(alloc, name, why)?),
    }
}

/// The options in the bytes of the configuration file with this name.
fn config_in(alloc: Global, name: &str, bytes: &[u8]) -> Result<OptionFile, PlanError>
    ensures { IfErr result IsShown }
{
    match OptionFile::read(alloc, bytes, KNOWN) {
        Ok(file) => without_rivals(alloc, name, file),
        Err(error) => Err(bad_file(alloc, name, &error)?),
    }
}

/// The options of the file, if no two of them cannot be used together.
fn without_rivals(alloc: Global, name: &str, file: OptionFile) -> Result<OptionFile, PlanError>
    ensures { IfErr result IsShown }
{
    match rivals_in(&file) {
        None => Ok(file),
        Some(rivals) => Err(two_rivals(alloc, name, rivals)?),
    }
}

/// The first two options of the file that cannot be used together.
fn rivals_in(file: &OptionFile) -> Option<(&'static str, &'static str)> {
    for pair in RIVALS {
        if file.has(pair.0) && file.has(pair.1) {
            return Some(*pair);
        }
    }
    None
}

/// The error for a configuration file that cannot be read.
fn unread(alloc: Global, name: &str, why: Unread) -> Result<PlanError, AllocError>
    ensures { IfOk result IsShown }
{
    if why == Unread::NoMemory {
        return Ok(PlanError::NoMemory);
    }
    let name = shown(alloc, name)?;
    bad_line(
        alloc,
        &["error: cannot read the configuration file ", name.as_str()],
    )
}

/// The error for a configuration file with this name.
fn bad_file(alloc: Global, name: &str, error: &FileError) -> Result<PlanError, AllocError>
    ensures { IfOk result IsShown }
{
    let name = shown(alloc, name)?;
    match error {
        FileError::NoMemory => Ok(PlanError::NoMemory),
        FileError::NotToml(line, why) => not_toml(alloc, name.as_str(), *line, why.as_str()),
        FileError::Unknown(key) => unknown_option(alloc, name.as_str(), key.as_str()),
        FileError::WrongValue(key, values) => bad_line(
            alloc,
            &[
                "error: ",
                name.as_str(),
                ": ",
                key.as_str(),
                ": must be ",
                values.as_str(),
            ],
        ),
    }
}

/// The error for a file that is not TOML, by what is wrong in this line.
fn not_toml(alloc: Global, name: &str, line: usize, why: &str) -> Result<PlanError, AllocError>
    ensures { IfOk result IsShown }
{
    let line = format!(in alloc; "{line}")?;
    bad_line(
        alloc,
        &["error: ", name, ": line ", line.as_str(), ": ", why],
    )
}

/// The error for a file with a key that is no option.
fn unknown_option(alloc: Global, name: &str, key: &str) -> Result<PlanError, AllocError>
    ensures { IfOk result IsShown }
{
    let key = shown(alloc, key)?;
    bad_line(alloc, &["error: ", name, ": unknown option ", key.as_str()])
}

/// The error for a file that has two options that cannot be used together.
fn two_rivals(alloc: Global, name: &str, rivals: (&str, &str)) -> Result<PlanError, AllocError>
    ensures { IfOk result IsShown }
{
    let name = shown(alloc, name)?;
    let (one, other) = rivals;
    bad_line(
        alloc,
        &[
            "error: ",
            name.as_str(),
            ": ",
            one,
            " cannot be used with ",
            other,
        ],
    )
}

/// The error with this line, in pieces and without its LF.
fn bad_line(alloc: Global, pieces: &[&str]) -> Result<PlanError, AllocError>
    ensures { IfOk result IsShown }
{
    let mut line = String::new(alloc);
    for piece in pieces {
        line.push_str(*piece)?;
    }
    line.push_str("\n")?;
    bad_arguments(alloc, line.as_str())
}
