//! Kinds of arguments, as `clap` parses them.
use clap::builder::ValueParser;
use clap::parser::ValueSource;
use clap::{Arg, ArgAction, ArgMatches, Command};
use crawl_limits::WORKER_LIMIT;
use std::alloc::{AllocError, Global};

/// An option without a value, as a row of a table.
pub struct Flag {
    pub name: &'static str,
    pub help: &'static str,
}

/// A command with these arguments, and with this text after its help.
pub fn command_with<'a>(
    alloc: Global,
    name: &'a str,
    about: &'a str,
    help: &'a str,
    args: Vec<Arg<'a>>,
) -> Result<Command<'a>, AllocError> {
    Command::new(alloc, name)
        .about(about)
        .after_help(help)
        .args(args)
}

/// Appends an argument.
pub fn push<'a>(args: &mut Vec<Arg<'a>>, arg: Arg<'a>) -> Result<(), AllocError> {
    args.push(arg)?;
    Ok(())
}

/// An option with a value, as a row of a table.
pub struct Valued {
    pub name: &'static str,
    pub value: &'static str,
    pub help: &'static str,
}

/// Appends the options of the table, which the help lists under the heading, if there is one.
pub fn push_options<'a>(
    alloc: Global,
    args: &mut Vec<Arg<'a>>,
    heading: Option<&'a str>,
    options: &[Valued],
) -> Result<(), AllocError> {
    for one in options {
        let arg = option(alloc, one.name, one.value, one.help);
        push(args, under(heading, arg))?;
    }
    Ok(())
}

/// Appends the options of the table, which have no value. The help lists them under the heading, if there is one.
pub fn push_flags<'a>(
    alloc: Global,
    args: &mut Vec<Arg<'a>>,
    heading: Option<&'a str>,
    flags: &[Flag],
) -> Result<(), AllocError> {
    for one in flags {
        push(args, under(heading, flag_of(alloc, one.name, one.help)))?;
    }
    Ok(())
}

/// The argument, under the heading if there is one.
fn under<'a>(heading: Option<&'a str>, arg: Arg<'a>) -> Arg<'a> {
    match heading {
        Some(heading) => arg.help_heading(heading),
        None => arg,
    }
}

/// An option without a value.
pub fn flag_of<'a>(alloc: Global, name: &'a str, help: &'a str) -> Arg<'a> {
    Arg::new(alloc, name)
        .long(name)
        .action(ArgAction::SetTrue)
        .help(help)
}

/// An option with a value.
pub fn option<'a>(alloc: Global, name: &'a str, value: &'a str, help: &'a str) -> Arg<'a> {
    Arg::new(alloc, name)
        .long(name)
        .value_name(value)
        .help(help)
}

/// A positional argument, which may be omitted.
pub fn word<'a>(alloc: Global, name: &'a str, value: &'a str, help: &'a str) -> Arg<'a> {
    Arg::new(alloc, name).value_name(value).help(help)
}

/// The option `--workers`.
pub fn workers<'a>(alloc: Global, default: &'a str, help: &'a str) -> Arg<'a> {
    option(alloc, "workers", "N", help)
        .value_parser(ValueParser::unsigned(1, WORKER_LIMIT as u64))
        .default_value(default)
}

/// Whether the command line has the option, so that its value is not the default.
pub fn is_named(found: &ArgMatches<'_>, name: &str) -> bool {
    found.value_source(name) == Some(ValueSource::CommandLine)
}

/// Returns the value of an option, unless it is the default.
pub fn named_value<'a>(found: &ArgMatches<'a>, option: &str) -> Option<&'a str> {
    if is_named(found, option) {
        found.get_str(option)
    } else {
        None
    }
}

/// Returns the value of an option, if it has one.
pub fn value_of(
    alloc: Global,
    found: &ArgMatches<'_>,
    option: &str,
) -> Result<Option<String>, AllocError> {
    match found.get_str(option) {
        Some(value) => Ok(Some(String::from_str(alloc, value)?)),
        None => Ok(None),
    }
}

/// Returns the values of an option or an argument that may be repeated.
pub fn values_of(
    alloc: Global,
    found: &ArgMatches<'_>,
    name: &str,
) -> Result<Vec<String>, AllocError> {
    let mut values = Vec::new(alloc);
    if let Some(texts) = found.get_strs(name) {
        for text in texts {
            values.push(String::from_str(alloc, text)?)?;
        }
    }
    Ok(values)
}
