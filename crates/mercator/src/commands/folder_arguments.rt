//! The command `site`, as `clap` parses it, and what its options ask for. `check` has the same options for a folder.
ghost use Rattle.std.specs.Prelude.{◌≡◌, false, option_map};
ghost use Rattle.std.specs.Option.{option_map_or};
ghost use Rattle.mercator.specs.Hosts.{adds_html, is_exact};

use crate::commands::arguments::{Flag, command_with, flag_of, option, push, push_flags, word};
use crate::commands::option_values::{OptionValues, RIVALS};
use clap::builder::ValueParser;
use clap::{Arg, ArgAction, Command};
use mercator_site::SiteOptions;
use std::alloc::{AllocError, Global};

/// The heading in the help for how file names and URLs correspond.
const FILES: &str = "Files and URLs";

const SITE_HELP: &str = "\
A saved web is a text file of pages and their links, which 'mercator crawl' reads. A page is
what a plain static server returns. What is skipped is listed on standard error.
Example: mercator site examples/site http://site.test/ > site.web";

/// `site`: prints a folder as a saved web.
pub fn site_command<'a>(alloc: Global) -> Result<Command<'a>, AllocError> {
    let mut args = Vec::new(alloc);
    push_site_args(alloc, &mut args)?;
    let about = "Print a folder of HTML pages as a saved web";
    command_with(alloc, "site", about, SITE_HELP, args)
}

/// Appends the options and arguments of `site`, which requires BASE.
fn push_site_args<'a>(alloc: Global, args: &mut Vec<Arg<'a>>) -> Result<(), AllocError> {
    push_folder_options(alloc, args)?;
    push(args, styles(alloc).help_heading(FILES))?;
    push(args, folder(alloc, "Folder to read"))?;
    let base = base(alloc, "URL of the folder, http or https");
    push(args, base.required(true))
}

/// Appends the options for how file names and URLs correspond, and for how the folder is read.
pub fn push_folder_options<'a>(alloc: Global, args: &mut Vec<Arg<'a>>) -> Result<(), AllocError> {
    push_page_options(alloc, args)?;
    push_flags(alloc, args, Some(FILES), FOLDER_FLAGS)?;
    push(args, index(alloc)?)
}

/// Appends the options for which file is the page of a URL.
fn push_page_options<'a>(alloc: Global, args: &mut Vec<Arg<'a>>) -> Result<(), AllocError> {
    push(args, host(alloc)?)?;
    push(args, index_file(alloc))?;
    push(args, fallback(alloc)?)
}

/// The names of hosts.
pub const HOSTS: &[&str] = &["nginx", "github", "netlify", "plain"];

/// The option for the rules of a host, which the options for single rules would change.
fn host<'a>(alloc: Global) -> Result<Arg<'a>, AllocError> {
    let host = option(
        alloc,
        "host",
        "HOST",
        "Use the rules of a web host for suffixes and index files: nginx, github, netlify or plain",
    )
    .help_heading(FILES)
    .value_parser(ValueParser::Names(HOSTS))
    .hide_possible_values(true);
    with_rivals(host, "host")
}

/// The option for the names of index files.
fn index_file<'a>(alloc: Global) -> Arg<'a> {
    option(
        alloc,
        "index-file",
        "NAME",
        "Name of index files, in place of index.html, index.htm and index.xhtml; repeatable",
    )
    .help_heading(FILES)
    .action(ArgAction::Append)
}

/// The suffixes that can be added to a path without a page.
pub const SUFFIXES: &[&str] = &["html"];

/// The option to look up a path again.
fn fallback<'a>(alloc: Global) -> Result<Arg<'a>, AllocError> {
    let fallback = option(
        alloc,
        "fallback",
        "SUFFIX",
        "Accept links that omit .SUFFIX, such as about for about.html; SUFFIX is html",
    )
    .help_heading(FILES)
    .value_parser(ValueParser::Names(SUFFIXES))
    .hide_possible_values(true);
    with_rivals(fallback, "fallback")
}

const FOLDER_FLAGS: &[Flag] = &[
    Flag {
        name: "exact",
        help: "Accept only the exact URL of a page, not a//b for a/b or a?q for a",
    },
    Flag {
        name: "queries",
        help: "Read a ? in a file name as the start of a query",
    },
    Flag {
        name: "follow",
        help: "Follow symbolic links that lead out of FOLDER, which are otherwise listed and skipped",
    },
];

/// The option for a site list. It requires BASE, and has the exact URL of each file.
fn index<'a>(alloc: Global) -> Result<Arg<'a>, AllocError> {
    let index = option(
        alloc,
        "index",
        "FILE",
        "Read the URL of each file from the site list FILE, with lines of URL, type and file",
    )
    .help_heading(FILES)
    .value_parser(ValueParser::NonEmptyString)
    .requires_arg("base")?;
    with_rivals(index, "index")
}

/// The option with this name, which cannot be used together with its rivals.
pub fn with_rivals<'a>(option: Arg<'a>, name: &str) -> Result<Arg<'a>, AllocError> {
    let mut option = option;
    for pair in RIVALS {
        if pair.0 == name {
            option = option.conflicts_with(pair.1)?;
        }
    }
    Ok(option)
}

/// The option to ignore styles.
pub fn styles<'a>(alloc: Global) -> Arg<'a> {
    flag_of(
        alloc,
        "no-styles",
        "Ignore url() and @import in style sheets, style elements and style attributes",
    )
}

/// The argument FOLDER, which is required and not empty.
pub fn folder<'a>(alloc: Global, help: &'a str) -> Arg<'a> {
    word(alloc, "folder", "FOLDER", help)
        .value_parser(ValueParser::NonEmptyString)
        .required(true)
}

/// The argument BASE, which is optional unless the caller requires it.
pub fn base<'a>(alloc: Global, help: &'a str) -> Arg<'a> {
    word(alloc, "base", "BASE", help)
}

/// The settings of `site`, or those of a check that are the same, with this BASE.
pub fn site_options(
    alloc: Global,
    values: OptionValues<'_, '_>,
    base: &str,
) -> Result<SiteOptions, AllocError> {
    let host = values.text("host");
    Ok(SiteOptions {
        folder: String::from_str(alloc, values.line.get_str("folder").unwrap_or("."))?,
        base: String::from_str(alloc, base)?,
        index: values.string(alloc, "index")?,
        index_files: index_files(alloc, values, host)?,
        html_fallback: values.text("fallback").is_some() || adds_html(host),
        exact: values.flag("exact") || is_exact(host),
        queries: values.flag("queries"),
        follow: values.flag("follow"),
        styles: !values.flag("no-styles"),
        sniff: host.is_none(),
    })
}

/// The names of index files: `index.html` for a host, otherwise those that are values.
fn index_files(
    alloc: Global,
    values: OptionValues<'_, '_>,
    host: Option<&str>,
) -> Result<Vec<String>, AllocError> {
    if host.is_none() {
        return values.strings(alloc, "index-file");
    }
    let mut names = Vec::new(alloc);
    names.push(String::from_str(alloc, "index.html")?)?;
    Ok(names)
}

/// Whether the host, if there is one, adds `.html` to a path without a page.
fn adds_html(host: Option<&str>) -> bool
    ensures { result ≡ option_map_or adds_html (option_map (λ name. name.now) host.entry) false }
{
    match host {
        Some(name) => name == "github" || name == "netlify",
        None => false,
    }
}

/// Whether the host, if there is one, accepts only the exact spelling of a page's URL.
fn is_exact(host: Option<&str>) -> bool
    ensures { result ≡ option_map_or is_exact (option_map (λ name. name.now) host.entry) false }
{
    match host {
        Some(name) => name == "plain",
        None => false,
    }
}
