//! The command `check`, as `clap` parses it, and what its options ask for.
ghost use Rattle.std.specs.Prelude.{◌≡◌, IfOk, option_map};
ghost use Rattle.mercator.specs.Formats.{form_named, format_of, has_links};

use crate::commands::arguments::{
    Flag, Valued, command_with, flag_of, option, push, push_flags, push_options, workers,
};
use crate::commands::folder_arguments::{
    base, folder, push_folder_options, site_options, styles, with_rivals,
};
use crate::commands::option_values::OptionValues;
use clap::builder::ValueParser;
use clap::{Arg, ArgAction, ArgGroup, ArgMatches, Command};
use mercator_site::{
    CheckForm, CheckOptions, Fix, FolderMap, Lists, MapError, ReportOptions, Scope, read_maps,
};
use std::alloc::{AllocError, Global};

/// The URL of the top if no BASE is given. No site has this host, so no absolute URL leads there. The top is below many folders, so that
/// a link above it also has a URL.
const LOCAL: &str =
    "http://folder.invalid/-/-/-/-/-/-/-/-/-/-/-/-/-/-/-/-/-/-/-/-/-/-/-/-/-/-/-/-/-/-/-/-/";

const CHECK_HELP: &str = "\
Reports links to pages or anchors that do not exist, and invalid links, with the file, line and
column of each. Links are read from attributes such as href, src and srcset, and from styles, but
not from the action of a form. The exit status is 4 if a link is broken or invalid, or leaves the
site, or if --sitemap reports a document; with --fix --dry-run, it is 4 if a link would be
rewritten.
Example: mercator check examples/site";

/// `check`: finds the broken links of a folder.
pub fn check_command<'a>(alloc: Global) -> Result<Command<'a>, AllocError> {
    let mut args = Vec::new(alloc);
    push_check_args(alloc, &mut args)?;
    let about = "Find broken links in a folder of HTML pages";
    with_short_forms(
        alloc,
        command_with(alloc, "check", about, CHECK_HELP, args)?,
    )
}

/// The command, which accepts at most one short form of `--format`.
fn with_short_forms<'a>(alloc: Global, command: Command<'a>) -> Result<Command<'a>, AllocError> {
    command.group(short_forms(alloc)?)
}

/// The short forms of `--format`, of which at most one may be given.
fn short_forms<'a>(alloc: Global) -> Result<ArgGroup<'a>, AllocError> {
    ArgGroup::new(alloc, "form")
        .arg("json")?
        .arg("html")?
        .arg("annotations")
}

/// Appends the options and arguments of `check`, for which BASE is optional.
fn push_check_args<'a>(alloc: Global, args: &mut Vec<Arg<'a>>) -> Result<(), AllocError> {
    push_run_args(alloc, args)?;
    push_report_args(alloc, args)?;
    push_scope_args(alloc, args)?;
    push_folder_options(alloc, args)?;
    push_fix_args(alloc, args)?;
    push_places(alloc, args)
}

/// Appends the options for the number of workers and for the configuration file.
fn push_run_args<'a>(alloc: Global, args: &mut Vec<Arg<'a>>) -> Result<(), AllocError> {
    push(args, workers(alloc, "1", "Number of workers, 1 to 512"))?;
    push(args, config(alloc))?;
    push(args, no_config(alloc)?)
}

/// Appends the arguments FOLDER and BASE.
fn push_places<'a>(alloc: Global, args: &mut Vec<Arg<'a>>) -> Result<(), AllocError> {
    push(
        args,
        folder(alloc, "Folder to check; nothing is read from the network"),
    )?;
    let help =
        "URL at which FOLDER is published, http or https; without it, links with a host are not checked";
    push(args, base(alloc, help))
}

/// The option for the name of the configuration file.
fn config<'a>(alloc: Global) -> Arg<'a> {
    option(
        alloc,
        "config",
        "FILE",
        "Read options from FILE, not from .mercator.toml in the current directory",
    )
    .value_parser(ValueParser::NonEmptyString)
}

/// The option to read no configuration file.
fn no_config<'a>(alloc: Global) -> Result<Arg<'a>, AllocError> {
    flag_of(
        alloc,
        "no-config",
        "Do not read .mercator.toml in the current directory",
    )
    .conflicts_with("config")
}

/// The heading in the help for the format of a report and what it lists.
const REPORT: &str = "Report";

/// The heading in the help for which documents and links are checked.
const SCOPE: &str = "What is checked";

/// Appends the options for the format of a report and for what it lists.
fn push_report_args<'a>(alloc: Global, args: &mut Vec<Arg<'a>>) -> Result<(), AllocError> {
    push(args, format(alloc).help_heading(REPORT))?;
    push_flags(alloc, args, Some(REPORT), REPORT_FLAGS)?;
    push_options(alloc, args, Some(REPORT), REPORT_OPTIONS)
}

/// Appends the options for which documents and links are checked.
fn push_scope_args<'a>(alloc: Global, args: &mut Vec<Arg<'a>>) -> Result<(), AllocError> {
    push_options(alloc, args, Some(SCOPE), IGNORE_OPTIONS)?;
    push(args, map(alloc).help_heading(SCOPE))?;
    push(args, seed(alloc).help_heading(SCOPE))?;
    push_flags(alloc, args, Some(SCOPE), SCOPE_FLAGS)?;
    push(args, styles(alloc).help_heading(SCOPE))
}

/// The heading in the help for rewriting links.
const FIXES: &str = "Rewriting links";

/// Appends the options for rewriting links.
fn push_fix_args<'a>(alloc: Global, args: &mut Vec<Arg<'a>>) -> Result<(), AllocError> {
    push(args, fix(alloc)?)?;
    push(args, dry_run(alloc)?)
}

/// The option to rewrite links.
fn fix<'a>(alloc: Global) -> Result<Arg<'a>, AllocError> {
    let help =
        "Rewrite links to redirects, and to missing pages with a certain suggestion, in the files, then check";
    with_rivals(flag_of(alloc, "fix", help).help_heading(FIXES), "fix")
}

/// The option to print what would be rewritten.
fn dry_run<'a>(alloc: Global) -> Result<Arg<'a>, AllocError> {
    let help =
        "With --fix, write nothing and print the changes as a diff, which shows where links to redirects are";
    flag_of(alloc, "dry-run", help)
        .help_heading(FIXES)
        .requires_arg("fix")
}

/// The names of the formats of a report.
pub const FORMATS: &[&str] = &["text", "json", "html", "github", "junit", "sarif"];

/// The option `--format`.
fn format<'a>(alloc: Global) -> Arg<'a> {
    option(
        alloc,
        "format",
        "FORMAT",
        "Print the report as text, json, html, github, junit or sarif",
    )
    .value_parser(ValueParser::Names(FORMATS))
    .hide_possible_values(true)
    .default_value("text")
}

/// The short forms of `--format`, and what a report lists.
const REPORT_FLAGS: &[Flag] = &[
    Flag {
        name: "json",
        help: "Print one JSON object per line (--format json)",
    },
    Flag {
        name: "html",
        help: "Print an HTML page (--format html)",
    },
    Flag {
        name: "annotations",
        help: "Print GitHub annotations (--format github)",
    },
    Flag {
        name: "by-target",
        help: "List broken links by target, not by file",
    },
    Flag {
        name: "all-sources",
        help: "List every location of a broken link, not only the first three",
    },
    Flag {
        name: "unreached",
        help: "Also list the files that cannot be reached by following links",
    },
    Flag {
        name: "sitemap",
        help: "Also report each document that no sitemap of the folder lists; requires BASE",
    },
    Flag {
        name: "external",
        help: "Also list links to other sites, which are not checked",
    },
];

/// The URL of the sources.
const REPORT_OPTIONS: &[Valued] = &[Valued {
    name: "source-url",
    value: "URL",
    help: "With html or sarif, link each location to the source file below URL",
}];

/// The list of targets to ignore.
const IGNORE_OPTIONS: &[Valued] = &[Valued {
    name: "ignore",
    value: "LIST",
    help: "Ignore each target that begins with a line of the file LIST, or matches one such as *.png; with BASE, a target is a URL",
}];

/// Which documents and links are checked.
const SCOPE_FLAGS: &[Flag] = &[
    Flag {
        name: "reachable",
        help: "Check only what links from the top lead to, not every HTML document in FOLDER",
    },
    Flag {
        name: "no-anchors",
        help: "Do not check anchors, such as page.html#use",
    },
    Flag {
        name: "no-invalid",
        help: "Do not report links that are no URL, have an unknown scheme or name a local file",
    },
];

/// The option `--map`, which may be repeated. Its value is not empty.
fn map<'a>(alloc: Global) -> Arg<'a> {
    option(
        alloc,
        "map",
        "PREFIX=FOLDER",
        "Look up links that leave the site to PREFIX in another folder, such as ../x=/srv/x; repeatable",
    )
    .value_parser(ValueParser::NonEmptyString)
    .action(ArgAction::Append)
}

/// The option `--seed`, which may be repeated. Its value is not empty.
fn seed<'a>(alloc: Global) -> Arg<'a> {
    option(
        alloc,
        "seed",
        "LINK",
        "Follow links from LINK, not from the top of the folder, for --reachable and --unreached; repeatable",
    )
    .value_parser(ValueParser::NonEmptyString)
    .action(ArgAction::Append)
}

/// The maps of a check. If BASE is not a URL, there are none: the check reports that.
///
/// # Errors
/// Those of `mercator_site::read_maps`, but for `BadBase`.
pub fn maps_of(alloc: Global, values: &OptionValues<'_, '_>) -> Result<Vec<FolderMap>, MapError> {
    let texts = values.strings(alloc, "map")?;
    if texts.is_empty() {
        return Ok(Vec::new(alloc));
    }
    let base = values.text("base");
    match read_maps(
        alloc,
        base.unwrap_or(LOCAL),
        base.is_none(),
        texts.as_slice(),
    ) {
        Err(MapError::BadBase) => Ok(Vec::new(alloc)),
        maps => maps,
    }
}

/// The settings of a check by this number of workers, with these maps, whose report has this form.
pub fn check_options(
    alloc: Global,
    values: &OptionValues<'_, '_>,
    workers: u32,
    form: CheckForm,
    maps: Vec<FolderMap>,
) -> Result<CheckOptions, AllocError>
    ensures workers { IfOk result (λ options. options.workers ≡ workers) }
    ensures form { IfOk result (λ options. options.report.form ≡ form) }
{
    let base = values.text("base");
    Ok(CheckOptions {
        site: site_options(alloc, *values, base.unwrap_or(LOCAL))?,
        paths: base.is_none(),
        workers,
        anchors: !values.flag("no-anchors"),
        scope: scope_of(values),
        report: ReportOptions {
            form,
            lists: lists_of(values),
            external: values.flag("external"),
        },
        source_url: String::from_str(alloc, values.text("source-url").unwrap_or(""))?,
        maps,
        seeds: values.strings(alloc, "seed")?,
        reachable: values.flag("reachable"),
        fix: fix_of(values.line),
    })
}

/// Whether links are rewritten.
fn fix_of(found: &ArgMatches<'_>) -> Fix {
    if !found.get_flag("fix") {
        Fix::Off
    } else if found.get_flag("dry-run") {
        Fix::Diff
    } else {
        Fix::Write
    }
}

/// Which findings are reported.
fn scope_of(values: &OptionValues<'_, '_>) -> Scope {
    Scope {
        invalid: !values.flag("no-invalid"),
    }
}

/// What the report lists.
fn lists_of(values: &OptionValues<'_, '_>) -> Lists {
    Lists {
        all: values.flag("all-sources"),
        unreached: values.flag("unreached"),
        unlisted: values.flag("sitemap"),
        by_target: values.flag("by-target"),
    }
}

/// The form of the report, or `None` if two different ones are values. A report as text has colour if `has_colour`.
pub fn form_of(values: &OptionValues<'_, '_>, has_colour: bool) -> Option<CheckForm> {
    form_named(
        format_of(values.text("format"), short_form(values.line))?,
        has_colour,
    )
}

/// The format of the short form on the command line.
fn short_form(found: &ArgMatches<'_>) -> Option<&'static str> {
    if found.get_flag("json") {
        Some("json")
    } else if found.get_flag("html") {
        Some("html")
    } else if found.get_flag("annotations") {
        Some("github")
    } else {
        None
    }
}

/// The format of the report, for the value of `--format` and the format of a short form, or `None` if the two differ.
fn format_of<'a>(named: Option<&'a str>, short: Option<&'a str>) -> Option<&'a str>
    ensures { option_map (λ format. format.now) result ≡ format_of (option_map (λ name. name.now) named.entry) (option_map (λ name. name.now) short.entry) }
{
    match (named, short) {
        (None, None) => Some("text"),
        (Some(name), None) => Some(name),
        (None, Some(name)) => Some(name),
        (Some(name), Some(other)) => if name == other { Some(name) } else { None },
    }
}

/// The form of a report with this format, which has colour only as text.
fn form_named(format: &str, has_colour: bool) -> Option<CheckForm>
    ensures { result ≡ form_named format.now has_colour }
{
    if format == "text" {
        Some(CheckForm::Text { colour: has_colour })
    } else if format == "json" {
        Some(CheckForm::Json)
    } else if format == "html" {
        Some(CheckForm::Page)
    } else if format == "github" {
        Some(CheckForm::Annotations)
    } else if format == "junit" {
        Some(CheckForm::Junit)
    } else if format == "sarif" {
        Some(CheckForm::Sarif)
    } else {
        None
    }
}

/// Whether a report of this form links locations to the source files.
pub fn has_links(form: CheckForm) -> bool
    ensures { result ≡ has_links form }
{
    match form {
        CheckForm::Page | CheckForm::Sarif => true,
        _ => false,
    }
}
