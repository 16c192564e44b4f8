//! Whether the arguments of a command line agree with what `clap` made of them. `clap` promises little about a command line with
//! conflicts and groups, so what the contract of the program says about the arguments of a check is compared once more.
ghost use Rattle.std.specs.Prelude.{◌≡◌};
ghost use Rattle.mercator.specs.Outputs.{is_off};
ghost use Rattle.mercator.specs.Checks.{agrees, agrees_with_base, agrees_with_check, agrees_with_error, asks_help, has_help_letter, has_no_config, has_option, has_paths_without_base, has_usual_rules, has_word, is_check, is_help, is_help_text, is_option, is_plain, is_whole, may_set_options, names_check, word_count};

use crate::commands::plan_error::PlanError;
use crate::commands::planned::Plan;
use mercator_site::{CheckOptions, Fix, SiteOptions};

/// Whether a plan agrees with these arguments. That of a check has their FOLDER and BASE, and no options if they set none. No other plan
/// is that of arguments that begin with `check`, unless they ask for help.
pub fn agrees(arguments: &[String], plan: &Plan) -> bool
    ensures { result ≡ agrees arguments.now plan.now }
{
    match plan {
        Plan::Check { options, ignores } => agrees_with_check(arguments, options, ignores),
        _ => !is_check(arguments),
    }
}

/// Whether an error agrees with these arguments: it is not the text of help or of the version, unless they ask for one.
pub fn agrees_with_error(arguments: &[String], error: &PlanError) -> bool
    ensures { result ≡ agrees_with_error arguments.now error.now }
{
    !is_help_text(error) || asks_help(arguments)
}

/// Whether the text of an error is help or the version.
fn is_help_text(error: &PlanError) -> bool
    ensures { result ≡ is_help_text error.now }
{
    match error {
        PlanError::Shown { status, .. } => *status == 0,
        PlanError::NoMemory => false,
    }
}

/// Whether the arguments are those of a check: the first is `check`, and none asks for help.
fn is_check(arguments: &[String]) -> bool
    ensures { result ≡ is_check arguments.now }
{
    names_check(arguments) && !asks_help(arguments)
}

/// Whether the first argument is `check`.
fn names_check(arguments: &[String]) -> bool
    ensures { result ≡ names_check arguments.now }
{
    match arguments.split_first() {
        Some((first, _)) => first.as_str() == "check",
        None => false,
    }
}

/// Whether an argument asks for help or for the version.
fn asks_help(arguments: &[String]) -> bool
    ensures { result ≡ asks_help arguments.now }
{
    arguments.iter().any(|word| is_help(word.as_str()))
}

/// Whether this argument asks for help or for the version.
fn is_help(word: &str) -> bool
    ensures { result ≡ is_help word.now }
{
    word == "help" || word == "--help" || word == "--version" || has_help_letter(word)
}

/// Whether this argument begins with the short form of `--help` or `--version`.
fn has_help_letter(word: &str) -> bool
    ensures { result ≡ has_help_letter word.now }
{
    word.as_bytes().starts_with(b"-h") || word.as_bytes().starts_with(b"-V")
}

/// Whether the plan of a check agrees with these arguments.
fn agrees_with_check(arguments: &[String], options: &CheckOptions, ignores: &Option<String>) -> bool
    ensures { result ≡ agrees_with_check arguments.now options.now ignores.now }
{
    has_word(arguments, options.site.folder.as_str())
        && agrees_with_base(arguments, options)
        && (may_set_options(arguments)
            || is_plain(options, ignores) && has_paths_without_base(arguments, options))
}

/// Whether there is no BASE, or BASE is one of the arguments or may be that of a configuration file.
fn agrees_with_base(arguments: &[String], options: &CheckOptions) -> bool
    ensures { result ≡ agrees_with_base arguments.now options.now }
{
    options.paths || has_word(arguments, options.site.base.as_str()) || !has_no_config(arguments)
}

/// Whether one of the arguments is this text.
fn has_word(arguments: &[String], text: &str) -> bool
    ensures { result ≡ has_word arguments.now text.now }
{
    arguments.iter().any(|word| word.as_str() == text)
}

/// Whether the arguments say that no configuration file is read. After `--`, no argument is an option.
fn has_no_config(arguments: &[String]) -> bool
    ensures { result ≡ has_no_config arguments.now }
{
    has_word(arguments, "--no-config") && !has_word(arguments, "--")
}

/// Whether a configuration file or an argument other than `--no-config` may set options.
fn may_set_options(arguments: &[String]) -> bool
    ensures { result ≡ may_set_options arguments.now }
{
    !has_no_config(arguments) || has_option(arguments)
}

/// Whether an argument begins like an option, and is not `--no-config`.
fn has_option(arguments: &[String]) -> bool
    ensures { result ≡ has_option arguments.now }
{
    arguments.iter().any(|word| is_option(word.as_str()))
}

/// Whether this argument begins like an option, and is not `--no-config`.
fn is_option(word: &str) -> bool
    ensures { result ≡ is_option word.now }
{
    word.as_bytes().starts_with(b"-") && word != "--no-config"
}

/// Whether a check reports all that it finds, and rewrites nothing.
fn is_plain(options: &CheckOptions, ignores: &Option<String>) -> bool
    ensures { result ≡ is_plain options.now ignores.now }
{
    !ignores.is_some()
        && options.maps.is_empty()
        && is_whole(options)
        && has_usual_rules(&options.site)
}

/// Whether pages are found by the usual rules of a static server, and the links in styles are read.
fn has_usual_rules(site: &SiteOptions) -> bool
    ensures { result ≡ has_usual_rules site.now }
{
    let is_changed = site.index.is_some()
        || site.html_fallback
        || site.exact
        || site.queries
        || site.follow;
    site.index_files.is_empty() && site.styles && site.sniff && !is_changed
}

/// Whether the report has paths if and only if there is no BASE after `check` and FOLDER.
fn has_paths_without_base(arguments: &[String], options: &CheckOptions) -> bool
    ensures { result ≡ has_paths_without_base arguments.now options.now }
{
    if word_count(arguments) == 2 {
        options.paths
    } else {
        !options.paths
    }
}

/// The number of arguments that are not `--no-config`.
fn word_count(arguments: &[String]) -> usize
    ensures { result ≡ word_count arguments.now }
{
    arguments
        .iter()
        .filter(|word| word.as_str() != "--no-config")
        .count()
}

/// Whether a check starts at all documents, looks for all kinds of errors, and rewrites nothing.
fn is_whole(options: &CheckOptions) -> bool
    ensures { result ≡ is_whole options.now }
{
    options.anchors && options.scope.reports_all() && !options.reachable && is_off(options.fix)
}

/// Whether no links are rewritten.
fn is_off(fix: Fix) -> bool
    ensures { result ≡ is_off fix }
{
    match fix {
        Fix::Off => true,
        _ => false,
    }
}
