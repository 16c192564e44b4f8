//! Parses the arguments of a command line with `clap`.
ghost use Rattle.std.specs.Prelude.{◌≡◌, ◌*◌, ◌<◌, ◌≤◌, IfOk, IfErr, IfSome, false, string_bytes, true};
ghost use Rattle.crawl_core.specs.Limits.{queue_limit};
ghost use Rattle.crawl_limits.specs.Limits.{worker_limit, pending_limit};
ghost use Rattle.session_log.specs.Plans.{IsPartOf, IsSessionPlan, all_queues};
ghost use Rattle.mercator.specs.Checks.{agrees, agrees_with_error, is_help_text};
ghost use Rattle.mercator.specs.Plans.{IsShown, IsVisible, IsWithinLimits, lists_input};

use crate::commands::agreement::{agrees, agrees_with_error};
use crate::commands::arguments::{is_named, value_of, values_of};
use crate::commands::check_arguments::{check_options, form_of, has_links, maps_of};
use crate::commands::command_line::{self, command_line};
use crate::commands::config::config_of;
use crate::commands::folder_arguments::site_options;
use crate::commands::option_values::OptionValues;
use crate::commands::plan_error::{PlanError, bad_arguments, visible};
use crate::commands::planned::{CrawlOptions, Plan};
use crate::commands::report_arguments::sections_of;
use clap::ArgMatches;
use clap::error::ErrorKind;
use crawl_core::QUEUE_LIMIT;
use crawl_limits::{PENDING_LIMIT, WORKER_LIMIT};
use crawl_replay::number32;
use crawl_session::ListForm;
use mercator_site::{CheckForm, MapError};
use option_file::OptionFile;
use session_log::{CompactPlan, ListKind, ListPlan, LogPlan, NamedSettings, SessionPlan};
use std::alloc::{AllocError, Global};
use std::fs::Files;

/// Parses the arguments after the program's name, without a configuration file.
///
/// # Errors
/// `Shown` if they ask for help or are not a command line. `NoMemory`.
///
/// # Example
///
/// The program parses its arguments and runs the plan:
///
/// ```rust
/// match plan(alloc, words) {
///     Ok(plan) => run_plan(platform, alloc, &plan, input, out, err),
///     Err(error) => show(alloc, error, out, err),
/// }
/// ```
pub fn plan(alloc: Global, arguments: &[String]) -> Result<Plan, PlanError>
    ensures limits { IfOk result IsWithinLimits }
    ensures shown { IfErr result IsShown }
{
    let named = after_the_name(alloc, arguments)?;
    let matches = matches_of(alloc, named.as_slice())?;
    plan_of(alloc, &matches)
}

/// Parses the arguments after the program's name. A check also has the options of its configuration file, and if `has_colour`, its report
/// as text has colour. What `clap` made of the arguments is compared with them once more.
///
/// # Errors
/// `Shown` if they ask for help or are not a command line, or if the configuration file is not valid. `NoMemory`.
pub fn plan_with_config<R: Files>(
    rt: &R,
    alloc: Global,
    arguments: &[String],
    has_colour: bool,
) -> Result<Plan, PlanError>
    ensures limits { IfOk result IsWithinLimits }
    ensures shown { IfErr result IsShown }
    ensures agreed { IfOk result (λ plan. agrees arguments.now plan ≡ true) }
    ensures helps { IfErr result (λ error. agrees_with_error arguments.now error ≡ true) }
{
    match read_plan(rt, alloc, arguments, has_colour) {
        Ok(plan) => if agrees(arguments, &plan) {
            Ok(plan)
        } else {
            Err(misread(alloc))
        },
        Err(error) => if agrees_with_error(arguments, &error) {
            Err(error)
        } else {
            Err(misread(alloc))
        },
    }
}

/// Parses the arguments, with the options of a configuration file for a check.
fn read_plan<R: Files>(
    rt: &R,
    alloc: Global,
    arguments: &[String],
    has_colour: bool,
) -> Result<Plan, PlanError>
    ensures limits { IfOk result IsWithinLimits }
    ensures shown { IfErr result IsShown }
{
    let named = after_the_name(alloc, arguments)?;
    let matches = matches_of(alloc, named.as_slice())?;
    configured(rt, alloc, &matches, has_colour)
}

/// Parses the arguments, of which the first is the program's name.
fn matches_of<'a>(alloc: Global, named: &'a [&str]) -> Result<ArgMatches<'a>, PlanError>
    ensures { IfErr result IsShown }
{
    match command_line(alloc)?.try_get_matches_from(named) {
        Ok(matches) => Ok(matches),
        Err(error) => Err(shown(alloc, &error)),
    }
}

/// Returns the plan for the command that `clap` parsed, which also has the options of a configuration file if it is a check.
fn configured<R: Files>(
    rt: &R,
    alloc: Global,
    matches: &ArgMatches<'_>,
    has_colour: bool,
) -> Result<Plan, PlanError>
    ensures limits { IfOk result IsWithinLimits }
    ensures shown { IfErr result IsShown }
{
    match matches.subcommand() {
        Some(("check", found)) => {
            let file = config_of(rt, alloc, found)?;
            check_of(alloc, found, file.as_ref(), has_colour)
        }
        _ => plan_of(alloc, matches),
    }
}

/// Puts the program's name, which appears in usage lines, before the arguments.
fn after_the_name<'a>(alloc: Global, arguments: &'a [String]) -> Result<Vec<&'a str>, AllocError> {
    let mut named = Vec::new(alloc);
    named.push(command_line::NAME)?;
    for word in arguments {
        named.push(word.as_str())?;
    }
    Ok(named)
}

/// Returns what to show for this error of `clap`.
fn shown(alloc: Global, error: &clap::Error) -> PlanError
    ensures { IsShown result }
{
    if error.kind() == ErrorKind::OutOfMemory {
        return PlanError::NoMemory;
    }
    let status = if error.use_stderr() {
        PlanError::BAD_COMMAND_LINE
    } else {
        0
    };
    match text_of(alloc, error) {
        Ok(text) => PlanError::Shown { text, status },
        Err(_) => PlanError::NoMemory,
    }
}

/// Returns the text of this error of `clap`. It quotes arguments, so its hidden characters are escaped.
fn text_of(alloc: Global, error: &clap::Error) -> Result<String, AllocError>
    ensures { IfOk result (λ text. IsVisible (string_bytes text)) }
{
    let text = format!(in alloc; "{error}")?;
    visible(alloc, text.as_str())
}

const TWO_INPUTS: &str = "\
error: FILE and '--seeds <LIST>' cannot both be '-'

For more information, try '--help'.
";

const TWO_FORMATS: &str = "\
error: '--format <FORMAT>' cannot be used with the short form of another format

For more information, try '--help'.
";

const NO_LINKS: &str = "\
error: '--source-url <URL>' requires the format html or sarif

For more information, try '--help'.
";

const NO_SITE: &str = "\
error: '--sitemap' requires BASE

For more information, try '--help'.
";

const NO_MAP: &str = "\
error: '--map <PREFIX=FOLDER>' requires a PREFIX and a FOLDER

For more information, try '--help'.
";

const FAR_MAP: &str = "\
error: '--map <PREFIX=FOLDER>' requires a PREFIX on the host of the site, without a query or a fragment

For more information, try '--help'.
";

const NEAR_MAP: &str = "\
error: '--map <PREFIX=FOLDER>' requires a PREFIX that leads out of the site

For more information, try '--help'.
";

const SAME_MAPS: &str = "\
error: '--map <PREFIX=FOLDER>' cannot have the same PREFIX twice

For more information, try '--help'.
";

const NO_BASE: &str = "\
error: index in the configuration file requires BASE

For more information, try '--help'.
";

const BAD_PART: &str = "\
error: '--part <I/K>' requires that I is less than K, and at most 1048576 workers in all parts together

For more information, try '--help'.
";

/// The error for arguments that were parsed otherwise than `clap` checked them.
fn misread(alloc: Global) -> PlanError
    ensures shown { IsShown result }
    ensures is_error { is_help_text result ≡ false }
{
    PlanError::Shown {
        text: String::new(alloc),
        status: PlanError::BAD_COMMAND_LINE,
    }
}

/// Returns the plan for the command that `clap` parsed.
fn plan_of(alloc: Global, matches: &ArgMatches<'_>) -> Result<Plan, PlanError>
    ensures limits { IfOk result IsWithinLimits }
    ensures shown { IfErr result IsShown }
{
    match matches.subcommand() {
        Some(("crawl", found)) => crawl_of(alloc, found),
        Some(("key", found)) => key_of(alloc, found),
        Some(("replay", found)) => replay_of(alloc, found),
        Some(("serve", found)) => serve_of(alloc, found),
        Some(("site", found)) => site_of(alloc, found),
        Some(("check", found)) => check_of(alloc, found, None, false),
        _ => Err(misread(alloc)),
    }
}

/// Returns the plan of `crawl`. It must have a seed or a file of seeds. At most one of its files may be the input.
fn crawl_of(alloc: Global, found: &ArgMatches<'_>) -> Result<Plan, PlanError>
    ensures limits { IfOk result IsWithinLimits }
    ensures shown { IfErr result IsShown }
{
    let (Some(workers), Some(max), Some(file)) = (
        workers_of(found),
        max_of(found),
        found.get_str("file"),
    ) else {
        return Err(misread(alloc));
    };
    let listed = value_of(alloc, found, "seeds")?;
    let seeds = values_of(alloc, found, "seed")?;
    if listed.is_none() && seeds.is_empty() {
        return Err(misread(alloc));
    }
    if file == "-" && is_input(&listed) {
        return Err(bad_arguments(alloc, TWO_INPUTS)?);
    }
    Ok(Plan::Crawl {
        workers,
        max,
        queues: found.get_flag("queues"),
        file: String::from_str(alloc, file)?,
        seeds,
        options: CrawlOptions {
            within: value_of(alloc, found, "within")?,
            listed,
            sections: sections_of(found),
            json: found.get_flag("json"),
            explain: found.get_flag("explain"),
            progress: found.get_flag("progress"),
        },
    })
}

/// Returns the plan of `key`. The URL is not parsed yet.
fn key_of(alloc: Global, found: &ArgMatches<'_>) -> Result<Plan, PlanError>
    ensures limits { IfOk result IsWithinLimits }
    ensures shown { IfErr result IsShown }
{
    let (Some(url), Some(workers)) = (found.get_str("url"), workers_of(found)) else {
        return Err(misread(alloc));
    };
    Ok(Plan::Key {
        url: String::from_str(alloc, url)?,
        workers,
    })
}

/// Returns the plan of `replay`. The file is not read yet.
fn replay_of(alloc: Global, found: &ArgMatches<'_>) -> Result<Plan, PlanError>
    ensures limits { IfOk result IsWithinLimits }
    ensures shown { IfErr result IsShown }
{
    let Some(file) = found.get_str("file") else {
        return Err(misread(alloc));
    };
    Ok(Plan::Replay {
        file: String::from_str(alloc, file)?,
    })
}

/// Returns the plan of `serve`: a session, with a log if `--log` is given; or a list or a compaction of the log, if `--list` or
/// `--compact` is given too.
fn serve_of(alloc: Global, found: &ArgMatches<'_>) -> Result<Plan, PlanError>
    ensures limits { IfOk result IsWithinLimits }
    ensures shown { IfErr result IsShown }
{
    let Some(file) = value_of(alloc, found, "log")? else {
        return Ok(Plan::Serve(session_of(alloc, found)?));
    };
    if let Some(kind) = found.get_str("list") {
        return list_of(alloc, found, file, kind);
    }
    let Some(wait) = found.get_one::<u64>("wait") else {
        return Err(misread(alloc));
    };
    let log = LogPlan {
        session: session_of(alloc, found)?,
        file,
        sync: found.get_flag("sync"),
        wait,
    };
    match value_of(alloc, found, "compact")? {
        None => Ok(Plan::ServeLog(log)),
        Some(new) => Ok(Plan::Compact(CompactPlan {
            log,
            named: named_settings(found),
            new,
        })),
    }
}

/// Returns which settings of a session the command line names.
fn named_settings(found: &ArgMatches<'_>) -> NamedSettings {
    NamedSettings {
        workers: is_named(found, "workers"),
        max: is_named(found, "max-pending"),
        within: is_named(found, "within"),
        part: is_named(found, "part"),
    }
}

/// Returns the plan of `serve --list` for this log.
fn list_of(
    alloc: Global,
    found: &ArgMatches<'_>,
    file: String,
    kind: &str,
) -> Result<Plan, PlanError>
    ensures limits { IfOk result IsWithinLimits }
    ensures shown { IfErr result IsShown }
{
    let Some(kind) = kind_of(kind) else {
        return Err(misread(alloc));
    };
    let form = if found.get_flag("json") {
        ListForm::Json
    } else {
        ListForm::Text
    };
    Ok(Plan::List(ListPlan { file, kind, form }))
}

/// Returns what a value of `--list` asks for.
fn kind_of(text: &str) -> Option<ListKind> {
    match text {
        "pending" => Some(ListKind::Pending),
        "in-progress" => Some(ListKind::InProgress),
        "done" => Some(ListKind::Done),
        "stats" => Some(ListKind::Stats),
        _ => None,
    }
}

/// Returns the plan of `site`. The folder and BASE are not checked yet.
fn site_of(alloc: Global, found: &ArgMatches<'_>) -> Result<Plan, PlanError>
    ensures limits { IfOk result IsWithinLimits }
    ensures shown { IfErr result IsShown }
{
    let options = OptionValues {
        line: found,
        file: None,
    };
    match found.get_str("base") {
        Some(base) => Ok(Plan::Site(site_options(alloc, options, base)?)),
        None => Err(misread(alloc)),
    }
}

/// Returns the plan of `check`. If `has_colour`, its report as text has colour.
fn check_of(
    alloc: Global,
    found: &ArgMatches<'_>,
    file: Option<&OptionFile>,
    has_colour: bool,
) -> Result<Plan, PlanError>
    ensures limits { IfOk result IsWithinLimits }
    ensures shown { IfErr result IsShown }
{
    let Some(workers) = workers_of(found) else {
        return Err(misread(alloc));
    };
    let values = OptionValues { line: found, file };
    let Some(form) = form_of(&values, has_colour) else {
        return Err(bad_arguments(alloc, TWO_FORMATS)?);
    };
    if let Some(text) = refusal(&values, form) {
        return Err(bad_arguments(alloc, text)?);
    }
    let maps = match maps_of(alloc, &values) {
        Ok(maps) => maps,
        Err(error) => return Err(bad_map(alloc, error)?),
    };
    Ok(Plan::Check {
        options: check_options(alloc, &values, workers, form, maps)?,
        ignores: values.string(alloc, "ignore")?,
    })
}

/// The error for maps with this error.
fn bad_map(alloc: Global, error: MapError) -> Result<PlanError, AllocError>
    ensures { IfOk result IsShown }
{
    match map_text(error) {
        Some(text) => bad_arguments(alloc, text),
        None => Ok(PlanError::NoMemory),
    }
}

/// The text of an error of maps, unless memory ran out.
fn map_text(error: MapError) -> Option<&'static str> {
    match error {
        MapError::NotMap => Some(NO_MAP),
        MapError::NotOnHost | MapError::BadBase => Some(FAR_MAP),
        MapError::WithinSite => Some(NEAR_MAP),
        MapError::Twice => Some(SAME_MAPS),
        MapError::NoMemory => None,
    }
}

/// Why a check whose report has this form cannot have these options. A URL of the sources in the configuration file does not count if the
/// form has no links, so that the file can serve several formats.
fn refusal(values: &OptionValues<'_, '_>, form: CheckForm) -> Option<&'static str> {
    if values.line.get_str("source-url").is_some() && !has_links(form) {
        Some(NO_LINKS)
    } else if values.flag("sitemap") && values.text("base").is_none() {
        Some(NO_SITE)
    } else if values.text("index").is_some() && values.text("base").is_none() {
        Some(NO_BASE)
    } else {
        None
    }
}

/// Returns the options of a session, with or without a log.
fn session_of(alloc: Global, found: &ArgMatches<'_>) -> Result<SessionPlan, PlanError>
    ensures limits { IfOk result IsSessionPlan }
    ensures shown { IfErr result IsShown }
{
    let (Some(workers), Some(max)) = (workers_of(found), max_of(found)) else {
        return Err(misread(alloc));
    };
    let part = part_of(alloc, found, workers)?;
    Ok(SessionPlan {
        workers,
        max,
        within: value_of(alloc, found, "within")?,
        part,
    })
}

/// Returns the number of the part of a crawl, and the number of parts, if each part has `workers` queues.
fn part_of(
    alloc: Global,
    found: &ArgMatches<'_>,
    workers: u32,
) -> Result<Option<(u32, u32)>, PlanError>
    requires few { workers ≤ worker_limit }
    ensures there { IfOk result IsPartOf }
    ensures few_queues { IfOk result (λ part. all_queues workers part ≤ queue_limit) }
    ensures shown { IfErr result IsShown }
{
    let Some(text) = found.get_str("part") else {
        return Ok(None);
    };
    match part_in(text, workers) {
        Some(part) => Ok(Some(part)),
        None => Err(bad_arguments(alloc, BAD_PART)?),
    }
}

/// Parses `I/K`.
fn part_in(text: &str, workers: u32) -> Option<(u32, u32)>
    ensures there { IfSome result (λ part. part.0 < part.1) }
    ensures few_queues { IfSome result (λ part. workers * part.1 ≤ queue_limit) }
{
    let (number, parts) = text.split_once('/')?;
    let number = number32(number)?;
    let parts = number32(parts)?;
    let queues = workers.checked_mul(parts)?;
    if number < parts && queues <= QUEUE_LIMIT {
        Some((number, parts))
    } else {
        None
    }
}

/// Returns the number of workers, checked once more.
fn workers_of(found: &ArgMatches<'_>) -> Option<u32>
    ensures some { IfSome result (λ workers. 1 ≤ workers) }
    ensures few { IfSome result (λ workers. workers ≤ worker_limit) }
{
    let workers = found.get_one::<u32>("workers")?;
    if 1 <= workers && workers <= WORKER_LIMIT {
        Some(workers)
    } else {
        None
    }
}

/// Returns the limit of pending URLs, checked once more.
fn max_of(found: &ArgMatches<'_>) -> Option<u64>
    ensures some { IfSome result (λ max. 1 ≤ max) }
    ensures few { IfSome result (λ max. max ≤ pending_limit) }
{
    let max = found.get_one::<u64>("max-pending")?;
    if 1 <= max && max <= PENDING_LIMIT {
        Some(max)
    } else {
        None
    }
}

/// Returns whether the file of seeds is the input.
fn is_input(listed: &Option<String>) -> bool
    ensures { result ≡ lists_input listed.now }
{
    match listed {
        Some(file) => file.as_str() == "-",
        None => false,
    }
}
