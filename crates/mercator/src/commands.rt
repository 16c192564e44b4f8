//! The program, as a function of its arguments, an input and two writers.
ghost use Rattle.std.specs.Prelude.{◌≡◌, ◌<◌, ◌≤◌, ◌⊎◌, List, ℕ, [], Option, true, false, if◌then◌else◌, string_bytes, IfOk, IfErr};
ghost use Rattle.crawl_limits.specs.Limits.{worker_limit};
ghost use Rattle.std.specs.Io.KnownBytes.{Appends};
ghost use Rattle.mercator.specs.Checks.{ChecksFolder, is_check, is_help_text};
ghost use Rattle.mercator.specs.Ending.{Begins};
ghost use Rattle.mercator.specs.ErrorText.{error_line};
ghost use Rattle.mercator.specs.Errors.{status_of_error};
ghost use Rattle.crawl_replay.specs.Replay.{IsReplay};
ghost use Rattle.mercator.specs.Plans.{IsShown, IsWithinLimits, has_notices, is_input, known_bytes, reads_input};
ghost use Rattle.mercator.specs.Outputs.{HasNoOutput, EndsBy, EndsByError, FailsReplay, FailsWithoutPlan, Gains, GainsAs, GainsBroken, HasLog, IsDoneWithNote, MayLose, MayNote, OfFile, ReportsInUse, ReportsArguments};
ghost use Rattle.mercator.specs.declared.commands.planned.Plan.{Plan};
ghost use Rattle.mercator.specs.declared.commands.planned.Plan.TheVariants as asks;
ghost use Rattle.mercator.specs.declared.commands.plan_error.PlanError.{PlanError};
ghost use Rattle.mercator.specs.declared.commands.error.CommandError.TheVariants as wrong;

mod agreement;
mod arguments;
mod check_arguments;
mod command_line;
mod config;
mod copied_lines;
mod crawl_text;
mod error;
mod error_text;
mod fix;
mod folder;
mod folder_arguments;
mod input;
mod option_values;
mod plan_error;
mod plan_parser;
mod planned;
mod platform;
mod report_arguments;
mod sessions;
mod source;
mod web_crawl;
mod web_report;
mod writing;

use crate::key::key_line;
use crawl_replay::replay_text;
use crawl_run::Observe;
pub use error::CommandError;
use folder::{run_check, run_site};
pub use input::{InputLimits, Unread, read_input};
pub use plan_error::PlanError;
pub use plan_parser::plan;
use plan_parser::plan_with_config;
use planned::CrawlPlan;
pub use planned::Plan;
pub use platform::Platform;
use session_log::LockFile;
use sessions::{compact_log, list_log, serve_log, serve_plan};
use source::read_file;
use std::alloc::Global;
use std::fs::Files;
use std::io::{Read, Write};
use std::sync::Wait;
use std::thread::Threads;
use web_crawl::print_crawl;
pub use web_report::{Report, report_of_saved_web};
pub use writing::error_line;
use writing::{begin, end, report_ending, report_error};

/// The exit status of a check that found something broken, or reports a document that no sitemap lists.
const BROKEN: u8 = 4;

/// Runs the program on the arguments after its name, and returns its exit status: 0 success, 1 an error, 2 an incomplete crawl,
/// 3 a bad command line, 4 a check that found something broken, 5 a log that another program uses.
///
/// The arguments are parsed as by [`plan`], but a check also has the options of its configuration file. [`run_plan`] runs what they ask
/// for. Help is written to `out`, and an error in the arguments or in that file to `err`. Like [`run_plan`], this call is meant for a
/// process that ends afterwards.
///
/// The program `mercator` is this call on the platform of the process:
///
/// ```rust
/// ExitCode::from(run_words(
///     &platform_of(&rt, &progress),
///     rt.alloc(),
///     &words,
///     &mut rt.reader(),
///     &mut io::writer(&rt),
///     &mut rt.stderr(),
/// ))
/// ```
pub fn run_words<
    R: Files<File: Send, Dir: Send> + Threads + Wait + Sync,
    L: LockFile<R::File>,
    V: Observe + Sync,
    I: Read,
    O: Write,
    E: Write,
>(
    platform: &Platform<'_, R, L, V>,
    alloc: Global,
    arguments: &[String],
    input: &mut I,
    out: &mut O,
    err: &mut E,
) -> u8
    ensures statuses { result ≤ 5 }

    // Success: help is written, or the whole output of a plan within the limits, which is that of the arguments.
    ensures done { result ≡ 0 → ((input.new ≡ input.old) × ((text : List ℕ) × Appends (O.contents out.old) (O.contents out.new) text))
        ⊎ ((plan : Plan) × IsWithinLimits plan × Gains plan (I.remaining input.old) (O.contents out.old) (O.contents out.new)) }

    // Something is broken: the report of a check that says so is written.
    ensures broken { result ≡ 4 → (plan : Plan) × IsWithinLimits plan × GainsBroken plan (O.contents out.old) (O.contents out.new) }

    // Only a session with a log and the commands for a folder write to `err` if they succeed.
    ensures silent { result ≡ 0 → (err.new ≡ err.old)
        ⊎ ((plan : Plan) × IsWithinLimits plan × IsDoneWithNote plan (I.remaining input.old) (O.contents out.old) (O.contents out.new) (E.contents err.old) (E.contents err.new)) }

    // An error: help cannot be written, there is no memory for the plan, or the plan's command ends with this error.
    ensures error { result ≡ 1 → ((input.new ≡ input.old) × FailsWithoutPlan (E.contents err.old) (E.contents err.new) (out.new ≡ out.old))
        ⊎ ((plan : Plan) × IsWithinLimits plan × EndsByError plan result (I.remaining input.old) (E.contents err.old) (E.contents err.new) (out.new ≡ out.old)) }

    // Only a crawl can be incomplete, and then nothing is written to `out`.
    ensures incomplete { result ≡ 2 → (out.new ≡ out.old) × ((plan : Plan) × IsWithinLimits plan × EndsByError plan result (I.remaining input.old) (E.contents err.old) (E.contents err.new) (out.new ≡ out.old)) }

    // A log that another program uses: that is reported, and nothing else happens.
    ensures in_use { result ≡ 5 → (input.new ≡ input.old) × (out.new ≡ out.old) × ((plan : Plan) × IsWithinLimits plan × ReportsInUse plan (E.contents err.old) (E.contents err.new)) }

    // A bad command line: the error is reported, and nothing else happens.
    ensures bad_command { result ≡ 3 → (input.new ≡ input.old) × (out.new ≡ out.old) }
    ensures bad_arguments { result ≡ 3 → (error : PlanError) × ReportsArguments error (E.contents err.old) (E.contents err.new) }

    // A check: the status says what was written. With 0 and 4 it is the report, with any other its error.
    ensures check { is_check arguments.now ≡ true → ChecksFolder arguments.now result (I.remaining input.old) (O.contents out.old) (O.contents out.new) (E.contents err.old) (E.contents err.new) (out.new ≡ out.old) }
{
    match plan_with_config(platform.rt, alloc, arguments, platform.has_colour) {
        Ok(plan) => run_plan(platform, alloc, &plan, input, out, err),
        Err(error) => show(alloc, error, out, err),
    }
}

/// Runs a plan and returns the exit status: 0 success, 1 an error, 2 an incomplete crawl, 4 a check that found something broken,
/// 5 a log that another program uses.
///
/// The whole output of a command is computed before any of it is written to `out`. An error is reported on `err` in a line of
/// its own; then nothing is written to `out`, unless a write to it failed. A session answers while it reads, and an error
/// leaves the answers before it.
///
/// This call is meant for a process that ends afterwards: the pages of a crawl are not freed, since the end of the process
/// frees them faster. A process that crawls repeatedly calls [`crawl`](crate::crawl), whose result it can free.
pub fn run_plan<
    R: Files<File: Send, Dir: Send> + Threads + Wait + Sync,
    L: LockFile<R::File>,
    V: Observe + Sync,
    I: Read,
    O: Write,
    E: Write,
>(
    platform: &Platform<'_, R, L, V>,
    alloc: Global,
    plan: &Plan,
    input: &mut I,
    out: &mut O,
    err: &mut E,
) -> u8
    requires { IsWithinLimits plan.now }
    ensures statuses { result ≤ 5 }
    ensures planned { result ≡ 3 → ⊥ }

    // What is written when a command succeeds, for the bytes of its FILE.
    ensures done { result ≡ 0 → Gains plan.now (I.remaining input.old) (O.contents out.old) (O.contents out.new) }
    ensures broken { result ≡ 4 → GainsBroken plan.now (O.contents out.old) (O.contents out.new) }
    ensures silent { has_notices plan.now ≡ false → result ≡ 0 → err.new ≡ err.old }

    // The last line of a log may be incomplete.
    ensures noted { result ≡ 0 → MayNote plan.now (E.contents err.old) (E.contents err.new) }

    // Otherwise it ends with an error, which is reported in its line: the first one, and one by which this plan fails.
    ensures error { 0 < result → (result ≡ 4 → ⊥) → EndsByError plan.now result (I.remaining input.old) (E.contents err.old) (E.contents err.new) (out.new ≡ out.old) }

    // A command that cannot have an output ends with an error, and nothing is written.
    ensures refused { HasNoOutput plan.now (I.remaining input.old) → (result ≡ 1) × (out.new ≡ out.old) }

    // Only a crawl can be incomplete, and then nothing is written.
    ensures incomplete { result ≡ 2 → MayLose plan.now (I.remaining input.old) }
    ensures unreported { result ≡ 2 → out.new ≡ out.old }

    // Another program uses the log: nothing is read or written but the line that reports it.
    ensures in_use { result ≡ 5 → ReportsInUse plan.now (E.contents err.old) (E.contents err.new) × (input.new ≡ input.old) × (out.new ≡ out.old) }
    ensures unread { reads_input plan.now ≡ false → input.new ≡ input.old }
{
    match run(platform, alloc, plan, input, out, err) {
        Ok(is_broken) => verdict(is_broken),
        Err(error) => {
            report_ending(alloc, err, plan, &error);
            error.status()
        }
    }
}

/// Returns the exit status of a command that ended without an error.
fn verdict(is_broken: bool) -> u8
    ensures { result ≡ (if is_broken then 4 else 0) }
{
    if is_broken { BROKEN } else { 0 }
}

/// Runs a plan, without reporting its error. Returns whether it is a check that found something broken.
fn run<
    R: Files<File: Send, Dir: Send> + Threads + Wait + Sync,
    L: LockFile<R::File>,
    V: Observe + Sync,
    I: Read,
    O: Write,
    E: Write,
>(
    platform: &Platform<'_, R, L, V>,
    alloc: Global,
    plan: &Plan,
    input: &mut I,
    out: &mut O,
    err: &mut E,
) -> Result<bool, CommandError>
    requires { IsWithinLimits plan.now }
    ensures done { IfOk result (λ broken. GainsAs broken plan.now (I.remaining input.old) (O.contents out.old) (O.contents out.new)) }
    ensures error { IfErr result (λ error. EndsBy plan.now (I.remaining input.old) error (out.new ≡ out.old)) }
    ensures in_use { HasLog plan.now → IfErr result (λ error. status_of_error error ≡ 5 → (input.new ≡ input.old) × (err.new ≡ err.old)) }
    ensures unread { reads_input plan.now ≡ false → input.new ≡ input.old }
    ensures silent { has_notices plan.now ≡ false → err.new ≡ err.old }
    ensures noted { MayNote plan.now (E.contents err.old) (E.contents err.new) }
{
    match plan {
        Plan::Crawl {
            workers,
            max,
            queues,
            file,
            seeds,
            options,
        } => {
            let crawl = CrawlPlan {
                workers: *workers,
                max: *max,
                queues: *queues,
                file,
                seeds,
                options,
            };
            print_crawl(platform, alloc, &crawl, input, out)?;
            Ok(false)
        }
        Plan::Key { url, workers } => {
            print_key(alloc, url, *workers, out)?;
            Ok(false)
        }
        Plan::Replay { file } => {
            print_replies(platform.rt, alloc, file, input, out)?;
            Ok(false)
        }
        Plan::Check { options, ignores } => {
            run_check(platform.rt, alloc, options, ignores, out, err)
        }
        Plan::Site(options) => {
            run_site(platform.rt, alloc, options, out, err)?;
            Ok(false)
        }
        Plan::Serve(given) => {
            serve_plan(alloc, given, input, out)?;
            Ok(false)
        }
        Plan::ServeLog(given) => {
            serve_log(platform, alloc, given, input, out, err)?;
            Ok(false)
        }
        Plan::List(list) => {
            list_log(platform.rt, alloc, list, out)?;
            Ok(false)
        }
        Plan::Compact(given) => {
            compact_log(platform, alloc, given, err)?;
            Ok(false)
        }
    }
}

/// Prints the key line of a URL.
fn print_key<O: Write>(
    alloc: Global,
    url: &String,
    workers: u32,
    out: &mut O,
) -> Result<(), CommandError>
    requires some { 1 ≤ workers }
    requires few { workers ≤ worker_limit }
    ensures done { (input : Option (List ℕ)) → IfOk result (λ _. Gains (asks.Key url.now workers) input (O.contents out.old) (O.contents out.new)) }
    ensures error { (input : Option (List ℕ)) → IfErr result (λ error. EndsBy (asks.Key url.now workers) input error (out.new ≡ out.old)) }
{
    let line = key_line(alloc, url, workers)?;
    end(out, &line)
}

/// Prints the replies to the script in FILE.
fn print_replies<R: Files, I: Read, O: Write>(
    rt: &R,
    alloc: Global,
    file: &String,
    input: &mut I,
    out: &mut O,
) -> Result<(), CommandError>
    ensures done { IfOk result (λ _. Gains (asks.Replay file.now) (I.remaining input.old) (O.contents out.old) (O.contents out.new)) }
    ensures error { IfErr result (λ error. EndsBy (asks.Replay file.now) (I.remaining input.old) error (out.new ≡ out.old)) }
    ensures unread { is_input (string_bytes file.now) ≡ false → input.new ≡ input.old }
{
    let text = replies(rt, alloc, file, input)?;
    end(out, &text)
}

/// Returns the replies to the script in FILE.
fn replies<R: Files, I: Read>(
    rt: &R,
    alloc: Global,
    file: &str,
    input: &mut I,
) -> Result<Vec<u8>, CommandError>
    ensures text { IfOk result (λ text. OfFile (known_bytes file.now (I.remaining input.old)) (λ bytes. IsReplay bytes text.items)) }
    ensures error { IfErr result (FailsReplay file.now (I.remaining input.old)) }
    ensures unread { is_input file.now ≡ false → input.new ≡ input.old }
{
    let bytes = read_file(rt, alloc, file, input)?;
    Ok(replay_text(alloc, &bytes)?)
}

/// Shows why there is no plan: help on `out`, or an error in the arguments on `err`.
fn show<O: Write, E: Write>(alloc: Global, error: PlanError, out: &mut O, err: &mut E) -> u8
    requires { IsShown error }
    ensures statuses { (result ≤ 1) ⊎ (result ≡ 3) }
    ensures helps { result ≡ 0 → is_help_text error ≡ true }
    ensures shown { result ≡ 0 → (text : List ℕ) × Appends (O.contents out.old) (O.contents out.new) text }
    ensures silent { result ≡ 0 → err.new ≡ err.old }
    ensures error { result ≡ 1 → FailsWithoutPlan (E.contents err.old) (E.contents err.new) (out.new ≡ out.old) }
    ensures bad_command { result ≡ 3 → out.new ≡ out.old }
    ensures bad_arguments { result ≡ 3 → ReportsArguments error (E.contents err.old) (E.contents err.new) }
{
    match error {
        PlanError::Shown { text, status: 0 } => show_help(alloc, text, out, err),
        PlanError::Shown { text, status } => {
            begin(err, text.as_bytes());
            status
        }
        PlanError::NoMemory => fail(alloc, &CommandError::NoMemory, err),
    }
}

/// Writes the help or the version to `out` and returns the exit status. If that fails, reports the error on `err` and returns 1.
fn show_help<O: Write, E: Write>(alloc: Global, text: String, out: &mut O, err: &mut E) -> u8
    ensures statuses { result ≤ 1 }
    ensures shown { result ≡ 0 → Appends (O.contents out.old) (O.contents out.new) (string_bytes text) }
    ensures silent { result ≡ 0 → err.new ≡ err.old }
    ensures error { result ≡ 1 → Begins (E.contents err.old) (E.contents err.new) (error_line [] wrong.CannotWrite) }
{
    match end(out, text.as_bytes()) {
        Ok(()) => 0,
        Err(error) => fail(alloc, &error, err),
    }
}

/// Reports an error without a plan.
fn fail<E: Write>(alloc: Global, error: &CommandError, err: &mut E) -> u8
    ensures status { result ≡ status_of_error error.now }
    ensures output { Begins (E.contents err.old) (E.contents err.new) (error_line [] error.now) }
{
    report_error(alloc, err, error);
    error.status()
}
