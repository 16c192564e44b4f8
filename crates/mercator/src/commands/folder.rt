//! The commands for a folder: `site` and `check`.
ghost use Rattle.std.specs.Prelude.{◌≡◌, ◌≤◌, ◌⊎◌, ℕ, List, Option, true, false, vec_len, IfOk, IfErr, IfSome, IsSome, string_bytes, option_map};
ghost use Rattle.mercator.specs.ErrorText.{note_line};
ghost use Rattle.mercator.specs.Limits.{most_input_bytes};
ghost use Rattle.mercator.specs.Plans.{known_ignores};
ghost use Rattle.mercator.specs.Outputs.{EndsBy, Gains, GainsAs, reports};
ghost use Rattle.mercator.specs.declared.commands.error.CommandError.TheVariants as wrong;
ghost use Rattle.mercator.specs.declared.commands.planned.Plan.TheVariants as asks;

use crate::commands::copied_lines::advice_for;
use crate::commands::error::CommandError;
use crate::commands::fix::{fix_folder, print_fixes};
use crate::commands::source::read_named;
use crate::commands::writing::{begin, end, end_by_web};
use mercator_site::{CheckOptions, Fix, Note, SiteOptions, report_of_folder, web_of_folder};
use shown_text::shown;
use std::alloc::{AllocError, Global};
use std::fs::Files;
use std::io::Write;
use std::sync::Wait;
use std::thread::Threads;

/// Prints the saved web of a folder, and the notes on `err`.
///
/// # Errors
/// `CannotReadIndex`, `Site`, `CannotWrite`, `NoMemory`.
pub fn run_site<R: Files<File: Send, Dir: Send> + Threads + Sync, O: Write, E: Write>(
    rt: &R,
    alloc: Global,
    options: &SiteOptions,
    out: &mut O,
    err: &mut E,
) -> Result<(), CommandError>
    ensures done { (input : Option (List ℕ)) → IfOk result (λ _. Gains (asks.Site options.now) input (O.contents out.old) (O.contents out.new)) }
    ensures error { (input : Option (List ℕ)) → IfErr result (λ error. EndsBy (asks.Site options.now) input error (out.new ≡ out.old)) }
{
    let index = read_index(rt, alloc, &options.index)?;
    let mut notes = Vec::new(alloc);
    let web = web_of_folder(rt, alloc, options, bytes_of(&index), &mut notes);
    print_notes(alloc, err, &notes)?;
    end_by_web(out, &web?)
}

/// Checks a folder and prints the report, and the notes on `err`. Returns whether something is broken. With `--fix`, the links of the folder
/// are rewritten first; with `--dry-run`, the changes are printed as a diff in place of the report.
///
/// # Errors
/// `CannotReadIgnores`, `CannotReadIndex`, `Site`, `Crawl` if the crawl is incomplete, `CannotFix`, `CannotWrite`, `NoMemory`.
pub fn run_check<R: Files<File: Send, Dir: Send> + Threads + Wait + Sync, O: Write, E: Write>(
    rt: &R,
    alloc: Global,
    options: &CheckOptions,
    ignores: &Option<String>,
    out: &mut O,
    err: &mut E,
) -> Result<bool, CommandError>
    ensures done { (input : Option (List ℕ)) → IfOk result (λ broken. GainsAs broken (asks.Check options.now ignores.now) input (O.contents out.old) (O.contents out.new)) }
    ensures error { (input : Option (List ℕ)) → IfErr result (λ error. EndsBy (asks.Check options.now ignores.now) input error (out.new ≡ out.old)) }
{
    match options.fix {
        Fix::Diff => print_fixes(rt, alloc, options, ignores, out, err),
        Fix::Write => {
            fix_folder(rt, alloc, options, ignores, err)?;
            report_check(rt, alloc, options, ignores, out, err)
        }
        Fix::Off => report_check(rt, alloc, options, ignores, out, err),
    }
}

/// Checks a folder and prints the report, and the notes on `err`. Returns whether something is broken.
///
/// # Errors
/// `CannotReadIgnores`, `CannotReadIndex`, `Site`, `Crawl` if the crawl is incomplete, `CannotWrite`, `NoMemory`.
fn report_check<R: Files<File: Send, Dir: Send> + Threads + Wait + Sync, O: Write, E: Write>(
    rt: &R,
    alloc: Global,
    options: &CheckOptions,
    ignores: &Option<String>,
    out: &mut O,
    err: &mut E,
) -> Result<bool, CommandError>
    requires { reports options.now.fix ≡ true }
    ensures done { (input : Option (List ℕ)) → IfOk result (λ broken. GainsAs broken (asks.Check options.now ignores.now) input (O.contents out.old) (O.contents out.new)) }
    ensures error { (input : Option (List ℕ)) → IfErr result (λ error. EndsBy (asks.Check options.now ignores.now) input error (out.new ≡ out.old)) }
{
    let list = read_ignore_list(rt, alloc, ignores)?;
    let index = read_index(rt, alloc, &options.site.index)?;
    let mut notes = Vec::new(alloc);
    let urls = bytes_of(&index);
    let report = report_of_folder(rt, alloc, options, urls, list.as_slice(), &mut notes);
    print_notes(alloc, err, &notes)?;
    let report = report?;
    print_list_notes(alloc, err, ignores, list.as_slice())?;
    print_sitemap_note(err, report.lacks_sitemap);
    end(out, report.text.as_slice())?;
    Ok(report.is_broken)
}

/// Reads the ignore list. Without one, returns no bytes.
pub fn read_ignore_list<R: Files>(
    rt: &R,
    alloc: Global,
    ignores: &Option<String>,
) -> Result<Vec<u8>, CommandError>
    ensures whole { IfOk result (λ bytes. IfSome (known_ignores ignores.now) (λ known. bytes.items ≡ known)) }
    ensures within { IfOk result (λ bytes. vec_len bytes ≤ most_input_bytes) }
    ensures error { IfErr result (λ error. (error ≡ wrong.NoMemory) ⊎ ((error ≡ wrong.CannotReadIgnores) × IsSome ignores.now)) }
{
    let Some(file) = ignores else {
        return Ok(Vec::new(alloc));
    };
    match read_named(rt, alloc, file) {
        Ok(bytes) => Ok(bytes),
        Err(why) => Err(CommandError::of_unread_file(why, CommandError::CannotReadIgnores)),
    }
}

/// Reads the site list, if there is one.
fn read_index<R: Files>(
    rt: &R,
    alloc: Global,
    index: &Option<String>,
) -> Result<Option<Vec<u8>>, CommandError>
    ensures within { IfOk result (λ list. IfSome list (λ bytes. vec_len bytes ≤ most_input_bytes)) }
    ensures error { IfErr result (λ error. (error ≡ wrong.NoMemory) ⊎ ((error ≡ wrong.CannotReadIndex) × IsSome index.now)) }
{
    let Some(file) = index else {
        return Ok(None);
    };
    match read_named(rt, alloc, file) {
        Ok(bytes) => Ok(Some(bytes)),
        Err(why) => Err(CommandError::of_unread_file(why, CommandError::CannotReadIndex)),
    }
}

/// The bytes of the site list, if there is one.
fn bytes_of(index: &Option<Vec<u8>>) -> Option<&[u8]>
    ensures { option_map (λ bytes. bytes.now) result ≡ option_map (λ bytes. bytes.items) index.now }
{
    match index {
        Some(bytes) => Some(bytes.as_slice()),
        None => None,
    }
}

/// Prints a line for each note. What `err` does not accept of it is dropped.
pub fn print_notes<E: Write>(alloc: Global, err: &mut E, notes: &[Note]) -> Result<(), AllocError> {
    for note in notes {
        let left = note.left;
        let reason = format!(in alloc; "{left}")?;
        let line = note_line(alloc, note.place.as_str(), reason.as_str())?;
        begin(err, line.as_bytes());
    }
    Ok(())
}

/// Prints a note for each line of the ignore list that is like a line of a report. A list that is not UTF-8 has no notes.
fn print_list_notes<E: Write>(
    alloc: Global,
    err: &mut E,
    ignores: &Option<String>,
    list: &[u8],
) -> Result<(), AllocError> {
    let (Some(file), Ok(text)) = (ignores, str::from_utf8(list)) else {
        return Ok(());
    };
    for (index, line) in without_mark(text).lines().enumerate() {
        if let Some(advice) = advice_for(alloc, line.trim())? {
            let number = index.saturating_add(1);
            let reason = format!(in alloc; "line {number}: {advice}")?;
            let reason = shown(alloc, reason.as_str())?;
            let line = note_line(alloc, file.as_str(), reason.as_str())?;
            begin(err, line.as_bytes());
        }
    }
    Ok(())
}

/// The text without a byte order mark at the start.
fn without_mark(text: &str) -> &str {
    text.strip_prefix('\u{feff}').unwrap_or(text)
}

/// Prints a note if a check reports the documents that no sitemap lists, but no sitemap was read.
fn print_sitemap_note<E: Write>(err: &mut E, lacks_sitemap: bool) {
    if lacks_sitemap {
        begin(err, b"mercator: no sitemap was read\n");
    }
}

/// A line about something with this name. A name may come from anywhere, so its hidden characters are escaped.
pub fn note_line(alloc: Global, name: &str, reason: &str) -> Result<String, AllocError>
    ensures { IfOk result (λ line. string_bytes line ≡ note_line name.now reason.now) }
{
    let name = shown(alloc, name)?;
    let mut line = String::from_str(alloc, "mercator: ")?;
    line.push_str(name.as_str())?;
    line.push_str(": ")?;
    line.push_str(reason)?;
    line.push_str("\n")?;
    Ok(line)
}
