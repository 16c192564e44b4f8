//! Writes the output of a command, or the line of its error.
ghost use Rattle.std.specs.Prelude.{◌≡◌, ◌++◌, ◌⊎◌, [], IfErr, IfOk, OnOk, string_bytes};
ghost use Rattle.std.specs.Io.KnownBytes.{Appends};
ghost use Rattle.crawl_report.specs.Printing.{joined};
ghost use Rattle.mercator.specs.Ending.{Begins, EndsByText};
ghost use Rattle.mercator.specs.ErrorText.{culprit_line, error_line, losses_line, more_lines};
ghost use Rattle.mercator.specs.Outputs.{error_lines};
ghost use Rattle.mercator.specs.declared.commands.error.CommandError.TheVariants as wrong;

use crate::commands::error::CommandError;
use crate::commands::error_text::ErrorText;
use crate::commands::planned::Plan;
use crawl_keys::CanonUrl;
use link_offers::Losses;
use saved_site::WebText;
use shown_text::shown;
use std::alloc::{AllocError, Global};
use std::io;
use std::io::{ErrorKind, Write};

/// Writes the whole output of a command, and flushes it.
pub fn end<O: Write>(out: &mut O, text: &[u8]) -> Result<(), CommandError>
    ensures { EndsByText text.now (O.contents out.old) (O.contents out.new) result }
{
    if out.write_all(text).is_err() || out.flush().is_err() {
        return Err(CommandError::CannotWrite);
    }
    Ok(())
}

/// Like [`end`], for an output in consecutive chunks.
pub fn end_by_chunks<O: Write>(out: &mut O, chunks: &[Vec<u8>]) -> Result<(), CommandError>
    ensures { EndsByText (joined chunks.now) (O.contents out.old) (O.contents out.new) result }
{
    for chunk in chunks {
        let Ok(()) = out.write_all(chunk) else {
            return Err(CommandError::CannotWrite);
        };
    }
    end(out, &[])
}

/// Like [`end`], for a saved web.
pub fn end_by_web<O: Write>(out: &mut O, web: &WebText) -> Result<(), CommandError>
    ensures gained { OnOk result (Appends (O.contents out.old) (O.contents out.new) web.now) }
    ensures error { IfErr result (λ error. (error ≡ wrong.CannotWrite) ⊎ (error ≡ wrong.NoMemory)) }
{
    if let Err(error) = web.write(out) {
        return Err(unwritten(&error));
    }
    end(out, &[])
}

/// Returns the error for a saved web that could not be written.
fn unwritten(error: &io::Error) -> CommandError
    ensures { (result ≡ wrong.CannotWrite) ⊎ (result ≡ wrong.NoMemory) }
{
    match error.kind() {
        ErrorKind::OutOfMemory => CommandError::NoMemory,
        _ => CommandError::CannotWrite,
    }
}

/// Reports an error that belongs to no plan. What `err` does not accept of the line is dropped; so is the line if there is no
/// memory for it.
pub fn report_error<E: Write>(alloc: Global, err: &mut E, error: &CommandError)
    ensures { Begins (E.contents err.old) (E.contents err.new) (error_line [] error.now) }
{
    if let Ok(line) = error_line(alloc, "", error) {
        begin(err, line.as_bytes());
    }
}

/// Reports the error of a plan's command, as [`report_error`] does. If the plan asks for it, further lines have the first URL at which
/// a crawl failed, and what was lost.
pub fn report_ending<E: Write>(alloc: Global, err: &mut E, plan: &Plan, error: &CommandError)
    ensures { Begins (E.contents err.old) (E.contents err.new) (error_lines plan.now error.now) }
{
    if let Ok(lines) = error_lines(alloc, plan, error) {
        begin(err, lines.as_bytes());
    }
}

/// Returns the line of the error and, if the plan is a crawl with `--explain`, the lines about the failed crawl.
fn error_lines(alloc: Global, plan: &Plan, error: &CommandError) -> Result<String, AllocError>
    ensures { IfOk result (λ lines. string_bytes lines ≡ error_lines plan.now error.now) }
{
    let file = plan.file_of_error(error);
    let mut lines = error_line(alloc, file, error)?;
    if plan.explains() {
        push_more(alloc, &mut lines, file, error)?;
    }
    Ok(lines)
}

/// Appends the lines about the URL of a crawl's failure and the losses, if the error has a URL.
fn push_more(
    alloc: Global,
    lines: &mut String,
    file: &str,
    error: &CommandError,
) -> Result<(), AllocError>
    ensures { IfOk result (λ _. string_bytes lines.new ≡ string_bytes lines.old ++ more_lines file.now error.now) }
{
    let CommandError::Crawl(failure) = error else {
        return Ok(());
    };
    let Some(url) = &failure.culprit else {
        return Ok(());
    };
    push_culprit(alloc, lines, file, error, url)?;
    push_losses(lines, failure.losses)
}

/// Appends the line with the error and the first affected URL.
fn push_culprit(
    alloc: Global,
    lines: &mut String,
    file: &str,
    error: &CommandError,
    url: &CanonUrl,
) -> Result<(), AllocError>
    ensures { IfOk result (λ _. string_bytes lines.new ≡ string_bytes lines.old ++ culprit_line file.now error.now url.now) }
{
    let name = shown(alloc, file)?;
    let text = ErrorText {
        file: name.as_str(),
        error,
    };
    let url = url.as_str();
    writeln!(lines, "mercator: {text}: {url}")?;
    Ok(())
}

/// Appends the line with the numbers of lost URLs and links by cause.
fn push_losses(lines: &mut String, losses: Losses) -> Result<(), AllocError>
    ensures { IfOk result (λ _. string_bytes lines.new ≡ string_bytes lines.old ++ losses_line losses) }
{
    let (full, too_far, crossed, failed) = (
        losses.full,
        losses.too_far,
        losses.crossed,
        losses.failed,
    );
    let memory = u128::from(losses.no_memory) + u128::from(losses.unkept);
    writeln!(
        lines,
        "mercator: lost: {full} above --max-pending, {too_far} too far from a seed, {crossed} from a duplicate sender, {failed} not fetched, {memory} out of memory"
    )?;
    Ok(())
}

/// Returns the line that reports an error, which ends in LF. `file` is the FILE of the command; its hidden characters are escaped.
///
/// # Example
///
/// `mercator_site` reports a folder that cannot be read as `mercator: cannot read NAME`:
///
/// ```rust
/// error_line(alloc, name, &CommandError::CannotRead)
/// ```
pub fn error_line(alloc: Global, file: &str, error: &CommandError) -> Result<String, AllocError>
    ensures { IfOk result (λ line. string_bytes line ≡ error_line file.now error.now) }
{
    let file = shown(alloc, file)?;
    let text = ErrorText {
        file: file.as_str(),
        error,
    };
    let mut line = String::new(alloc);
    writeln!(line, "mercator: {text}")?;
    Ok(line)
}

/// Writes the bytes until the writer fails.
pub fn begin<W: Write>(writer: &mut W, bytes: &[u8])
    ensures { Begins (W.contents writer.old) (W.contents writer.new) bytes.now }
{
    let mut rest = bytes;
    for _turn in 0..bytes.len() {
        if rest.is_empty() {
            return;
        }
        let Ok(count) = writer.write(rest) else {
            return;
        };
        rest = &rest[count..];
    }
}
