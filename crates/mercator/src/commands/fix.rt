//! `check --fix`: rewrites the links of a folder, or prints the changes as a diff.
ghost use Rattle.std.specs.Prelude.{◌≡◌, ◌⊎◌, Bool, ℕ, List, Option, String, IfErr, IfOk};
ghost use Rattle.std.specs.Io.KnownBytes.{Appends};
ghost use Rattle.std.specs.declared.alloc.Global.{Global};
ghost use Rattle.mercator.specs.Outputs.{FailsFix, IsDiff};
ghost use Rattle.mercator.specs.declared.commands.error.CommandError.TheVariants as wrong;

use crate::commands::error::CommandError;
use crate::commands::folder::{note_line, print_notes, read_ignore_list};
use crate::commands::source::read_named;
use crate::commands::writing::{begin, end};
use link_fixes::push_diff;
use mercator_site::{
    CheckOptions, DocumentFix, FileFix, FolderError, LeftLink, LeftReason, Note, fixes_of_folder,
};
use shown_text::shown;
use std::alloc::{AllocError, Global};
use std::fs::{self, Files, OpenFile, OpenOptions};
use std::io;
use std::io::Write;
use std::os::unix::fs::OpenOptionsExt;
use std::sync::Wait;
use std::thread::Threads;

/// What became of a file.
#[derive(Clone, Copy)]
enum Outcome {
    /// It has the new contents.
    Rewritten,
    /// It was changed since it was read, and stays as it is.
    Changed,
    /// It cannot be rewritten, and stays as it is.
    Failed,
}

/// Prints the changes that `--fix` would make as a diff, and notes on `err`. Returns whether there is a change.
///
/// # Errors
/// `CannotReadIgnores`, `Site`, `CannotFix` if the crawl is incomplete, `CannotWrite`, `NoMemory`.
pub fn print_fixes<R: Files<File: Send, Dir: Send> + Threads + Wait + Sync, O: Write, E: Write>(
    rt: &R,
    alloc: Global,
    options: &CheckOptions,
    ignores: &Option<String>,
    out: &mut O,
    err: &mut E,
) -> Result<bool, CommandError>
    ensures done { IfOk result (λ broken. (diff : List ℕ) × IsDiff broken diff × Appends (O.contents out.old) (O.contents out.new) diff) }
    ensures error { IfErr result (λ error. (FailsFix ignores.now error × (out.new ≡ out.old)) ⊎ ((error ≡ wrong.CannotWrite) × ((broken : Bool) × (diff : List ℕ) × IsDiff broken diff))) }
{
    let diff = diff_of_folder(rt, alloc, options, ignores, err)?;
    end(out, diff.as_slice())?;
    Ok(!diff.is_empty())
}

/// The changes that `--fix` would make. Prints notes on `err`.
fn diff_of_folder<R: Files<File: Send, Dir: Send> + Threads + Wait + Sync, E: Write>(
    rt: &R,
    alloc: Global,
    options: &CheckOptions,
    ignores: &Option<String>,
    err: &mut E,
) -> Result<Vec<u8>, CommandError>
    ensures { IfErr result (FailsFix ignores.now) }
{
    let mut notes = Vec::new(alloc);
    let fixes = found_fixes(rt, alloc, options, ignores, &mut notes)?;
    print_notes(alloc, err, notes.as_slice())?;
    let diff = diff_of(
        rt,
        alloc,
        options.site.folder.as_str(),
        fixes.as_slice(),
        err,
    )?;
    Ok(diff)
}

/// Rewrites the links of a folder, and prints notes on `err`. The notes about what is skipped are those of the check that comes next.
///
/// # Errors
/// `CannotReadIgnores`, `Site`, `CannotFix` if the crawl is incomplete or a file cannot be rewritten, `NoMemory`.
pub fn fix_folder<R: Files<File: Send, Dir: Send> + Threads + Wait + Sync, E: Write>(
    rt: &R,
    alloc: Global,
    options: &CheckOptions,
    ignores: &Option<String>,
    err: &mut E,
) -> Result<(), CommandError>
    ensures { IfErr result (FailsFix ignores.now) }
{
    let mut notes = Vec::new(alloc);
    let fixes = found_fixes(rt, alloc, options, ignores, &mut notes)?;
    if rewrite_all(
        rt,
        alloc,
        options.site.folder.as_str(),
        fixes.as_slice(),
        err,
    )? {
        Ok(())
    } else {
        Err(CommandError::CannotFix)
    }
}

/// The files of a folder with links that can be rewritten.
fn found_fixes<R: Files<File: Send, Dir: Send> + Threads + Wait + Sync>(
    rt: &R,
    alloc: Global,
    options: &CheckOptions,
    ignores: &Option<String>,
    notes: &mut Vec<Note>,
) -> Result<Vec<FileFix>, CommandError>
    ensures { IfErr result (FailsFix ignores.now) }
{
    let list = read_ignore_list(rt, alloc, ignores)?;
    match fixes_of_folder(rt, alloc, options, list.as_slice(), notes) {
        Ok(fixes) => Ok(fixes),
        Err(error) => Err(error_of(error)),
    }
}

/// The error for files that were not found. If the crawl is incomplete, so are the fixes.
fn error_of(error: FolderError) -> CommandError
    ensures { (ignores : Option (String Global)) → FailsFix ignores result }
{
    match error {
        FolderError::Crawl(_) => CommandError::CannotFix,
        FolderError::NoMemory => CommandError::NoMemory,
        _ => CommandError::Site(error),
    }
}

/// The diff of these files in a folder. Prints notes on `err`.
fn diff_of<R: Files, E: Write>(
    rt: &R,
    alloc: Global,
    folder: &str,
    fixes: &[FileFix],
    err: &mut E,
) -> Result<Vec<u8>, AllocError> {
    let mut diff = Vec::new(alloc);
    for one in fixes {
        if can_rewrite(rt, alloc, folder, one, err)? {
            push_file(alloc, one, &mut diff)?;
        }
    }
    Ok(diff)
}

/// Appends the changes of a file to a diff.
fn push_file(alloc: Global, one: &FileFix, diff: &mut Vec<u8>) -> Result<(), AllocError> {
    let Some(new) = &one.fix.new else {
        return Ok(());
    };
    let name = shown(alloc, one.file.as_str())?;
    push_diff(
        alloc,
        name.as_str(),
        one.old.as_slice(),
        new.as_slice(),
        diff,
    )
}

/// Rewrites these files in a folder, and prints notes on `err`. Returns whether none failed.
fn rewrite_all<R: Files, E: Write>(
    rt: &R,
    alloc: Global,
    folder: &str,
    fixes: &[FileFix],
    err: &mut E,
) -> Result<bool, AllocError> {
    let mut is_whole = true;
    for one in fixes {
        if can_rewrite(rt, alloc, folder, one, err)? {
            let outcome = rewrite_file(rt, alloc, folder, one, err)?;
            is_whole = is_whole && outcome;
        }
    }
    Ok(is_whole)
}

/// Whether no symbolic link is in the path of a file. Prints a note on `err` if one is, or if links stay as they are.
fn can_rewrite<R: Files, E: Write>(
    rt: &R,
    alloc: Global,
    folder: &str,
    one: &FileFix,
    err: &mut E,
) -> Result<bool, AllocError> {
    let name = one.file.as_str();
    if has_symlink(rt, alloc, folder, name)? {
        let reason = "not rewritten, because its path has a symbolic link";
        print_note(alloc, name, reason, err)?;
        return Ok(false);
    }
    print_left(alloc, name, &one.fix, err)?;
    Ok(true)
}

/// Prints a note about the number of links that stay as they are, if there are any.
fn print_left<E: Write>(
    alloc: Global,
    name: &str,
    fix: &DocumentFix,
    err: &mut E,
) -> Result<(), AllocError> {
    let left = fix.left;
    if left == 0 {
        return Ok(());
    }
    let mut reason = format!(in alloc; "links left as they are: {left}")?;
    push_first(alloc, fix.first_left, &mut reason)?;
    print_note(alloc, name, reason.as_str(), err)
}

/// Appends the location of the first link that stays as it is, and the reason.
fn push_first(alloc: Global, link: Option<LeftLink>, text: &mut String) -> Result<(), AllocError> {
    let Some(link) = link else {
        return Ok(());
    };
    let line = link.line;
    let column = link.column;
    let why = why_left(link.reason);
    let first = format!(in alloc; " (the first is at {line}:{column}: {why})")?;
    text.push_str(first.as_str())
}

/// Why a link stays as it is.
fn why_left(reason: LeftReason) -> &'static str {
    match reason {
        LeftReason::Encoding => "the file is not in UTF-8, or begins with a byte order mark",
        LeftReason::Written => "it is not written as it is read, or follows another one in a list",
        LeftReason::NewText =>
            "it has no path, or its new text would need escapes or lead elsewhere",
        LeftReason::OtherChanges => "rewriting the file would change other links or text",
    }
}

/// Prints a note about a file.
fn print_note<E: Write>(
    alloc: Global,
    name: &str,
    reason: &str,
    err: &mut E,
) -> Result<(), AllocError> {
    let line = note_line(alloc, name, reason)?;
    begin(err, line.as_bytes());
    Ok(())
}

/// Whether a part of the path of a file below the folder, or the file itself, is a symbolic link.
fn has_symlink<R: Files>(
    rt: &R,
    alloc: Global,
    folder: &str,
    name: &str,
) -> Result<bool, AllocError> {
    for (index, byte) in name.as_bytes().iter().enumerate() {
        if *byte == b'/' {
            let front = name.get(..index).unwrap_or(name);
            if is_symlink(rt, alloc, folder, front)? {
                return Ok(true);
            }
        }
    }
    is_symlink(rt, alloc, folder, name)
}

/// Whether this path below the folder is that of a symbolic link.
fn is_symlink<R: Files>(
    rt: &R,
    alloc: Global,
    folder: &str,
    name: &str,
) -> Result<bool, AllocError> {
    let path = format!(in alloc; "{folder}/{name}")?;
    match fs::symlink_metadata(rt, path.as_str()) {
        Ok(found) => Ok(found.is_symlink()),
        Err(_) => Ok(false),
    }
}

/// Rewrites a file, if links in it are rewritten, and prints a note on `err`. Returns whether it did not fail.
fn rewrite_file<R: Files, E: Write>(
    rt: &R,
    alloc: Global,
    folder: &str,
    one: &FileFix,
    err: &mut E,
) -> Result<bool, AllocError> {
    let Some(new) = &one.fix.new else {
        return Ok(true);
    };
    let name = one.file.as_str();
    let path = format!(in alloc; "{folder}/{name}")?;
    let outcome = replace(rt, alloc, path.as_str(), one.old.as_slice(), new.as_slice())?;
    print_outcome(alloc, name, outcome, one.fix.moved, err)?;
    Ok(!matches!(outcome, Outcome::Failed))
}

/// Prints a note about what became of a file with this number of new links.
fn print_outcome<E: Write>(
    alloc: Global,
    name: &str,
    outcome: Outcome,
    moved: usize,
    err: &mut E,
) -> Result<(), AllocError> {
    match outcome {
        Outcome::Rewritten => {
            let reason = format!(in alloc; "links rewritten: {moved}")?;
            print_note(alloc, name, reason.as_str(), err)
        }
        Outcome::Changed => {
            let reason = "not rewritten, because it has changed since it was read";
            print_note(alloc, name, reason, err)
        }
        Outcome::Failed => print_note(alloc, name, "cannot be rewritten", err),
    }
}

/// Replaces a file with these contents by a new file with others, which gets its name when it is whole.
fn replace<R: Files>(
    rt: &R,
    alloc: Global,
    path: &str,
    old: &[u8],
    new: &[u8],
) -> Result<Outcome, AllocError> {
    let partial = partial_name(alloc, path)?;
    let Ok(file) = create(rt, partial.as_str()) else {
        return Ok(Outcome::Failed);
    };
    let outcome = match fill(rt, file, path, partial.as_str(), new) {
        Ok(()) => publish(rt, alloc, path, partial.as_str(), old),
        Err(_) => Outcome::Failed,
    };
    if !matches!(outcome, Outcome::Rewritten) {
        let _ = fs::remove_file(rt, partial.as_str());
    }
    Ok(outcome)
}

/// The name of the new file until it is whole, in the same folder.
fn partial_name(alloc: Global, path: &str) -> Result<String, AllocError> {
    match path.rsplit_once('/') {
        Some((folder, name)) => {
            let front = name_front(name);
            format!(in alloc; "{folder}/.{front}.mercator-new")
        }
        None => {
            let front = name_front(path);
            format!(in alloc; ".{front}.mercator-new")
        }
    }
}

/// The beginning of a name, which is the whole name unless it is long. A name has at most 255 bytes, and the new file's has 14 more than this.
fn name_front(name: &str) -> &str {
    // One of four positions is at the end of a character.
    for end in [241, 240, 239, 238] {
        if let Some(front) = name.get(..end) {
            return front;
        }
    }
    name
}

/// Creates the new file, which only its owner can read.
fn create<R: Files>(rt: &R, partial: &str) -> io::Result<R::File> {
    OpenOptions::new()
        .write(true)
        .create_new(true)
        .mode(0o600)
        .open(rt, partial)
}

/// Writes the new file, and gives it the mode of the old one.
fn fill<R: Files>(rt: &R, file: R::File, path: &str, partial: &str, new: &[u8]) -> io::Result<()> {
    let mut file = file;
    file.write_all(new)?;
    let mode = fs::metadata(rt, path)?.permissions();
    fs::set_permissions(rt, partial, mode)?;
    file.sync_all()
}

/// Gives the new file the name of the old one, if that still has the same contents.
fn publish<R: Files>(rt: &R, alloc: Global, path: &str, partial: &str, old: &[u8]) -> Outcome {
    match read_named(rt, alloc, path) {
        Ok(bytes) => if bytes.as_slice() != old {
            return Outcome::Changed;
        },
        Err(_) => return Outcome::Changed,
    }
    match fs::rename(rt, partial, path) {
        Ok(()) => Outcome::Rewritten,
        Err(_) => Outcome::Failed,
    }
}
