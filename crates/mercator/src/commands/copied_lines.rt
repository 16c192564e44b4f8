//! Lines of an ignore list that are written as a report shows findings. A line that was copied from a report, such as
//! `docs/a.html:3:14: gone.html: no such page`, matches nothing, because an entry has neither a line and a column nor a message. Neither
//! does a path with spaces or characters beyond ASCII, because an entry has escapes for them.

use percent_encoding::{AsciiSet, CONTROLS, ascii_set, percent_encode};
use std::alloc::{AllocError, Global};

/// What to write in place of a line of an ignore list, if that is written as in a report. A comment is not.
pub fn advice_for(alloc: Global, line: &str) -> Result<Option<String>, AllocError> {
    if line.starts_with('#') {
        return Ok(None);
    }
    match line.split_once(": ") {
        Some((location, rest)) => advice_for_parts(alloc, location, rest),
        None => advice_for_target(alloc, line),
    }
}

/// What to write in place of a line with a colon and a space after its first part.
fn advice_for_parts(
    alloc: Global,
    location: &str,
    rest: &str,
) -> Result<Option<String>, AllocError> {
    match file_in(location) {
        Some(file) => advice_for_copy(alloc, file, before_message(rest)),
        None => advice_for_target(alloc, rest),
    }
}

/// What to write in place of a line that was copied from a report.
fn advice_for_copy(alloc: Global, file: &str, target: &str) -> Result<Option<String>, AllocError> {
    if may_be_invalid(target) {
        let advice = "write only the file and the target, as --json spells them";
        return Ok(Some(String::from_str(alloc, advice)?));
    }
    let target = with_escapes(alloc, target)?;
    let advice = format!(in alloc; "write only the file and the target: {file}: {target}")?;
    Ok(Some(advice))
}

/// What to write in place of the target of an entry, if it is a path without escapes for spaces and characters beyond ASCII.
fn advice_for_target(alloc: Global, target: &str) -> Result<Option<String>, AllocError> {
    if is_plain(target) || may_be_invalid(target) {
        return Ok(None);
    }
    let path = with_escapes(alloc, target)?;
    let advice = format!(in alloc; "write the path as --json spells it: {path}")?;
    Ok(Some(advice))
}

/// Whether a target with spaces or characters beyond ASCII may be an invalid link, which has them without escapes. Such a link has a colon.
fn may_be_invalid(target: &str) -> bool {
    !is_plain(target) && target.contains(':')
}

/// The bytes in ASCII that a path has as escapes. `percent_encode` escapes all bytes beyond ASCII, too.
const HIDDEN: AsciiSet = ascii_set!(CONTROLS.add(b' '));

/// A path with an escape for each byte that is not a visible character of ASCII.
fn with_escapes(alloc: Global, path: &str) -> Result<String, AllocError> {
    let mut new = String::new(alloc);
    percent_encode(path.as_bytes(), HIDDEN).append_to(&mut new)?;
    Ok(new)
}

/// The file in a location such as `docs/a.html:3:14`. `None` if the text does not end with a line and a column.
fn file_in(location: &str) -> Option<&str> {
    let (front, column) = location.rsplit_once(':')?;
    let (file, line) = front.rsplit_once(':')?;
    if is_number(line) && is_number(column) {
        Some(file)
    } else {
        None
    }
}

/// Whether a text is a number in decimal digits.
fn is_number(text: &str) -> bool {
    !text.is_empty() && text.bytes().all(|byte| byte.is_ascii_digit())
}

/// The target in what a line of a report has after the location.
fn before_message(rest: &str) -> &str {
    match rest.split_once(": ") {
        Some((target, _)) => target,
        None => rest,
    }
}

/// Whether an entry has the same spelling of a target as a report, in which percent-escapes of spaces and of characters beyond ASCII are decoded.
fn is_plain(target: &str) -> bool {
    target.bytes().all(|byte| byte.is_ascii_graphic())
}
