//! Notes about pages that are skipped or changed, as a check prints them.
use site_files::Note;
use std::alloc::{AllocError, Global};

/// Appends notes about pages. If the URL of a page begins with `front`, that is removed.
pub(crate) fn push_page_notes(
    alloc: Global,
    notes: &mut Vec<Note>,
    front: &str,
    more: &[Note],
) -> Result<(), AllocError> {
    for note in more {
        let left = note.left;
        let place = short_place(alloc, front, note.place.as_str())?;
        notes.push(Note { left, place })?;
    }
    Ok(())
}

/// A URL without `front`, if it begins with `front`. The top itself is `./`.
fn short_place(alloc: Global, front: &str, place: &str) -> Result<String, AllocError> {
    match place.strip_prefix(front) {
        Some(rest) if !front.is_empty() => format!(in alloc; "{}{rest}", top_before(rest)),
        _ => String::from_str(alloc, place),
    }
}

/// `./` if nothing is left of a URL, or only the name of the page's encoding.
fn top_before(rest: &str) -> &str {
    if rest.is_empty() || rest.starts_with(' ') {
        "./"
    } else {
        ""
    }
}
