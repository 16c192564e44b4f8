//! Edits of a text.
ghost use Rattle.std.specs.Prelude.{◌≡◌, ◌≤◌, ◌∷◌, ◌++◌, List, IfOk, length};
ghost use Rattle.link_fixes.specs.Edits.{fixed_from, fixed_text, is_within};
ghost use Rattle.link_fixes.specs.declared.edits.Edit.{Edit};

use std::alloc::{AllocError, Global};

/// A change of a text: `text` is in place of the bytes from `start` to `end`.
#[derive(Drop)]
pub struct Edit {
    pub start: usize,
    pub end: usize,
    pub text: Vec<u8>,
}

/// The text after these edits, whose positions are those in the old text. An edit that begins before the end of an earlier one, or that is
/// not within the text, is left out.
///
/// # Errors
/// Out of memory.
pub fn fixed(alloc: Global, text: &[u8], edits: &[Edit]) -> Result<Vec<u8>, AllocError>
    ensures { IfOk result (λ new. new.items ≡ fixed_text text.now edits.now) }
{
    let mut new = Vec::new(alloc);
    let mut from = 0;
    for edit in edits {
        from = push_edit(text, from, edit, &mut new)?;
    }
    new.extend_from_slice(&text[from..])?;
    Ok(new)
}

/// Appends the text from a position to an edit, and the edit's own text, unless the edit is left out. Returns the position of what comes
/// next.
fn push_edit(text: &[u8], from: usize, edit: &Edit, out: &mut Vec<u8>) -> Result<usize, AllocError>
    requires { from ≤ length text.now }
    ensures within { IfOk result (λ next. next ≤ length text.now) }
    ensures pushed { IfOk result (λ next. (more : List Edit) → out.new.items ++ fixed_from text.now next more ≡ out.old.items ++ fixed_from text.now from (edit.now ∷ more)) }
{
    if !is_within(text, from, edit) {
        return Ok(from);
    }
    out.extend_from_slice(&text[from..edit.start])?;
    out.extend_from_slice(edit.text.as_slice())?;
    Ok(edit.end)
}

/// Whether an edit is within a text, and begins at or after a position.
fn is_within(text: &[u8], from: usize, edit: &Edit) -> bool
    ensures { result ≡ is_within (length text.now) from edit.now }
{
    from <= edit.start && edit.start <= edit.end && edit.end <= text.len()
}
