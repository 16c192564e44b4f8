//! The text that a URL parser reads of a link.
ghost use Rattle.std.specs.Prelude.{◌≡◌, ◌++◌, IfOk, OnOk};
ghost use Rattle.std.specs.List.{list_any};
ghost use Rattle.url.specs.Input.{is_c0_control_or_space, is_tab_or_new_line, strip_tabs_and_new_lines, trim_c0_control_and_space, trim_end, trim_start};
ghost use Rattle.document_links.specs.Written.{without_fragment};

use memchr::memchr;
use std::alloc::{AllocError, Global};

/// The text without spaces and control bytes at its ends.
#[tactic(auto, unfolding(url::specs::Input::trim_c0_control_and_space))]
pub(crate) fn trimmed(text: &[u8]) -> &[u8]
    ensures { result.now ≡ trim_c0_control_and_space text.now }
{
    trimmed_end(trimmed_start(text))
}

/// Returns the text without spaces and control bytes at its start.
pub(crate) fn trimmed_start(text: &[u8]) -> &[u8]
    ensures { result.now ≡ trim_start is_c0_control_or_space text.now }
{
    let count = text.iter().take_while(|&&byte| is_trimmed(byte)).count();
    &text[count..]
}

/// The text without spaces and control bytes at its end.
pub(crate) fn trimmed_end(text: &[u8]) -> &[u8]
    ensures { result.now ≡ trim_end is_c0_control_or_space text.now }
{
    let count = text
        .iter()
        .rev()
        .take_while(|&&byte| is_trimmed(byte))
        .count();
    &text[..text.len() - count]
}

/// Whether a URL parser drops this byte at the ends of a text.
pub(crate) fn is_trimmed(byte: u8) -> bool
    ensures { result ≡ is_c0_control_or_space byte }
{
    byte <= b' '
}

/// Whether a URL parser drops this byte.
fn is_break(byte: u8) -> bool
    ensures { result ≡ is_tab_or_new_line byte }
{
    byte == b'\t' || byte == b'\n' || byte == b'\r'
}

/// Whether the text has tabs or line breaks, which a URL parser drops.
pub(crate) fn has_breaks(text: &[u8]) -> bool
    ensures { result ≡ list_any is_tab_or_new_line text.now }
{
    text.iter().any(|byte| is_break(*byte))
}

/// The text without tabs and line breaks.
pub(crate) fn without_breaks(alloc: Global, text: &[u8]) -> Result<Vec<u8>, AllocError>
    ensures { IfOk result (λ clean. clean.items ≡ strip_tabs_and_new_lines text.now) }
{
    let mut clean = Vec::new(alloc);
    push_without_breaks(text, &mut clean)?;
    Ok(clean)
}

/// Appends the text without tabs and line breaks.
pub(crate) fn push_without_breaks(text: &[u8], out: &mut Vec<u8>) -> Result<(), AllocError>
    ensures { OnOk result (out.new.items ≡ out.old.items ++ strip_tabs_and_new_lines text.now) }
{
    if !has_breaks(text) {
        return out.extend_from_slice(text);
    }
    for byte in text {
        if !is_break(*byte) {
            out.push(*byte)?;
        }
    }
    Ok(())
}

/// The text before its first `#`.
#[tactic(auto, using(crate::proofs::Trimming::sign_at, crate::proofs::Trimming::no_sign, std::proofs::lemmas::List::take_all))]
pub(crate) fn without_fragment(text: &[u8]) -> &[u8]
    ensures { result.now ≡ without_fragment text.now }
{
    match memchr(b'#', text) {
        Some(end) => &text[..end],
        None => text,
    }
}

/// The first bytes of a text in UTF-8, without a part of a character at their end.
pub(crate) fn cut(text: &[u8], limit: usize) -> &[u8] {
    let front = text.get(..limit).unwrap_or(text);
    match str::from_utf8(front) {
        Ok(_) => front,
        Err(error) => front.get(..error.valid_up_to()).unwrap_or(front),
    }
}
