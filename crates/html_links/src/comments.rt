//! The end of a comment.
ghost use Rattle.std.specs.Prelude.{◌≡◌, ◌≤◌, ◌==◌, length, option_map, IfSome, take_while};
ghost use Rattle.html_links.specs.Comments.{Comment, run, comment_rest, bytes_at};
ghost use Rattle.html_links.specs.Shown.{following, Stopped};
ghost use Rattle.html_links.specs.Dashes.{Dashed, LeavesRest};

use crate::bytes::{after_byte, split_quoted};

/// The bytes after a comment, from those after its `<!--`. `None` if the comment does not end.
#[inline(always)]
#[tactic(auto, using(std::proofs::lemmas::List::take_rest, crate::proofs::Dashing::comment_end, crate::proofs::Dashing::same))]
pub fn after_comment(bytes: &[u8]) -> Option<&[u8]>
    ensures { bytes_at result ≡ comment_rest bytes.now }
{
    match comment_left(bytes) {
        Some(left) => Some(&bytes[bytes.len() - left..]),
        None => None,
    }
}

/// The number of bytes after the comment. This function is not inlined, and its result is in registers.
#[inline(never)]
#[tactic(auto, using(crate::proofs::Dashing::comment_less))]
fn comment_left(bytes: &[u8]) -> Option<usize>
    ensures left { result ≡ option_map length (comment_rest bytes.now) }
    ensures within { IfSome result (λ left. left ≤ length bytes.now) }
{
    match past_comment(bytes) {
        Some(rest) => Some(rest.len()),
        None => None,
    }
}

/// The bytes after a comment, from those after its `<!--`. A `>` or `->` there ends it. `None` if the comment does not end.
fn past_comment(bytes: &[u8]) -> Option<&[u8]>
    ensures { bytes_at result ≡ comment_rest bytes.now }
{
    if let Some(last) = after_byte(b'>', bytes) {
        return Some(last);
    }
    let Some(more) = after_byte(b'-', bytes) else {
        return in_comment(bytes);
    };
    match after_byte(b'>', more) {
        Some(last) => Some(last),
        None => in_comment(bytes),
    }
}

/// The bytes after a comment, from those left of it in the Standard's comment state. `None` if the comment does not end.
#[tactic(auto, using(crate::proofs::Dashing::read_no_dash, crate::proofs::Dashing::read_dash, crate::proofs::Dashing::dash_shorter))]
fn in_comment(bytes: &[u8]) -> Option<&[u8]>
    ensures { bytes_at result ≡ run Comment bytes.now }
{
    let mut rest = bytes;
    'dashes: loop {
        let Some((_, dashed)) = split_quoted(b'-', rest) else {
            return None;
        };
        match after_dash(dashed) {
            Ok(last) => return Some(last),
            Err(more) => rest = more,
        }
    }
}

/// The bytes after the comment if it ends after this dash, and otherwise those that are left of it.
#[tactic(auto, using(crate::proofs::Jumps::shorter))]
fn after_dash(bytes: &[u8]) -> Result<&[u8], &[u8]>
    ensures ends { Dashed result bytes.now }
    ensures leaves { LeavesRest result bytes.now }
{
    let Some(dashed) = after_byte(b'-', bytes) else {
        return Err(bytes);
    };
    let more = skip_dashes(dashed);
    if let Some(last) = after_byte(b'>', more) {
        return Ok(last);
    }
    let Some(banged) = after_byte(b'!', more) else {
        return Err(more);
    };
    match after_byte(b'>', banged) {
        Some(last) => Ok(last),
        None => Err(banged),
    }
}

/// The number of `-` at the front.
fn dash_len(bytes: &[u8]) -> usize
    ensures { result ≡ length (take_while (λ c. c == 45) bytes.now) }
{
    bytes.iter().take_while(|byte| **byte == b'-').count()
}

/// The bytes from the first one that is not a `-`.
#[tactic(auto, using(std::proofs::lemmas::List::take_rest, crate::proofs::Cuts::after_cut, crate::proofs::Jumps::stopped))]
fn skip_dashes(bytes: &[u8]) -> &[u8]
    ensures skipped { result.now ≡ following (λ c. c == 45) bytes.now }
    ensures stopped { Stopped (λ c. c == 45) result.now }
{
    &bytes[dash_len(bytes)..]
}
