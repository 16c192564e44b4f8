//! Lines: bytes cut at each LF, and the text of a line.
ghost use Rattle.std.specs.Prelude.{◌≡◌, ◌==◌, ◌∷◌, ◌++◌, ◌<◌, ◌≤◌, [], length, position, IfSome, IsUtf8, MatchOption};
ghost use Rattle.std.specs.Str.Lines.{lines, strip_carriage_return};
ghost use Rattle.text_lines.specs.Lines.{text_of, bytes_at};
ghost use Rattle.text_lines.specs.FirstLine.{line_in, after_line};

pub use crawl_limits::LINE_LIMIT;
use memchr::memchr;

/// Why a line is rejected, in the order of the checks. Each error has the number of its line, from 1.
#[derive(Clone, Copy, Debug, PartialEq, Eq)]
pub enum LineError {
    /// The line has more than [`LINE_LIMIT`] bytes.
    TooLong(u64),
    /// The line is not UTF-8.
    NotText(u64),
}

/// Returns the first line of the bytes and the rest, or `None` if there are no bytes.
///
/// A line ends at LF, or at the end of the bytes. One CR directly before the LF is not part of it.
pub fn first_line(bytes: &[u8]) -> Option<(&[u8], &[u8])>
    ensures cut { MatchOption result (lines bytes.now ≡ []) (λ x. lines bytes.now ≡ x.0.now ∷ lines x.1.now) }
    ensures shorter { IfSome result (λ x. length x.1.now < length bytes.now) }
    // If the first line and the rest are UTF-8, the bytes are too.
    ensures utf8 { MatchOption result (IsUtf8 bytes.now) (λ x. IsUtf8 x.0.now → IsUtf8 x.1.now → IsUtf8 bytes.now) }
{
    match newline_in(bytes) {
        Some(end) => Some((without_return(&bytes[..end]), &bytes[end + 1..])),
        None if bytes.is_empty() => None,
        None => Some((bytes, &[])),
    }
}

/// Returns the first line of a text and the rest, or `None` if the text is empty. Lines end as in [`first_line`].
pub fn first_text(text: &str) -> Option<(&str, &str)>
    ensures cut { MatchOption result (lines text.now ≡ []) (λ x. lines text.now ≡ x.0.now ∷ lines x.1.now) }
    ensures shorter { IfSome result (λ x. length x.1.now < length text.now) }
    ensures following { MatchOption result (after_line text.now ≡ []) (λ x. x.1.now ≡ after_line text.now) }
{
    match newline_in(text.as_bytes()) {
        Some(end) => Some((text_without_return(&text[..end]), &text[end + 1..])),
        None if text.is_empty() => None,
        None => Some((text, "")),
    }
}

/// Returns the first line of a text and the rest; both are empty if the text is.
pub fn split_line(text: &str) -> (&str, &str)
    ensures line { result.0.now ≡ line_in text.now }
    ensures following { result.1.now ≡ after_line text.now }
{
    match first_text(text) {
        Some(cut) => cut,
        None => ("", ""),
    }
}

/// Returns the bytes up to and with the first LF from this index on, and the rest, or `None` if there is no LF.
#[tactic(auto, using(crate::proofs::CutLines::newline_from, std::proofs::lemmas::List::take_rest, crate::proofs::CutLines::cut_after))]
pub fn cut_line(bytes: &[u8], from: usize) -> Option<(&[u8], &[u8])>
    requires { from ≤ length bytes.now }
    ensures cut { IfSome result (λ x. lines bytes.now ≡ lines x.0.now ++ lines x.1.now) }
    ensures within { IfSome result (λ x. (from < length x.0.now) × (length x.0.now ≤ length bytes.now)) }
{
    let end = from + newline_in(&bytes[from..])? + 1;
    Some((&bytes[..end], &bytes[end..]))
}

/// Returns the index of the first LF.
fn newline_in(bytes: &[u8]) -> Option<usize>
    ensures { result ≡ position (λ b. b == 10) bytes.now }
{
    memchr(b'\n', bytes)
}

/// Returns the line without one CR at its end, if it has one.
fn without_return(line: &[u8]) -> &[u8]
    ensures { result.now ≡ strip_carriage_return line.now }
{
    if line.last() == Some(&b'\r') {
        &line[..line.len() - 1]
    } else {
        line
    }
}

/// Returns the text of a line without one CR at its end, if it has one.
fn text_without_return(line: &str) -> &str
    ensures { result.now ≡ strip_carriage_return line.now }
{
    if line.as_bytes().last() == Some(&b'\r') {
        &line[..line.len() - 1]
    } else {
        line
    }
}

/// Returns the text of a line whose bytes are UTF-8, without one CR at its end. `number` is the line's number, from 1.
///
/// # Errors
/// `TooLong` only.
pub fn short_text(number: u64, line: &str) -> Result<&str, LineError>
    ensures { bytes_at result ≡ text_of number line.now }
{
    if line.len() > LINE_LIMIT {
        return Err(LineError::TooLong(number));
    }
    Ok(line)
}

/// Returns the text of a line, without one CR at its end. `number` is the line's number, from 1.
///
/// # Errors
/// `TooLong`, then `NotText`.
pub fn text_of(number: u64, line: &[u8]) -> Result<&str, LineError>
    ensures { bytes_at result ≡ text_of number line.now }
{
    if line.len() > LINE_LIMIT {
        return Err(LineError::TooLong(number));
    }
    match str::from_utf8(line) {
        Ok(text) => Ok(text),
        Err(_) => Err(LineError::NotText(number)),
    }
}
