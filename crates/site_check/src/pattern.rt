//! The entries of an ignore list as patterns.
ghost use Rattle.std.specs.Prelude.{◌≡◌, ◌<◌, MatchOption, length};
ghost use Rattle.std.specs.List.{list_any};
ghost use Rattle.site_check.specs.Broken.{any_end, fits, is_last, is_star, matches};

use crate::shown::begins;

/// Whether an entry matches a text. An entry with a `*` is a pattern for the whole text; any other matches what begins with it.
pub(crate) fn matches(entry: &str, text: &str) -> bool
    ensures { result ≡ matches entry.now text.now }
{
    if has_star(entry) {
        fits(entry, text)
    } else {
        begins(entry, text)
    }
}

/// Whether a text has a `*`.
fn has_star(text: &str) -> bool
    ensures { result ≡ list_any is_star text.now }
{
    text.as_bytes().contains(&b'*')
}

/// Whether a pattern fits a whole text: each `*` in it matches any text, also none.
pub(crate) fn fits(pattern: &str, text: &str) -> bool
    ensures { result ≡ fits pattern.now text.now }
{
    match pattern.split_once('*') {
        Some((front, pattern)) => match text.strip_prefix(front) {
            Some(rest) => is_end(pattern, rest),
            None => false,
        },
        None => pattern == text,
    }
}

/// Whether a pattern fits a text from one of its bytes on. Of each piece of the pattern before a `*`, the first occurrence is taken: if
/// the other pieces come after a later one, they come after the first one too.
fn is_end(pattern: &str, text: &str) -> bool
    ensures { result ≡ any_end (fits pattern.now) text.now }
{
    let mut pattern = pattern;
    let mut rest = text;
    'pieces: while let Some((following, more)) = next_piece(pattern, rest) {
        pattern = following;
        rest = more;
    }
    is_last(pattern, rest)
}

/// What is after the first `*` of a pattern, and after the piece before that in a text.
fn next_piece<'p, 't>(pattern: &'p str, text: &'t str) -> Option<(&'p str, &'t str)>
    ensures { MatchOption result (any_end (fits pattern.now) text.now ≡ is_last pattern.now text.now) (λ x. (any_end (fits pattern.now) text.now ≡ any_end (fits x.0.now) x.1.now) × (length x.0.now < length pattern.now)) }
{
    match pattern.split_once('*') {
        Some((piece, following)) => match text.split_once(piece) {
            Some((_, more)) => Some((following, more)),
            None => None,
        },
        None => None,
    }
}

/// Whether a pattern has no `*` and is at the end of a text.
fn is_last(pattern: &str, text: &str) -> bool
    ensures { result ≡ is_last pattern.now text.now }
{
    !has_star(pattern) && text.as_bytes().ends_with(pattern.as_bytes())
}
