//! Why bytes are not a saved web.
ghost use Rattle.std.specs.Prelude.{◌≡◌};
ghost use Rattle.saved_pages.specs.WebChecks.{error_of};
ghost use Rattle.saved_pages.specs.declared.error.WebError.TheVariants as wrong;

use std::alloc::{AllocError, AllocFailed};
use text_lines::LineError;

/// Why bytes are not a saved web, in the order of the checks of a line. Lines are numbered from 1.
#[derive(Clone, Copy, Debug, PartialEq, Eq)]
pub enum WebError {
    /// The line with this number has more than 4,096 bytes.
    LineTooLong(u64),
    /// The line with this number is not UTF-8.
    NotText(u64),
    /// The first line is neither `savedweb 1` nor `savedweb 2`, or there is no line at all.
    BadHeader,
    /// The line with this number, after the first, is not empty and begins neither with `page` and a space nor with
    /// `link` and a space, nor, in version 2, with `moved` and a space.
    BadLine(u64),
    /// The line with this number is a link or a moved line before the first page.
    LinkBeforePage(u64),
    /// The line with this number is a moved line under a page that has a link or a moved line, or a link under a page that
    /// has a moved line.
    MovedMixed(u64),
    /// The line with this number is a page line whose text has no canonical `http` or `https` URL.
    BadPageUrl(u64),
    /// The line with this number is a page line with the canonical URL of an earlier page.
    PageTwice(u64),
    /// Out of memory. This error may be returned instead of any other result.
    NoMemory,
}

impl From<LineError> for WebError {
    ghost from_gives = { λ line error. error ≡ error_of line };

    fn from(line: LineError) -> WebError {
        match line {
            LineError::TooLong(number) => WebError::LineTooLong(number),
            LineError::NotText(number) => WebError::NotText(number),
        }
    }
}

impl From<AllocError> for WebError {
    ghost from_gives = { λ _ error. error ≡ wrong.NoMemory };

    fn from(_refused: AllocError) -> WebError {
        WebError::NoMemory
    }
}

impl<T: Drop> From<AllocFailed<T>> for WebError {
    ghost from_gives = { λ _ error. error ≡ wrong.NoMemory };

    fn from(_refused: AllocFailed<T>) -> WebError {
        WebError::NoMemory
    }
}
