//! The seeds in a file, one per line.
ghost use Rattle.std.specs.Prelude.{◌≡◌, IfOk};
ghost use Rattle.std.specs.Str.Lines.{lines};
ghost use Rattle.crawl_keys.specs.Outcome.{Gives};
ghost use Rattle.crawl_sources.specs.Seeds.{error_of, line_error, seed_url, seeds_in, checked};
ghost use Rattle.crawl_sources.specs.declared.seeds.SeedsError.TheVariants as wrong;

use crawl_keys::{CanonUrl, KeyError, canonical};
use std::alloc::{AllocFailed, Global};
use text_lines::{LineError, first_line, text_of};

/// Why bytes are not a list of seeds, in the order of the checks of a line. Lines are numbered from 1.
#[derive(Clone, Copy, Debug, PartialEq, Eq)]
pub enum SeedsError {
    /// The line with this number has more than [`LINE_LIMIT`](text_lines::LINE_LIMIT) bytes.
    LineTooLong(u64),
    /// The line with this number is not UTF-8.
    NotText(u64),
    /// The line with this number is neither empty nor a URL.
    NotUrl(u64),
    /// The line with this number is a URL that is neither `http` nor `https`.
    NotHttp(u64),
    /// An allocation failed. This may replace any other result.
    NoMemory,
}

impl From<LineError> for SeedsError {
    ghost from_gives = { λ line error. error ≡ error_of line };

    fn from(line: LineError) -> SeedsError {
        match line {
            LineError::TooLong(number) => SeedsError::LineTooLong(number),
            LineError::NotText(number) => SeedsError::NotText(number),
        }
    }
}

impl<T: Drop> From<AllocFailed<T>> for SeedsError {
    ghost from_gives = { λ _ error. error ≡ wrong.NoMemory };

    fn from(_refused: AllocFailed<T>) -> SeedsError {
        SeedsError::NoMemory
    }
}

/// Returns the canonical URLs of the seeds in these bytes, one per line, in order. Empty lines are skipped.
///
/// # Errors
/// The first check, in the order of [`SeedsError`], that the first line with an error fails; `NoMemory` if an allocation failed.
pub fn read_seeds(alloc: Global, bytes: &[u8]) -> Result<Vec<CanonUrl>, SeedsError>
    ensures { Gives SeedsError.NoMemory (λ urls. urls.items) result (seeds_in (lines bytes.now)) }
{
    let mut urls = Vec::new(alloc);
    let mut rest = bytes;
    let mut number: u64 = 0;
    while let Some((line, more)) = first_line(rest) {
        rest = more;
        number += 1;
        if let Some(url) = seed_of(alloc, number, line)? {
            urls.push(url)?;
        }
    }
    Ok(urls)
}

/// Returns the seed on the line with this number, or `None` if the line is empty.
fn seed_of(alloc: Global, number: u64, line: &[u8]) -> Result<Option<CanonUrl>, SeedsError>
    ensures reports { Gives SeedsError.NoMemory (λ _. tt) result (checked (line_error number line.now)) }
    ensures url { IfOk result (λ url. url ≡ seed_url line.now) }
{
    let text = text_of(number, line)?;
    if text.is_empty() {
        return Ok(None);
    }
    match canonical(alloc, text) {
        Ok(url) => Ok(Some(url)),
        Err(KeyError::NotUrl) => Err(SeedsError::NotUrl(number)),
        Err(KeyError::NotHttp) => Err(SeedsError::NotHttp(number)),
        Err(KeyError::NoMemory) => Err(SeedsError::NoMemory),
    }
}
