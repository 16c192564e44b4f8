//! A log of requests: its first line, and where its last whole line ends.
ghost use Rattle.std.specs.Prelude.{◌≡◌, ◌<◌, ◌≤◌, ◌++◌, ◌∷◌, [], ℕ, List, Some, length, map, take, drop, true, IfOk, IfSome, MatchOption, string_bytes, All, option_map};
ghost use Rattle.crawl_limits.specs.Limits.{AreLimits};
ghost use Rattle.crawl_keys.specs.HostFilter.{is_good};
ghost use Rattle.crawl_replay.specs.Script.{header_of};
ghost use Rattle.crawl_session.specs.Input.{IsUnfinished};
ghost use Rattle.crawl_session.specs.Logs as spec;
ghost use Rattle.crawl_session.specs.Sums.{lines_len};

use crawl_core::NoMemory;
use crawl_replay::{Header, header_of};
use memchr::memrchr;
use std::alloc::Global;
use text_lines::split_space;

/// The number of bytes before the unfinished line at the end.
pub fn whole_len(bytes: &[u8]) -> usize
    ensures within { result ≤ length bytes.now }
    ensures whole { 0 < result → (front : List ℕ) × (take result bytes.now ≡ front ++ 10 ∷ []) }
    ensures value { result ≡ lines_len bytes.now }
    ensures rest { IsUnfinished (drop result bytes.now) }
{
    match memrchr(b'\n', bytes) {
        Some(index) => index + 1,
        None => 0,
    }
}

/// The first line of a log, without its LF: `within SUFFIX` for each suffix, and `workers N max M`, one space apart.
///
/// # Errors
/// Out of memory.
pub fn settings_line(alloc: Global, header: &Header, suffixes: &[&str]) -> Result<String, NoMemory>
    ensures { IfOk result (λ line. string_bytes line ≡ spec.settings_line header.now.workers header.now.max (map (λ suffix. suffix.now) suffixes.now)) }
{
    let mut line = within_text(alloc, suffixes)?;
    let workers = header.workers;
    let max = header.max;
    write!(line, "workers {workers} max {max}")?;
    Ok(line)
}

/// Returns `within SUFFIX` for each suffix, with a space after each.
fn within_text(alloc: Global, suffixes: &[&str]) -> Result<String, NoMemory>
    ensures { IfOk result (λ text. string_bytes text ≡ spec.within_text (map (λ suffix. suffix.now) suffixes.now)) }
{
    let mut text = String::new(alloc);
    for suffix in suffixes {
        write!(text, "within {suffix} ")?;
    }
    Ok(text)
}

/// The settings in the first line of a log: the numbers of its frontier, and the suffixes of its filter. `None` if the line is not a first line.
///
/// # Errors
/// Out of memory.
pub fn read_settings(alloc: Global, line: &str) -> Result<Option<(Header, Vec<&str>)>, NoMemory>
    // What `settings_line` wrote is read.
    ensures back { IfOk result (λ found. (workers max : ℕ) (suffixes : List (List ℕ)) → AreLimits workers max → All (λ suffix. is_good suffix ≡ true) suffixes → line.now ≡ spec.settings_line workers max suffixes → MatchOption found ⊥ (λ x. (x.0.workers ≡ workers) × ((x.0.max ≡ max) × (map (λ suffix. suffix.now) x.1.items ≡ suffixes)))) }

    // What is read is in the line, and is within the limits of a frontier.
    ensures is_in_line { IfOk result (λ found. IfSome found (λ x. (rest : List ℕ) × ((line.now ≡ spec.within_text (map (λ suffix. suffix.now) x.1.items) ++ rest) × (header_of rest ≡ Some x.0)))) }
    ensures limits { IfOk result (λ found. IfSome found (λ x. AreLimits x.0.workers x.0.max)) }
{
    let mut suffixes = Vec::new(alloc);
    let mut rest = line;
    while let Some((suffix, more)) = next_suffix(rest) {
        suffixes.push(suffix)?;
        rest = more;
    }
    match header_of(rest) {
        Some(header) => Ok(Some((header, suffixes))),
        None => Ok(None),
    }
}

/// The suffix that the text begins with, and what follows it.
fn next_suffix(text: &str) -> Option<(&str, &str)>
    ensures cut { option_map (λ x. (x.0.now, x.1.now)) result ≡ spec.next_suffix text.now }
    ensures shorter { IfSome result (λ x. length x.1.now < length text.now) }
{
    let (word, rest) = split_space(text)?;
    if word != "within" {
        return None;
    }
    split_space(rest)
}
