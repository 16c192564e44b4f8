//! The settings in the first line of a log.
ghost use Rattle.std.specs.Prelude.{◌≡◌, ◌≤◌, ◌++◌, true, map, IfOk};
ghost use Rattle.crawl_core.specs.Limits.{queue_limit};
ghost use Rattle.crawl_limits.specs.Limits.{worker_limit};
ghost use Rattle.session_log.specs.Plans.{IsPartOf, all_queues};
ghost use Rattle.session_log.specs.LogFile.{IsErrorOfLine, flag_text, is_within, max_apart, part_apart, setting_apart, within_apart, workers_apart};

use crate::error::{LogError, Setting};
use crate::plan::SessionPlan;
use crawl_core::QUEUE_LIMIT;
use crawl_replay::Header;
use crawl_session::{read_settings, read_start};
use memchr::memchr;
use std::alloc::{AllocError, Global};
use std::str;

/// What ends the first line of a log with checksums.
pub const SUMS: &str = " sums";

/// Returns why a log that begins with these bytes is not the log of the plan: its first setting that is another one, or that the
/// first line is not one that the program writes. A line without its end here is none.
pub fn error_of_head(
    alloc: Global,
    head: &[u8],
    plan: &SessionPlan,
) -> Result<LogError, AllocError> {
    match first_line_in(head) {
        Some(line) => error_of_line(alloc, line, plan),
        None => Ok(LogError::NotALog),
    }
}

/// Returns the first line of these bytes without its LF, if it is whole and UTF-8.
pub fn first_line_in(bytes: &[u8]) -> Option<&str> {
    let end = memchr(b'\n', bytes)?;
    str::from_utf8(&bytes[..end]).ok()
}

/// Like [`error_of_head`], for a whole first line without its LF.
fn error_of_line(alloc: Global, line: &str, plan: &SessionPlan) -> Result<LogError, AllocError>
    ensures { IfOk result (IsErrorOfLine line.now plan.now) }
{
    let (part, _identity, settings) = read_start(line);
    let (settings, _sums) = split_flag(settings);
    let Some((header, suffixes)) = read_settings(alloc, settings)? else {
        return Ok(LogError::NotALog);
    };
    if !is_part(part, header.workers) {
        return Ok(LogError::NotALog);
    }
    match setting_apart(part, &suffixes, &header, plan) {
        Some(setting) => Ok(LogError::OtherSettings(setting)),
        None => Ok(LogError::NotALog),
    }
}

/// Returns the settings without the word after them that says that the log has checksums, and whether it was there.
pub fn split_flag(settings: &str) -> (&str, bool)
    ensures { settings.now ≡ result.0.now ++ flag_text result.1 }
{
    match settings.strip_suffix(SUMS) {
        Some(numbers) => (numbers, true),
        None => (settings, false),
    }
}

/// Returns whether the number of the part is below the number of parts, and all parts together do not have too many queues.
pub fn is_part(part: Option<(u32, u32)>, workers: u32) -> bool
    requires { workers ≤ worker_limit }
    ensures there { result ≡ true → IsPartOf part }
    ensures few { result ≡ true → all_queues workers part ≤ queue_limit }
{
    let Some((number, parts)) = part else {
        return true;
    };
    match workers.checked_mul(parts) {
        Some(queues) => number < parts && queues <= QUEUE_LIMIT,
        None => false,
    }
}

/// Returns the first setting of a log that is not that of the plan, in the order of the first line.
fn setting_apart(
    part: Option<(u32, u32)>,
    suffixes: &[&str],
    header: &Header,
    plan: &SessionPlan,
) -> Option<Setting>
    ensures { result ≡ setting_apart part (map (λ suffix. suffix.now) suffixes.now) header.now plan.now }
{
    part_apart(part, plan.part)
        .or(within_apart(suffixes, &plan.within))
        .or(workers_apart(header.workers, plan.workers))
        .or(max_apart(header.max, plan.max))
}

/// Returns the part of a log, if it is not that of the plan.
pub fn part_apart(part: Option<(u32, u32)>, plan: Option<(u32, u32)>) -> Option<Setting>
    ensures { result ≡ part_apart part plan }
{
    match (part, plan) {
        (None, None) => None,
        (None, Some(_)) => Some(Setting::NoPart),
        (Some((number, parts)), None) => Some(Setting::Part(number, parts)),
        (Some((number, parts)), Some((own, all))) => {
            if number == own && parts == all {
                None
            } else {
                Some(Setting::Part(number, parts))
            }
        }
    }
}

/// Returns that the suffixes of a log are not that of the plan, if so.
fn within_apart(suffixes: &[&str], within: &Option<String>) -> Option<Setting>
    ensures { result ≡ within_apart (map (λ suffix. suffix.now) suffixes.now) within.now }
{
    if is_within(suffixes, within) {
        None
    } else if suffixes.is_empty() {
        Some(Setting::NoWithin)
    } else {
        Some(Setting::Within)
    }
}

/// Returns whether the suffixes are that of the plan, or none if it has none.
fn is_within(suffixes: &[&str], within: &Option<String>) -> bool
    ensures { result ≡ is_within (map (λ suffix. suffix.now) suffixes.now) within.now }
{
    match within {
        Some(suffix) => suffixes.len() == 1 && suffixes[0] == suffix.as_str(),
        None => suffixes.is_empty(),
    }
}

/// Returns the number of workers of a log, if it is not that of the plan.
fn workers_apart(workers: u32, own: u32) -> Option<Setting>
    ensures { result ≡ workers_apart workers own }
{
    if workers == own {
        None
    } else {
        Some(Setting::Workers(workers))
    }
}

/// Returns the limit of pending URLs of a log, if it is not that of the plan.
fn max_apart(max: u64, own: u64) -> Option<Setting>
    ensures { result ≡ max_apart max own }
{
    if max == own {
        None
    } else {
        Some(Setting::MaxPending(max))
    }
}
