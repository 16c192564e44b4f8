//! The settings of a log that is compacted, and of the new log.
ghost use Rattle.std.specs.Prelude.{◌≡◌, ◌≢◌, None, IfErr, IfOk, MatchOption, if◌then◌else◌};
ghost use Rattle.session_log.specs.Compaction.{AreNewSettings, fixed_apart, other_queues, suffixes_of};
ghost use Rattle.session_log.specs.Plans.{IsSessionPlan};
ghost use Rattle.session_log.specs.declared.error.LogError.TheVariants.{NoMemory, OtherSettings};

use crate::error::{LogError, Setting};
use crate::listing::plan_of;
use crate::log_settings::{first_line_in, part_apart, split_flag};
use crate::opening::read_head;
use crate::plan::{LogPlan, SessionPlan};
use crawl_session::{READ_SIZE, read_settings, read_start};
use std::alloc::{AllocError, Global};
use std::fs::{self, Files};

/// Which settings of the new log the command line names. The others are those of the log.
#[derive(Clone, Copy, Debug, PartialEq, Eq)]
pub struct NamedSettings {
    /// `--workers`.
    pub workers: bool,
    /// `--max-pending`.
    pub max: bool,
    /// `--within`.
    pub within: bool,
    /// `--part`.
    pub part: bool,
}

/// A compaction of a log.
#[derive(Drop)]
pub struct CompactPlan {
    /// The log, with the settings of the command line.
    pub log: LogPlan,
    /// Which of these settings the command line names.
    pub named: NamedSettings,
    /// The name of the new file.
    pub new: String,
}

impl CompactPlan {
    /// Returns the plan of the log with the settings in its first line. If that line is not whole, they are those of the command line.
    ///
    /// # Errors
    /// `CannotOpen`, `NotALog`, `CannotRead`, `NoMemory`. `OtherSettings` if the log has several suffixes, which no option makes.
    pub(crate) fn own<R: Files>(&self, rt: &R, alloc: Global) -> Result<LogPlan, LogError>
        requires { IsSessionPlan self.now.log.session }
        ensures { IfOk result (λ own. IsSessionPlan own.session) }
    {
        let Ok(mut file) = fs::open(rt, self.log.file.as_str()) else {
            return Err(LogError::CannotOpen);
        };
        let (head, _len) = read_head(alloc, &mut file, READ_SIZE)?;
        let session = match first_line_in(&head) {
            Some(line) => plan_of_line(alloc, line)?,
            None => self.log.session.copy()?,
        };
        Ok(LogPlan {
            session,
            file: self.log.file.clone()?,
            sync: self.log.sync,
            wait: self.log.wait,
        })
    }

    /// Returns the settings of the new log, by those of the log.
    ///
    /// # Errors
    /// `OtherSettings` if the log is that of a part, and the new one is to be another part's, or to have another number of queues: its
    /// URLs would belong to other parts. `NoMemory`.
    #[tactic(auto, using(crate::proofs::Rebuilds::new_limits))]
    pub(crate) fn new_settings(&self, own: &SessionPlan) -> Result<SessionPlan, LogError>
        requires given { IsSessionPlan self.now.log.session }
        requires own { IsSessionPlan own.now }
        ensures limits { IfOk result IsSessionPlan }
        ensures new_settings { IfOk result (λ new_settings. AreNewSettings self.now.named self.now.log.session own.now new_settings) }
        ensures kept { IfOk result (λ _. fixed_apart self.now.named self.now.log.session own.now ≡ None) }
        ensures refused { IfErr result (λ error. error ≢ NoMemory → MatchOption (fixed_apart self.now.named self.now.log.session own.now) ⊥ (λ setting. error ≡ OtherSettings setting)) }
    {
        if let Some(setting) = self.fixed_apart(own) {
            return Err(LogError::OtherSettings(setting));
        }
        Ok(SessionPlan {
            workers: self.workers(own),
            max: self.max(own),
            within: self.within(own)?,
            part: own.part,
        })
    }

    /// Returns the number of workers of the new log, by that of the log.
    fn workers(&self, own: &SessionPlan) -> u32
        ensures { result ≡ (if self.now.named.workers then self.now.log.session.workers else own.now.workers) }
    {
        if self.named.workers {
            self.log.session.workers
        } else {
            own.workers
        }
    }

    /// Returns the limit of URLs that are not done in the new log, by that of the log.
    fn max(&self, own: &SessionPlan) -> u64
        ensures { result ≡ (if self.now.named.max then self.now.log.session.max else own.now.max) }
    {
        if self.named.max {
            self.log.session.max
        } else {
            own.max
        }
    }

    /// Returns the suffix of the new log, by that of the log.
    fn within(&self, own: &SessionPlan) -> Result<Option<String>, AllocError>
        ensures { IfOk result (λ within. suffixes_of within ≡ (if self.now.named.within then suffixes_of self.now.log.session.within else suffixes_of own.now.within)) }
    {
        if self.named.within {
            copy_within(&self.log.session.within)
        } else {
            copy_within(&own.within)
        }
    }

    /// Returns the first setting of the log that the new one cannot have otherwise, but is to have otherwise: its part, or if it has one,
    /// its number of workers.
    fn fixed_apart(&self, own: &SessionPlan) -> Option<Setting>
        ensures { result ≡ fixed_apart self.now.named self.now.log.session own.now }
    {
        let part = if self.named.part {
            part_apart(own.part, self.log.session.part)
        } else {
            None
        };
        part.or(other_queues(own.part, own.workers, self.workers(own)))
    }
}

/// Returns the part of a log, if it is to have another number of queues.
fn other_queues(part: Option<(u32, u32)>, own: u32, workers: u32) -> Option<Setting>
    ensures { result ≡ other_queues part own workers }
{
    match part {
        Some((number, parts)) if own != workers => Some(Setting::Part(number, parts)),
        _ => None,
    }
}

impl SessionPlan {
    /// Returns a copy.
    fn copy(&self) -> Result<SessionPlan, AllocError>
        ensures same { IfOk result (λ copy. (copy.workers ≡ self.now.workers) × ((copy.max ≡ self.now.max) × (copy.part ≡ self.now.part))) }
    {
        Ok(SessionPlan {
            workers: self.workers,
            max: self.max,
            within: copy_within(&self.within)?,
            part: self.part,
        })
    }

    /// Whether both plans have the same settings.
    pub(crate) fn is_like(&self, other: &SessionPlan) -> bool {
        self.workers == other.workers
            && self.max == other.max
            && self.within == other.within
            && self.part == other.part
    }
}

/// Returns a copy of a suffix, if there is one.
fn copy_within(within: &Option<String>) -> Result<Option<String>, AllocError>
    ensures { IfOk result (λ copy. suffixes_of copy ≡ suffixes_of within.now) }
{
    match within {
        Some(suffix) => Ok(Some(suffix.clone()?)),
        None => Ok(None),
    }
}

/// Returns the settings in the first line of a log.
fn plan_of_line(alloc: Global, line: &str) -> Result<SessionPlan, LogError>
    ensures { IfOk result IsSessionPlan }
{
    let (part, _identity, settings) = read_start(line);
    let (settings, _sums) = split_flag(settings);
    let Some((header, suffixes)) = read_settings(alloc, settings)? else {
        return Err(LogError::NotALog);
    };
    let Some(plan) = plan_of(part, &header) else {
        return Err(LogError::NotALog);
    };
    if suffixes.len() > 1 {
        return Err(LogError::OtherSettings(Setting::Within));
    }
    let within = match suffixes.first() {
        Some(suffix) => Some(String::from_str(alloc, suffix)?),
        None => None,
    };
    Ok(SessionPlan { within, ..plan })
}
