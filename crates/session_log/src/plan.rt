//! The settings of a session, and of its log.
ghost use Rattle.std.specs.Prelude.{◌≡◌, ◌*◌, ◌<◌, ◌≤◌, None, Some, IfOk};
ghost use Rattle.crawl_core.specs.Limits.{queue_limit};
ghost use Rattle.crawl_limits.specs.Limits.{AreLimits};
ghost use Rattle.crawl_session.specs.Frontiers.{Shows, start};

use crawl_core::{CoreError, Text};
use crawl_keys::Filter;
use crawl_session::{Part, Session};
use std::alloc::{AllocError, Global};

/// The settings of a session.
#[derive(Drop)]
pub struct SessionPlan {
    /// The number of workers, each with its own queue: 1 to 512. All parts together have at most 2^20.
    pub workers: u32,
    /// The most URLs that are waiting or in progress at a time: 1 to 2^40.
    pub max: u64,
    /// The suffix of the hosts to accept; without one, all hosts.
    pub within: Option<String>,
    /// The number of this part of a crawl, from 0, and the number of parts.
    pub part: Option<(u32, u32)>,
}

/// A session with a log.
#[derive(Drop)]
pub struct LogPlan {
    /// The settings of the session.
    pub session: SessionPlan,
    /// The name of the log.
    pub file: String,
    /// Whether the log is synced to disk before each answer.
    pub sync: bool,
    /// The most seconds to wait for another program that uses the log.
    pub wait: u64,
}

impl SessionPlan {
    ghost use Rattle.session_log.specs.Plans.{IsSessionPlan, part_of, queues_of};

    /// Creates the session. The filter is that of the suffix, and the log of a part has this identity.
    pub fn session(
        &self,
        alloc: Global,
        filter: Filter,
        identity: &str,
    ) -> Result<Session, AllocError>
        requires { IsSessionPlan self.now }
        ensures start { IfOk result (λ session. Shows session.core (start (queues_of self.now) self.now.max)) }
        ensures workers { IfOk result (λ session. session.settings.workers ≡ queues_of self.now) }
        ensures suffixes { IfOk result (λ session. session.settings.suffixes ≡ filter) }
        ensures part { IfOk result (λ session. session.settings.part ≡ part_of self.now.workers identity.now self.now.part) }
    {
        match self.part {
            None => session_without_part(alloc, self, filter),
            Some((number, parts)) => {
                let part = Part {
                    number,
                    queues: self.workers,
                    identity: Text::from_str(alloc, identity)?,
                };
                part_session(alloc, part, parts, self.max, filter)
            }
        }
    }
}

/// Creates the session of a plan without a part.
fn session_without_part(
    alloc: Global,
    plan: &SessionPlan,
    filter: Filter,
) -> Result<Session, AllocError>
    requires { AreLimits plan.now.workers plan.now.max }
    ensures start { IfOk result (λ session. Shows session.core (start plan.now.workers plan.now.max)) }
    ensures workers { IfOk result (λ session. session.settings.workers ≡ plan.now.workers) }
    ensures suffixes { IfOk result (λ session. session.settings.suffixes ≡ filter) }
    ensures part { IfOk result (λ session. session.settings.part ≡ None) }
{
    match Session::new(alloc, plan.workers, plan.max, filter) {
        Ok(session) => Ok(session),
        Err(CoreError::NoMemory) => Err(AllocError),
        Err(CoreError::BadWorkers | CoreError::BadMax) => {
            unreachable!("a plan's numbers are within the limits")
        }
    }
}

/// Creates the session of this part, one of `parts`. Its frontier has the queues of all parts.
fn part_session(
    alloc: Global,
    part: Part,
    parts: u32,
    max: u64,
    filter: Filter,
) -> Result<Session, AllocError>
    requires limits { AreLimits part.queues max }
    requires there { part.number < parts }
    requires few { part.queues * parts ≤ queue_limit }
    ensures start { IfOk result (λ session. Shows session.core (start (part.queues * parts) max)) }
    ensures workers { IfOk result (λ session. session.settings.workers ≡ part.queues * parts) }
    ensures suffixes { IfOk result (λ session. session.settings.suffixes ≡ filter) }
    ensures part { IfOk result (λ session. session.settings.part ≡ Some part) }
{
    match Session::of_part(alloc, part, parts, max, filter) {
        Ok(session) => Ok(session),
        Err(CoreError::NoMemory) => Err(AllocError),
        Err(CoreError::BadWorkers | CoreError::BadMax) => {
            unreachable!("a plan's numbers are within the limits")
        }
    }
}
