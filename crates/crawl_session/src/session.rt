//! A frontier for one client, which sends requests line by line.
ghost use Rattle.std.specs.Prelude.{◌≡◌, ◌*◌, ◌<◌, ◌≤◌, ◌⊎◌, ◌↔◌, None, Some, Err, IfOk, OnOk, OnErr, bytes_eq};
ghost use Rattle.crawl_limits.specs.Limits.{AreLimits, worker_limit, pending_limit};
ghost use Rattle.crawl_core.specs.Limits.{queue_limit};
ghost use Rattle.crawl_core.specs.declared.error.CoreError.{CoreError};
ghost use Rattle.crawl_keys.specs.Outcome.{Gives};
ghost use Rattle.crawl_session.specs.Exchanges as spec;
ghost use Rattle.crawl_session.specs.Frontiers.{Shows, start};
ghost use Rattle.crawl_session.specs.Parts.{part_request, placed_if, request_for};
ghost use Rattle.crawl_session.specs.Requests.{request_of};
ghost use Rattle.crawl_session.specs.Serving.{Comes, GivesUp, Serves};
ghost use Rattle.crawl_session.specs.declared.request.RequestError.TheVariants as wrong;

use crate::answer::Answer;
use crate::frontier::Frontier;
use crate::part::{Part, placed};
use crate::request::{Request, RequestError, request_of};
use crawl_core::{Core, CoreError, NoMemory, WORKER_LIMIT};
use crawl_keys::Filter;
use std::alloc::{AllocError, Global};
use std::marker::Model;

/// A frontier, the filter for the URLs that are offered to it, and the part of a crawl that it is, if any.
#[derive(Drop)]
pub struct Session {
    alloc: Global,
    pub(crate) frontier: Frontier,
    /// The number of queues, in all parts together.
    pub(crate) queues: u32,
    filter: Filter,
    part: Option<Part>,
}

// Contracts see the settings, and what the frontier keeps.
impl Model for Session {
    ghost use Rattle.crawl_session.specs.Settings.{SessionView, IsSession};

    ghost Value = { SessionView };

    ghost view = { λ s. record { settings = record { workers = s.queues; suffixes = s.filter; part = s.part }; core = s.frontier } };

    ghost invariant = { λ s. IsSession (record { workers = s.queues; suffixes = s.filter; part = s.part }) };
}

impl Session {
    /// Creates a session with that number of queues, and at most that number of URLs that are waiting or in progress.
    ///
    /// # Errors
    /// `BadWorkers`, then `BadMax`, for a number outside its limits; `NoMemory`.
    pub fn new(
        alloc: Global,
        workers: u32,
        max_pending: u64,
        filter: Filter,
    ) -> Result<Session, CoreError>
        ensures start { IfOk result (λ session. Shows session.core (start workers max_pending)) }
        ensures workers { IfOk result (λ session. session.settings.workers ≡ workers) }
        ensures suffixes { IfOk result (λ session. session.settings.suffixes ≡ filter) }
        ensures part { IfOk result (λ session. session.settings.part ≡ None) }
        ensures limits { OnOk result (AreLimits workers max_pending) }
        ensures bad_workers { (result ≡ Err CoreError.BadWorkers) ↔ ((workers < 1) ⊎ (worker_limit < workers)) }
        ensures bad_max { (result ≡ Err CoreError.BadMax) ↔ ((1 ≤ workers) × (workers ≤ worker_limit) × ((max_pending < 1) ⊎ (pending_limit < max_pending))) }
    {
        if workers > WORKER_LIMIT {
            return Err(CoreError::BadWorkers);
        }
        match new_frontier(alloc, workers, max_pending) {
            Ok(frontier) => Ok(Session {
                alloc,
                frontier,
                queues: workers,
                filter,
                part: None,
            }),
            Err(why) => Err(why),
        }
    }

    /// Creates the session of one part of a crawl with that number of parts. The queues of all parts are numbered together.
    ///
    /// # Errors
    /// `BadWorkers` if there is no such part, the part has no queues or more than [`WORKER_LIMIT`], or all parts together have more
    /// than [`QUEUE_LIMIT`](crawl_core::QUEUE_LIMIT); then those of `new`.
    pub fn of_part(
        alloc: Global,
        part: Part,
        parts: u32,
        max_pending: u64,
        filter: Filter,
    ) -> Result<Session, CoreError>
        ensures start { IfOk result (λ session. Shows session.core (start (part.queues * parts) max_pending)) }
        ensures workers { IfOk result (λ session. session.settings.workers ≡ part.queues * parts) }
        ensures suffixes { IfOk result (λ session. session.settings.suffixes ≡ filter) }
        ensures part { IfOk result (λ session. session.settings.part ≡ Some part) }
        ensures limits { OnOk result ((part.number < parts) × (part.queues * parts ≤ queue_limit) × AreLimits part.queues max_pending) }
        ensures bad_workers { (result ≡ Err CoreError.BadWorkers) ↔ ((part.queues < 1) ⊎ ((worker_limit < part.queues) ⊎ ((parts ≤ part.number) ⊎ (queue_limit < part.queues * parts)))) }
        ensures bad_max { (result ≡ Err CoreError.BadMax) ↔ ((1 ≤ part.queues) × (part.queues ≤ worker_limit) × (part.number < parts) × (part.queues * parts ≤ queue_limit) × ((max_pending < 1) ⊎ (pending_limit < max_pending))) }
    {
        if part.queues < 1 || part.queues > WORKER_LIMIT || parts <= part.number {
            return Err(CoreError::BadWorkers);
        }
        let Some(queues) = part.queues.checked_mul(parts) else {
            return Err(CoreError::BadWorkers);
        };
        match new_frontier(alloc, queues, max_pending) {
            Ok(frontier) => Ok(Session {
                alloc,
                frontier,
                queues,
                filter,
                part: Some(part),
            }),
            Err(why) => Err(why),
        }
    }

    /// The request of a line.
    pub(crate) fn request(&self, line: &[u8]) -> Result<Request, RequestError>
        ensures { Gives wrong.NoMemory (λ request. request) result (request_for self.now.settings line.now) }
    {
        match &self.part {
            None => request_of(self.alloc, self.queues, &self.filter, line),
            Some(part) => self.request_by(part, line),
        }
    }

    /// The request of a line to a part.
    fn request_by(&self, part: &Part, line: &[u8]) -> Result<Request, RequestError>
        requires { 1 ≤ part.now.queues }
        ensures { Gives wrong.NoMemory (λ request. request) result (part_request part.now line.now (request_of self.now.settings.workers self.now.settings.suffixes line.now)) }
    {
        if is_word(line, "sync") {
            return Err(RequestError::Sync);
        }
        if is_word(line, "identity") {
            return identity_answer(part);
        }
        self.request_of_part(part, line)
    }

    /// The request of a line that is neither `sync` nor `identity` to a part.
    fn request_of_part(&self, part: &Part, line: &[u8]) -> Result<Request, RequestError>
        requires { 1 ≤ part.now.queues }
        ensures { Gives wrong.NoMemory (λ request. request) result (placed_if part.now (request_of self.now.settings.workers self.now.settings.suffixes line.now)) }
    {
        match request_of(self.alloc, self.queues, &self.filter, line) {
            Ok(request) => placed(part, request),
            Err(why) => Err(why),
        }
    }

    /// Returns the answer to a line. The line has no LF, and no CR that came just before it.
    ///
    /// # Errors
    /// Out of memory. The frontier is then as before, except for the word that its client remembers.
    #[tactic(auto, using(crate::proofs::Lifts::given_up_immediately))]
    pub fn answer(&mut self, line: &[u8]) -> Result<Answer, NoMemory>
        ensures serves { IfOk result (λ answer. Serves self.old line.now answer self.new) }
        ensures same { self.new.settings ≡ self.old.settings }
        ensures err { OnErr result (GivesUp self.old.core self.new.core) }
    {
        match self.request(line) {
            Ok(request) => self.frontier.exchange(request),
            Err(RequestError::NoMemory) => Err(AllocError),
            Err(why) => Ok(Answer::Unasked(why)),
        }
    }
}

/// Creates a frontier with that number of queues.
fn new_frontier(alloc: Global, queues: u32, max_pending: u64) -> Result<Frontier, CoreError>
    ensures start { IfOk result (λ frontier. Shows frontier (start queues max_pending)) }
    ensures limits { OnOk result ((1 ≤ queues) × (queues ≤ queue_limit) × (1 ≤ max_pending) × (max_pending ≤ pending_limit)) }
    ensures bad_queues { (result ≡ Err CoreError.BadWorkers) ↔ ((queues < 1) ⊎ (queue_limit < queues)) }
    ensures bad_max { (result ≡ Err CoreError.BadMax) ↔ ((1 ≤ queues) × (queues ≤ queue_limit) × ((max_pending < 1) ⊎ (pending_limit < max_pending))) }
{
    let core = Core::with_queues(alloc, queues, max_pending)?;
    match Frontier::new(alloc, core, queues) {
        Ok(frontier) => Ok(frontier),
        Err(_) => Err(CoreError::NoMemory),
    }
}

/// The answer to `identity`.
fn identity_answer(part: &Part) -> Result<Request, RequestError>
    ensures { Gives wrong.NoMemory (λ request. request) result (Err (wrong.Identity part.now.identity)) }
{
    match part.identity.clone() {
        Ok(identity) => Err(RequestError::Identity(identity)),
        Err(_) => Err(RequestError::NoMemory),
    }
}

/// Whether the line is this word and nothing else.
fn is_word(line: &[u8], word: &str) -> bool
    ensures { result ≡ bytes_eq line.now word.now }
{
    line == word.as_bytes()
}
