//! What the program runs on.

/// What the program runs on: files, threads, locks, and an observer of crawls. No contract speaks of it.
///
/// # Example
///
/// The platform of a process that locks logs and observes crawls:
///
/// ```rust
/// fn watched<'p, R, V>(rt: &'p R, observer: &'p V) -> Platform<'p, R, R, V> {
///     Platform {
///         rt,
///         locks: rt,
///         observer: Some(observer),
///         has_colour: false,
///     }
/// }
/// ```
#[derive(Drop)]
pub struct Platform<'p, R, L, V> {
    /// Files, threads and waiting.
    pub rt: &'p R,
    /// Locks the files of logs.
    pub locks: &'p L,
    /// The observer of crawls that ask for one, if there is one.
    pub observer: Option<&'p V>,
    /// Whether a report as text has colour.
    pub has_colour: bool,
}
