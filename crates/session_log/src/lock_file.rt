//! Locks of files.
use std::fs::{File, TryLockError};
use std::io::{self, ErrorKind};
use std::rt::LibcRuntime;
use std::thread::sleep;
use std::time::{Duration, Instant};

/// How many milliseconds a process waits before it tries a lock again.
const PAUSE: u64 = 20;

/// Locks files, so that only one process at a time uses a log.
///
/// # Example
///
/// One that tries the lock once, and never waits:
///
/// ```rust
/// impl LockFile<File> for LockOnce {
///     fn lock_within(&self, file: &File, limit: Duration) -> io::Result<Option<Duration>> {
///         match file.try_lock() {
///             Ok(()) => Ok(Some(limit)),
///             Err(TryLockError::WouldBlock) => Ok(None),
///             Err(TryLockError::Error(why)) => Err(why),
///         }
///     }
/// }
/// ```
pub trait LockFile<F> {
    /// Locks the file until it is dropped. If another process holds the lock, waits for it, but not longer than `limit`. Returns
    /// what is left of `limit`, or `None` if the other process still holds the lock.
    fn lock_within(&self, file: &F, limit: Duration) -> io::Result<Option<Duration>>;
}

// By `flock`.
impl LockFile<File> for LibcRuntime {
    fn lock_within(&self, file: &File, limit: Duration) -> io::Result<Option<Duration>> {
        let start = Instant::now(self)?;
        for _turn in 0..u64::MAX {
            let locked = file.try_lock();
            let left = limit.saturating_sub(start.elapsed(self)?);
            match locked {
                Ok(()) => return Ok(Some(left)),
                Err(TryLockError::WouldBlock) if left.is_zero() => return Ok(None),
                Err(TryLockError::WouldBlock) => sleep(
                    self,
                    left.min(Duration::from_millis(PAUSE)),
                ),
                Err(TryLockError::Error(why)) => return Err(why),
            }
        }
        Ok(None)
    }
}

/// A [`LockFile`] that cannot lock, so that no log can be opened.
pub struct NoLocks;

impl<F> LockFile<F> for NoLocks {
    fn lock_within(&self, _file: &F, _limit: Duration) -> io::Result<Option<Duration>> {
        Err(io::Error::from(ErrorKind::Unsupported))
    }
}
