//! The queue that a host key is assigned to.
ghost use Rattle.std.specs.Prelude.{◌≡◌, ◌↔◌, ◌<◌, ◌≤◌, IsTrue};
ghost use Rattle.crawl_keys.specs.Assignment as spec;
ghost use Rattle.crawl_keys.specs.Limits.{subqueues_limit};

use crawl_limits::WORKER_LIMIT;

/// The greatest number of queues, 512: one for each worker.
pub const SUBQUEUES_LIMIT: u32 = WORKER_LIMIT;

/// The hash so far is multiplied by this before the next byte is added.
const MULTIPLIER: u32 = 31;

/// The polynomial hash of a key's bytes, modulo 2^32.
///
/// Each byte is multiplied by 31 to the power of the number of bytes after it, and the products are
/// added. The hash of the empty key is 0.
///
/// ```rust
/// assert_eq!(rt; hash("a.test"), 2_823_066_111);
/// ```
pub fn hash(key: &str) -> u32
    ensures { result ≡ spec.hash key.now }
{
    let mut hash = 0u32;
    for &byte in key.as_bytes() {
        hash = hash.wrapping_mul(MULTIPLIER).wrapping_add(u32::from(byte));
    }
    hash
}

/// Whether keys can be assigned to n queues: n is from 1 to [`SUBQUEUES_LIMIT`].
pub fn can_assign(n: u32) -> bool
    ensures { IsTrue result ↔ ((1 ≤ n) × (n ≤ subqueues_limit)) }
{
    1 <= n && n <= SUBQUEUES_LIMIT
}

/// The queue, from 0, of n queues that a key is assigned to: the remainder of its [`hash`] by n.
///
/// The caller must pass an n from 1 to [`SUBQUEUES_LIMIT`], which [`can_assign`] tests.
///
/// ```rust
/// assert_eq!(rt; assign("a.test", 2), 1);
/// assert_eq!(rt; assign("b.test", 2), 0);
/// ```
pub fn assign(key: &str, n: u32) -> u32
    requires some { 1 ≤ n }
    requires few { n ≤ subqueues_limit }
    ensures value { result ≡ spec.assign key.now n }
    ensures below { result < n }
{
    if n == 1 {
        return 0;
    }
    hash(key) % n
}
