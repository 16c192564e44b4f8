//! The limits that several crates share. Each is defined once, here.
#![tactic(auto)]

ghost use Rattle.std.specs.Prelude.{◌≡◌};
ghost use Rattle.crawl_limits.specs.Limits.{worker_limit, pending_limit, line_limit};

/// The greatest number of workers of a frontier, and so of queues. The least is 1.
pub const WORKER_LIMIT: u32 = 512;

/// The greatest number to which pending URLs can be limited, 2^40: counts stay far below bit 63, and a sum of many fits a u64. The
/// least is 1.
pub const PENDING_LIMIT: u64 = 1 << 40;

/// The greatest length of a line in bytes, without its LF and a CR directly before that.
pub const LINE_LIMIT: usize = 4096;

/// Returns the limits in this order. Its contract forces each constant to be the number of its definition in `specs/`.
pub fn all() -> (u32, u64, usize)
    ensures workers { result.0 ≡ worker_limit }
    ensures pending { result.1 ≡ pending_limit }
    ensures line { result.2 ≡ line_limit }
{
    (WORKER_LIMIT, PENDING_LIMIT, LINE_LIMIT)
}
