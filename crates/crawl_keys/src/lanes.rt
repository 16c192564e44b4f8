//! Bytes of texts, tested 16 at a time.
ghost use Rattle.std.specs.Prelude.{◌≡◌, ◌+◌, ◌≤◌, length, true};
ghost use Rattle.crawl_keys.specs.Lanes.{Follow, IsRun};
ghost use Rattle.crawl_keys.specs.Lanes as spec;
ghost use Rattle.crawl_keys.specs.Plain.{is_host_byte, is_other};

use std::simd::prelude::*;

/// The number of bytes in a vector.
pub const LANES: usize = 16;

/// Whether each of the 16 bytes after the position `at` may follow the byte before it. `false` means unknown.
#[inline(always)]
pub fn follow(text: &[u8], at: usize) -> bool
    requires { at + LANES + 1 ≤ length text.now }
    ensures { result ≡ true → Follow text.now at (at + LANES) }
{
    let before = u8x16::from_slice(&text[at..]);
    let byte = u8x16::from_slice(&text[at + 1..]);
    let odd = byte | u8x16::splat(1);
    let twin = byte | u8x16::splat(2);
    let outside = (byte - u8x16::splat(b'!')).simd_gt(u8x16::splat(b'~' - b'!'));
    let quotes = odd.simd_eq(u8x16::splat(b'#')) | byte.simd_eq(u8x16::splat(b'\''));
    let angles = twin.simd_eq(u8x16::splat(b'>')) | twin.simd_eq(u8x16::splat(b'^'));
    let braces = twin.simd_eq(u8x16::splat(0x7f)) | byte.simd_eq(u8x16::splat(b'{'));
    let marks = quotes | angles | braces | byte.simd_eq(u8x16::splat(b'`'));
    let dots = odd.simd_eq(u8x16::splat(b'/')) | byte.simd_eq(u8x16::splat(b'%'));
    let begins = before.simd_eq(u8x16::splat(b'/')) & dots;
    (outside | marks | begins).to_bitmask() == 0
}

/// How many of the 16 bytes from the position `at` on, counted from the first, a host may have.
#[inline(always)]
pub fn host_run(text: &[u8], at: usize) -> usize
    requires { at + LANES ≤ length text.now }
    ensures { IsRun is_host_byte text.now at result }
{
    let byte = u8x16::from_slice(&text[at..]);
    let no_letter = (byte - u8x16::splat(b'a')).simd_ge(u8x16::splat(26));
    let no_digit = (byte - u8x16::splat(b'0')).simd_ge(u8x16::splat(10));
    let no_point = (byte - u8x16::splat(b'-')).simd_ge(u8x16::splat(2));
    let stops = no_letter & no_digit & no_point & byte.simd_ne(u8x16::splat(b'_'));
    first_set(stops.to_bitmask())
}

/// How many of the 16 bytes from the position `at` on, counted from the first, are not `mark`.
#[inline(always)]
pub fn other_run(text: &[u8], at: usize, mark: u8) -> usize
    requires { at + LANES ≤ length text.now }
    ensures { IsRun (is_other mark) text.now at result }
{
    let byte = u8x16::from_slice(&text[at..]);
    first_set(byte.simd_eq(u8x16::splat(mark)).to_bitmask())
}

/// The position of the lowest bit that is set, or 16.
#[inline(always)]
fn first_set(mask: u64) -> usize
    ensures { result ≡ spec.first_set mask }
{
    if mask == 0 {
        LANES
    } else {
        mask.trailing_zeros() as usize
    }
}
