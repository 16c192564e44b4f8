//! Finding a byte that is likely to be near.
ghost use Rattle.std.specs.Prelude.{◌≡◌, ◌≤◌, length, take};
ghost use Rattle.std.specs.List.{position_or_len};
ghost use Rattle.memchr.specs.Find.{IsFirstByte, is_byte};
ghost use Rattle.html_links.specs.Near.{first_set};

use memchr::memchr_iter;
use std::simd::prelude::*;

/// The number of bytes that are searched without a call.
const LANES: usize = 32;

/// The lowest bit that is set, or this number if none is.
#[inline(always)]
fn first_set(mask: u64, none: usize) -> usize
    ensures { result ≡ first_set mask none }
{
    if mask == 0 {
        none
    } else {
        mask.trailing_zeros() as usize
    }
}

/// The index of the byte among the first bytes, or their number if it is not among them.
#[inline(always)]
fn near_index(byte: u8, bytes: &[u8]) -> usize
    requires { LANES ≤ length bytes.now }
    ensures { result ≡ position_or_len (is_byte byte) (take LANES bytes.now) }
{
    let same = u8x32::from_slice(bytes).simd_eq(u8x32::splat(byte));
    first_set(same.to_bitmask(), LANES)
}

/// The first index of a byte that is likely to be near: the first bytes are searched without a call.
#[inline(always)]
pub(crate) fn near_byte(byte: u8, bytes: &[u8]) -> Option<usize>
    ensures { IsFirstByte (is_byte byte) bytes.now result }
{
    if bytes.len() < LANES {
        return find_byte(byte, bytes);
    }
    let near = near_index(byte, bytes);
    if near < LANES {
        return Some(near);
    }
    match find_byte(byte, &bytes[LANES..]) {
        Some(index) => Some(LANES + index),
        None => None,
    }
}

/// The first index of a byte. This function is not inlined, so the program has it only once, and its result is in registers.
#[inline(never)]
#[tactic(auto, using(crate::proofs::Cuts::first_byte))]
pub(crate) fn find_byte(byte: u8, bytes: &[u8]) -> Option<usize>
    ensures { IsFirstByte (is_byte byte) bytes.now result }
{
    let mut found = memchr_iter(byte, bytes);
    found.next()
}
