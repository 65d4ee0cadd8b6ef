//! Where a line ends.
ghost use Rattle.std.specs.Prelude.{◌≡◌, ◌≢◌, ◌+◌, ◌-◌, ◌<◌, ◌≤◌, ℕ, length, slice_index};
ghost use Rattle.memchr.specs.Find.{IsFirstByte, is_byte};
ghost use Rattle.syslog_lines.specs.Search.{IsRun};

use memchr::{memchr, memrchr};
use std::simd::prelude::*;

const LANES: usize = 64;

// Most lines end before so many bytes, and there this takes fewer instructions than `memchr`.
const NEAR: usize = 256;

/// Returns the place of the first line feed, if there is one.
#[inline(always)]
pub fn next_feed(bytes: &[u8]) -> Option<usize>
    ensures { IsFirstByte (is_byte 10) bytes.now result }
{
    let mut seen = 0;
    if bytes.len() >= NEAR {
        while NEAR - seen >= LANES {
            let run = feedless_run(bytes, seen);
            if run < LANES {
                return Some(seen + run);
            }
            seen += LANES;
        }
    }
    let end = far_feed(bytes, seen);
    if end < bytes.len() { Some(end) } else { None }
}

// Returns the place of the first line feed, if none is before `from`; the length if there is none.
fn far_feed(bytes: &[u8], from: usize) -> usize
    requires within { from ≤ length bytes.now }
    requires before { (k : ℕ) → k < from → slice_index bytes.now k ≢ 10 }
    ensures within { result ≤ length bytes.now }
    ensures before { (k : ℕ) → k < result → slice_index bytes.now k ≢ 10 }
    ensures feed { result < length bytes.now → slice_index bytes.now result ≡ 10 }
{
    match memchr(b'\n', &bytes[from..]) {
        Some(feed) => from + feed,
        None => bytes.len(),
    }
}

// Returns how many of the sixty-four bytes from a place on are before the first line feed.
#[inline(always)]
fn feedless_run(bytes: &[u8], at: usize) -> usize
    requires { at + LANES ≤ length bytes.now }
    ensures { IsRun bytes.now at result }
{
    let lanes = u8x64::from_slice(&bytes[at..]);
    let feeds = lanes.simd_eq(u8x64::splat(b'\n'));
    // (where no lane has one there are as many zeros as lanes)
    feeds.to_bitmask().trailing_zeros() as usize
}

/// Returns the place after the last line feed, and 0 if there is none. None is before `from`.
pub fn past_last_feed(bytes: &[u8], from: usize) -> usize
    requires within { from ≤ length bytes.now }
    requires before { (k : ℕ) → k < from → slice_index bytes.now k ≢ 10 }
    ensures within { result ≤ length bytes.now }
    ensures closed { 0 < result → slice_index bytes.now (result - 1) ≡ 10 }
    ensures open { (k : ℕ) → result ≤ k → k < length bytes.now → slice_index bytes.now k ≢ 10 }
{
    match memrchr(b'\n', &bytes[from..]) {
        Some(feed) => from + feed + 1,
        None => 0,
    }
}
