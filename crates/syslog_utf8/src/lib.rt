//! The check of UTF-8 for the programs and the library for C. It is that of `simdutf8`, but for texts of ASCII alone,
//! on which that takes more instructions than std.
//!
//! `from_utf8(b"caf\xc3\xa9")` is `Ok("café")`, and `from_utf8(b"caf\xe9")` an error. `decode` returns `café` for the
//! latter as ISO 8859-1, and otherwise a text with U+FFFD.
#![tactic(auto)]

mod decoding;

ghost use Rattle.std.specs.Prelude.{◌≡◌, ◌+◌, ◌<◌, ◌≤◌, ℕ, length, slice_index, IsTrue, IsUtf8, MatchResult};
ghost use Rattle.std.specs.Str.{IsAscii};

pub use decoding::decode;
use simdutf8::basic;
pub use simdutf8::basic::Utf8Error;
use std::simd::prelude::*;

const LANES: usize = 64;

/// Returns the bytes as a text; an error if they are not UTF-8.
pub fn from_utf8(bytes: &[u8]) -> Result<&str, Utf8Error>
    ensures { MatchResult result (λ text. (text.now ≡ bytes.now) × IsUtf8 bytes.now) (λ _. ¬ (IsUtf8 bytes.now)) }
{
    if is_ascii(bytes) {
        return Ok(unsafe { str::from_utf8_unchecked(bytes) });
    }
    basic::from_utf8(bytes)
}

// Returns whether these bytes, sixty-four or more, are ASCII.
#[inline(always)]
fn is_ascii(bytes: &[u8]) -> bool
    ensures { IsTrue result → IsAscii bytes.now }
{
    if bytes.len() < LANES {
        return false;
    }
    let last = bytes.len() - LANES;
    let mut at = 0;
    while at < last {
        if !are_ascii(bytes, at) {
            return false;
        }
        at += LANES;
    }
    are_ascii(bytes, last)
}

// Returns whether the sixty-four bytes from `at` on are ASCII.
#[inline(always)]
fn are_ascii(bytes: &[u8], at: usize) -> bool
    requires { at + LANES ≤ length bytes.now }
    ensures { IsTrue result → (k : ℕ) → at ≤ k → k < at + 64 → slice_index bytes.now k < 128 }
{
    let lanes = u8x64::from_slice(&bytes[at..]);
    lanes.simd_ge(u8x64::splat(0x80)).to_bitmask() == 0
}
