//! The kernel of the scanner: how many of the next sixteen bytes, from the first on, are ASCII and of a class.
//!
//! It compares sixteen bytes at once, and returns the place of the first that stops the run. There is one for all
//! classes. It is inlined where the class is known, so that only the comparisons of that class are left.
ghost use Rattle.std.specs.Prelude.{◌≡◌, ◌+◌, ◌≤◌, ◌<◌, IfSome, IsTrue, length, slice_index};
ghost use Rattle.syslog_text.specs.Bodies.Scan.{IsRun, IsRunIn, byte_in, first_set, in_set, lists_class};
ghost use Rattle.syslog_text.specs.Bodies.Scan.{visible_byte};

use crate::text::CharClass;
use std::simd::prelude::*;

/// How many bytes the kernel looks at.
pub(crate) const LANES: usize = 16;

/// A set of bytes: a range (its first byte, and how many) and three more bytes; and whether those are the set, or all
/// others.
#[derive(Clone, Copy)]
struct ByteSet(u8, u8, [u8; 3], bool);

// Returns the set of a class. ASCII white space is 9 to 13 and 32, and no other byte. The range of `SdName` goes on
// from 255 to 0: it is 127 to 32.
#[inline(always)]
fn bytes_of(class: CharClass) -> ByteSet
    ensures { IsTrue (lists_class result class) }
{
    match class {
        CharClass::Digit => ByteSet(b'0', 10, [b'0'; 3], true),
        CharClass::Blank => ByteSet(b'\t', 1, [b' '; 3], true),
        CharClass::Visible => ByteSet(9, 5, [b' '; 3], false),
        CharClass::Id => ByteSet(9, 5, [b' ', b']', b'='], false),
        CharClass::Name => ByteSet(0, 0, [b']', b'=', b'='], false),
        CharClass::Unescaped => ByteSet(0, 0, [b'\\', b'"', b'"'], false),
        CharClass::Open => ByteSet(0, 0, [b']'; 3], false),
        CharClass::Inert => ByteSet(0, 0, [b'\\', b'"', b']'], false),
        CharClass::Bare => ByteSet(0, 0, [b'\\'; 3], false),
        CharClass::Tag => ByteSet(9, 5, [b' ', b':', b':'], false),
        CharClass::Label => ByteSet(9, 5, [b' ', b':', b'['], false),
        CharClass::Printable => ByteSet(b'!', 94, [b'!'; 3], true),
        CharClass::SdName => ByteSet(127, 162, [b'=', b']', b'"'], false),
    }
}

#[inline(always)]
fn first_set(mask: u64) -> usize
    ensures { result ≡ first_set mask }
{
    if mask == 0 {
        LANES
    } else {
        mask.trailing_zeros() as usize
    }
}

// The kernel of a set, without a range of bytes: the first, and how many.
#[inline(always)]
fn set_run(bytes: &[u8], at: usize, set: ByteSet, lowest: u8, width: u8) -> usize
    requires { at + LANES ≤ length bytes.now }
    ensures { IsRunIn (in_set set lowest width) bytes.now at result }
{
    let ByteSet(first, count, [a, b, c], is_listed) = set;
    let v = u8x16::from_slice(&bytes[at..]);
    let range = (v - u8x16::splat(first)).simd_lt(u8x16::splat(count));
    let more = v.simd_eq(u8x16::splat(a)) | v.simd_eq(u8x16::splat(b)) | v.simd_eq(u8x16::splat(c));
    let barred = (v - u8x16::splat(lowest)).simd_lt(u8x16::splat(width));
    let stops = (range | more) ^ mask8x16::splat(is_listed) | barred;
    first_set(stops.to_bitmask())
}

/// How many of the next sixteen bytes, from the first, are ASCII and of the class.
#[inline(always)]
pub(crate) fn class_run(bytes: &[u8], at: usize, class: CharClass) -> usize
    requires { at + LANES ≤ length bytes.now }
    ensures { IsRunIn (byte_in class) bytes.now at result }
{
    set_run(bytes, at, bytes_of(class), 0x80, 0x80)
}

/// How many bytes at the front are of visible characters, if ASCII white space ends them, and none of them is C2 or
/// E1 to
/// E3, with which other white space begins. Near the end of the bytes it doesn't look.
pub(crate) fn visible_front(bytes: &[u8]) -> Option<usize>
    ensures { IfSome result (λ n. IsRun visible_byte bytes.now n × (n < length bytes.now)
        × (slice_index bytes.now n < 128)) }
{
    let set = ByteSet(9, 5, [b' ', 0xc2, 0xc2], false);
    let mut end = 0;
    'blocks: while bytes.len() - end >= LANES {
        let run = set_run(bytes, end, set, 0xe1, 3);
        end += run;
        if run < LANES {
            return if bytes[end] < 128 { Some(end) } else { None };
        }
    }
    None
}
