//! Texts with JSON's escapes, by blocks of 16 or 32 bytes: each block is copied whole, and what comes after a byte that
//! needs an escape is copied again to its new place.

ghost use Rattle.std.specs.Prelude.{◌≡◌, ◌+◌, ◌*◌, ◌++◌, ◌∷◌, ◌≤◌, ◌<◌, true, length, slice_index, take, drop};
ghost use Rattle.std.specs.Bool.{OnTrue};
ghost use Rattle.json.specs.Print.{escape_byte};
ghost use Rattle.json.specs.Run.{is_stop};
ghost use Rattle.json.specs.Written.{PlainBetween};
ghost use Rattle.syslog_object.specs.Blocks.{AreStops, IsEscapeAt, in_json};

use std::simd::prelude::*;

// Writes the bytes to the front. (An array is stored as a whole, while `copy_from_slice` would ask first whether the
// two overlap.)
#[inline(always)]
fn store<const N: usize>(room: &mut [u8], piece: &[u8; N])
    requires { N ≤ length room.old }
    ensures { room.new ≡ piece.now ++ drop N room.old }
{
    if let Some(front) = room.first_chunk_mut::<N>() {
        *front = *piece;
    }
}

/// Writes the bytes at the place, where there must be space for them, and returns the place after them.
#[inline(always)]
pub(crate) fn put<const N: usize>(room: &mut [u8], at: usize, piece: &[u8; N]) -> usize
    requires { at + N ≤ length room.old }
    ensures text { take (at + N) room.new ≡ take at room.old ++ piece.now }
    ensures end { result ≡ at + N }
{
    store(&mut room[at..], piece);
    at + N
}

// Writes `N` bytes of the text at the place.
#[inline(always)]
fn put_lanes<const N: usize>(room: &mut [u8], at: usize, text: &[u8], first: usize)
    requires room { at + N ≤ length room.old }
    requires more { first + N ≤ length text.now }
    ensures { take (at + N) room.new ≡ take at room.old ++ take N (drop first text.now) }
{
    let lanes: Simd<u8, N> = Simd::from_slice(&text[first..]);
    lanes.copy_to_slice(&mut room[at..]);
}

// Returns which of `N` bytes need an escape.
#[inline(always)]
fn stops<const N: usize>(text: &[u8], first: usize) -> u64
    requires few { N ≤ 32 }
    requires more { first + N ≤ length text.now }
    ensures { AreStops N text.now first 0 result }
{
    let lanes: Simd<u8, N> = Simd::from_slice(&text[first..]);
    (lanes.simd_eq(Simd::splat(b'"'))
        | lanes.simd_eq(Simd::splat(b'\\'))
        | lanes.simd_lt(Simd::splat(0x20))).to_bitmask()
}

/// Writes the bytes at the front of the text of which none needs an escape, and returns how many it wrote.
#[inline(always)]
pub(crate) fn put_plain(room: &mut [u8], at: usize, text: &[u8]) -> usize
    requires { at + length text.now ≤ length room.old }
    ensures within { result ≤ length text.now }
    ensures plain { PlainBetween text.now 0 result }
    ensures text { take (at + result) room.new ≡ take at room.old ++ take result text.now }
{
    let length = text.len();
    if length >= 16 {
        return put_plain_blocks::<16>(room, at, text);
    }
    if length >= 8 {
        return put_plain_blocks::<8>(room, at, text);
    }
    if length >= 4 {
        return put_plain_blocks::<4>(room, at, text);
    }
    if length > 0 {
        return put_plain_blocks::<1>(room, at, text);
    }
    0
}

// Writes them by blocks, of which the last may overlap the one before. (They are looked at in the text: bytes that were
// just copied are slow to load.)
#[inline(always)]
fn put_plain_blocks<const N: usize>(room: &mut [u8], at: usize, text: &[u8]) -> usize
    requires room { at + length text.now ≤ length room.old }
    requires long { N ≤ length text.now }
    requires lanes { (0 < N) × (N ≤ 32) }
    ensures within { result ≤ length text.now }
    ensures plain { PlainBetween text.now 0 result }
    ensures text { take (at + result) room.new ≡ take at room.old ++ take result text.now }
{
    let length = text.len();
    let mut seen = 0;
    'blocks: loop {
        put_lanes::<N>(room, at + seen, text, seen);
        let stops = stops::<N>(text, seen);
        if stops != 0 {
            return seen + stops.trailing_zeros() as usize;
        }
        if seen + N == length {
            return length;
        }
        seen = (seen + N).min(length - N);
    }
}

// What the JSON text has for a byte that needs an escape.
enum Escape {
    // a control character's own escape
    Control,
    // nothing, for the backslash of a pair that means its second byte
    Nothing,
    // a pair as it is, which means the same in JSON
    Pair,
    // a backslash and the byte
    Backslash,
}

// Returns what the JSON text has for the byte at this place. A raw text has the escapes of a parameter's value.
#[inline(always)]
fn escape_at(text: &[u8], at: usize, is_raw: bool) -> Escape
    requires more { at + 1 < length text.now }
    requires stop { is_stop (slice_index text.now at) ≡ true }
    ensures { IsEscapeAt is_raw text.now at result }
{
    let byte = text[at];
    if byte < 0x20 {
        return Escape::Control;
    }
    if byte != b'\\' || !is_raw {
        return Escape::Backslash;
    }
    let second = text[at + 1];
    if second == b']' {
        return Escape::Nothing;
    }
    if second == b'n' || second == b'"' || second == b'\\' {
        return Escape::Pair;
    }
    Escape::Backslash
}

// Writes the escape of a control character at the place, and after it `N` bytes of the text. Returns the length of the
// escape.
#[inline(always)]
fn put_control<const N: usize>(
    room: &mut [u8],
    at: usize,
    byte: u8,
    text: &[u8],
    next: usize,
) -> usize
    requires byte { byte < 32 }
    requires room { at + 8 + N ≤ length room.old }
    requires more { next + N ≤ length text.now }
    ensures text { take (at + result + N) room.new
        ≡ take at room.old ++ (escape_byte byte ++ take N (drop next text.now)) }
    ensures length { result ≡ length (escape_byte byte) }
    ensures few { (2 ≤ result) × (result ≤ 6) }
{
    let escape = control(byte);
    let length = escape[7] as usize;
    put(room, at, escape);
    put_lanes::<N>(room, at + length, text, next);
    length
}

/// Writes the next `N` bytes of the text, or one less if a pair goes past their end. Returns the place after what was
/// written, and the place after what was read.
///
/// It needs space for six bytes for each of the `N`, and for `N` that are copied again.
#[inline(always)]
pub(crate) fn put_block<const N: usize>(
    room: &mut [u8],
    at: usize,
    text: &[u8],
    first: usize,
    is_raw: bool,
) -> (usize, usize)
    requires lanes { (8 ≤ N) × (N ≤ 32) }
    requires room { at + 8 * N ≤ length room.old }
    requires more { first + 2 * N ≤ length text.now }
    ensures text { take result.0 room.new ++ in_json is_raw (drop result.1 text.now)
        ≡ take at room.old ++ in_json is_raw (drop first text.now) }
    ensures end { result.0 ≤ at + 6 * N }
    ensures next { (first < result.1) × (result.1 ≤ first + N) }
{
    put_lanes::<N>(room, at, text, first);
    let mut end = at + N;
    let mut left = stops::<N>(text, first);
    'stops: while left != 0 {
        let stop = left.trailing_zeros() as usize;
        left &= !(1 << stop as u32);
        let place = end + stop - N;
        let from = first + stop;
        match escape_at(text, from, is_raw) {
            Escape::Control => {
                end += put_control::<N>(room, place, text[from], text, from + 1) - 1;
            }
            Escape::Nothing => {
                put_lanes::<N>(room, place, text, from + 1);
                end -= 1;
            }
            Escape::Pair => {
                if stop == N - 1 {
                    return (place, from);
                }
                left &= !(1 << (stop + 1) as u32);
            }
            Escape::Backslash => {
                put(room, place, b"\\");
                put_lanes::<N>(room, place + 1, text, from);
                end += 1;
            }
        }
    }
    (end, first + N)
}

// Returns the escape of a control character, whose length is its last byte.
#[inline(always)]
fn control(byte: u8) -> &'static [u8; 8]
    requires { byte < 32 }
    ensures text { take (slice_index result.now 7) result.now ≡ escape_byte byte }
    ensures few { (2 ≤ slice_index result.now 7) × (slice_index result.now 7 ≤ 6) }
{
    &CONTROLS[byte as usize]
}

// The escape of each control character, and at the end its length.
static CONTROLS: [[u8; 8]; 32] = [
    *b"\\u0000\0\x06",
    *b"\\u0001\0\x06",
    *b"\\u0002\0\x06",
    *b"\\u0003\0\x06",
    *b"\\u0004\0\x06",
    *b"\\u0005\0\x06",
    *b"\\u0006\0\x06",
    *b"\\u0007\0\x06",
    *b"\\b\0\0\0\0\0\x02",
    *b"\\t\0\0\0\0\0\x02",
    *b"\\n\0\0\0\0\0\x02",
    *b"\\u000b\0\x06",
    *b"\\f\0\0\0\0\0\x02",
    *b"\\r\0\0\0\0\0\x02",
    *b"\\u000e\0\x06",
    *b"\\u000f\0\x06",
    *b"\\u0010\0\x06",
    *b"\\u0011\0\x06",
    *b"\\u0012\0\x06",
    *b"\\u0013\0\x06",
    *b"\\u0014\0\x06",
    *b"\\u0015\0\x06",
    *b"\\u0016\0\x06",
    *b"\\u0017\0\x06",
    *b"\\u0018\0\x06",
    *b"\\u0019\0\x06",
    *b"\\u001a\0\x06",
    *b"\\u001b\0\x06",
    *b"\\u001c\0\x06",
    *b"\\u001d\0\x06",
    *b"\\u001e\0\x06",
    *b"\\u001f\0\x06",
];
