//! The bytes of an object, while they are written.

ghost use Rattle.std.specs.Prelude.{◌≡◌, ◌+◌, ◌-◌, ◌++◌, ◌≤◌, [], List, ℕ, IfOk, IsUtf8, OnOk, drop, length};
ghost use Rattle.std.specs.Prelude.{take, vec_len};
ghost use Rattle.json.specs.Print.{escape};
ghost use Rattle.json.specs.Written.{PlainBetween};
ghost use Rattle.syslog_object.specs.Blocks.{in_json};

use crate::blocks::{put, put_block, put_plain};
use std::alloc::AllocError;
use std::marker::Model;

/// How many bytes of spare space each text leaves after it.
const ROOM: usize = 64;

/// How many bytes a block has, and how many if the text ends soon.
const WIDE: usize = 32;

const NARROW: usize = 16;

/// Bytes that are written one after the other into the elements of a vector, whose elements after them are spare space.
#[derive(Drop)]
pub(crate) struct Output {
    bytes: Vec<u8>,
    at: usize,
}

impl Model for Output {
    ghost Value = { List ℕ };

    ghost view = { λ out. take out.at out.bytes.items };

    ghost invariant = { λ out. out.at ≤ vec_len out.bytes };
}

impl Output {
    /// Returns an empty output that uses the vector's memory.
    #[inline(always)]
    pub(crate) fn over(memory: Vec<u8>) -> Output
        ensures { result ≡ [] }
    {
        Output {
            bytes: memory,
            at: 0,
        }
    }

    /// Returns the bytes that were written.
    #[inline(always)]
    pub(crate) fn as_slice(&self) -> &[u8]
        ensures { result.now ≡ self.now }
    {
        &self.bytes[..self.at]
    }

    /// Returns the vector, cut to the bytes that were written from `start` on.
    #[inline(always)]
    pub(crate) fn into_bytes(self, start: usize) -> Vec<u8>
        requires { start ≤ length self }
        ensures { result.items ≡ drop start self }
    {
        let Output { mut bytes, at } = self;
        bytes.copy_within(start..at, 0);
        bytes.truncate(at - start);
        bytes
    }

    /// Returns the vector with all that it holds.
    #[inline(always)]
    pub(crate) fn into_memory(self) -> Vec<u8> {
        let Output { bytes, .. } = self;
        bytes
    }

    #[inline(always)]
    pub(crate) fn len(&self) -> usize
        ensures { result ≡ length self.now }
    {
        self.at
    }

    #[inline(always)]
    pub(crate) fn clear(&mut self)
        ensures { self.new ≡ [] }
    {
        self.at = 0;
    }

    /// Appends the bytes of an array.
    #[inline(always)]
    pub(crate) fn push<const N: usize>(&mut self, piece: &[u8; N]) -> Result<(), AllocError>
        ensures { OnOk result (self.new ≡ self.old ++ piece.now) }
    {
        let at = self.at;
        reserve(&mut self.bytes, at, N)?;
        self.at = put(self.bytes.as_mut_slice(), at, piece);
        Ok(())
    }

    /// Appends the bytes of a slice.
    #[inline(always)]
    pub(crate) fn push_slice(&mut self, piece: &[u8]) -> Result<(), AllocError>
        ensures { OnOk result (self.new ≡ self.old ++ piece.now) }
    {
        let at = self.at;
        reserve(&mut self.bytes, at, piece.len())?;
        self.bytes[at..at + piece.len()].copy_from_slice(piece);
        self.at = at + piece.len();
        Ok(())
    }

    /// Appends the first `count` bytes again.
    #[inline(always)]
    pub(crate) fn push_again(&mut self, count: usize) -> Result<(), AllocError>
        requires { count ≤ length self.old }
        ensures { OnOk result (self.new ≡ self.old ++ take count self.old) }
    {
        let at = self.at;
        reserve(&mut self.bytes, at, count)?;
        let (before, room) = self.bytes.as_mut_slice().split_at_mut(at);
        room[..count].copy_from_slice(&before[..count]);
        self.at = at + count;
        Ok(())
    }

    /// Appends the text with JSON's escapes, between two pieces.
    #[inline(always)]
    pub(crate) fn push_text<const N: usize, const M: usize>(
        &mut self,
        before: &[u8; N],
        text: &str,
        after: &[u8; M],
    ) -> Result<(), AllocError>
        requires { (N ≤ 64) × (M ≤ 64) }
        ensures text { OnOk result (self.new ≡ self.old ++ (before.now ++ (escape text.now ++ after.now))) }
        ensures utf8 { IsUtf8 text.now }
    {
        self.push_between(before, text, after, false)
    }

    /// Appends the text with JSON's escapes, between two pieces. If the text is raw, the escapes of a parameter's value
    /// are removed first.
    #[inline(always)]
    pub(crate) fn push_between<const N: usize, const M: usize>(
        &mut self,
        before: &[u8; N],
        text: &str,
        after: &[u8; M],
        is_raw: bool,
    ) -> Result<(), AllocError>
        requires { (N ≤ 64) × (M ≤ 64) }
        ensures text { OnOk result (self.new ≡ self.old ++ (before.now ++ (in_json is_raw text.now ++ after.now))) }
        ensures utf8 { IsUtf8 text.now }
    {
        let start = self.at;
        reserve(&mut self.bytes, start, text.len() + 2 * ROOM)?;
        let at = put(self.bytes.as_mut_slice(), start, before);
        let end = write_text(&mut self.bytes, at, text.as_bytes(), is_raw)?;
        self.at = put(self.bytes.as_mut_slice(), end, after);
        Ok(())
    }
}

// Makes space for `count` bytes after the place, and for some more if there was too little.
#[inline(always)]
fn reserve(bytes: &mut Vec<u8>, at: usize, count: usize) -> Result<(), AllocError>
    requires { at ≤ vec_len bytes.old }
    ensures room { OnOk result (at + count ≤ vec_len bytes.new) }
    ensures kept { take at bytes.new.items ≡ take at bytes.old.items }
    ensures longer { vec_len bytes.old ≤ vec_len bytes.new }
{
    if bytes.len() - at < count {
        return grow(bytes, at, count);
    }
    Ok(())
}

#[inline(never)]
fn grow(bytes: &mut Vec<u8>, at: usize, count: usize) -> Result<(), AllocError>
    requires { (at ≤ vec_len bytes.old) × (vec_len bytes.old ≤ at + count) }
    ensures room { OnOk result (at + count ≤ vec_len bytes.new) }
    ensures kept { take at bytes.new.items ≡ take at bytes.old.items }
    ensures longer { vec_len bytes.old ≤ vec_len bytes.new }
{
    bytes.resize(at.saturating_add(count).saturating_add(1024), 0)
}

// Writes the bytes at the front of the text of which none needs an escape, and returns how many it wrote.
#[inline(always)]
fn write_plain(bytes: &mut Vec<u8>, at: usize, text: &[u8]) -> usize
    requires { at + length text.now ≤ vec_len bytes.old }
    ensures within { result ≤ length text.now }
    ensures plain { PlainBetween text.now 0 result }
    ensures text { take (at + result) bytes.new.items ≡ take at bytes.old.items ++ take result text.now }
    ensures len { vec_len bytes.new ≡ vec_len bytes.old }
{
    put_plain(bytes.as_mut_slice(), at, text)
}

// Writes the text and returns the place after it. There must be space for it if none of it needs an escape.
#[inline(always)]
fn write_text(
    bytes: &mut Vec<u8>,
    at: usize,
    text: &[u8],
    is_raw: bool,
) -> Result<usize, AllocError>
    requires { at + length text.now + 64 ≤ vec_len bytes.old }
    ensures text { IfOk result (λ end. take end bytes.new.items ≡ take at bytes.old.items ++ in_json is_raw text.now) }
    ensures room { IfOk result (λ end. end + 64 ≤ vec_len bytes.new) }
    ensures longer { vec_len bytes.old ≤ vec_len bytes.new }
{
    let plain = write_plain(bytes, at, text);
    if plain == text.len() {
        return Ok(at + plain);
    }
    put_escaped(bytes, at + plain, &text[plain..], is_raw)
}

// Writes the text by blocks, and returns the place after it. The last blocks are read from a copy with brackets after
// it, which are taken off again.
#[inline(never)]
fn put_escaped(
    bytes: &mut Vec<u8>,
    start: usize,
    text: &[u8],
    is_raw: bool,
) -> Result<usize, AllocError>
    requires { start ≤ vec_len bytes.old }
    ensures text { IfOk result (λ end. take end bytes.new.items
        ≡ take start bytes.old.items ++ in_json is_raw text.now) }
    ensures room { IfOk result (λ end. end + 64 ≤ vec_len bytes.new) }
    ensures longer { vec_len bytes.old ≤ vec_len bytes.new }
{
    let mut at = start;
    let mut next = 0;
    'blocks: while text.len() - next > 2 * WIDE {
        reserve(bytes, at, 8 * WIDE)?;
        (at, next) = put_block::<WIDE>(bytes.as_mut_slice(), at, text, next, is_raw);
    }
    put_last(bytes, at, &text[next..], is_raw)
}

// Writes the last bytes of a text.
fn put_last(
    bytes: &mut Vec<u8>,
    start: usize,
    text: &[u8],
    is_raw: bool,
) -> Result<usize, AllocError>
    requires place { start ≤ vec_len bytes.old }
    requires few { length text.now ≤ 64 }
    ensures text { IfOk result (λ end. take end bytes.new.items
        ≡ take start bytes.old.items ++ in_json is_raw text.now) }
    ensures room { IfOk result (λ end. end + 64 ≤ vec_len bytes.new) }
    ensures longer { vec_len bytes.old ≤ vec_len bytes.new }
{
    let mut padded = [b']'; 96];
    copy_to_front(&mut padded, text);
    let mut at = start;
    let mut next = 0;
    'blocks: while next < text.len() {
        reserve(bytes, at, 8 * NARROW)?;
        (at, next) = put_block::<NARROW>(bytes.as_mut_slice(), at, &padded, next, is_raw);
    }
    reserve(bytes, at, ROOM)?;
    Ok(at - (next - text.len()))
}

#[inline(always)]
fn copy_to_front(room: &mut [u8], text: &[u8])
    requires { length text.now ≤ length room.old }
    ensures { room.new ≡ text.now ++ drop (length text.now) room.old }
{
    room[..text.len()].copy_from_slice(text);
}
