//! Short texts of ASCII in one array: a printed timestamp, or the printed front of a line, which is its priority, its
//! version and its timestamp.
//!
//! **Rule.** The front of a line is that of RFC 5424 (section 6), with a space where RFC 3164 has no version; the
//! timestamp is that of RFC 3339. What follows the timestamp is mostly copied from the input, so a printed line is two
//! pieces: this one and the rest.
ghost use Rattle.std.specs.Prelude.{◌≡◌, ◌<◌, ◌≤◌, ◌+◌, ◌++◌, ℕ, [], Some, length, slice_index, unsigned_abs, decimal};
ghost use Rattle.std.specs.List.{AllByRecursion};
ghost use Rattle.syslog_pieces.specs.Bodies.Clock.{fields_text, unsigned_date_time};
ghost use Rattle.syslog_pieces.specs.Pri.{priority_text};
ghost use Rattle.syslog_pieces.specs.Timestamp.Fields.{AreCivil};
ghost use Rattle.syslog_pieces.specs.Timestamp.Printed.{date_time_text, fraction_text, offset_text, printed_stamp};

use crate::timestamp::fields::{CivilFields, datetime_fields};
use crate::timestamp::{ClockStamp, OffsetTimestamp};
use jiff::tz::Offset;
use std::{fmt, str};
use syslog_text::text::write_ascii::{ascii_digit, three_digits, two_digits};

/// A text of at most 64 ASCII characters, held in an array.
#[derive(Clone, Copy)]
pub struct Ascii {
    bytes: [u8; 64],
    length: usize,
    ghost within: { length ≤ 64 },
    ghost ascii: { (k : ℕ) → k < length → slice_index bytes k < 128 },
}

impl Ascii {
    ghost use Rattle.std.specs.Prelude.{Some};
    ghost use Rattle.syslog_pieces.specs.Front.{ascii_bytes, clock_text, front_text, version_text};

    // Returns the empty text.
    #[inline(always)]
    fn empty() -> Ascii
        ensures { ascii_bytes result ≡ [] }
    {
        Ascii {
            bytes: [0; 64],
            length: 0,
        }
    }

    /// Returns the characters as a text.
    pub fn as_str(&self) -> &str
        ensures { result.now ≡ ascii_bytes self.now }
    {
        unsafe { str::from_utf8_unchecked(&self.bytes[..self.length]) }
    }

    // Appends bytes that are ASCII.
    #[inline(always)]
    fn push(&mut self, piece: &[u8])
        requires room { self.old.length + length piece.now ≤ 64 }
        requires ascii { AllByRecursion (λ b. b < 128) piece.now }
        ensures text { ascii_bytes self.new ≡ ascii_bytes self.old ++ piece.now }
        ensures length { self.new.length ≡ self.old.length + length piece.now }
    {
        let end = self.length + piece.len();
        self.bytes[self.length..end].copy_from_slice(piece);
        self.length = end;
    }

    // Appends a priority in printed form.
    #[tactic(auto, using(crate::proofs::PriLemmas::decimals))]
    #[inline(always)]
    fn push_priority(&mut self, number: u32)
        requires room { self.old.length + 5 ≤ 64 }
        requires number { number < 1_000 }
        ensures text { ascii_bytes self.new ≡ ascii_bytes self.old ++ priority_text number }
        ensures length { self.new.length ≤ self.old.length + 5 }
    {
        if number < 10 {
            self.push(&[b'<', ascii_digit(number), b'>']);
            return;
        }
        let [t, o] = two_digits(number % 100);
        if number < 100 {
            self.push(&[b'<', t, o, b'>']);
            return;
        }
        self.push(&[b'<', ascii_digit(number / 100), t, o, b'>']);
    }

    // Appends a number in decimal digits.
    #[tactic(auto, using(syslog_text::proofs::TextLemmas::Words::decimal_steps))]
    fn push_number(&mut self, number: u32)
        requires room { self.old.length + length (decimal number) ≤ 64 }
        ensures text { ascii_bytes self.new ≡ ascii_bytes self.old ++ decimal number }
        ensures length { self.new.length ≡ self.old.length + length (decimal number) }
    {
        if number < 10 {
            self.push(&[ascii_digit(number)]);
            return;
        }
        self.push_number(number / 10);
        self.push(&[ascii_digit(number % 10)]);
    }

    // Appends the version of RFC 5424, if there is one.
    #[tactic(auto, using(syslog_text::proofs::TextLemmas::Words::ten_digits))]
    #[inline(always)]
    fn push_version(&mut self, version: Option<u32>)
        requires room { self.old.length + 10 ≤ 64 }
        ensures text { ascii_bytes self.new ≡ ascii_bytes self.old ++ version_text version }
        ensures length { self.new.length ≤ self.old.length + 10 }
    {
        match version {
            Some(version) if version < 10 => self.push(&[ascii_digit(version)]),
            Some(version) => self.push_number(version),
            None => {}
        }
    }

    // Appends `YYYY-MM-DDTHH:MM:SS`, with a `-` before it if the year is negative.
    #[tactic(auto, unfolding(crate::specs::Timestamp::Printed::date_time_text))]
    #[inline(always)]
    fn push_date_time(&mut self, fields: CivilFields)
        requires room { self.old.length + 20 ≤ 64 }
        requires civil { AreCivil fields }
        ensures text { ascii_bytes self.new ≡ ascii_bytes self.old ++ date_time_text fields }
        ensures length { self.new.length ≤ self.old.length + 20 }
    {
        if fields.year < 0 {
            self.push(b"-");
        }
        self.push(&date_time_bytes(fields));
    }

    // Appends a dot and the least of 3, 6 or 9 decimals that is exact, or nothing for 0.
    #[tactic(auto, unfolding(crate::specs::Timestamp::Printed::fraction_text))]
    #[inline(always)]
    fn push_fraction(&mut self, nanosecond: u32)
        requires room { self.old.length + 10 ≤ 64 }
        requires nanosecond { nanosecond < 1_000_000_000 }
        ensures text { ascii_bytes self.new ≡ ascii_bytes self.old ++ fraction_text nanosecond }
        ensures length { self.new.length ≤ self.old.length + 10 }
    {
        if nanosecond == 0 {
            return;
        }
        self.push(b".");
        self.push(&three_digits(nanosecond / 1_000_000));
        if nanosecond % 1_000_000 == 0 {
            return;
        }
        self.push(&three_digits(nanosecond / 1_000 % 1_000));
        if nanosecond % 1_000 == 0 {
            return;
        }
        self.push(&three_digits(nanosecond % 1_000));
    }

    // Appends a sign and `HH:MM`.
    #[tactic(auto, unfolding(crate::specs::Timestamp::Printed::offset_text))]
    #[inline(always)]
    fn push_offset(&mut self, offset: Offset)
        requires room { self.old.length + 6 ≤ 64 }
        ensures text { ascii_bytes self.new ≡ ascii_bytes self.old ++ offset_text offset.seconds }
        ensures length { self.new.length ≤ self.old.length + 6 }
    {
        let seconds = offset.seconds();
        let minutes = (seconds.unsigned_abs() + 30) / 60;
        let [h, u] = two_digits(minutes / 60);
        let [i, n] = two_digits(minutes % 60);
        let sign = if seconds < 0 { b'-' } else { b'+' };
        self.push(&[sign, h, u, b':', i, n]);
    }

    // Appends the date and time that a clock at the offset shows, with the offset.
    #[inline(always)]
    fn push_fields(&mut self, fields: CivilFields, offset: Offset)
        requires room { self.old.length + 36 ≤ 64 }
        requires civil { AreCivil fields }
        ensures text { ascii_bytes self.new ≡ ascii_bytes self.old ++ fields_text fields offset.seconds }
        ensures length { self.new.length ≤ self.old.length + 36 }
    {
        self.push_date_time(fields);
        self.push_fraction(fields.nanosecond);
        self.push_offset(offset);
    }

    // Appends a timestamp in printed form, or `-` for an absent one.
    #[inline(always)]
    fn push_timestamp(&mut self, timestamp: Option<ClockStamp>)
        requires room { self.old.length + 36 ≤ 64 }
        ensures text { ascii_bytes self.new ≡ ascii_bytes self.old ++ clock_text timestamp }
        ensures length { self.new.length ≤ self.old.length + 36 }
    {
        match timestamp {
            Some(stamp) => self.push_fields(stamp.fields, stamp.offset),
            None => self.push(b"-"),
        }
    }

    /// Returns the printed front of a line: the priority, the version of RFC 5424, a space and the timestamp.
    #[inline(always)]
    pub fn front(priority: u32, version: Option<u32>, timestamp: Option<ClockStamp>) -> Ascii
        requires { priority < 1_000 }
        ensures { ascii_bytes result ≡ front_text priority version timestamp }
    {
        let mut front = Ascii::empty();
        front.push_priority(priority);
        front.push_version(version);
        front.push(b" ");
        front.push_timestamp(timestamp);
        front
    }

    /// Returns a timestamp in printed form, as `2026-03-02T06:35:05+00:00`.
    #[inline(always)]
    pub fn timestamp(timestamp: ClockStamp) -> Ascii
        ensures { ascii_bytes result ≡ clock_text (Some timestamp) }
    {
        let mut text = Ascii::empty();
        text.push_timestamp(Some(timestamp));
        text
    }
}

// Returns the date and the time of day to the second, without the sign of the year.
#[inline(always)]
fn date_time_bytes(fields: CivilFields) -> [u8; 19]
    requires { AreCivil fields }
    ensures ascii { AllByRecursion (λ b. b < 128) result }
    ensures text { result ≡ unsigned_date_time (unsigned_abs fields.year) fields.month fields.day fields.hour
        fields.minute fields.second }
{
    let year = fields.year.unsigned_abs();
    let [y, e] = two_digits(year / 100);
    let [a, r] = two_digits(year % 100);
    let [m, o] = two_digits(fields.month);
    let [d, t] = two_digits(fields.day);
    let [h, u] = two_digits(fields.hour);
    let [i, n] = two_digits(fields.minute);
    let [s, c] = two_digits(fields.second);
    [
        y, e, a, r, b'-', m, o, b'-', d, t, b'T', h, u, b':', i, n, b':', s, c,
    ]
}

impl fmt::Display for OffsetTimestamp {
    ghost output = { λ s. Some (printed_stamp s.instant.nanosecond s.offset.seconds) };

    fn fmt<W: fmt::Write>(&self, f: &mut fmt::Formatter<W>) -> fmt::Result {
        let dt = self.offset.to_datetime(self.instant);
        let mut text = Ascii::empty();
        text.push_fields(datetime_fields(dt), self.offset);
        f.write_str(text.as_str())
    }
}
