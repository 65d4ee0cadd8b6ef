//! The date that begins most lines. It is read once, and each form that has it there goes on from the text after it.
ghost use Rattle.std.specs.Prelude.{◌≡◌, chars};
ghost use Rattle.syslog_sent.specs.Led.{IsFront, IsLeading, date_of};

use crate::date::{BsdDate, bsd, iso_date};
use crate::sent::SentDate;
use syslog_text::text::blanks;

/// A date as it begins a line: a month date with what follows it, or a date that is nearly one of RFC 3339.
#[derive(Clone, Copy)]
pub enum LeadingDate {
    /// A month date.
    Month(BsdDate),
    /// A date of RFC 3339, or nearly one.
    Iso(SentDate),
}

impl LeadingDate {
    /// Returns the date.
    pub fn sent(self) -> SentDate
        ensures { result ≡ date_of self }
    {
        match self {
            LeadingDate::Month(date) => date.sent(),
            LeadingDate::Iso(date) => date,
        }
    }
}

/// A line that begins with a date.
#[derive(Clone, Copy)]
pub struct Led<'a> {
    /// The line from the date on.
    pub text: &'a str,
    /// The date, as it was read.
    pub date: LeadingDate,
    /// What the date says.
    pub sent: SentDate,
    /// The line after the date.
    pub rest: &'a str,
}

// Returns the date at the front, and the text after it.
fn leading_date(text: &str) -> Option<(LeadingDate, &str)>
    ensures { IsLeading (chars text.now) result }
{
    if let Some((date, rest)) = bsd(text) {
        return Some((LeadingDate::Month(date), rest));
    }
    let (date, rest) = iso_date(text)?;
    Some((LeadingDate::Iso(date), rest))
}

/// Returns the date that begins the text, after blanks or none, with the text from the date on and the text after it.
pub fn read_front(text: &str) -> Option<Led<'_>>
    ensures { IsFront (chars text.now) result }
{
    let begun = blanks(text);
    let (date, rest) = leading_date(begun)?;
    Some(Led {
        text: begun,
        date,
        sent: date.sent(),
        rest,
    })
}
