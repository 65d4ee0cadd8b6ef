//! The dialects whose date alone differs from what the port reads.
//!
//! **Rule.** What follows the date is read as the port reads it. These senders write such lines:
//!
//! - Junos, Huawei and `journalctl -o short-precise`: `Mar  2 06:33:04.123 mx1 rpd[123]: text`, `Mar  2 2026
//!   06:33:04+08:00 h ..`
//! - H3C and ArubaOS: `Mar  2 06:33:04 2026 h app: text`
//! - `journalctl -o short-iso`, Huawei and log4j: `2026-03-02T06:33:04+0100 h app[1]: text`, `2026-03-02 06:33:04,123 h
//!   ..`
//! - programs that write dates by `ctime`: `Mon Mar  2 06:33:04 2026 h app: text`; a message may begin with a bracket
//!   at once, as Apache's `[info] text`
//! - the log files of NX-OS: `2026 Mar  2 06:33:04 h app: text`
//! - `journalctl -o short-full`: `Mon 2026-03-02 06:33:04 CET h app[1]: text`
ghost use Rattle.std.specs.Prelude.{◌≡◌, chars, true};
ghost use Rattle.syslog_text.specs.Pieces.Class.{Front, Row, Text, run};
ghost use Rattle.syslog_text.specs.Pieces.View.{Reads};
ghost use Rattle.syslog_text.specs.Text.{is_blank};
ghost use Rattle.syslog_sent.specs.Date.{bsd_row as date_row, iso_date as date_class};
ghost use Rattle.syslog_sent.specs.DateViews.{bsd_values};
ghost use Rattle.syslog_sent.specs.Sent.{Sends, sent_value};
ghost use Rattle.syslog_dated_forms.specs.TailViews.{tail_value};
ghost use Rattle.syslog_dated_forms.specs.Dated as spec;

use crate::cisco::{dated_in, front_year};
use crate::tail::{Tail, read_wide_tail};
use syslog_pieces::timestamp::header_stamp;
use syslog_sent::date::{BsdDate, any_date, bsd_date, iso_date, weekday};
use syslog_sent::sent::{Sent, SentDate};
use syslog_sent::skips::{bracket, gap};
use syslog_text::text::blanks;

/// Returns what a line says that has this date and this text after it.
pub(crate) fn says<'a>(date: SentDate, tail: Tail<'a>) -> Sent<'a>
    ensures { sent_value result ≡ spec.dated_sent date (tail_value tail.entry) }
{
    Sent {
        version: None,
        date: Some(date),
        hostname: tail.hostname,
        appname: tail.appname,
        process: tail.process,
        msgid: None,
        msg: tail.msg,
    }
}

/// Returns what a line says that begins with this month date; none if no fraction, zone or year follows it.
pub(crate) fn read_bsd(date: BsdDate, rest: &str) -> Option<Sent<'_>>
    ensures { (text at : Text) → Front (run is_blank) text at tt
        → Front (Row date_row) at (chars rest.now) (bsd_values date) → Sends spec.bsd_form text result }
{
    if date.is_plain() {
        return None;
    }
    Some(says(date.sent(), read_wide_tail(rest)))
}

/// Returns what a line says that begins with this date, which is nearly one of RFC 3339.
pub(crate) fn read_iso<'a>(begun: &'a str, date: SentDate, rest: &'a str) -> Option<Sent<'a>>
    ensures { (text : Text) → Front (run is_blank) text (chars begun.entry.now) tt
        → Front date_class (chars begun.entry.now) (chars rest.entry.now) date → Sends spec.iso_form text result }
{
    if let Some(_) = header_stamp(begun) {
        return None;
    }
    Some(says(date, read_wide_tail(rest)))
}

/// Returns what a line says whose date follows the day of the week.
pub(crate) fn read_journal(text: &str) -> Option<Sent<'_>>
    ensures { Sends spec.journal_form (chars text.now) result }
{
    let (date, rest) = weekday(blanks(text)).and_then(gap).and_then(iso_date)?;
    Some(says(date, read_wide_tail(rest)))
}

/// Returns what a line says whose month date follows the day of the week.
pub(crate) fn read_ctime(text: &str) -> Option<Sent<'_>>
    ensures { Sends spec.ctime_form (chars text.now) result }
{
    let (date, rest) = weekday(blanks(text)).and_then(gap).and_then(bsd_date)?;
    Some(says(date, read_wide_tail(rest)))
}

/// Returns what a line says whose message begins with a bracket after such a date.
pub(crate) fn read_ctime_message(text: &str) -> Option<Sent<'_>>
    ensures { Sends spec.ctime_message_form (chars text.now) result }
{
    let (date, after_date) = weekday(blanks(text)).and_then(gap).and_then(bsd_date)?;
    let msg = gap(after_date)?;
    let _ = bracket(msg)?;
    Some(Sent {
        version: None,
        date: Some(date),
        hostname: None,
        appname: None,
        process: None,
        msgid: None,
        msg,
    })
}

// Returns a date after its year, and the text after it.
fn year_date(text: &str) -> Option<(SentDate, &str)>
    ensures { Reads spec.year_date (λ d. d) (chars text.now) result }
{
    let (year, at_date) = front_year(text)?;
    let (date, rest) = any_date(at_date)?;
    Some((dated_in(Some(year), date), rest))
}

/// Returns what a line says that begins with such a date.
pub(crate) fn read_year(text: &str) -> Option<Sent<'_>>
    ensures { Sends spec.year_form (chars text.now) result }
{
    let (date, rest) = year_date(blanks(text))?;
    Some(says(date, read_wide_tail(rest)))
}
