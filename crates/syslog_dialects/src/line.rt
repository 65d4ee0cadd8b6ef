//! The line that says what a sender said. Its timestamp is that of the date, in the year and the zone of dates
//! that show none.
ghost use Rattle.std.specs.Prelude.{◌<ℤ◌, ℤ, pos, IfSome, MatchOption};
ghost use Rattle.syslog_pieces.specs.Timestamp.{IsAnswer, stamp_seen};
ghost use Rattle.syslog_loose.specs.Line.{KnowsForm};
ghost use Rattle.syslog_sent.specs.Sent.{sent_value};
ghost use Rattle.syslog_dialects.specs.SentLine.{HasNoStamp, HasStamp, IsLineSent, IsSentStamp, IsSentYear};

use jiff::tz::Offset;
use syslog_loose::{ClockStamp, Dates, ElementList, Line};
use syslog_pieces::timestamp::zone::civil_stamp;
use syslog_pieces::timestamp::{CivilFields, MonthDate, clock_stamp};
use syslog_sent::sent::{Sent, SentDate};

// Returns the year that the date shows, or otherwise that of `dates`; none if no calendar has it.
fn year_of(date: MonthDate, dates: &Dates) -> Option<i32>
    ensures { MatchOption result ((year : ℤ) → IsSentYear dates.now date year → pos 9999 <ℤ year)
        (λ year. IsSentYear dates.now date year) }
{
    match date.year {
        Some(shown) => i32::try_from(shown).ok(),
        None => Some(dates.year_of((date.month, date.day, date.hour, date.minute, date.second))),
    }
}

// Returns the timestamp of the date, on a clock at its own offset or otherwise in the zone of `dates`.
fn stamp_of(sent: SentDate, dates: &Dates) -> Option<ClockStamp>
    ensures { IsAnswer (IsSentStamp dates.now sent) result }
{
    let date = sent.date;
    let fields = CivilFields {
        year: year_of(date, dates)?,
        month: date.month,
        day: date.day,
        hour: date.hour,
        minute: date.minute,
        second: date.second,
        nanosecond: sent.nanosecond,
    };
    match sent.offset {
        Some(seconds) => clock_stamp(fields, Offset::from_seconds(seconds).ok()?),
        None => civil_stamp(fields, None, &dates.zone),
    }
}

// Returns the timestamp of a date that may be absent; none if there is no such date.
fn optional_stamp(date: Option<SentDate>, dates: &Dates) -> Option<Option<ClockStamp>>
    ensures { MatchOption result (HasNoStamp dates.now date) (λ stamp. HasStamp dates.now date (stamp_seen stamp)) }
{
    match date {
        Some(date) => Some(Some(stamp_of(date, dates)?)),
        None => Some(None),
    }
}

/// Returns the line that says this, with a priority or without; none if there is no such date.
pub(crate) fn line_of<'a>(priority: Option<u8>, sent: &Sent<'a>, dates: &Dates) -> Option<Line<'a>>
    ensures line { MatchOption result (HasNoStamp dates.now (sent_value sent.now).date)
        (λ line. IsLineSent dates.now priority (sent_value sent.now) line) }
    ensures form { IfSome result KnowsForm }
{
    let timestamp = optional_stamp(sent.date, dates)?;
    Some(Line {
        version: sent.version,
        priority,
        timestamp,
        hostname: sent.hostname,
        appname: sent.appname,
        process: sent.process,
        msgid: sent.msgid,
        list: ElementList::none(),
        msg: sent.msg,
        rest: sent.msg,
        is_printed: false,
    })
}
