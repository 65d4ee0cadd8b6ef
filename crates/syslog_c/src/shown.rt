//! What a line shows of its date: whether a year, and whether an offset.
ghost use Rattle.std.specs.Prelude.{◌≡◌, None, Option, false};
ghost use Rattle.syslog_text.specs.Pieces.Class.{Text};
ghost use Rattle.syslog_pieces.specs.declared.timestamp.OffsetTimestamp.{OffsetTimestamp};
ghost use Rattle.syslog_loose.specs.DateForm.{HasDateForm, ShowsNoDate};
ghost use Rattle.syslog_c.specs.Fields.{IsStamp};
ghost use Rattle.syslog_c.specs.Shown.{IsShown, flag_number, offset_flag, year_flag};

use crate::fields::Stamp;
use syslog_loose::DateForm;

/// Adds to the timestamp of a line that the port reads by this protocol what its text shows of it: a date of this form.
/// No line of RFC 5424 has a month date. (The compiler makes its test once, and keeps no form for such a line.)
#[inline(always)]
pub(crate) fn show(form: DateForm, protocol: u32, stamp: &mut Stamp)
    ensures { (text : Text) → HasDateForm text form → (at : Option OffsetTimestamp) → IsStamp stamp.old at
        → (protocol ≡ 5424 → ShowsNoDate text) → IsStamp stamp.new at × IsShown text stamp.new }
{
    if protocol == 5424 {
        stamp.shows_year = stamp.present;
        stamp.shows_offset = stamp.present;
        return;
    }
    if stamp.present == 0 {
        return;
    }
    let (shows_year, shows_offset) = flags(form);
    stamp.shows_year = shows_year;
    stamp.shows_offset = shows_offset;
}

// Returns the two flags of a date of this form.
fn flags(form: DateForm) -> (u32, u32)
    ensures { (result.0 ≡ year_flag form) × (result.1 ≡ offset_flag form) }
{
    match form {
        DateForm::Yearless => (0, 0),
        DateForm::Dated => (1, 0),
        DateForm::Whole => (1, 1),
    }
}

/// Returns the timestamp of a line with these flags.
#[inline(always)]
pub(crate) fn with_flags(stamp: Stamp, shows_year: bool, shows_offset: bool) -> Stamp
    ensures stamp { (at : Option OffsetTimestamp) → (at ≡ None → (shows_year ≡ false) × (shows_offset ≡ false))
        → IsStamp stamp at → IsStamp result at }
    ensures flags { (result.shows_year ≡ flag_number shows_year) × (result.shows_offset ≡ flag_number shows_offset) }
{
    Stamp {
        shows_year: u32::from(shows_year),
        shows_offset: u32::from(shows_offset),
        ..stamp
    }
}
