//! The forms that are recognised by their date, in the order in which they are tried.
ghost use Rattle.std.specs.Prelude.{◌≡◌, ◌++◌, MatchOption, None, Some, chars, false};
ghost use Rattle.syslog_text.specs.Pieces.Class.{Each, Front, NoFront, Row, Text, run};
ghost use Rattle.syslog_text.specs.Text.{is_blank};
ghost use Rattle.syslog_dated_forms.specs.Cisco.{cisco_forms, is_unmarked};
ghost use Rattle.syslog_dated_forms.specs.Container.{container_form};
ghost use Rattle.syslog_sent.specs.Date.{bsd_row, iso_date};
ghost use Rattle.syslog_sent.specs.DateViews.{bsd_values};
ghost use Rattle.syslog_sent.specs.Forms.{Finds};
ghost use Rattle.syslog_dated_forms.specs.Esxi.{esxi_form};
ghost use Rattle.syslog_dated_forms.specs.Filed.{filed_forms};
ghost use Rattle.syslog_dated_forms.specs.Kiwi.{kiwi_form};
ghost use Rattle.syslog_sent.specs.Led.{IsLed, IsUnled};
ghost use Rattle.syslog_sent.specs.Sent.{Sends};
ghost use Rattle.syslog_dated_forms.specs.DatedForms as spec;

use crate::cisco;
use crate::cisco::read_cisco;
use crate::container::read_container;
use crate::dated::{read_bsd, read_ctime, read_ctime_message, read_iso, read_journal, read_year};
use crate::esxi::read_esxi;
use crate::filed::read_filed;
use crate::in_brackets::read_in_brackets;
use crate::ios_xr::read_ios_xr;
use crate::kiwi::read_kiwi;
use crate::netscaler::{read_netscaler, read_unnamed};
use crate::open_wrt::read_logread;
use crate::procurve::read_procurve;
use crate::sophos_utm::read_utm;
use crate::ucm::read_ucm;
use crate::undated::{read_timed, read_undated};
use crate::unix_seconds::{read_meraki, read_short, read_typed};
use memchr::memchr2;
use syslog_sent::date::BsdDate;
use syslog_sent::dialect::Dialect;
use syslog_sent::led::{LeadingDate, Led};
use syslog_sent::sent::{Sent, SentDate};

// Where nothing was found, finds what the reader of the next form says. It is found in place, since it is moved through
// memory otherwise.
#[inline(always)]
fn or_in<'a, T: Copy, F: FnOnce(T) -> Option<Sent<'a>>>(
    found: &mut Option<(Dialect, Sent<'a>)>,
    from: T,
    dialect: Dialect,
    read: F,
)
    requires { F.pre read from }
    ensures { MatchOption found.old ((sent : _) × F.post read from sent
        × MatchOption sent (found.new ≡ None) (λ s. found.new ≡ Some (dialect, s))) (λ x. found.new ≡ Some x) }
{
    if found.is_some() {
        return;
    }
    if let Some(sent) = read(from) {
        *found = Some((dialect, sent));
    }
}

// Tries the forms that need not begin with a date on a text that begins with none.
fn from_unled(text: &str) -> Option<(Dialect, Sent<'_>)>
    ensures { IsUnled (chars text.now) → Finds spec.xr_forms (chars text.now) result }
{
    let mut found = None;
    or_in(&mut found, text, Dialect::CiscoIosXr, read_ios_xr);
    or_in(&mut found, text, Dialect::Journal, read_journal);
    or_in(&mut found, text, Dialect::CiscoIos, read_ucm);
    or_in(&mut found, text, Dialect::NetScaler, read_unnamed);
    or_in(&mut found, text, Dialect::NetScaler, read_netscaler);
    or_in(&mut found, text, Dialect::SophosUtm, read_utm);
    or_in(&mut found, text, Dialect::SeverityFirst, read_logread);
    or_in(&mut found, text, Dialect::Bracketed, read_ctime_message);
    or_in(&mut found, text, Dialect::BsdDate, read_ctime);
    or_in(&mut found, text, Dialect::BsdDate, read_year);
    or_in(&mut found, text, Dialect::UnixSeconds, read_meraki);
    or_in(&mut found, text, Dialect::UnixSeconds, read_short);
    or_in(&mut found, text, Dialect::UnixSeconds, read_typed);
    or_in(&mut found, text, Dialect::CiscoUndated, read_undated);
    or_in(&mut found, text, Dialect::Bracketed, read_in_brackets);
    found
}

// Tries the forms that begin with a date on a text that begins with this one. No form with another beginning divides
// it.
fn from_led<'a>(led: &Led<'a>) -> Option<(Dialect, Sent<'a>)>
    ensures { (text : Text) → IsLed text led.now → Finds spec.xr_forms text result }
{
    let mut found = None;
    or_in(&mut found, led, Dialect::Container, read_container);
    or_in(&mut found, led, Dialect::Esxi, read_esxi);
    or_in(&mut found, led, Dialect::SeverityFirst, read_kiwi);
    or_in(&mut found, led, Dialect::ProCurve, read_procurve);
    found
}

// Returns what a filed line says that begins with this date.
fn filed_after<'a>(led: &Led<'a>) -> Option<(Dialect, Sent<'a>)>
    ensures { (text : Text) → IsLed text led.now → Finds (filed_forms ++ spec.timed_forms) text result }
{
    if let Some(found) = read_filed(led.sent, led.rest) {
        return Some(found);
    }
    from_timed(led)
}

// Returns what a line says that a collector files and that shows no date of the device.
fn from_timed<'a>(led: &Led<'a>) -> Option<(Dialect, Sent<'a>)>
    ensures { (text : Text) → IsLed text led.now → Finds spec.timed_forms text result }
{
    let sent = read_timed(led.sent, led.rest)?;
    Some((Dialect::CiscoUndated, sent))
}

// Whether the text has `%` or `#`. Each line of Cisco's with a date has one of them, and few other lines have.
fn is_marked(text: &str) -> bool
    ensures { (result ≡ false) → Each is_unmarked (chars text.now) }
{
    match memchr2(b'%', b'#', text.as_bytes()) {
        Some(_) => true,
        None => false,
    }
}

// Returns the system of a line of Cisco's that begins with this date, and what the line says, also where a collector
// files it.
fn of_cisco<'a>(text: &'a str, led: &Led<'a>) -> Option<(Dialect, Sent<'a>)>
    ensures { IsLed (chars text.entry.now) led.now → Finds spec.marked_forms (chars text.entry.now) result }
{
    if !is_marked(text) {
        return None;
    }
    if let Some(found) = cisco::read_led(text, led) {
        return Some(found);
    }
    filed_after(led)
}

// Returns the system of a line of Cisco's that begins with no date, and what the line says.
fn of_unled_cisco(text: &str) -> Option<(Dialect, Sent<'_>)>
    ensures { IsUnled (chars text.now) → Finds spec.marked_forms (chars text.now) result }
{
    if !is_marked(text) {
        return None;
    }
    read_cisco(text)
}

/// Returns the dialect that the text after a priority is in by this date, which begins it, and what the text says.
pub fn read_led<'a>(text: &'a str, led: &Led<'a>) -> Option<(Dialect, Sent<'a>)>
    ensures { IsLed (chars text.entry.now) led.now → Finds spec.all_dated (chars text.entry.now) result }
{
    if let Some(found) = of_cisco(text, led) {
        return Some(found);
    }
    from_led(led)
}

/// Returns the dialect that a text which begins with no date is in by its date, and what the text says.
pub fn read_unled(text: &str) -> Option<(Dialect, Sent<'_>)>
    ensures { IsUnled (chars text.now) → Finds spec.all_dated (chars text.now) result }
{
    if let Some(found) = of_unled_cisco(text) {
        return Some(found);
    }
    from_unled(text)
}

// Returns what a line says that has this month date and no form of its own after it.
fn after_month(date: BsdDate, rest: &str) -> Option<(Dialect, Sent<'_>)>
    ensures { (text at : Text) → Front (run is_blank) text at tt
        → Front (Row bsd_row) at (chars rest.now) (bsd_values date) → Finds spec.plain_forms text result }
{
    let sent = read_bsd(date, rest)?;
    Some((Dialect::BsdDate, sent))
}

// Returns what a line says that has this date, which is nearly one of RFC 3339, and no form of its own after it.
fn after_iso<'a>(begun: &'a str, date: SentDate, rest: &'a str) -> Option<(Dialect, Sent<'a>)>
    ensures { (text : Text) → Front (run is_blank) text (chars begun.entry.now) tt
        → NoFront (Row bsd_row) (chars begun.entry.now)
        → Front iso_date (chars begun.entry.now) (chars rest.entry.now) date → Finds spec.plain_forms text result }
{
    let sent = read_iso(begun, date, rest)?;
    Some((Dialect::NearlyRfc3339, sent))
}

/// Returns the dialect of a line that begins with this date and has no form of its own after it, and what the line
/// says.
pub fn read_plain<'a>(led: &Led<'a>) -> Option<(Dialect, Sent<'a>)>
    ensures { (text : Text) → IsLed text led.now → Finds spec.plain_forms text result }
{
    match led.date {
        LeadingDate::Month(date) => after_month(date, led.rest),
        LeadingDate::Iso(date) => after_iso(led.text, date, led.rest),
    }
}
