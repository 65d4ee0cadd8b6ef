//! Lines of Cisco's systems as a collector files them: `Mar  2 06:33:04 10.1.1.1 45: Mar  2 06:33:03:
//! %SEC-6-IPACCESSLOGP: text`.
//!
//! **Rule.** The date of the message is the device's own. The host is what the device calls itself, or otherwise what
//! the collector calls it. (rsyslog and syslog-ng write their date and the sender before the message as it came.)
ghost use Rattle.std.specs.Prelude.{◌≡◌, MatchOption, chars};
ghost use Rattle.syslog_text.specs.Pieces.Class.{Front, NoFront, Row, Text, run};
ghost use Rattle.syslog_text.specs.Text.{is_blank};
ghost use Rattle.syslog_text.specs.Pieces.View.{shown};
ghost use Rattle.syslog_sent.specs.Date.{any_date as date_class};
ghost use Rattle.syslog_dated_forms.specs.CiscoViews.{cisco_values};
ghost use Rattle.syslog_sent.specs.Forms.{Finds};
ghost use Rattle.syslog_sent.specs.Sent.{sent_value};
ghost use Rattle.syslog_dated_forms.specs.Filed as spec;

use crate::cisco::{Cisco, dated_in, origin, shown_line};
use syslog_sent::dialect::Dialect;
use syslog_sent::sent::{Sent, SentDate};
use syslog_sent::skips::gap;

/// What a collector writes before the line of a device, and that line.
#[derive(Clone, Copy)]
pub(crate) struct Filed<'a> {
    pub(crate) date: SentDate,
    pub(crate) device: &'a str,
    pub(crate) line: &'a str,
}

/// Reads what a collector writes before the line of a device, after this date.
pub(crate) fn past_front(date: SentDate, rest: &str) -> Option<Filed<'_>>
    ensures { (text at : Text) → Front (run is_blank) text at tt → Front date_class at (chars rest.now) date
        → MatchOption result (NoFront (Row spec.filed_front) text) (λ x. Front (Row spec.filed_front)
        text (shown x.line) (tt, (x.date, (tt, (shown x.device, (tt, tt)))))) }
{
    let before_device = gap(rest)?;
    let (device, after_device) = origin(before_device)?;
    let line = gap(after_device)?;
    Some(Filed { date, device, line })
}

// Returns what the line of a device says, which the collector calls `device`.
fn sent<'a>(line: &Cisco<'a>, device: &'a str) -> Sent<'a>
    ensures { sent_value result ≡ spec.filed_sent (shown device.entry) (cisco_values line.now) }
{
    let host = match line.first_host {
        Some(host) => Some(host),
        None => line.second_host,
    };
    Sent {
        version: None,
        date: Some(dated_in(line.year, line.date)),
        hostname: match host {
            Some(host) => Some(host),
            None => Some(device),
        },
        appname: Some(line.tag),
        process: None,
        msgid: None,
        msg: line.msg,
    }
}

/// Returns the system of a filed line, and what the line says, which begins with this date, and has `rest` after it.
pub(crate) fn read_filed(date: SentDate, rest: &str) -> Option<(Dialect, Sent<'_>)>
    ensures { (text at : Text) → Front (run is_blank) text at tt → Front date_class at (chars rest.now) date
        → Finds spec.filed_forms text result }
{
    let front = past_front(date, rest)?;
    let line = shown_line(front.line)?;
    let sent = sent(&line, front.device);
    if line.is_asa() {
        return Some((Dialect::CiscoAsa, sent));
    }
    if line.is_nx_os() {
        return Some((Dialect::CiscoNxOs, sent));
    }
    Some((Dialect::CiscoIos, sent))
}
