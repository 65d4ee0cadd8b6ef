//! Lines of OpenWrt's `logread`: `Mon Mar  2 06:33:04 2026 daemon.info dnsmasq[1234]: text`.
//!
//! **Rule.** They have no host. The facility and the severity before the program are left out (ubox, `log/logread.c`).
ghost use Rattle.std.specs.Prelude.{chars};
ghost use Rattle.syslog_sent.specs.Sent.{Sends};
ghost use Rattle.syslog_dated_forms.specs.OpenWrt as spec;

use syslog_sent::date::{any_date, weekday};
use syslog_sent::named::read_program;
use syslog_sent::selector::selector;
use syslog_sent::sent::Sent;
use syslog_sent::skips::gap;
use syslog_text::text::blanks;

/// Returns what a line of `logread` says.
pub(crate) fn read_logread(text: &str) -> Option<Sent<'_>>
    ensures { Sends spec.logread_form (chars text.now) result }
{
    let (date, after_date) = weekday(blanks(text)).and_then(gap).and_then(any_date)?;
    let (program, after_program) = gap(after_date)
        .and_then(selector)
        .and_then(gap)
        .and_then(read_program)?;
    Some(Sent {
        version: None,
        date: Some(date),
        hostname: None,
        appname: Some(program.name),
        process: program.process,
        msgid: None,
        msg: blanks(after_program),
    })
}
