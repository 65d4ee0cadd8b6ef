//! Lines of the log files of Kiwi Syslog Server: `2026-03-02 06:33:04`, `Local7.Notice`, `192.0.2.9` and the text, with
//! tabs between them.
//!
//! **Rule.** Facility and severity follow the date, and then the host, each after a tab (SolarWinds, "Kiwi Syslog
//! Server": log file format ISO yyyy-mm-dd). The text is as it was received, less its priority.
ghost use Rattle.std.specs.Prelude.{◌∷◌, [], chars};
ghost use Rattle.syslog_text.specs.Pieces.Class.{Row, Text, exactly};
ghost use Rattle.syslog_text.specs.Pieces.View.{Recognises};
ghost use Rattle.syslog_sent.specs.Led.{IsLed};
ghost use Rattle.syslog_sent.specs.Sent.{Sends};
ghost use Rattle.syslog_dated_forms.specs.Kiwi as spec;

use crate::readers::iso;
use syslog_sent::led::Led;
use syslog_sent::sent::Sent;
use syslog_sent::skips::{dot, plain_word};
use syslog_text::text::{blanks, host, literal};

fn tab(text: &str) -> Option<&str>
    ensures { Recognises (exactly (9 ∷ [])) (chars text.now) result }
{
    literal(text, '\t')
}

// Returns the text after facility and severity, and the tabs around them.
fn level(text: &str) -> Option<&str>
    ensures { Recognises (Row spec.level_row) (chars text.now) result }
{
    tab(text)
        .and_then(plain_word)
        .and_then(dot)
        .and_then(plain_word)
        .and_then(tab)
}

/// Returns what a line of Kiwi's says, which begins with this date.
pub(crate) fn read_kiwi<'a>(led: &Led<'a>) -> Option<Sent<'a>>
    ensures { (text : Text) → IsLed text led.now → Sends spec.kiwi_form text result }
{
    let (date, rest) = iso(led)?;
    let at_host = level(rest)?;
    let (hostname, after_host) = host(at_host)?;
    let msg = tab(after_host)?;
    Some(Sent {
        version: None,
        date: Some(date),
        hostname,
        appname: None,
        process: None,
        msgid: None,
        msg: blanks(msg),
    })
}
