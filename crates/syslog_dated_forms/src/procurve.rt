//! Lines of HP's ProCurve and ArubaOS-Switch: `Mar  2 06:33:04 10.0.0.5 00076 ports: port 1 is now on-line`.
//!
//! **Rule.** The number of the event, which is before the module, names no program: the module does, and it begins
//! with a letter. (HP, "Event log
//! message reference": severity, date, event number, system module.)
ghost use Rattle.std.specs.Prelude.{MatchBool, chars};
ghost use Rattle.syslog_text.specs.Pieces.Class.{Text};
ghost use Rattle.syslog_text.specs.Pieces.View.{Reads, seen, shown};
ghost use Rattle.syslog_sent.specs.Led.{IsLed};
ghost use Rattle.syslog_sent.specs.Sent.{Sends};
ghost use Rattle.syslog_dated_forms.specs.ProCurve as spec;

use crate::cisco::is_host;
use crate::readers::word_if;
use syslog_sent::led::Led;
use syslog_sent::named::is_letter;
use syslog_sent::sent::Sent;
use syslog_sent::skips::{colon, digits, gap};
use syslog_text::text::{blanks, host};

// Returns the name of a module at the front, and the text after it.
#[tactic(auto, using(crate::proofs::ReaderLemmas::such_word))]
fn system_module(text: &str) -> Option<(&str, &str)>
    ensures { Reads spec.system_module (λ word. shown word) (chars text.now) result }
{
    word_if(text, is_letter)
}

fn is_switch(name: Option<&str>) -> bool
    ensures { MatchBool result (spec.IsSwitch (seen name.entry)) (spec.IsSwitch (seen name.entry) → ⊥) }
{
    match name {
        Some(word) => is_host(word),
        None => false,
    }
}

// Returns the name or the address of a switch at the front, and the text after it.
fn switch(text: &str) -> Option<(Option<&str>, &str)>
    ensures { Reads spec.switch (λ name. seen name) (chars text.now) result }
{
    let (name, rest) = host(text)?;
    if !is_switch(name) {
        return None;
    }
    Some((name, rest))
}

/// Returns what a line of ProCurve says, which begins with this date.
pub(crate) fn read_procurve<'a>(led: &Led<'a>) -> Option<Sent<'a>>
    ensures { (text : Text) → IsLed text led.now → Sends spec.procurve_form text result }
{
    let (hostname, after_host) = gap(led.rest).and_then(switch)?;
    let (app, after_module) = gap(after_host)
        .and_then(digits)
        .and_then(gap)
        .and_then(system_module)?;
    let after_colon = colon(after_module)?;
    Some(Sent {
        version: None,
        date: Some(led.sent),
        hostname,
        appname: Some(app),
        process: None,
        msgid: None,
        msg: blanks(after_colon),
    })
}
