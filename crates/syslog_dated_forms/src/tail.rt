//! What follows a date as the port reads it: a host field, a tag field, a colon, and the message.
//!
//! **Rule.** It is that of the port (`rfc3164` of `syslog_loose`). A tag of the form `tag[id]` is a program and its
//! process, and a lone word that is not of that form is the host. A list of elements is left in the message.
ghost use Rattle.std.specs.Prelude.{Option, chars, []};
ghost use Rattle.syslog_text.specs.Pieces.Class.{Front, optional};
ghost use Rattle.syslog_text.specs.Pieces.View.{Recognises, shown};
ghost use Rattle.syslog_dated_forms.specs.TailViews.{tail_value};
ghost use Rattle.syslog_dated_forms.specs.Tail as spec;

use crate::readers::past_any;
use syslog_loose::resolve;
use syslog_sent::zone::ends_word;
use syslog_text::text::{blanks, host_field, literal, past_colon, tag_field};

/// The names and the message that follow a date.
#[derive(Clone, Copy)]
pub(crate) struct Tail<'a> {
    pub(crate) hostname: Option<&'a str>,
    pub(crate) appname: Option<&'a str>,
    pub(crate) process: Option<&'a str>,
    pub(crate) msg: &'a str,
}

// Returns the names and the message of all that follows a date.
fn read_tail(text: &str) -> Tail<'_>
    ensures { Front spec.tail (chars text.now) [] (tail_value result) }
{
    let (host, after_host) = host_field(text);
    let (tag, after_tag) = tag_field(after_host);
    let msg = blanks(past_colon(blanks(after_tag)));
    let names = resolve::<Tail<'_>>(host, tag);
    Tail {
        hostname: names.hostname,
        appname: names.appname,
        process: names.process,
        msg,
    }
}

// Returns the text after a space that white space or a colon follows.
fn past_spare(text: &str) -> Option<&str>
    ensures { Recognises spec.spare (chars text.now) result }
{
    let rest = literal(text, ' ')?;
    if !ends_word(rest) {
        return None;
    }
    Some(rest)
}

/// Returns the names and the message of all that follows a date, after one space or two.
pub(crate) fn read_wide_tail(text: &str) -> Tail<'_>
    ensures { Front spec.wide_tail (chars text.now) [] (tail_value result) }
{
    read_tail(past_any(text, past_spare))
}
