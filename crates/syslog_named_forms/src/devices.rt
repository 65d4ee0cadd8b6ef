//! Lines of devices that write more than a program's name between the host and the message.
//!
//! **Rule.** UniFi access points from version 6 on write address, model and version after their name (Ubiquiti, "Remote
//! syslog"): `U6-Pro 788a20a1b2c3,U6-Pro-6.5.28+14491: hostapd[1234]: text`. HPE's management boards name themselves
//! with their generation (iLO User Guide, "Remote Syslog"): `ilo7 #ILO 5: text`.
ghost use Rattle.std.specs.Prelude.{◌≡◌, chars, codes};
ghost use Rattle.syslog_text.specs.Pieces.Class.{Row, exactly, texted};
ghost use Rattle.syslog_text.specs.Pieces.View.{Reads, Recognises, shown};
ghost use Rattle.syslog_named_forms.specs.Devices as spec;
ghost use Rattle.syslog_named_forms.specs.Hosts.{TellsBehind};

use crate::hosts::{AfterHost, program_from};
use syslog_sent::named::{Named, Program, past, tagged};
use syslog_sent::skips::{colon, digits, gap};
use syslog_text::text::verbatim::before;
use syslog_text::text::{CharClass, blanks, first, split_run};

fn is_hex(c: char) -> bool
    ensures { result ≡ spec.is_hex c }
{
    c.is_ascii_digit() || (('A' <= c && c <= 'F') || ('a' <= c && c <= 'f'))
}

/// Returns whether twelve hexadecimal digits and a comma begin the text, as the address of an access point.
pub fn opens_address(text: &str) -> bool
    ensures { result ≡ spec.opens_address (chars text.now) }
{
    let mut rest = text;
    let mut seen = 0_u32;
    'characters: while let Some((c, more)) = first(rest) {
        if seen == 12 {
            return c == ',';
        }
        if !is_hex(c) {
            return false;
        }
        seen += 1;
        rest = more;
    }
    false
}

/// Returns the text after the address, the model and the version of an access point.
pub fn point_word(text: &str) -> Option<&str>
    ensures { Recognises spec.point_word (chars text.now) result }
{
    let (word, rest) = split_run(text, CharClass::Tag);
    opens_address(word).then_some(rest)
}

/// Reads a line of an access point after its name.
#[inline(always)]
pub(crate) fn addressed<'a>(after_host: Option<AfterHost<'a>>) -> Option<Named<'a>>
    ensures { TellsBehind spec.addressed_row spec.addressed_of after_host.entry result }
{
    let host = after_host?;
    let at_program = point_word(host.text).and_then(colon).and_then(gap);
    program_from(host.hostname, at_program)
}

fn board(text: &str) -> Option<&str>
    ensures { Recognises (exactly (codes "#ILO ")) (chars text.now) result }
{
    past(text, "#ILO ")
}

// Returns the text after the name of a management board.
fn title_end(text: &str) -> Option<&str>
    ensures { Recognises (Row spec.title_row) (chars text.now) result }
{
    board(text).and_then(digits)
}

// Returns that name, and the text after it.
fn title(text: &str) -> Option<(&str, &str)>
    ensures { Reads (texted (Row spec.title_row)) (λ t. shown t) (chars text.now) result }
{
    let rest = title_end(text)?;
    let name = before(text, rest);
    Some((name, rest))
}

/// Reads a line of a management board.
#[inline(always)]
pub(crate) fn titled<'a>(after_host: Option<AfterHost<'a>>) -> Option<Named<'a>>
    ensures { TellsBehind spec.titled_row spec.titled_of after_host.entry result }
{
    let host = after_host?;
    let (name, after_title) = title(host.text)?;
    let rest = colon(after_title)?;
    let program = Program {
        name,
        process: None,
    };
    Some(tagged(host.hostname, program, blanks(rest)))
}
