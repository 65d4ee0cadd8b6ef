//! A normaliser of lines, as a caller of this crate writes it. `CALLING.md` names it.
ghost use Rattle.std.specs.Prelude.{◌≡◌, IfOk, None, Some, string_bytes};
ghost use Rattle.std.specs.Str.{chars, encode_utf8_all};
ghost use Rattle.syslog_pieces.specs.Timestamp.Zone.{dating_of};
ghost use Rattle.syslog_loose.specs.Message.{MessageValue};
ghost use Rattle.syslog_loose.specs.Printed.{printed};
ghost use Rattle.syslog_loose.specs.ReadBack.{IsFixed};
ghost use Rattle.syslog_loose.specs.Reading.{OnReading};
ghost use Rattle.syslog_loose.specs.declared.variant.Variant.TheVariants.{Either};

use crate::tests::checks::{cells, check_same};
use std::alloc::{AllocError, Global};
use std::process::Abort;
use syslog_loose::{IncompleteDate, ParseFault, TimeZone, Variant, normalise};

/// The line in printed form, and as it came where it is no message. A line that was printed of a message that is fixed
/// stays as it is. An `Err` is only for memory.
fn normal_line(
    alloc: Global,
    line: &str,
    year: i32,
    local: &TimeZone<'_>,
) -> Result<String, AllocError>
    ensures prints { IfOk result (λ text. OnReading Either (dating_of (Some year) None local.entry)
        (chars line.entry.now)
        (string_bytes text ≡ line.entry.now) (λ m. string_bytes text ≡ encode_utf8_all (printed m))) }
    ensures again { IfOk result (λ text. (m : MessageValue) → IsFixed m → chars line.entry.now ≡ printed m
        → string_bytes text ≡ line.entry.now) }
{
    let get_year = move |_: IncompleteDate| -> i32
        ensures { result ≡ year }
    { year };
    match normalise(alloc, line, get_year, None, Variant::Either, local) {
        Ok(text) => Ok(text),
        Err(ParseFault::Invalid) => String::from_str(alloc, line),
        Err(ParseFault::Memory) => Err(AllocError),
    }
}

fn check_line(rt: &impl Abort, alloc: Global, line: &str, want: &str) {
    let text = normal_line(alloc, line, 2019, &TimeZone::UTC).expect(rt, line);
    check_same(rt, text.as_str(), want, line);
}

// A row is a line and what becomes of it, which stays so.
#[test]
fn normalises_lines(rt: HostRuntime) {
    for row in &[
        "<34>1 2003-10-11T22:14:15.003Z mymachine.example.com su - ID47 - message\
         ¦<34>1 2003-10-11T22:14:15.003+00:00 mymachine.example.com su - ID47 - message",
        "<34>Oct 11 22:14:15 mymachine app[323]: a message\
         ¦<34> 2019-10-11T22:14:15+00:00 mymachine app[323]: a message",
        "gobbledegook¦gobbledegook",
    ] {
        let (line, want) = cells(&rt, row);
        check_line(&rt, rt.alloc(), line, want);
        check_line(&rt, rt.alloc(), want, want);
    }
}
