//! A relay that prints only what is read back unchanged, as a caller of this crate writes it. `CALLING.md` shows it.
ghost use Rattle.std.specs.Prelude.{◌≡◌, ⊤, None, Ok, Some, String, string_bytes};
ghost use Rattle.std.specs.Global.{Global as GlobalAllocator};
ghost use Rattle.std.specs.Str.{chars, encode_utf8_all};
ghost use Rattle.syslog_text.specs.Pieces.View.{shown};
ghost use Rattle.syslog_pieces.specs.Timestamp.Zone.{Dating, dating_of};
ghost use Rattle.syslog_loose.specs.Canonical.{IsCanonical};
ghost use Rattle.syslog_loose.specs.Message.{message_value};
ghost use Rattle.syslog_loose.specs.Printed.{printed};
ghost use Rattle.syslog_loose.specs.Reading.{IsRead, OnReading, dash_rule};
ghost use Rattle.syslog_loose.specs.declared.variant.Variant.TheVariants.{Either};
ghost use Rattle.syslog_tests.specs.declared.tests.callers.relay.Sent.TheVariants.{AsItCame, Printed};

use crate::tests::checks::{check, check_same};
use std::alloc::{AllocError, Global};
use std::process::Abort;
use syslog_loose::{
    IncompleteDate, Message, ParseFault, TimeZone, Variant, parse_message_with_year_exact_tz,
};

/// What is sent for a line.
#[derive(Debug, Drop)]
enum Sent {
    /// Its message, printed anew.
    Printed(String),
    /// The line itself.
    AsItCame,
}

// The message printed anew, where it is canonical.
fn printed_anew(alloc: Global, message: &Message<&str>) -> Result<Sent, AllocError>
    ensures prints { (text : String GlobalAllocator) → result ≡ Ok (Printed text)
        → IsCanonical dash_rule (message_value (λ s. shown s) message.now)
        × (string_bytes text ≡ encode_utf8_all (printed (message_value (λ s. shown s) message.now))) }
    ensures keeps { result ≡ Ok AsItCame → IsCanonical dash_rule (message_value (λ s. shown s) message.now) → ⊥ }
{
    if !message.is_canonical() {
        return Ok(Sent::AsItCame);
    }
    let text = message.to_string(alloc)?;
    Ok(Sent::Printed(text))
}

/// Returns what is sent for the line: the printed text of its message, or the line as it came. A printed text is read
/// as the very message of the line, in any year and any zone. A line is sent as it came if it is no message, or if
/// printing would change it. It fails only if an allocation does.
fn relay(alloc: Global, line: &str, year: i32, local: &TimeZone<'_>) -> Result<Sent, AllocError>
    ensures prints { (text : String GlobalAllocator) → result ≡ Ok (Printed text)
        → OnReading Either (dating_of (Some year) None local.entry) (chars line.now) ⊥ (λ m.
        (string_bytes text ≡ encode_utf8_all (printed m))
        × ((receiver : Dating) → IsRead Either receiver (printed m) m)) }
    ensures keeps { result ≡ Ok AsItCame → OnReading Either (dating_of (Some year) None local.entry) (chars line.now) ⊤
        (λ m. IsCanonical dash_rule m → ⊥) }
{
    let get_year = move |_: IncompleteDate| -> i32
        ensures { result ≡ year }
    { year };
    match parse_message_with_year_exact_tz(alloc, line, get_year, None, Variant::Either, local) {
        Ok(message) => printed_anew(alloc, &message),
        Err(ParseFault::Invalid) => Ok(Sent::AsItCame),
        Err(ParseFault::Memory) => Err(AllocError),
    }
}

// What is printed of the line, or nothing where it is sent as it came.
fn check_sent(rt: &impl Abort, alloc: Global, line: &str, printed: Option<&str>) {
    let sent = relay(alloc, line, 2019, &TimeZone::UTC).expect(rt, line);
    match (sent, printed) {
        (Sent::Printed(text), Some(want)) => check_same(rt, text.as_str(), want, line),
        (Sent::AsItCame, None) => {}
        _ => check(rt, false, line),
    }
}

#[test]
fn relays_lines(rt: HostRuntime) {
    for (line, printed) in &[
        (
            "<34>1 2003-10-11T22:14:15.003Z h su - ID47 - message",
            Some("<34>1 2003-10-11T22:14:15.003+00:00 h su - ID47 - message"),
        ),
        ("<34>- h app[323]:  hi", Some("<34> - h app[323]: hi")),
        // Printed, these are read as other messages.
        ("<34>- app[x:y]: hi", None),
        ("<34>- zork:: hi", None),
        // This has no facility.
        ("1 - - - - - - hi", None),
        ("gobbledegook", None),
    ] {
        check_sent(&rt, rt.alloc(), line, *printed);
    }
}
