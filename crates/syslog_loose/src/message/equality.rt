//! Equality of messages: all fields but the protocol are compared. Nothing is allocated.
ghost use Rattle.std.specs.{Cmp.on_per, Cmp.partial_equiv_from_equiv, Prelude.◌≡◌};
ghost use Rattle.syslog_loose.specs.Words.{option_eq, option_map, text_eq, text_of, facility_eq, severity_eq, on};
ghost use Rattle.syslog_loose.specs.Clauses.{message_eq, message_equivalence, message_value};

use super::Message;
use syslog_pieces::pri::{SyslogFacility, SyslogSeverity};
use syslog_text::as_str::{AsStr, is_same_text};

impl<S: AsStr> PartialEq for Message<S> {
    ghost eq = { on (message_value (text_of S.text)) message_eq };

    ghost laws = { on_per (message_value (text_of S.text)) (partial_equiv_from_equiv message_equivalence) };

    #[tactic(auto, using(crate::proofs::CanonicalLemmas::mapped))]
    fn eq(&self, other: &Message<S>) -> bool {
        is_same_facility(self.facility, other.facility)
            && is_same_severity(self.severity, other.severity)
            && self.timestamp == other.timestamp
            && is_same_name(&self.hostname, &other.hostname)
            && is_same_name(&self.appname, &other.appname)
            && self.procid == other.procid
            && is_same_name(&self.msgid, &other.msgid)
            && self.structured_data == other.structured_data
            && is_same_text(&self.msg, &other.msg)
    }
}

// Whether two facilities are the same. It is a function of its own, so that its clause speaks of numbers, where that of
// the derived `==` speaks of places in the enum.
fn is_same_facility(a: Option<SyslogFacility>, b: Option<SyslogFacility>) -> bool
    ensures { result ≡ option_eq facility_eq a b }
{
    a == b
}

// Whether two severities are the same: a function of its own, so that its clause speaks of numbers.
fn is_same_severity(a: Option<SyslogSeverity>, b: Option<SyslogSeverity>) -> bool
    ensures { result ≡ option_eq severity_eq a b }
{
    a == b
}

fn is_same_name<S: AsStr>(a: &Option<S>, b: &Option<S>) -> bool
    ensures { result ≡ option_eq text_eq (option_map (text_of S.text) a.now) (option_map (text_of S.text) b.now) }
{
    match (a, b) {
        (Some(a), Some(b)) => is_same_text(a, b),
        (None, None) => true,
        (Some(_), None) => false,
        (None, Some(_)) => false,
    }
}
