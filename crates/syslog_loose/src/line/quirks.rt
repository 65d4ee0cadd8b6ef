//! The quirks, tested on the fields of a line. What was read as RFC 3164 meets all else of the written condition but
//! for an absent facility and severity, so without a quirk its printed text is stable. The tests look at a few bytes.
ghost use Rattle.std.specs.Prelude.{◌≡◌, ◌≢◌, ◌↔◌};
ghost use Rattle.syslog_loose.specs.Words.{IfSome, IsTrue, MatchBool, option_map, seen, shown, procid_value};
ghost use Rattle.syslog_loose.specs.{Clauses.line_value, Clauses.dash_rule, Words.EndsInColon, Words.dash};
ghost use Rattle.syslog_loose.specs.Quirks as spec;

use super::Line;
use crate::message::begins_no_list;
use syslog_pieces::procid::ProcId;
use syslog_pieces::timestamp::canonical::is_canonical_clock;
use syslog_text::text::ends_in_colon;

/// Whether the line has no quirk.
pub(crate) fn has_no_quirk(line: &Line<'_>) -> bool
    ensures { IsTrue result ↔ spec.HasNoQuirk dash_rule (line_value line.now) }
{
    has_quiet_names(line) && begins_no_list(line.list.is_empty(), line.msg)
}

/// Whether the line has no quirk before its message part.
pub(crate) fn has_quiet_names(line: &Line<'_>) -> bool
    ensures { IsTrue result ↔ spec.HasNoNameQuirk (line_value line.now) }
{
    is_canonical_clock(line.timestamp)
        && has_no_odd_host(line.hostname)
        && is_uncut_process(line.process())
}

// Whether the host is neither `-`, which is printed for an absent one, nor ends in a colon, which would be taken for
// the one after the names.
#[tactic(auto, using(crate::proofs::CanonicalLemmas::odd_told, crate::proofs::CanonicalLemmas::no_odd_told))]
fn has_no_odd_host(host: Option<&str>) -> bool
    ensures { IsTrue result ↔ (IfSome (seen host.entry) (λ h. h ≢ dash)
        × IfSome (seen host.entry) (λ h. EndsInColon h → ⊥)) }
{
    match host {
        Some(name) => !ends_in_colon(name.as_bytes()) && is_no_dash(name),
        None => true,
    }
}

// Whether the bytes are not those of `-`. It is a function of its own, so that its caller rests on one fact about the
// text, and not on each arm of `matches!`.
#[inline(always)]
fn is_no_dash(name: &str) -> bool
    ensures { MatchBool result (name.now ≢ dash) (name.now ≡ dash) }
{
    !matches!(name.as_bytes(), [b'-'])
}

// Whether the process is a number, or a name without a colon, at which the name before it would be cut.
#[tactic(auto, using(crate::proofs::CanonicalLemmas::no_colon_told))]
fn is_uncut_process(process: Option<ProcId<&str>>) -> bool
    ensures { IsTrue result ↔ IfSome (option_map (procid_value (λ s. shown s)) process.entry) spec.HasNoColon }
{
    match process {
        Some(ProcId::Name(name)) => !name.contains(':'),
        _ => true,
    }
}
