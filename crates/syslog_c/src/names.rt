//! The names of facilities, severities and dialects, and the texts of outcomes.
ghost use Rattle.std.specs.Prelude.{◌≡◌, slice_get};
ghost use Rattle.std.specs.Option.{option_map};
ghost use Rattle.syslog_text.specs.Pieces.View.{seen};
ghost use Rattle.syslog_pieces.specs.Pri.{facilities, facility_name, severities, severity_name};
ghost use Rattle.syslog_c.specs.Fields.{IsOptionalText};
ghost use Rattle.syslog_c.specs.Names.{IsDialectName, outcome_texts};

use crate::convert::optional_text;
use crate::fields::Text;
use syslog_dialects::Dialect;
use syslog_loose::{SyslogFacility, SyslogSeverity};
use syslog_pieces::pri::decompose_pri;

/// Sets `name` to the name of the facility that has this number, as `auth`; to an absent text if none has.
#[unsafe(no_mangle)]
pub extern "C" fn syslog_facility_name(facility: u32, name: &mut Text<'static>)
    ensures { IsOptionalText name.new (option_map facility_name (slice_get facilities facility)) }
{
    *name = match facility_at(facility) {
        Some(facility) => optional_text(Some(facility.as_str())),
        None => optional_text(None),
    };
}

/// Sets `name` to the name of the severity that has this number, as `crit`; to an absent text if none has.
#[unsafe(no_mangle)]
pub extern "C" fn syslog_severity_name(severity: u32, name: &mut Text<'static>)
    ensures { IsOptionalText name.new (option_map severity_name (slice_get severities severity)) }
{
    *name = match severity_at(severity) {
        Some(severity) => optional_text(Some(severity.as_str())),
        None => optional_text(None),
    };
}

/// Sets `name` to the name of the dialect that has this number, as `cisco-ios`; to an absent text if none has.
#[unsafe(no_mangle)]
pub extern "C" fn syslog_dialect_name(dialect: u32, name: &mut Text<'static>)
    ensures { IsDialectName dialect name.new }
{
    *name = match Dialect::from_number(dialect) {
        Some(dialect) => optional_text(Some(dialect.name())),
        None => optional_text(None),
    };
}

/// Sets `text` to what the outcome with this number means, as `no message`; to an absent text if there is no such
/// outcome.
#[unsafe(no_mangle)]
pub extern "C" fn syslog_outcome_text(outcome: u32, text: &mut Text<'static>)
    ensures { IsOptionalText text.new (slice_get outcome_texts outcome) }
{
    *text = optional_text(outcome_text(outcome));
}

fn facility_at(number: u32) -> Option<SyslogFacility>
    ensures { result ≡ slice_get facilities number }
{
    if number >= 24 {
        return None;
    }
    // (a priority is eight times its facility, and its severity)
    decompose_pri(number as u8 * 8).0
}

fn severity_at(number: u32) -> Option<SyslogSeverity>
    ensures { result ≡ slice_get severities number }
{
    if number >= 8 {
        return None;
    }
    decompose_pri(number as u8).1
}

#[tactic(auto, unfolding(crate::proofs::TextLemmas::chars_of_literals))]
fn outcome_text(outcome: u32) -> Option<&'static str>
    ensures { seen result ≡ slice_get outcome_texts outcome }
{
    match outcome {
        0 => Some("done"),
        1 => Some("no message"),
        2 => Some("no UTF-8"),
        3 => Some("out of memory"),
        4 => Some("more room is needed"),
        5 => Some("an option is out of its range"),
        _ => None,
    }
}
