//! The parts of a printed message. Each field is written after a space, and as `-` if it is absent.
ghost use Rattle.std.specs.Prelude.{◌≡◌, ◌∷◌};
ghost use Rattle.syslog_loose.specs.Words.{WritesOnOk, option_map, map, encode_utf8_all, text_of, procid_value};
ghost use Rattle.syslog_loose.specs.{Bodies.Cases.printed_number, Words.element_value};
ghost use Rattle.syslog_loose.specs.Printed as spec;

use super::priority;
use std::fmt;
use std::fmt::Display;
use syslog_elements::structured_data::StructuredElement;
use syslog_pieces::pri::parts;
use syslog_pieces::procid::ProcId;
use syslog_pieces::timestamp::OffsetTimestamp;
use syslog_text::as_str::AsStr;

/// Returns the priority that is printed for the priority of a line, which may be absent or above 191.
#[inline(always)]
pub(crate) fn printed_priority(number: Option<u8>) -> u32
    ensures { result ≡ printed_number number }
{
    let (facility, severity) = parts(number);
    priority(facility, severity)
}

/// Writes a space and a name, or `-` for an absent one.
#[inline(always)]
#[tactic(auto, using(crate::proofs::Names::put_two, crate::proofs::Names::encodes_shown))]
pub(crate) fn write_name<S: AsStr, W: fmt::Write>(
    f: &mut fmt::Formatter<W>,
    name: &Option<S>,
) -> fmt::Result
    ensures { WritesOnOk W.write_str_gives f.old result
        (32 ∷ encode_utf8_all (spec.name_text (option_map (text_of S.text) name.now))) f.new }
{
    match name {
        Some(name) => {
            let name = name.as_str();
            f.write_str(" ")?;
            f.write_str(name)
        }
        None => f.write_str(" -"),
    }
}

/// Writes a space and a timestamp, or `-` for an absent one.
#[inline]
#[tactic(auto, using(crate::proofs::PrintedLemmas::put_encoded))]
pub(crate) fn write_timestamp<W: fmt::Write>(
    f: &mut fmt::Formatter<W>,
    timestamp: Option<OffsetTimestamp>,
) -> fmt::Result
    ensures { WritesOnOk W.write_str_gives f.old result (32 ∷ encode_utf8_all (spec.timestamp_text timestamp)) f.new }
{
    match timestamp {
        Some(stamp) => {
            f.write_str(" ")?;
            stamp.fmt(f)
        }
        None => f.write_str(" -"),
    }
}

/// Writes a space and a process id, or `-` for an absent one.
#[inline]
pub(crate) fn write_process<S: AsStr, W: fmt::Write>(
    f: &mut fmt::Formatter<W>,
    process: &Option<ProcId<S>>,
) -> fmt::Result
    ensures { WritesOnOk W.write_str_gives f.old result
        (32 ∷ encode_utf8_all (spec.process_text (option_map (procid_value (text_of S.text)) process.now))) f.new }
{
    match process {
        Some(process) => {
            f.write_str(" ")?;
            process.fmt(f)
        }
        None => f.write_str(" -"),
    }
}

/// Writes a space and the elements one after the other, or `-` if there are none.
#[inline]
pub(crate) fn write_elements<S: AsStr, W: fmt::Write>(
    f: &mut fmt::Formatter<W>,
    elements: &[StructuredElement<S>],
) -> fmt::Result
    ensures { WritesOnOk W.write_str_gives f.old result
        (32 ∷ encode_utf8_all (spec.elements_text (map (element_value (text_of S.text)) elements.now))) f.new }
{
    if elements.is_empty() {
        return f.write_str(" -");
    }
    f.write_str(" ")?;
    write_joined(f, elements)
}

// Writes the elements one after the other.
#[inline]
fn write_joined<S: AsStr, W: fmt::Write>(
    f: &mut fmt::Formatter<W>,
    elements: &[StructuredElement<S>],
) -> fmt::Result
    ensures { WritesOnOk W.write_str_gives f.old result
        (encode_utf8_all (spec.joined_elements (map (element_value (text_of S.text)) elements.now))) f.new }
{
    for element in elements {
        element.fmt(f)?;
    }
    Ok(())
}

/// Writes the elements and a space after them, or nothing if there are none.
#[tactic(auto, using(crate::proofs::PrintedLemmas::put_spaced))]
pub(crate) fn write_elements_before<S: AsStr, W: fmt::Write>(
    f: &mut fmt::Formatter<W>,
    elements: &[StructuredElement<S>],
) -> fmt::Result
    ensures { WritesOnOk W.write_str_gives f.old result
        (encode_utf8_all (spec.spaced_elements (map (element_value (text_of S.text)) elements.now))) f.new }
{
    if elements.is_empty() {
        return Ok(());
    }
    write_joined(f, elements)?;
    f.write_str(" ")
}

/// Writes a space, the app name and the process id as RFC 3164 does, and what ends them.
#[tactic(auto, using(crate::proofs::PrintedLemmas::put_encoded), unfolding(crate::proofs::Names::encode_utf8))]
pub(crate) fn write_tag<S: AsStr, W: fmt::Write>(
    f: &mut fmt::Formatter<W>,
    app: &Option<S>,
    process: &Option<ProcId<S>>,
) -> fmt::Result
    ensures { WritesOnOk W.write_str_gives f.old result
        (32 ∷ encode_utf8_all (spec.tag_text (option_map (text_of S.text) app.now)
        (option_map (procid_value (text_of S.text)) process.now))) f.new }
{
    let Some(app) = app else {
        return f.write_str(" : ");
    };
    let app = app.as_str();
    match process {
        Some(process) => write!(f, " {app}[{process}]: "),
        None => write!(f, " {app}: "),
    }
}
