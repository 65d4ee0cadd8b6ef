//! Alert rules over structured data, as a caller of this crate writes them. `CALLING.md` names them.
ghost use Rattle.std.specs.Prelude.{◌≡◌, ◌↔◌, false, IfOk, IsTrue};
ghost use Rattle.std.specs.List.{AllByRecursion};
ghost use Rattle.std.specs.Str.{chars};
ghost use Rattle.syslog_text.specs.Pieces.View.{shown};
ghost use Rattle.syslog_elements.specs.StructuredData.Element.{element_value};
ghost use Rattle.syslog_elements.specs.StructuredData.Escapes.{IsUnescaped};

use crate::tests::checks::check;
use std::alloc::{AllocError, Global};
use syslog_loose::{StructuredElement, TimeZone, Variant, parse_message_with_year};
use syslog_text::as_str::is_same_text;

/// An element has this parameter.
#[derive(Clone, Copy)]
struct Rule<'a> {
    name: &'a str,
    /// Without escapes.
    value: &'a str,
}

fn is_named(name: &str, value: &str, rule: &Rule<'_>) -> bool
    ensures { IsTrue result ↔ ((chars name.now ≡ chars rule.now.name.now)
        × (chars value.now ≡ chars rule.now.value.now)) }
{
    if !is_same_text(&name, &rule.name) {
        return false;
    }
    is_same_text(&value, &rule.value)
}

/// Whether a parameter of the element has the name and the value of the rule. An `Err` is only for memory.
fn fires(
    alloc: Global,
    rule: &Rule<'_>,
    element: &StructuredElement<&str>,
) -> Result<bool, AllocError>
    ensures { IfOk result (λ found. (found ≡ false)
        ↔ AllByRecursion (λ p. (p.0 ≡ chars rule.now.name.now) → IsUnescaped p.1 (chars rule.now.value.now) → ⊥)
        (element_value (λ s. shown s) element.now).params) }
{
    for item in element.params(alloc) {
        let (name, value) = item?;
        if is_named(*name, value.as_str(), rule) {
            return Ok(true);
        }
    }
    Ok(false)
}

/// Whether an element of the line has the parameter of the rule.
fn is_alerted(alloc: Global, rule: &Rule<'_>, line: &str) -> Result<bool, AllocError> {
    let utc = TimeZone::UTC;
    let message = parse_message_with_year(alloc, line, |_| 2019, Variant::Either, &utc)?;
    for element in &message.structured_data {
        if fires(alloc, rule, element)? {
            return Ok(true);
        }
    }
    Ok(false)
}

#[test]
fn fires_on_a_parameter(rt: HostRuntime) {
    let rule = Rule {
        name: "state",
        value: "\"down\"",
    };
    for (line, want) in &[
        ("<34>1 - h app - - [link state=\"\\\"down\\\"\"] a", true),
        (
            "<34>1 - h app - - [link a=\"b\" state=\"\\\"down\\\"\"] a",
            true,
        ),
        ("<34>- h app: [link state=\"\\\"down\\\"\"] a", true),
        ("<34>1 - h app - - [link state=\"down\"] a", false),
        ("<34>1 - h app - - [link state2=\"\\\"down\\\"\"] a", false),
        (
            "<34>1 - h app - - [link state=\"\\\"down\\\"\" ] broken",
            false,
        ),
    ] {
        let found = is_alerted(rt.alloc(), &rule, line).expect(&rt, line);
        check(&rt, found == *want, line);
    }
}
