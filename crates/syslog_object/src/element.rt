//! The object of the elements of a line: for each id, the object of its parameters' names and values.
ghost use Rattle.std.specs.Prelude.{◌≡◌, ◌≤◌, ◌++◌, length, OnOk, map};
ghost use Rattle.syslog_elements.specs.StructuredData.Visited.{element_seen, list_elements};
ghost use Rattle.syslog_object.specs.Gathered.{gathered};
ghost use Rattle.syslog_object.specs.Object.{element_json, element_pair};
ghost use Rattle.syslog_object.specs.Parts.{compact_text};

use crate::gather::{Member, push_members};
use crate::output::Output;
use std::alloc::{AllocError, Global};
use syslog_loose::{Element, ElementList};

// Returns the name of a parameter. It is a function of its own, since what a call returns is known to be UTF-8, and a
// field is not.
#[inline(always)]
fn name<'a>(param: &(&'a str, &'a str)) -> &'a str
    ensures { result.now ≡ param.now.0.now }
{
    param.0
}

// A parameter as a member: its name is the key, and its raw value the value.
impl<'a> Member<'a> for (&'a str, &'a str) {
    ghost use Rattle.syslog_text.specs.Pieces.View.{shown};
    ghost use Rattle.syslog_elements.specs.StructuredData.Element.{param_value};
    ghost use Rattle.syslog_object.specs.Object.{param_pair};

    ghost key_of = { λ param. (param_pair (param_value (λ s. shown s) param)).0 };

    ghost json = { λ param. (param_pair (param_value (λ s. shown s) param)).1 };

    #[inline(always)]
    fn key(&self) -> &'a str {
        name(self)
    }

    #[inline(always)]
    fn push_json(&self, _: Global, out: &mut Output) -> Result<(), AllocError> {
        out.push_between(b"\"", self.1, b"\"", true)
    }
}

impl<'a> Member<'a> for Element<'a> {
    ghost use Rattle.std.specs.Prelude.{encode_utf8_all};
    ghost use Rattle.syslog_elements.specs.StructuredData.Visited.{element_seen};
    ghost use Rattle.syslog_object.specs.Object.{element_json};

    ghost key_of = { λ element. encode_utf8_all (element_seen element).id };

    ghost json = { λ element. element_json (element_seen element) };

    #[inline(always)]
    fn key(&self) -> &'a str {
        self.id()
    }

    fn push_json(&self, alloc: Global, out: &mut Output) -> Result<(), AllocError> {
        let mut params = Vec::new(alloc);
        for param in self.params() {
            params.push(param)?;
        }
        push_members(alloc, out, params.as_slice())
    }
}

/// Appends the object of the elements of a list.
#[inline(never)]
pub(crate) fn push_elements(
    alloc: Global,
    out: &mut Output,
    list: &ElementList<'_>,
) -> Result<(), AllocError>
    ensures { OnOk result (out.new
        ≡ out.old ++ compact_text (gathered (map element_pair (list_elements list.now)))) }
{
    let mut elements = Vec::new(alloc);
    for element in list.elements() {
        elements.push(element)?;
    }
    push_members(alloc, out, elements.as_slice())
}
