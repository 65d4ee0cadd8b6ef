//! The printed text of elements and lists that were recognised and not collected.
ghost use Rattle.std.specs.Prelude.{Some, encode_utf8_all};
ghost use Rattle.syslog_elements.specs.Words.{WritesOnOk, element_text, elements_text, joined_elements, element_seen};
ghost use Rattle.syslog_elements.specs.Words.{list_elements};

use super::recognised::{Element, ElementList};
use super::write_param;
use std::fmt;
use std::fmt::Display;
use syslog_text::as_str::AsStr;

impl fmt::Display for Element<'_> {
    ghost output = { λ e. Some (encode_utf8_all (element_text (element_seen e))) };

    #[tactic(auto, using(crate::proofs::StructuredDataLemmas::Units::put_element))]
    fn fmt<W: fmt::Write>(&self, f: &mut fmt::Formatter<W>) -> fmt::Result {
        f.write_str("[")?;
        f.write_str(self.id())?;
        for (name, value) in self.params() {
            let name = name.as_str();
            let value = value.as_str();
            write_param(f, name, value)?;
        }
        f.write_str("]")
    }
}

// Writes the elements one after the other.
#[inline(never)]
fn write_joined<W: fmt::Write>(f: &mut fmt::Formatter<W>, list: &ElementList<'_>) -> fmt::Result
    ensures { WritesOnOk W.write_str_gives f.old result
        (encode_utf8_all (joined_elements (list_elements list.now))) f.new }
{
    for element in list.elements() {
        element.fmt(f)?;
    }
    Ok(())
}

impl fmt::Display for ElementList<'_> {
    ghost output = { λ list. Some (encode_utf8_all (elements_text (list_elements list))) };

    #[tactic(auto, using(crate::proofs::StructuredDataLemmas::Units::put_element))]
    fn fmt<W: fmt::Write>(&self, f: &mut fmt::Formatter<W>) -> fmt::Result {
        if let Some(printed) = self.printed() {
            return f.write_str(printed.as_str());
        }
        if self.is_empty() {
            return f.write_str("-");
        }
        write_joined(f, self)
    }
}
