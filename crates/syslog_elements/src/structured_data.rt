//! Structured data: elements with an id and parameters (RFC 5424 section 6.3).
//!
//! Values stay raw, and `StructuredElement::params` removes their escapes. Recognising an element or a list does not
//! allocate, and takes time in proportion to the text; collecting the elements allocates.
ghost use Rattle.std.specs.Prelude.{◌≡◌, ◌++◌, [], ◌∷◌, Some, encode_utf8_all};
ghost use Rattle.syslog_elements.specs.Words.{WritesOnOk, element_text, element_value, text_of};

pub mod canonical;
mod collect;
mod copies;
mod display;
mod equality;
mod escapes;
mod few_params;
mod line_list;
mod pair_list;
mod pairs;
mod params;
mod recognise;
mod recognised;
mod recognised_items;
pub mod rfc3164_list;
mod visit;
mod walk;

pub use collect::Collect;
pub use escapes::{next_unescaped, unescape};
pub use few_params::FewParams;
pub use line_list::{visit_forgiving_list, visit_rfc3164_list};
pub use pair_list::paired_list;
pub use pairs::Notation;
pub use params::ParamsIter;
pub use recognised::{Element, ElementList};
pub use recognised_items::{Elements, Params};
use std::alloc::Global;
use std::fmt;
use syslog_text::as_str::AsStr;
pub use visit::{ElementVisitor, NoElements, NoNotes, ParamNotes, visit_list};

/// An element of structured data: its id, and the names and the raw values of its parameters, in order. It is printed
/// with one space before each parameter, and values are printed raw: with the escapes that they have, and no others.
#[derive(Debug, Drop)]
pub struct StructuredElement<S> {
    /// The id of the element, which is `SD-ID` in RFC 5424.
    pub id: S,
    /// The names and the raw values of its parameters, in the order of the text.
    pub params: Vec<(S, S)>,
}

impl<S: AsStr> StructuredElement<S> {
    /// Returns an iterator over the parameters, in order, that removes the escapes in their values. Each item
    /// allocates; if that fails, the item is an `Err`.
    pub fn params(&self, alloc: Global) -> ParamsIter<'_, S>
        ensures { result ≡ self.now.params.items }
    {
        ParamsIter::new(alloc, &self.params)
    }
}

impl<S: AsStr> fmt::Display for StructuredElement<S> {
    ghost output = { λ e. Some (encode_utf8_all (element_text (element_value (text_of S.text) e))) };

    #[tactic(auto, using(crate::proofs::StructuredDataLemmas::Units::put_element))]
    fn fmt<W: fmt::Write>(&self, f: &mut fmt::Formatter<W>) -> fmt::Result {
        let id = self.id.as_str();
        f.write_str("[")?;
        f.write_str(id)?;
        for (name, value) in &self.params {
            let name = name.as_str();
            let value = value.as_str();
            write_param(f, name, value)?;
        }
        f.write_str("]")
    }
}

// Writes a space, the name, and the value between quotes.
fn write_param<W: fmt::Write>(f: &mut fmt::Formatter<W>, name: &str, value: &str) -> fmt::Result
    ensures { WritesOnOk W.write_str_gives f.old result
        (32 ∷ (name.now ++ (61 ∷ 34 ∷ (value.now ++ (34 ∷ []))))) f.new }
{
    f.write_str(" ")?;
    f.write_str(name)?;
    f.write_str("=\"")?;
    f.write_str(value)?;
    f.write_str("\"")
}
