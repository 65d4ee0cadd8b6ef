//! The caller's arrays, into which the elements of a line and their parameters are written while the line is read.
ghost use Rattle.std.specs.Prelude.{◌≡◌, ◌+◌, ◌<◌, ◌≤◌, MatchBool, length, map};
ghost use Rattle.syslog_text.specs.Pieces.View.{shown};
ghost use Rattle.syslog_elements.specs.StructuredData.Collected.{HasNoted};
ghost use Rattle.syslog_elements.specs.StructuredData.Element.{param_value};
ghost use Rattle.syslog_elements.specs.StructuredData.Visited.{element_seen};
ghost use Rattle.syslog_c.specs.Arrays.{HasPut};
ghost use Rattle.syslog_c.specs.Fields.{IsBegun, IsElement, IsParam};

use crate::convert::text_of;
use crate::fields::{Element, Param};
use syslog_elements::structured_data as data;
use syslog_elements::structured_data::{ElementVisitor, FewParams};

/// The visitor that writes elements and their parameters into the caller's arrays. What does not fit is left out: then
/// `count` or `filled` is less than the number in the line.
#[derive(Drop)]
pub(crate) struct Arrays<'a, 'r> {
    pub(crate) elements: &'r mut [Element<'a>],
    pub(crate) params: &'r mut [Param<'a>],
    /// How many elements were written.
    pub(crate) count: usize,
    /// How many parameters were written.
    pub(crate) filled: usize,
}

impl<'a, 'r> Arrays<'a, 'r> {
    /// Whether the arrays have space for so many elements and parameters.
    #[inline(always)]
    pub(crate) fn have_space(&self, elements: usize, params: usize) -> bool
        ensures { MatchBool result
            ((elements ≤ length self.now.elements.now) × (params ≤ length self.now.params.now))
            ((elements ≤ length self.now.elements.now) → params ≤ length self.now.params.now → ⊥) }
    {
        elements <= self.elements.len() && params <= self.params.len()
    }

    // Whether there is space for one more element, and so many more parameters.
    #[inline(always)]
    fn have_places(&self, params: usize) -> bool
        ensures { MatchBool result
            ((self.now.count < length self.now.elements.now) × (self.now.filled + params ≤ length self.now.params.now))
            ((self.now.count < length self.now.elements.now) → self.now.filled + params ≤ length self.now.params.now
            → ⊥) }
    {
        if self.count >= self.elements.len() || self.filled > self.params.len() {
            return false;
        }
        params <= self.params.len() - self.filled
    }
}

impl<'a, 'r> ElementVisitor<'a> for Arrays<'a, 'r> {
    type Notes = FewParams<'a>;

    ghost was_given = { λ first arrays es. HasPut first arrays es };

    #[inline(always)]
    fn element(&mut self, element: data::Element<'a>, notes: &FewParams<'a>) {
        let params = element.params_len();
        if !self.have_places(params) {
            return;
        }
        let filled = self.filled;
        put_params(&element, notes, &mut self.params[filled..]);
        let count = self.count;
        self.elements[count] = element_of(&element);
        self.count += 1;
        self.filled += params;
    }
}

#[inline(always)]
fn element_of<'a>(element: &data::Element<'a>) -> Element<'a>
    ensures { IsElement result (element_seen element.now) }
{
    Element {
        id: text_of(element.id()),
        params: element.params_len(),
    }
}

// Writes the parameters of an element to the front of the array, from its notes if these have all of them.
#[inline(always)]
fn put_params<'a>(element: &data::Element<'a>, notes: &FewParams<'a>, array: &mut [Param<'a>])
    requires noted { HasNoted notes.now (element_seen element.now).params }
    requires places { length (element_seen element.now).params ≤ length array.old }
    ensures { IsBegun IsParam (element_seen element.now).params array.old array.new }
{
    match notes.all_of(element) {
        Some(params) => put_noted(params, array),
        None => put_walked(element, array),
    }
}

#[inline(always)]
fn put_noted<'a>(params: &[(&'a str, &'a str)], array: &mut [Param<'a>])
    requires { length params.now ≤ length array.old }
    ensures { IsBegun IsParam (map (param_value (λ s. shown s)) params.now) array.old array.new }
{
    for (i, param) in params.iter().enumerate() {
        array[i] = param_of(*param);
    }
}

#[inline(never)]
fn put_walked<'a>(element: &data::Element<'a>, array: &mut [Param<'a>])
    requires { length (element_seen element.now).params ≤ length array.old }
    ensures { IsBegun IsParam (element_seen element.now).params array.old array.new }
{
    let mut i = 0;
    for param in element.params() {
        array[i] = param_of(param);
        i += 1;
    }
}

#[inline(always)]
fn param_of<'a>(param: (&'a str, &'a str)) -> Param<'a>
    ensures { IsParam result (param_value (λ s. shown s) param.entry) }
{
    Param {
        name: text_of(param.0),
        value: text_of(param.1),
    }
}
