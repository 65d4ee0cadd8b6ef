//! The elements of a line, joined by their ids: the parameters of each id are gathered in one pass.
ghost use Rattle.std.specs.Prelude.{◌≡◌, ◌++◌, ◌∷◌, [], ℕ, cond, if◌then◌else◌, is_some, IfOk, List, None, OnOk, map};
ghost use Rattle.std.specs.Prelude.{string_bytes};
ghost use Rattle.std.specs.BTreeMap.{get_by_text};
ghost use Rattle.std.specs.Str.{bytes_eq};
ghost use Rattle.syslog_elements.specs.StructuredData.Element.{ElementValue, elements_text, joined_elements};
ghost use Rattle.syslog_elements.specs.StructuredData.Visited.{element_seen, list_elements};
ghost use Rattle.syslog_strict.specs.Conversion.{converted_element, converted_elements};
ghost use Rattle.syslog_strict.specs.Joined.{HasJoined, joined_text, text_or_none};
ghost use Rattle.syslog_strict.specs.Pushing.{Appends, text_in};

use crate::elements::{push_name, push_params};
use crate::text::{push_char, push_text};
use crate::valid::are_elements;
use std::alloc::{AllocError, Global};
use std::collections::BTreeMap;
use syslog_loose::{Element, ElementList};

// Ids in the order in which they first came, and the parameters of each id, as they are written.
#[derive(Drop)]
struct Joined {
    ids: Vec<String>,
    params: BTreeMap<String, String>,
}

impl Joined {
    // Returns the state with no elements.
    fn new(alloc: Global) -> Joined
        ensures { HasJoined result [] }
    {
        Joined {
            ids: Vec::new(alloc),
            params: BTreeMap::new(alloc),
        }
    }

    // Takes out the parameters of this id. There are none if it is a new one.
    fn take(&mut self, alloc: Global, id: &String) -> Result<String, AllocError>
        ensures ids { OnOk result (map (λ s. text_in s) self.new.ids.items
            ≡ map (λ s. text_in s) self.old.ids.items
            ++ (if is_some (get_by_text self.old.params (string_bytes id.now)) then [] else text_in id.now ∷ [])) }
        ensures params { IfOk result (λ params. text_in params
            ≡ text_or_none (get_by_text self.old.params (string_bytes id.now))) }
        ensures others { OnOk result ((q : List ℕ) → get_by_text self.new.params q
            ≡ cond (bytes_eq (string_bytes id.now) q) None (get_by_text self.old.params q)) }
    {
        match self.params.remove(id.as_str()) {
            Some(params) => Ok(params),
            None => {
                self.ids.push(id.clone()?)?;
                Ok(String::new(alloc))
            }
        }
    }

    // Adds an element.
    fn add(&mut self, alloc: Global, element: &Element<'_>) -> Result<(), AllocError>
        ensures { (seen : List ElementValue) → HasJoined self.old seen
            → OnOk result (HasJoined self.new (seen ++ converted_element (element_seen element.now) ∷ [])) }
    {
        let mut id = String::new(alloc);
        push_name(&mut id, element.id())?;
        let mut params = self.take(alloc, &id)?;
        push_params(&mut params, element)?;
        match self.params.insert(id, params) {
            Ok(_) => Ok(()),
            Err(_) => Err(AllocError),
        }
    }

    // Appends the parameters of this id.
    fn push_params_of(&self, out: &mut String, id: &String) -> Result<(), AllocError>
        ensures { OnOk result
            (Appends out.old (text_or_none (get_by_text self.now.params (string_bytes id.now))) out.new) }
    {
        match self.params.get(id.as_str()) {
            Some(params) => push_text(out, params.as_str()),
            None => Ok(()),
        }
    }

    // Appends an element of this id.
    fn push_one(&self, out: &mut String, id: &String) -> Result<(), AllocError>
        ensures { OnOk result (Appends out.old (91 ∷ (text_in id.now
            ++ (text_or_none (get_by_text self.now.params (string_bytes id.now)) ++ (93 ∷ [])))) out.new) }
    {
        push_char(out, '[')?;
        push_text(out, id.as_str())?;
        self.push_params_of(out, id)?;
        push_char(out, ']')
    }

    // Appends an element of each id.
    fn push_to(&self, out: &mut String) -> Result<(), AllocError>
        ensures { OnOk result (Appends out.old (joined_text self.now) out.new) }
    {
        for id in &self.ids {
            self.push_one(out, id)?;
        }
        Ok(())
    }
}

// Appends the elements, those with one id as one. It allocates for the ids and the parameters.
fn push_many(alloc: Global, out: &mut String, list: &ElementList<'_>) -> Result<(), AllocError>
    ensures { OnOk result (Appends out.old (joined_elements (converted_elements (list_elements list.now))) out.new) }
{
    let mut joined = Joined::new(alloc);
    for element in list.elements() {
        joined.add(alloc, &element)?;
    }
    joined.push_to(out)
}

/// Appends the elements, or `-` if there are none. Elements that are in the grammar are copied.
///
/// The list is passed by value: if a reference to it were taken, the whole line would be kept in memory.
pub(crate) fn push_list(
    alloc: Global,
    out: &mut String,
    list: ElementList<'_>,
) -> Result<(), AllocError>
    ensures { OnOk result (Appends out.old (elements_text (converted_elements (list_elements list.entry))) out.new) }
{
    if list.is_empty() {
        return push_char(out, '-');
    }
    if let Some(text) = list.printed() {
        if are_elements(alloc, text) {
            return push_text(out, text);
        }
    }
    push_many(alloc, out, &list)
}
