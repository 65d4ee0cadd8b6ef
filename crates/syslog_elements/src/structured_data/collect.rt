//! Collecting elements: those of a list while it is recognised, and those of one that was.
ghost use Rattle.std.specs.Prelude.{◌≡◌, ◌≢◌, ◌++◌, ◌∷◌, [], IfOk, MatchResult, map};
ghost use Rattle.syslog_elements.specs.Words.{shown, HasNoted, element_value, param_value, element_seen, list_elements};

use super::StructuredElement;
use super::few_params::FewParams;
use super::recognised::{Element, ElementList};
use super::visit::ElementVisitor;
use std::alloc::{AllocError, Global};

/// A visitor that collects the elements that it is given. If an allocation fails, `finish` returns that.
#[derive(Drop)]
pub struct Collect<'a> {
    alloc: Global,
    elements: Result<Vec<StructuredElement<&'a str>>, AllocError>,
}

impl<'a> Collect<'a> {
    ghost use Rattle.std.specs.Prelude.{List};
    ghost use Rattle.syslog_elements.specs.Words.{ElementValue, HasCollected};

    /// Returns a collector without elements. It does not allocate.
    #[inline(always)]
    pub fn new(alloc: Global) -> Collect<'a>
        ensures { HasCollected result [] }
    {
        Collect {
            alloc,
            elements: Ok(Vec::new(alloc)),
        }
    }

    /// Returns the elements that were collected, or an error if an allocation for them failed.
    pub fn finish(self) -> Result<Vec<StructuredElement<&'a str>>, AllocError>
        ensures { (es : List ElementValue) → HasCollected self.entry es → MatchResult result
            (λ v. map (element_value (λ s. shown s)) v.items ≡ es) (λ _. es ≢ []) }
    {
        self.elements
    }
}

impl<'a> ElementVisitor<'a> for Collect<'a> {
    ghost use Rattle.syslog_elements.specs.Words.{HasCollected};

    type Notes = FewParams<'a>;

    ghost was_given = { λ first collect es. HasCollected collect es };

    #[inline(always)]
    fn element(&mut self, element: Element<'a>, notes: &FewParams<'a>) {
        let Ok(elements) = &mut self.elements else {
            return;
        };
        if let Err(refused) = push_element(self.alloc, elements, element, notes) {
            self.elements = Err(refused);
        }
    }
}

impl<'a> Element<'a> {
    /// Returns the element with its parameters in a vector. It allocates once, and fails only if that does.
    pub fn collect(&self, alloc: Global) -> Result<StructuredElement<&'a str>, AllocError>
        ensures { IfOk result (λ e. element_value (λ s. shown s) e ≡ element_seen self.now) }
    {
        Ok(StructuredElement {
            id: self.id(),
            params: walk_params(alloc, *self)?,
        })
    }
}

impl<'a> ElementList<'a> {
    /// Returns the strict elements of the list in a vector. It does not allocate if there are none, and fails only if
    /// an allocation does.
    pub fn collect(&self, alloc: Global) -> Result<Vec<StructuredElement<&'a str>>, AllocError>
        ensures { MatchResult result (λ v. map (element_value (λ s. shown s)) v.items ≡ list_elements self.now)
            (λ _. list_elements self.now ≢ []) }
    {
        if self.is_empty() {
            return Ok(Vec::new(alloc));
        }
        let mut elements = Vec::with_capacity(alloc, self.len())?;
        for element in self.elements() {
            elements.push(element.collect(alloc)?)?;
        }
        Ok(elements)
    }
}

// Collects the parameters of an element by walking it again.
#[inline(never)]
fn walk_params<'a>(
    alloc: Global,
    element: Element<'a>,
) -> Result<Vec<(&'a str, &'a str)>, AllocError>
    ensures { IfOk result (λ v. map (param_value (λ s. shown s)) v.items ≡ (element_seen element.entry).params) }
{
    let mut params = Vec::with_capacity(alloc, element.params_len())?;
    for param in element.params() {
        params.push(param)?;
    }
    Ok(params)
}

// Collects the parameters of an element, from its notes if these have all of them. It allocates once.
#[inline(always)]
fn collect_params<'a>(
    alloc: Global,
    element: Element<'a>,
    notes: &FewParams<'a>,
) -> Result<Vec<(&'a str, &'a str)>, AllocError>
    requires { HasNoted notes.now (element_seen element).params }
    ensures { IfOk result (λ v. map (param_value (λ s. shown s)) v.items ≡ (element_seen element.entry).params) }
{
    let Some(noted) = notes.all_of(&element) else {
        return walk_params(alloc, element);
    };
    let mut params = Vec::with_capacity(alloc, noted.len())?;
    params.extend_from_slice(noted)?;
    Ok(params)
}

// Adds the element.
fn push_element<'a>(
    alloc: Global,
    elements: &mut Vec<StructuredElement<&'a str>>,
    element: Element<'a>,
    notes: &FewParams<'a>,
) -> Result<(), AllocError>
    requires { HasNoted notes.now (element_seen element).params }
    ensures { IfOk result (λ _. map (element_value (λ s. shown s)) elements.new.items
        ≡ map (element_value (λ s. shown s)) elements.old.items ++ (element_seen element.entry ∷ [])) }
{
    let params = collect_params(alloc, element, notes)?;
    elements.push(StructuredElement {
        id: element.id(),
        params,
    })?;
    Ok(())
}
