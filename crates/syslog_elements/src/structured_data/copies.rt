//! Copies of elements. The memory for a list is allocated once, at its final size.
ghost use Rattle.std.specs.Prelude.{◌≡◌, IfOk, string_bytes};
ghost use Rattle.syslog_elements.specs.Words.{shown, text_of, ClonesKeepText, element_value};

use super::StructuredElement;
use std::alloc::{AllocError, Global};
use syslog_text::as_str::AsStr;

impl<S: AsStr + Clone> StructuredElement<S> {
    /// Returns a copy: the same id, and the same parameters in the same order. It fails only if an allocation does;
    /// nothing has changed then.
    pub fn try_clone(&self, alloc: Global) -> Result<StructuredElement<S>, AllocError>
        requires { ClonesKeepText S.is_clone S.text }
        ensures { IfOk result (λ copy. element_value (text_of S.text) copy ≡ element_value (text_of S.text) self.now) }
    {
        let id = self.id.clone()?;
        let mut params = Vec::with_capacity(alloc, self.params.len())?;
        for (name, value) in &self.params {
            params.push((name.clone()?, value.clone()?))?;
        }
        Ok(StructuredElement { id, params })
    }
}

impl StructuredElement<&str> {
    /// Returns the element with texts of its own, its parameters in order, so that it can outlive the input. If an
    /// allocation fails, nothing has changed.
    pub fn to_owned_text(&self, alloc: Global) -> Result<StructuredElement<String>, AllocError>
        ensures { IfOk result (λ copy. element_value (text_of string_bytes) copy
            ≡ element_value (λ s. shown s) self.now) }
    {
        let mut params = Vec::with_capacity(alloc, self.params.len())?;
        for (name, value) in &self.params {
            params.push((
                String::from_str(alloc, *name)?,
                String::from_str(alloc, *value)?,
            ))?;
        }
        Ok(StructuredElement {
            id: String::from_str(alloc, self.id)?,
            params,
        })
    }
}
