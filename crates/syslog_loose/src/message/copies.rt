//! Copies of messages. The memory for each list is allocated once, at its final size.
ghost use Rattle.std.specs.Prelude.{◌≡◌};
ghost use Rattle.syslog_loose.specs.Words.{option_map, IfOk, map, string_bytes, shown, text_of, procid_value};
ghost use Rattle.syslog_loose.specs.{Message.message_value, Words.element_value, Words.ClonesKeepText};

use super::Message;
use std::alloc::{AllocError, Global};
use syslog_elements::structured_data::StructuredElement;
use syslog_pieces::procid::ProcId;
use syslog_text::as_str::AsStr;

impl<S: AsStr + Clone> Message<S> {
    /// Returns a copy that is the same in each field, with elements and parameters in the same order. It fails only if
    /// an allocation does; nothing has changed then.
    pub fn try_clone(&self, alloc: Global) -> Result<Message<S>, AllocError>
        requires { ClonesKeepText S.is_clone S.text }
        ensures { IfOk result (λ copy. message_value (text_of S.text) copy ≡ message_value (text_of S.text) self.now) }
    {
        Ok(Message {
            protocol: self.protocol,
            facility: self.facility,
            severity: self.severity,
            timestamp: self.timestamp,
            hostname: clone_name(&self.hostname)?,
            appname: clone_name(&self.appname)?,
            procid: clone_process(alloc, &self.procid)?,
            msgid: clone_name(&self.msgid)?,
            structured_data: clone_elements(alloc, &self.structured_data)?,
            msg: self.msg.clone()?,
        })
    }
}

fn clone_name<S: AsStr + Clone>(name: &Option<S>) -> Result<Option<S>, AllocError>
    requires { ClonesKeepText S.is_clone S.text }
    ensures { IfOk result (λ copy. option_map (text_of S.text) copy ≡ option_map (text_of S.text) name.now) }
{
    match name {
        Some(name) => Ok(Some(name.clone()?)),
        None => Ok(None),
    }
}

fn clone_process<S: AsStr + Clone>(
    alloc: Global,
    procid: &Option<ProcId<S>>,
) -> Result<Option<ProcId<S>>, AllocError>
    requires { ClonesKeepText S.is_clone S.text }
    ensures { IfOk result (λ copy. option_map (procid_value (text_of S.text)) copy
        ≡ option_map (procid_value (text_of S.text)) procid.now) }
{
    match procid {
        Some(procid) => Ok(Some(procid.try_clone(alloc)?)),
        None => Ok(None),
    }
}

fn clone_elements<S: AsStr + Clone>(
    alloc: Global,
    elements: &[StructuredElement<S>],
) -> Result<Vec<StructuredElement<S>>, AllocError>
    requires { ClonesKeepText S.is_clone S.text }
    ensures { IfOk result (λ copies. map (element_value (text_of S.text)) copies.items
        ≡ map (element_value (text_of S.text)) elements.now) }
{
    let mut copies = Vec::with_capacity(alloc, elements.len())?;
    for element in elements {
        copies.push(element.try_clone(alloc)?)?;
    }
    Ok(copies)
}

impl Message<&str> {
    /// Returns the message with texts of its own, so that it can outlive the input: equal in each field, with elements
    /// and parameters in order. If an allocation fails, nothing has changed.
    pub fn to_owned_text(&self, alloc: Global) -> Result<Message<String>, AllocError>
        ensures { IfOk result (λ copy. message_value (text_of string_bytes) copy
            ≡ message_value (λ s. shown s) self.now) }
    {
        Ok(Message {
            protocol: self.protocol,
            facility: self.facility,
            severity: self.severity,
            timestamp: self.timestamp,
            hostname: own_name(alloc, self.hostname)?,
            appname: own_name(alloc, self.appname)?,
            procid: own_process(alloc, &self.procid)?,
            msgid: own_name(alloc, self.msgid)?,
            structured_data: own_elements(alloc, &self.structured_data)?,
            msg: String::from_str(alloc, self.msg)?,
        })
    }
}

fn own_name(alloc: Global, name: Option<&str>) -> Result<Option<String>, AllocError>
    ensures { IfOk result (λ copy. option_map (text_of string_bytes) copy ≡ option_map (λ s. shown s) name.entry) }
{
    match name {
        Some(name) => Ok(Some(String::from_str(alloc, name)?)),
        None => Ok(None),
    }
}

fn own_process(
    alloc: Global,
    procid: &Option<ProcId<&str>>,
) -> Result<Option<ProcId<String>>, AllocError>
    ensures { IfOk result (λ copy. option_map (procid_value (text_of string_bytes)) copy
        ≡ option_map (procid_value (λ s. shown s)) procid.now) }
{
    match procid {
        Some(procid) => Ok(Some(procid.to_owned_text(alloc)?)),
        None => Ok(None),
    }
}

fn own_elements(
    alloc: Global,
    elements: &[StructuredElement<&str>],
) -> Result<Vec<StructuredElement<String>>, AllocError>
    ensures { IfOk result (λ copies. map (element_value (text_of string_bytes)) copies.items
        ≡ map (element_value (λ s. shown s)) elements.now) }
{
    let mut copies = Vec::with_capacity(alloc, elements.len())?;
    for element in elements {
        copies.push(element.to_owned_text(alloc)?)?;
    }
    Ok(copies)
}
