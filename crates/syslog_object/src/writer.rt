//! The writer of a line's JSON object that is given the elements while the line is read.
ghost use Rattle.std.specs.Prelude.{◌≡◌, ◌≢◌, ◌≤◌, ◌==◌, ◌++◌, ◌∷◌, [], List, ℕ, IfOk, OnErr, OnOk};
ghost use Rattle.std.specs.Prelude.{codes, cond, drop, length, map, take};
ghost use Rattle.std.specs.Bool.{OnTrue};
ghost use Rattle.json.specs.Print.{quoted};
ghost use Rattle.syslog_text.specs.Pieces.View.{seen, shown};
ghost use Rattle.syslog_elements.specs.StructuredData.Collected.{HasNoted};
ghost use Rattle.syslog_elements.specs.StructuredData.Element.{ElementValue, param_value};
ghost use Rattle.syslog_elements.specs.StructuredData.Visited.{element_seen, list_elements};
ghost use Rattle.syslog_loose.specs.Line.{line_value};
ghost use Rattle.syslog_text.specs.Pieces.Class.{Text};
ghost use Rattle.syslog_loose.specs.Unparsed.{IsLeftUnparsed};
ghost use Rattle.syslog_object.specs.Elements.{IsStructuredText, elements_text};
ghost use Rattle.syslog_object.specs.Object.{beside_line, message_json, param_pair, refused_json, structured_json};
ghost use Rattle.syslog_object.specs.Parts.{IsNewKey, field_text, object_text};
ghost use Rattle.syslog_object.specs.Places.{before_member};
ghost use Rattle.syslog_object.specs.Written.{IsTextOf};
ghost use Rattle.syslog_object.specs.Writer.{AreWritten, HasWritten};

use crate::element::push_elements;
use crate::gather::{are_distinct, push_each, push_key};
use crate::object::{push_back, push_front};
use crate::output::Output;
use std::alloc::{AllocError, Global};
use syslog_elements::structured_data::{Element, ElementVisitor, FewParams};
use syslog_loose::{ElementList, Line};

/// How many elements are written while the line is read.
const IDS: usize = 8;

/// Writes the JSON object of a line. As a visitor it is given the elements while the line is read, and writes them at
/// once, so that they are not walked again.
#[derive(Drop)]
pub struct ObjectWriter<'a> {
    alloc: Global,
    // the object of the elements that it was given, without its last brace
    text: Output,
    // their ids
    ids: [&'a str; 8],
    count: usize,
    // Whether all elements were written: no id and no name was repeated, and there were not too many. Otherwise `text`
    // doesn't count.
    is_whole: bool,
}

impl<'a> ObjectWriter<'a> {
    /// Returns a writer that was given no element. It writes over what the vector holds.
    #[inline(always)]
    pub fn new(alloc: Global, memory: Vec<u8>) -> ObjectWriter<'a>
        ensures { HasWritten result [] }
    {
        ObjectWriter {
            alloc,
            text: Output::over(memory),
            ids: [""; IDS],
            count: 0,
            is_whole: true,
        }
    }

    // Writes an element by its notes, if these have all parameters. Returns whether it was written.
    #[inline(always)]
    fn add(&mut self, element: &Element<'a>, notes: &FewParams<'a>) -> bool
        requires { HasNoted notes.now (element_seen element.now).params }
        ensures { OnTrue result ((es : List ElementValue) → AreWritten self.old es
            → AreWritten self.new (es ++ (element_seen element.now ∷ []))) }
    {
        let Some(params) = notes.all_of(element) else {
            return false;
        };
        let id = element.id();
        if self.count >= self.ids.len()
            || !is_new_id(id, &self.ids[..self.count])
            || !are_distinct(params)
        {
            return false;
        }
        let count = self.count;
        if push_element(self.alloc, &mut self.text, count, id, params).is_err() {
            return false;
        }
        self.ids[self.count] = id;
        self.count += 1;
        true
    }

    /// Appends the JSON object of the line whose elements it was given to `output`, as `line_object` writes it, or
    /// nothing if an allocation fails. A writer is for one line.
    ///
    /// The call may grow its own memory and `output`. It allocates as `line_object` does if an id or a name is
    /// repeated, there are more than eight elements, or an element has more than sixteen parameters.
    pub fn write(
        &mut self,
        line: &Line<'_>,
        dialect: Option<&str>,
        raw: Option<&str>,
        output: &mut Vec<u8>,
    ) -> Result<(), AllocError>
        requires { HasWritten self.old (list_elements line.now.list) }
        ensures ok { OnOk result ((unparsed : Text) × IsLeftUnparsed line.now unparsed × ((bytes : List ℕ)
            × IsTextOf (message_json (line_value line.now)
            (beside_line (seen dialect.entry) unparsed (seen raw.entry))) bytes
            × (output.new.items ≡ output.old.items ++ bytes))) }
        ensures err { OnErr result (output.new.items ≡ output.old.items) }
    {
        let start = self.put_line(line, dialect, raw)?;
        output.extend_from_slice(&self.text.as_slice()[start..])
    }

    /// Appends the JSON object of a line that is no message, as `{"message":"..","refused":true}`, to `output`, or
    /// nothing if an allocation fails. The call may grow its own memory and `output`.
    pub fn write_refused(&mut self, line: &str, output: &mut Vec<u8>) -> Result<(), AllocError>
        ensures ok { OnOk result ((bytes : List ℕ) × IsTextOf (refused_json line.now) bytes
            × (output.new.items ≡ output.old.items ++ bytes)) }
        ensures err { OnErr result (output.new.items ≡ output.old.items) }
    {
        let text = &mut self.text;
        let start = text.len();
        text.push_text(b"{\"message\":\"", line, b"\",\"refused\":true}")?;
        output.extend_from_slice(&text.as_slice()[start..])
    }

    /// Returns the JSON object of the elements that it was given, as the object of their line has it; nothing if there
    /// are none. It is written into the vector that the writer was given or grew. It allocates as `write` does.
    pub fn into_elements(self, list: &ElementList<'_>) -> Result<Vec<u8>, AllocError>
        requires { HasWritten self (list_elements list.now) }
        ensures { IfOk result (λ text. IsStructuredText (list_elements list.now) text.items) }
    {
        let mut writer = self;
        writer.close(list)?;
        Ok(writer.text.into_bytes(0))
    }

    // Writes the object of the line after that of its elements, and returns where it begins.
    fn put_line(
        &mut self,
        line: &Line<'_>,
        dialect: Option<&str>,
        raw: Option<&str>,
    ) -> Result<usize, AllocError>
        requires { HasWritten self.old (list_elements line.now.list) }
        ensures within { IfOk result (λ start. start ≤ length self.new.text) }
        ensures text { IfOk result (λ start. (unparsed : Text) × IsLeftUnparsed line.now unparsed
            × IsTextOf (message_json (line_value line.now) (beside_line (seen dialect.entry) unparsed (seen raw.entry)))
            (drop start self.new.text)) }
    {
        let unparsed = line.list.unparsed();
        self.close(&line.list)?;
        let text = &mut self.text;
        let start = text.len();
        push_front(text, line, dialect)?;
        push_again(text, start)?;
        push_back(text, line, unparsed, raw)?;
        Ok(start)
    }

    // Makes the text the object of the elements, or nothing if there are none.
    #[inline(always)]
    fn close(&mut self, list: &ElementList<'_>) -> Result<(), AllocError>
        requires { HasWritten self.old (list_elements list.now) }
        ensures { OnOk result (self.new.text ≡ elements_text (list_elements list.now)) }
    {
        if self.is_whole && self.count > 0 {
            return self.text.push(b"}");
        }
        self.text.clear();
        if list.is_empty() {
            return Ok(());
        }
        push_elements(self.alloc, &mut self.text, list)
    }

    /// Returns the vector that the writer was given or grew, for another writer. What that holds doesn't count, but the
    /// longer it is, the less the other writer has to clear.
    #[inline(always)]
    pub fn into_memory(self) -> Vec<u8> {
        let ObjectWriter { text, .. } = self;
        text.into_memory()
    }
}

/// Returns the JSON object of a line, as `{"protocol":"RFC3164","facility":"auth",..}`, written into the vector's
/// memory.
///
/// `dialect` is the name of the dialect in which the line was read, if it was one. If `raw` is given, it is the last
/// member: the line as it came. The structured data that was left unparsed has a member too.
///
/// What the message lacks has no key. An id or a name that is repeated has an array of all its values, at its first
/// place. The call allocates if the vector's memory is too little or the line has elements.
pub fn line_object(
    alloc: Global,
    memory: Vec<u8>,
    line: &Line<'_>,
    dialect: Option<&str>,
    raw: Option<&str>,
) -> Result<Vec<u8>, AllocError>
    ensures { IfOk result (λ object. (unparsed : Text) × IsLeftUnparsed line.now unparsed
        × IsTextOf (message_json (line_value line.now) (beside_line (seen dialect.entry) unparsed (seen raw.entry)))
        object.items) }
{
    let mut writer = ObjectWriter::new(alloc, memory);
    // it was given no element
    writer.is_whole = false;
    let start = writer.put_line(line, dialect, raw)?;
    Ok(writer.text.into_bytes(start))
}

// Whether none of the ids is this one.
#[inline(always)]
fn is_new_id(id: &str, ids: &[&str]) -> bool
    ensures { OnTrue result (IsNewKey id.now (map (λ s. s.now) ids.now)) }
{
    for other in ids {
        if id == *other {
            return false;
        }
    }
    true
}

// Appends an element: its id, and the object of its parameters, no name of which is repeated. `count` elements are
// before it.
fn push_element(
    alloc: Global,
    out: &mut Output,
    count: usize,
    id: &str,
    params: &[(&str, &str)],
) -> Result<(), AllocError>
    ensures { OnOk result (out.new ≡ out.old ++ (before_member count ∷ (quoted id.now ++ 58
        ∷ object_text (map (λ p. param_pair (param_value (λ s. shown s) p)) params.now)))) }
{
    push_key(out, count, id)?;
    push_each(alloc, out, params)
}

// Appends the key of the elements and the first bytes again, which are their object; nothing if there are none.
#[inline(always)]
fn push_again(text: &mut Output, end: usize) -> Result<(), AllocError>
    requires { end ≤ length text.old }
    ensures { OnOk result (text.new ≡ text.old
        ++ cond (end == 0) [] (44 ∷ (quoted (codes "structured_data") ++ 58 ∷ take end text.old))) }
{
    if end == 0 {
        return Ok(());
    }
    text.push(b",\"structured_data\":")?;
    text.push_again(end)
}

impl<'a> ElementVisitor<'a> for ObjectWriter<'a> {
    type Notes = FewParams<'a>;

    ghost was_given = { λ first writer es. HasWritten writer es };

    #[inline(always)]
    fn element(&mut self, element: Element<'a>, notes: &FewParams<'a>) {
        if self.is_whole {
            self.is_whole = self.add(&element, notes);
        }
    }
}
