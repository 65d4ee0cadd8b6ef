//! The printed text of a line, written piece by piece into a buffer. A buffer takes every piece, so nothing here can
//! fail.
ghost use Rattle.std.specs.Fmt.{signed_decimal};
ghost use Rattle.std.specs.Prelude.{◌∷◌, chars, encode_utf8_all, option_map};
ghost use Rattle.syslog_text.specs.Pieces.View.{seen, shown};
ghost use Rattle.syslog_pieces.specs.ProcId.{procid_text, procid_value, process_text};
ghost use Rattle.syslog_elements.specs.StructuredData.Element.{element_text, elements_text, joined_elements};
ghost use Rattle.syslog_elements.specs.StructuredData.Element.{param_text};
ghost use Rattle.syslog_elements.specs.StructuredData.Visited.{element_seen, list_elements};
ghost use Rattle.syslog_text.specs.Text.{name_text};
ghost use Rattle.syslog_loose.specs.Line.{line_value};
ghost use Rattle.syslog_loose.specs.Printed.{printed, rest_3164, rest_5424, rest_text, spaced_elements, tag_text};
ghost use Rattle.syslog_c.specs.Room.{Takes, TakesText};

use crate::room::Buffer;
use syslog_loose::{Element, ElementList, Line, ProcId};

/// Writes the printed text of the line.
pub(crate) fn put_line(buffer: &mut Buffer<'_>, line: &Line<'_>)
    ensures { Takes buffer.old (encode_utf8_all (printed (line_value line.now))) buffer.new }
{
    let front = line.front();
    buffer.push(front.as_str());
    put_rest(buffer, line)
}

// Writes everything after the timestamp.
fn put_rest(buffer: &mut Buffer<'_>, line: &Line<'_>)
    ensures { TakesText buffer.old (rest_text (line_value line.now)) buffer.new }
{
    match line.version {
        Some(_) => put_rest_5424(buffer, line),
        None => put_rest_3164(buffer, line),
    }
}

fn put_rest_5424(buffer: &mut Buffer<'_>, line: &Line<'_>)
    ensures { TakesText buffer.old (rest_5424 (line_value line.now)) buffer.new }
{
    let process = line.process();
    put_name(buffer, line.hostname);
    put_name(buffer, line.appname);
    put_process(buffer, process);
    put_name(buffer, line.msgid);
    put(buffer, " ");
    put_list(buffer, &line.list);
    put(buffer, " ");
    put(buffer, line.msg)
}

fn put_rest_3164(buffer: &mut Buffer<'_>, line: &Line<'_>)
    ensures { TakesText buffer.old (rest_3164 (line_value line.now)) buffer.new }
{
    let process = line.process();
    put_name(buffer, line.hostname);
    put_tag(buffer, line.appname, process);
    put_spaced_list(buffer, &line.list);
    put(buffer, line.msg)
}

// Writes a text.
fn put(buffer: &mut Buffer<'_>, text: &str)
    ensures { TakesText buffer.old (chars text.now) buffer.new }
{
    buffer.push(text);
}

// Writes a space and a name, or `-` for an absent one.
fn put_name(buffer: &mut Buffer<'_>, name: Option<&str>)
    ensures { TakesText buffer.old (32 ∷ name_text (seen name.entry)) buffer.new }
{
    put(buffer, " ");
    match name {
        Some(name) => put(buffer, name),
        None => put(buffer, "-"),
    }
}

// Writes a number in decimal digits. Here it is known to have 32 bits.
fn put_number(buffer: &mut Buffer<'_>, number: i32)
    ensures { TakesText buffer.old (signed_decimal number) buffer.new }
{
    let mut digits = itoa::Buffer::new();
    put(buffer, digits.format(number));
}

// Writes a process id.
fn put_procid(buffer: &mut Buffer<'_>, process: ProcId<&str>)
    ensures { TakesText buffer.old (procid_text (procid_value (λ s. shown s) process.entry)) buffer.new }
{
    match process {
        ProcId::PID(number) => put_number(buffer, number),
        ProcId::Name(name) => put(buffer, name),
    }
}

// Writes a space and a process id, or `-` for an absent one.
fn put_process(buffer: &mut Buffer<'_>, process: Option<ProcId<&str>>)
    ensures { TakesText buffer.old
        (32 ∷ process_text (option_map (procid_value (λ s. shown s)) process.entry)) buffer.new }
{
    put(buffer, " ");
    match process {
        Some(process) => put_procid(buffer, process),
        None => put(buffer, "-"),
    }
}

// Writes a space, the app name and the process id as RFC 3164 does, and what ends them.
fn put_tag(buffer: &mut Buffer<'_>, app: Option<&str>, process: Option<ProcId<&str>>)
    ensures { TakesText buffer.old
        (32 ∷ tag_text (seen app.entry) (option_map (procid_value (λ s. shown s)) process.entry)) buffer.new }
{
    let Some(app) = app else {
        return put(buffer, " : ");
    };
    put(buffer, " ");
    put(buffer, app);
    let Some(process) = process else {
        return put(buffer, ": ");
    };
    put(buffer, "[");
    put_procid(buffer, process);
    put(buffer, "]: ")
}

// Writes a parameter, after a space.
fn put_param(buffer: &mut Buffer<'_>, name: &str, value: &str)
    ensures { TakesText buffer.old (param_text (chars name.now, chars value.now)) buffer.new }
{
    put(buffer, " ");
    put(buffer, name);
    put(buffer, "=\"");
    put(buffer, value);
    put(buffer, "\"")
}

fn put_element(buffer: &mut Buffer<'_>, element: &Element<'_>)
    ensures { TakesText buffer.old (element_text (element_seen element.now)) buffer.new }
{
    put(buffer, "[");
    put(buffer, element.id());
    for (name, value) in element.params() {
        put_param(buffer, name, value);
    }
    put(buffer, "]")
}

// Writes the elements one after the other.
fn put_joined(buffer: &mut Buffer<'_>, list: &ElementList<'_>)
    ensures { TakesText buffer.old (joined_elements (list_elements list.now)) buffer.new }
{
    for element in list.elements() {
        put_element(buffer, &element);
    }
}

// Writes the elements, or `-` if there are none.
fn put_list(buffer: &mut Buffer<'_>, list: &ElementList<'_>)
    ensures { TakesText buffer.old (elements_text (list_elements list.now)) buffer.new }
{
    if list.is_empty() {
        return put(buffer, "-");
    }
    put_joined(buffer, list)
}

// Writes the elements and a space, or nothing if there are none.
fn put_spaced_list(buffer: &mut Buffer<'_>, list: &ElementList<'_>)
    ensures { TakesText buffer.old (spaced_elements (list_elements list.now)) buffer.new }
{
    if list.is_empty() {
        return put(buffer, "");
    }
    put_joined(buffer, list);
    put(buffer, " ")
}
