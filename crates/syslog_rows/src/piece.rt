//! What one piece of a line reads at the front of a text, and what it leaves.
use crate::bad_row;
use crate::setting::Setting;
use crate::sheet::Sheet;
use std::io;
use std::io::Write;
use syslog_elements::structured_data::rfc3164_list::{DashRule, begins_list};
use syslog_elements::structured_data::{NoElements, visit_forgiving_list, visit_rfc3164_list};
use syslog_loose::{ElementList, ProcId};
use syslog_pieces::pri::optional_priority;
use syslog_pieces::timestamp::month_date::{MonthDate, month_date};
use syslog_pieces::timestamp::zone::{Dating, month_stamp};
use syslog_pieces::timestamp::{ClockStamp, header_stamp};
use syslog_text::text::{
    Field, blanks, host, host_field, number, some_blanks, tag_field, tag_word, trimmed, word,
};

fn word_of<'a>(read: (Field<'a>, &'a str)) -> Option<(Option<&'a str>, &'a str)> {
    match read.0 {
        Field::Name(name) => Some((Some(name), read.1)),
        Field::Dash => Some((None, read.1)),
        Field::Missing => None,
    }
}

// The timestamp at the front of a header of RFC 3164, as the calls read it.
fn stamp_at<'a>(text: &'a str, setting: &Setting) -> Option<(Option<ClockStamp>, &'a str)> {
    let Some((date, left)) = month_date(text) else {
        return header_stamp(text);
    };
    let tuple = (date.month, date.day, date.hour, date.minute, date.second);
    let dating = Dating {
        year: Some(setting.year_of(tuple)),
        tz: setting.tz.as_ref(),
        local: &setting.local,
    };
    Some((Some(month_stamp(date, &dating)?), left))
}

impl<W: Write> Sheet<'_, '_, W> {
    // What is left; or that nothing is read.
    fn write_left(&mut self, left: Option<&str>) -> io::Result<()> {
        match left {
            Some(left) => self.line("left", Some(left)),
            None => writeln!(self.out, "no"),
        }
    }

    // A word and what is left: a dash has neither a word nor nothing.
    fn write_word(&mut self, read: Option<(Option<&str>, &str)>) -> io::Result<()> {
        match read {
            Some((Some(word), _)) => self.line("reads", Some(word))?,
            Some((None, _)) => writeln!(self.out, "reads a dash")?,
            None => (),
        }
        self.write_left(read.map(|it| it.1))
    }

    fn write_priority(&mut self, text: &str) -> io::Result<()> {
        match optional_priority(text) {
            (Some(number), left) => self.write_number(Some((u32::from(number), left))),
            (None, left) if left == text => self.write_left(None),
            _ => Err(bad_row()),
        }
    }

    fn write_number(&mut self, read: Option<(u32, &str)>) -> io::Result<()> {
        if let Some((number, _)) = read {
            writeln!(self.out, "reads: {number}")?;
        }
        self.write_left(read.map(|it| it.1))
    }

    fn write_date(&mut self, text: &str) -> io::Result<()> {
        let Some((date, left)) = month_date(text) else {
            return self.write_left(None);
        };
        let MonthDate {
            year,
            month,
            day,
            hour,
            minute,
            second,
        } = date;
        write!(self.out, "reads:")?;
        if let Some(year) = year {
            write!(self.out, " year {year},")?;
        }
        writeln!(self.out, " {month} {day} {hour} {minute} {second}")?;
        self.write_left(Some(left))
    }

    fn write_stamp(&mut self, clock: Option<ClockStamp>, left: &str) -> io::Result<()> {
        match clock {
            Some(clock) => {
                let stamp = clock.stamp();
                let seconds = stamp.instant.as_second();
                writeln!(
                    self.out,
                    "reads: {stamp}, {seconds} seconds after 1970 began"
                )?;
            }
            None => writeln!(self.out, "reads a dash")?,
        }
        self.write_left(Some(left))
    }

    fn write_header_stamp(&mut self, text: &str) -> io::Result<()> {
        match header_stamp(text) {
            Some((clock, left)) => self.write_stamp(clock, left),
            None => self.write_left(None),
        }
    }

    fn write_dated_stamp(&mut self, text: &str, setting: &Setting) -> io::Result<()> {
        match stamp_at(text, setting) {
            Some((clock, left)) => self.write_stamp(clock, left),
            None => self.write_left(None),
        }
    }

    fn write_list(&mut self, read: Option<(ElementList<'_>, &str)>) -> io::Result<()> {
        let Some((list, left)) = read else {
            return self.write_left(None);
        };
        let elements = list.collect(self.alloc)?;
        self.write_elements(elements.as_slice())?;
        let printed = list.to_string(self.alloc)?;
        self.line("prints", Some(printed.as_str()))?;
        if list.is_printed() {
            writeln!(self.out, "in printed form: yes")?;
        }
        self.write_left(Some(left))
    }

    fn write_optional(&mut self, text: &str, rule: DashRule) -> io::Result<()> {
        let (list, left) = visit_rfc3164_list(text, rule, &mut NoElements);
        if begins_list(text, rule) == list.text().is_empty() {
            return Err(bad_row());
        }
        if list.text().is_empty() && left == text {
            return self.write_left(None);
        }
        self.write_list(Some((list, left)))
    }

    /// Writes what the piece reads at the front of a text.
    pub fn write_piece(&mut self, piece: &str, text: &str, setting: &Setting) -> io::Result<()> {
        if let Some(limit) = piece.strip_prefix("number up to ") {
            return self.write_number(number(text, limit.parse().map_err(|_| bad_row())?));
        }
        match piece {
            "priority" => self.write_priority(text),
            "trimmed" => self.write_left(Some(trimmed(text))),
            "blanks or none" => self.write_left(Some(blanks(text))),
            "blanks" => self.write_left(some_blanks(text)),
            "host" => self.write_word(host(text)),
            "word" => self.write_word(word(text)),
            "tag word" => self.write_word(tag_word(text)),
            "space and host" => self.write_word(word_of(host_field(text))),
            "space and tag" => self.write_word(word_of(tag_field(text))),
            "process id" => self.write_process(&ProcId::from(text)),
            "month date" => self.write_date(text),
            "timestamp" => self.write_header_stamp(text),
            "timestamp of RFC 3164" => self.write_dated_stamp(text, setting),
            "forgiving list" => self.write_list(visit_forgiving_list(text, &mut NoElements)),
            "list of RFC 3164" => self.write_optional(text, DashRule::BeforeBlank),
            "list of the Rust crate" => self.write_optional(text, DashRule::BeforeAnything),
            _ => Err(bad_row()),
        }
    }
}
