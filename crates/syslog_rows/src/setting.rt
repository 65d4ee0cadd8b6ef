//! How the texts of a block are read.
use crate::block::Block;
use syslog_loose::{IncompleteDate, Offset, TimeZone, Timestamp, Variant};

/// What a reading call is given beside the text.
#[derive(Drop)]
pub struct Setting {
    pub variant: Variant,
    /// The year of a date of December that shows none, and of another.
    pub years: (i32, i32),
    pub tz: Option<TimeZone<'static>>,
    pub local: TimeZone<'static>,
    /// The moment of `parse_message`, where that is the call.
    pub now: Option<Timestamp>,
}

impl Setting {
    pub fn year_of(&self, date: IncompleteDate) -> i32 {
        if date.0 == 12 {
            self.years.0
        } else {
            self.years.1
        }
    }
}

fn variant_named(word: &str) -> Option<Variant> {
    match word {
        "either" => Some(Variant::Either),
        "3164" => Some(Variant::RFC3164),
        "5424" => Some(Variant::RFC5424),
        _ => None,
    }
}

fn years_named(value: &str) -> Option<(i32, i32)> {
    let (last, other) = value
        .split_once(" in December, else ")
        .unwrap_or((value, value));
    Some((last.parse().ok()?, other.parse().ok()?))
}

// `UTC`, a number of seconds ahead of it, or a rule of POSIX.
fn zone_named(value: &str) -> Option<TimeZone<'static>> {
    if value == "UTC" {
        return Some(TimeZone::UTC);
    }
    if let Some(seconds) = value.strip_suffix(" seconds") {
        let offset = Offset::from_seconds(seconds.parse().ok()?).ok()?;
        return Some(TimeZone::fixed(offset));
    }
    match TimeZone::posix(value) {
        Ok(zone) => Some(zone),
        Err(_) => None,
    }
}

// The zone, none for `none`; and none at all for a value that names none.
fn zone_given(value: &str) -> Option<Option<TimeZone<'static>>> {
    if value == "none" {
        return Some(None);
    }
    Some(Some(zone_named(value)?))
}

fn moment(seconds: Option<&str>) -> Option<Option<Timestamp>> {
    match seconds {
        Some(seconds) => Some(Some(Timestamp::from_second(seconds.parse().ok()?).ok()?)),
        None => Some(None),
    }
}

/// The setting of a block: without a line the variant is `either`, both zones are UTC, and the year is 2019.
pub fn setting_of(block: &Block<'_>) -> Option<Setting> {
    Some(Setting {
        variant: variant_named(block.line("variant").unwrap_or("either"))?,
        years: years_named(block.line("year").unwrap_or("2019"))?,
        tz: zone_given(block.line("tz").unwrap_or("UTC"))?,
        local: zone_named(block.line("local").unwrap_or("UTC"))?,
        now: moment(block.line("now"))?,
    })
}
