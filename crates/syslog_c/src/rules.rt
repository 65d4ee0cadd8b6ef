//! What the options of a caller in C mean.
ghost use Rattle.std.specs.Prelude.{◌≡◌, ◌↔◌, ◌<◌, ◌≤◌, IsTrue, MatchBool, MatchOption, length, pos};
ghost use Rattle.jiff.specs.Types.{Date as AnyDate, TimeZone as AnyZone};
ghost use Rattle.jiff.specs.Words.{IsYmd, plain_zone};
ghost use Rattle.jiff_core.specs.Calendar.{IsYear};
ghost use Rattle.syslog_loose.specs.declared.dates.Dates.{Dates as AllDates};
ghost use Rattle.syslog_loose.specs.declared.today.Today.{Today as AnyToday};
ghost use Rattle.syslog_loose.specs.declared.variant.Variant.{Variant};
ghost use Rattle.syslog_loose.specs.Today.{HasYear};
ghost use Rattle.syslog_c.specs.Options.{AreDates, IsTextIn, IsToday, IsZoneBy, IsZoneOf, variant_number};

use crate::options::Options;
use memchr::memchr;
use syslog_loose::{Date, Dates, TimeZone, Today, Variant, zone_ahead, zone_of_rule};
use syslog_utf8::from_utf8;

/// How a line is read: by which variant, how its dates are completed, and whether in the dialect that it is in.
#[derive(Drop)]
pub(crate) struct Rules {
    pub(crate) dates: Dates,
    pub(crate) variant: Variant,
    pub(crate) dialects: bool,
}

impl Rules {
    ghost use Rattle.std.specs.Prelude.{IsTrue};
    ghost use Rattle.syslog_c.specs.Options.{AreRules, IsTaken};

    /// Returns rules for `take` to replace: they are those of options that are all 0.
    #[inline(always)]
    pub(crate) fn new() -> Rules {
        Rules {
            variant: Variant::Either,
            dates: Dates::new(Today::Year(0), TimeZone::UTC),
            dialects: true,
        }
    }

    /// Takes the rules that the options say, and returns true; returns false if they say none. (Rules that are returned
    /// are copied, and each line pays for that.)
    #[inline(always)]
    pub(crate) fn take(&mut self, options: &Options) -> bool
        ensures taken { IsTrue result → AreRules options.now self.new }
        ensures refused { ¬ (IsTrue result) → IsTaken options.now → ⊥ }
    {
        let Some(variant) = variant_of(options.variant) else {
            return false;
        };
        let Some(today) = month_of(options) else {
            return false;
        };
        let Some(zone) = zone_ahead(options.offset) else {
            return false;
        };
        self.variant = variant;
        self.dates = Dates::new(today, zone);
        self.dialects = options.no_dialects == 0;
        if options.day == 0 && options.zone[0] == 0 {
            return true;
        }
        take_dates(options, &mut self.dates)
    }
}

// Takes the dates that the options say, which may have a day or the rule of a zone, and returns true; returns false if
// they say none. (Space for dates that are returned would be cleared for each line.)
#[cold]
#[inline(never)]
fn take_dates(options: &Options, dates: &mut Dates) -> bool
    ensures { MatchBool result (AreDates options.now dates.new) ((dates : AllDates) → AreDates options.now dates → ⊥) }
{
    match dates_of(options) {
        Some(found) => {
            *dates = found;
            true
        }
        None => false,
    }
}

// Returns how the options say that dates are completed.
fn dates_of(options: &Options) -> Option<Dates>
    ensures { MatchOption result ((dates : AllDates) → AreDates options.now dates → ⊥)
        (λ dates. AreDates options.now dates) }
{
    let today = today_of(options)?;
    let Some(zone) = zone_of(options) else {
        return None;
    };
    Some(Dates::new(today, zone))
}

// The variant that has this number.
fn variant_of(number: u32) -> Option<Variant>
    ensures { MatchOption result ((variant : Variant) → number ≡ variant_number variant → ⊥)
        (λ variant. number ≡ variant_number variant) }
{
    match number {
        0 => Some(Variant::Either),
        3164 => Some(Variant::RFC3164),
        5424 => Some(Variant::RFC5424),
        _ => None,
    }
}

// Returns what the options say of the current day: the day, or its month, or its year alone.
fn today_of(options: &Options) -> Option<Today>
    ensures { MatchOption result ((today : AnyToday) → IsToday options.now today → ⊥)
        (λ today. IsToday options.now today) }
{
    if options.day != 0 {
        return Some(Today::Day(day_of(options)?));
    }
    month_of(options)
}

// Returns what options without a day say of the current one: its month, or its year alone.
fn month_of(options: &Options) -> Option<Today>
    ensures { MatchOption result (¬ (IsYear options.now.year × (options.now.month ≤ 12)))
        (λ today. HasYear today × (options.now.day ≡ 0 → IsToday options.now today)) }
{
    if !are_in_range(options) {
        return None;
    }
    if options.month == 0 {
        return Some(Today::Year(options.year));
    }
    Some(Today::Month(options.year, options.month))
}

// Returns the day that the options name, if the calendar has it.
fn day_of(options: &Options) -> Option<Date>
    ensures { MatchOption result
        ((date : AnyDate) → IsYmd options.now.year (pos options.now.month) (pos options.now.day) date → ⊥)
        (λ date. IsYmd options.now.year (pos options.now.month) (pos options.now.day) date) }
{
    let year = i16::try_from(options.year).ok()?;
    let month = i8::try_from(options.month).ok()?;
    let day = i8::try_from(options.day).ok()?;
    Date::new(year, month, day).ok()
}

// Whether the calendar has the year, and the month is that of a year, or none.
fn are_in_range(options: &Options) -> bool
    ensures { IsTrue result ↔ (IsYear options.now.year × (options.now.month ≤ 12)) }
{
    options.year >= -9999 && (options.year <= 9999 && options.month <= 12)
}

// Returns the zone that the options say.
fn zone_of(options: &Options) -> Option<TimeZone<'static>>
    ensures { MatchOption result ((zone : AnyZone) → IsZoneOf options.now zone → ⊥)
        (λ zone. IsZoneOf options.now (plain_zone zone)) }
{
    let rule = text_in(&options.zone);
    if rule.is_empty() {
        return zone_ahead(options.offset);
    }
    zone_by(rule, options.offset)
}

// Returns the zone of a rule, if there is no offset beside it.
#[cold]
#[inline(never)]
fn zone_by(rule: &[u8], offset: i32) -> Option<TimeZone<'static>>
    requires { 0 < length rule.now }
    ensures { MatchOption result ((zone : AnyZone) → IsZoneBy rule.now offset zone → ⊥)
        (λ zone. IsZoneBy rule.now offset (plain_zone zone)) }
{
    if offset != 0 {
        return None;
    }
    match from_utf8(rule) {
        Ok(rule) => zone_of_rule(rule),
        Err(_) => None,
    }
}

// Returns the text that C has in the array: the bytes before the first zero byte, or all of them.
fn text_in(array: &[u8]) -> &[u8]
    ensures { IsTextIn array.now result.now }
{
    // (mostly there is no text, and each line pays for this look)
    if !array.is_empty() && array[0] == 0 {
        return &[];
    }
    match memchr(0, array) {
        Some(end) => &array[..end],
        None => array,
    }
}
