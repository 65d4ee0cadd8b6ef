//! How dates that show no year or no zone are completed, as one value.
ghost use Rattle.syslog_loose.specs.Today.{HasYear, HasYear-prop};

use crate::reckoning::zone_ahead;
use crate::today::Today;
use crate::variant::IncompleteDate;
use jiff::tz::TimeZone;

/// How dates that show no year or no zone are completed.
#[derive(Drop)]
pub struct Dates {
    /// What is known of the current day, by which dates that show no year get one.
    pub today: Today,
    /// The zone of dates that show none.
    pub zone: TimeZone<'static>,
    pub ghost has_year: { HasYear today } by { HasYear-prop today },
}

impl Dates {
    ghost use Rattle.std.specs.Prelude.{◌≡◌};
    ghost use Rattle.jiff.specs.Words.{IsOffsetSeconds, plain_zone};
    ghost use Rattle.syslog_loose.specs.{Reckoning.IsZoneAt, Today.HasYear, Today.IsYearIn};

    /// Returns a `Dates` for this current day and this zone.
    pub fn new(today: Today, zone: TimeZone<'static>) -> Dates
        requires { HasYear today }
        ensures today { result.today ≡ today }
        ensures zone { plain_zone result.zone ≡ plain_zone zone.entry }
    {
        Dates { today, zone }
    }

    /// Returns a `Dates` for this current day, and for the zone that is `offset` seconds ahead of UTC.
    pub fn ahead(today: Today, offset: i32) -> Dates
        requires today { HasYear today }
        requires offset { IsOffsetSeconds offset }
        ensures today { result.today ≡ today }
        ensures zone { IsZoneAt offset (plain_zone result.zone) }
    {
        let Some(zone) = zone_ahead(offset) else {
            unreachable!()
        };
        Dates::new(today, zone)
    }

    /// Returns the year of a date that shows none, by what is known of the current day.
    #[inline]
    pub fn year_of(&self, date: IncompleteDate) -> i32
        ensures { IsYearIn self.now.today date result }
    {
        self.today.year_of(date)
    }
}
