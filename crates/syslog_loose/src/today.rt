//! What is known of the current day, from which a date that shows no year gets one.
ghost use Rattle.syslog_loose.specs.Today.{HasYear, IsYearIn};

use crate::reckoning::{latest_year, reckon_year};
use crate::variant::IncompleteDate;
use jiff::civil::Date;

/// What is known of the current day: how dates that show no year get one. Years are from -9999 to 9999.
#[derive(Clone, Copy)]
pub enum Today {
    /// The year: each date is of this year.
    Year(i32),
    /// The year and the month, from 1 to 12: in January a date of December is of the year before.
    Month(i32, u32),
    /// The day: a date is of the last year that puts it no more than a day past this day.
    Day(Date),
}

impl Today {
    /// Returns the year of a date that shows none. It is 10,000 if by `Day` no year has the date, as `Feb 30`.
    #[inline]
    pub(crate) fn year_of(self, date: IncompleteDate) -> i32
        ensures { HasYear self → IsYearIn self date result }
    {
        match self {
            Today::Year(year) => year,
            Today::Month(year, month) => reckon_year(year, Some(month), date),
            Today::Day(day) => latest_year(day, date),
        }
    }
}
