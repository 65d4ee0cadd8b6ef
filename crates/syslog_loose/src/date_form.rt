//! What a line shows of its date.
//!
//! **Rule.** It is this project's own choice: whoever completes dates by a rule of its own has to know what was missing.
ghost use Rattle.std.specs.Prelude.{◌≡◌, Some};
ghost use Rattle.syslog_loose.specs.DateForm.{date_form};

use syslog_pieces::timestamp::month_date::MonthDate;

/// The form of the date that a line shows.
#[derive(Clone, Copy, Debug)]
pub enum DateForm {
    /// A date of RFC 3164 without a year. It shows no offset either.
    Yearless,
    /// A date of RFC 3164 with a year. It shows no offset.
    Dated,
    /// A date with a year and an offset, or none.
    Whole,
}

/// Returns the form of a month date.
#[inline(always)]
pub(crate) fn form_of(date: MonthDate) -> DateForm
    ensures { result ≡ date_form (Some date) }
{
    match date.year {
        Some(_) => DateForm::Dated,
        None => DateForm::Yearless,
    }
}
