//! The choice of a line, which is read apart from the reading for its object.
ghost use Rattle.std.specs.Prelude.{◌≡◌, MatchOption, Some};
ghost use Rattle.syslog_json.specs.Objects.{IsAskedFor, IsLeftOut, unwritten};

use crate::objects::Objects;
use syslog_choice::{Choice, sent_apart};

impl Objects<'_> {
    /// Returns whether the line is a message, if messages are chosen and it is not one of them; and none if it is asked
    /// for.
    #[inline(always)]
    pub(crate) fn left_out(&self, line: &str) -> Option<bool>
        ensures { MatchOption result (IsAskedFor self.now line.now)
            (λ is_message. IsLeftOut self.now line.now (unwritten is_message)) }
    {
        match &self.choice {
            Some(choice) => self.not_chosen(choice, line),
            None => None,
        }
    }

    // Returns whether the line is a message, if it is left out by this choice. It is a call, so that each line pays one
    // test alone if nothing is chosen.
    #[cold]
    #[inline(never)]
    fn not_chosen(&self, choice: &Choice<'_>, line: &str) -> Option<bool>
        requires { self.now.choice ≡ Some choice.now }
        ensures { MatchOption result (IsAskedFor self.now line.now)
            (λ is_message. IsLeftOut self.now line.now (unwritten is_message)) }
    {
        match sent_apart(line, &self.dates, self.dialects) {
            Some(found) => {
                if choice.is_chosen(&found.line) {
                    None
                } else {
                    Some(true)
                }
            }
            None => Some(false),
        }
    }
}
