//! Readers of the small pieces between words: each returns the text after its piece, and none if the text does not
//! begin with it. The forms are made of them and of the readers of names and dates.
ghost use Rattle.std.specs.Prelude.{◌∷◌, [], chars, codes};
ghost use Rattle.std.specs.Char.{is_ascii_digit};
ghost use Rattle.syslog_text.specs.Pieces.Class.{Front, exactly, run, some_run};
ghost use Rattle.syslog_text.specs.Pieces.View.{Recognises, shown};
ghost use Rattle.syslog_text.specs.Text.{colon as colon_text, is_blank};
ghost use Rattle.syslog_sent.specs.Runs.{is_plain_char, is_word_char};

use crate::named::{number, past};
use crate::runs::{Run, split_some};
use syslog_text::text::{blanks, literal, some_blanks};

/// A space.
pub fn space(text: &str) -> Option<&str>
    ensures { Recognises (exactly (32 ∷ [])) (chars text.now) result }
{
    literal(text, ' ')
}

/// Two spaces.
pub fn two_spaces(text: &str) -> Option<&str>
    ensures { Recognises (exactly (32 ∷ 32 ∷ [])) (chars text.now) result }
{
    past(text, "  ")
}

/// One blank or more.
pub fn gap(text: &str) -> Option<&str>
    ensures { Recognises (some_run is_blank) (chars text.now) result }
{
    some_blanks(text)
}

/// Any number of blanks, which may be none.
pub fn past_blanks(text: &str) -> &str
    ensures { (v : Unit {0}) × Front (run is_blank) (chars text.now) (shown result) v }
{
    blanks(text)
}

/// A colon.
pub fn colon(text: &str) -> Option<&str>
    ensures { Recognises (exactly colon_text) (chars text.now) result }
{
    literal(text, ':')
}

/// A comma.
pub fn comma(text: &str) -> Option<&str>
    ensures { Recognises (exactly (44 ∷ [])) (chars text.now) result }
{
    literal(text, ',')
}

/// A dot.
pub fn dot(text: &str) -> Option<&str>
    ensures { Recognises (exactly (46 ∷ [])) (chars text.now) result }
{
    literal(text, '.')
}

/// `<`.
pub fn open_angle(text: &str) -> Option<&str>
    ensures { Recognises (exactly (60 ∷ [])) (chars text.now) result }
{
    literal(text, '<')
}

/// `>`.
pub fn close_angle(text: &str) -> Option<&str>
    ensures { Recognises (exactly (62 ∷ [])) (chars text.now) result }
{
    literal(text, '>')
}

/// `[`.
pub fn bracket(text: &str) -> Option<&str>
    ensures { Recognises (exactly (91 ∷ [])) (chars text.now) result }
{
    literal(text, '[')
}

/// `]`.
pub fn close_bracket(text: &str) -> Option<&str>
    ensures { Recognises (exactly (93 ∷ [])) (chars text.now) result }
{
    literal(text, ']')
}

/// `]` and a colon.
pub fn close_tag(text: &str) -> Option<&str>
    ensures { Recognises (exactly (codes "]:")) (chars text.now) result }
{
    past(text, "]:")
}

/// One digit or more.
pub fn digits(text: &str) -> Option<&str>
    ensures { Recognises (some_run is_ascii_digit) (chars text.now) result }
{
    let (_, rest) = number(text)?;
    Some(rest)
}

/// A word of letters, digits, `!` and `-`.
pub fn plain_word(text: &str) -> Option<&str>
    ensures { Recognises (some_run is_plain_char) (chars text.now) result }
{
    let (_, rest) = split_some(text, Run::Plain)?;
    Some(rest)
}

/// A word of letters, digits, `-`, `.`, `/` and `_`.
pub fn name_word(text: &str) -> Option<&str>
    ensures { Recognises (some_run is_word_char) (chars text.now) result }
{
    let (_, rest) = split_some(text, Run::Word)?;
    Some(rest)
}
