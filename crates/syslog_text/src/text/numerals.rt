//! The numbers that runs of digits write.
ghost use Rattle.std.specs.Prelude.{◌<◌, ◌^◌, IfSome, SomeIff, length, chars};
ghost use Rattle.syslog_text.specs.Words.{is_ascii_digit, Each};
ghost use Rattle.std.specs.Str.Parse.{digits_value};
ghost use Rattle.syslog_text.specs.Bodies.Looks.{IsSmallNumber};

use crate::text::looks::begins_with_digit;

/// The number that a run of digits writes, where it has 32 bits.
#[tactic(auto, using(crate::proofs::TextLemmas::Words::parsed_digits))]
#[inline(never)]
pub(crate) fn number_of_digits(digits: &str) -> Option<u32>
    requires { Each is_ascii_digit (chars digits.now) }
    ensures { SomeIff result ((0 < length digits.now) × (digits_value 10 digits.now < 2 ^ 32))
        (digits_value 10 digits.now) }
{
    digits.parse::<u32>().ok()
}

/// The number of one to three digits at the front, before none, and the bytes after it.
#[inline(always)]
pub(crate) fn small_digits(bytes: &[u8]) -> Option<(u32, &[u8])>
    ensures { IfSome result (λ read. IsSmallNumber bytes.now read.0 read.1.now) }
{
    match bytes {
        [a @ b'0'..=b'9', rest @ ..] if !begins_with_digit(rest) => Some((
            u32::from(*a - b'0'),
            rest,
        )),
        [a @ b'0'..=b'9', b @ b'0'..=b'9', rest @ ..] if !begins_with_digit(rest) => {
            Some((u32::from(*a - b'0') * 10 + u32::from(*b - b'0'), rest))
        }
        [a @ b'0'..=b'9', b @ b'0'..=b'9', c @ b'0'..=b'9', rest @ ..]
            if !begins_with_digit(rest) => {
            let tens = u32::from(*a - b'0') * 10 + u32::from(*b - b'0');
            Some((tens * 10 + u32::from(*c - b'0'), rest))
        }
        _ => None,
    }
}
