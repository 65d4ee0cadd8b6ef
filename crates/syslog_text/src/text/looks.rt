//! What the first bytes of a text, or its last one, say without a scan.
ghost use Rattle.std.specs.Prelude.{◌≡◌, ◌≢◌, ◌↔◌, ℕ, List, ◌∷◌, ◌++◌, [], IsTrue, MatchBool, drop};
ghost use Rattle.syslog_text.specs.Bodies.Looks as spec;

/// Whether this byte begins the bytes.
#[inline(always)]
pub(crate) fn begins_with(bytes: &[u8], byte: u8) -> bool
    ensures { MatchBool result (bytes.now ≡ byte ∷ drop 1 bytes.now) ((more : List ℕ) → bytes.now ≢ byte ∷ more) }
{
    matches!(bytes, [first, ..] if *first == byte)
}

/// Whether a byte that is no blank begins the bytes.
#[inline(always)]
pub(crate) fn begins_visibly(bytes: &[u8]) -> bool
    ensures { IsTrue result → spec.BeginsVisibly bytes.now }
{
    matches!(bytes, [first, ..] if *first > b' ')
}

/// Whether a space begins the bytes, and a byte that is no blank follows it.
#[inline(always)]
pub(crate) fn begins_with_gap(bytes: &[u8]) -> bool
    ensures { IsTrue result → spec.BeginsWithGap bytes.now }
{
    matches!(bytes, [b' ', next, ..] if *next > b' ')
}

/// Returns whether no sign and no zero is before a further byte.
#[inline(always)]
pub fn leads_bare(bytes: &[u8]) -> bool
    ensures { IsTrue result ↔ spec.LeadsBare bytes.now }
{
    !matches!(bytes, [b'+' | b'-' | b'0', _, ..])
}

/// Returns whether a minus and a digit other than zero begin the bytes.
#[inline(always)]
pub fn begins_negative(bytes: &[u8]) -> bool
    ensures { IsTrue result ↔ spec.BeginsNegative bytes.now }
{
    matches!(bytes, [b'-', b'1'..=b'9', ..])
}

/// Returns whether the last byte is a colon.
#[inline(always)]
pub fn ends_in_colon(bytes: &[u8]) -> bool
    ensures { MatchBool result ((front : List ℕ) × (bytes.now ≡ front ++ (58 ∷ [])))
        ((front : List ℕ) → bytes.now ≢ front ++ (58 ∷ [])) }
{
    matches!(bytes, [.., b':'])
}

/// Returns whether an ASCII digit begins the bytes.
#[inline(always)]
pub fn begins_with_digit(bytes: &[u8]) -> bool
    ensures { MatchBool result (¬ (spec.EndsDigits bytes.now)) (spec.EndsDigits bytes.now) }
{
    matches!(bytes, [b'0'..=b'9', ..])
}
