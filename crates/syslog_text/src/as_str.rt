//! The trait of types whose values are texts, under which messages are generic.
ghost use Rattle.std.specs.Prelude.{◌≡◌, ℕ, List, nat_eq, string_bytes, refl};
ghost use Rattle.std.specs.Cmp.Lexicographic.{pointwise, slice_cmp};
ghost use Rattle.std.specs.Ordering.{nat_cmp};
ghost use Rattle.syslog_text.specs.Pieces.{text_eq, text_of};

/// A type whose values are texts, and whose equality and order are those of the texts: `AsRef<str>` does not promise
/// that.
pub trait AsStr: Ord {
    // The bytes of the text.
    ghost text: { Self → List ℕ };

    /// Returns the text, without allocating.
    fn as_str(&self) -> &str
        ensures { result.now ≡ text self.now };

    ghost eq_by_text: { (x y : Self) → Self.eq x y ≡ pointwise nat_eq (text x) (text y) };

    ghost cmp_by_text: { (x y : Self) → Self.cmp x y ≡ slice_cmp nat_cmp (text x) (text y) };
}

/// Returns whether two values are the same text, without allocating.
pub fn is_same_text<S: AsStr>(a: &S, b: &S) -> bool
    ensures { result ≡ text_eq (text_of S.text a.now) (text_of S.text b.now) }
{
    a.as_str() == b.as_str()
}

impl AsStr for &str {
    ghost text = { λ s. s.now };

    ghost eq_by_text = { λ x y. refl };

    ghost cmp_by_text = { λ x y. refl };

    fn as_str(&self) -> &str {
        *self
    }
}

impl AsStr for String {
    ghost text = { λ s. string_bytes s };

    ghost eq_by_text = { λ x y. refl };

    ghost cmp_by_text = { λ x y. refl };

    fn as_str(&self) -> &str {
        String::as_str(self)
    }
}
