//! Process ids: a number of 32 bits, or any other text.
//!
//! **Rule.** A text is a number exactly if it is an optional sign and ASCII digits, and the number fits into 32 bits.
//! That is the Rust crate's rule; RFC 5424 section 6.2.6 leaves the form open.
ghost use Rattle.std.specs.Cmp.{on_equiv, on_per, partial_equiv_from_equiv};
ghost use Rattle.syslog_pieces.specs.Words.{on, ProcId, shown, text_of, ClonesKeepText};
ghost use Rattle.std.specs.Prelude.{◌≡◌, ◌↔◌, IfOk, IsTrue, Some, string_bytes, chars, encode_utf8_all};
ghost use Rattle.syslog_pieces.specs.ProcId.Equal.{procid_eq};
ghost use Rattle.syslog_pieces.specs.ProcId.EqualLaws.{procid_equivalence};
ghost use Rattle.syslog_pieces.specs.ProcId as spec;

use std::alloc::{AllocError, Global};
use std::fmt;
use syslog_text::as_str::{AsStr, is_same_text};
use syslog_text::text::canonical::is_canonical_word;
use syslog_text::text::{begins_negative, leads_bare};

/// The process that a message is from, by number or by name.
#[derive(Debug, Drop)]
pub enum ProcId<S> {
    /// A number.
    PID(i32),
    /// A text that does not write a number.
    Name(S),
}

impl<S: AsStr> fmt::Display for ProcId<S> {
    ghost output = { λ p. Some (encode_utf8_all (spec.procid_text (spec.procid_value (text_of S.text) p))) };

    fn fmt<W: fmt::Write>(&self, f: &mut fmt::Formatter<W>) -> fmt::Result {
        match self {
            ProcId::PID(number) => write!(f, "{number}"),
            ProcId::Name(name) => {
                let name = name.as_str();
                f.write_str(name)
            }
        }
    }
}

// A number is equal to no name, not even to a name that writes it.
impl<S: AsStr> PartialEq for ProcId<S> {
    ghost eq = { on (spec.procid_value (text_of S.text)) procid_eq };

    ghost laws = { on_per (spec.procid_value (text_of S.text)) (partial_equiv_from_equiv procid_equivalence) };

    fn eq(&self, other: &ProcId<S>) -> bool {
        match (self, other) {
            (ProcId::PID(a), ProcId::PID(b)) => *a == *b,
            (ProcId::Name(a), ProcId::Name(b)) => is_same_text(a, b),
            _ => false,
        }
    }
}

impl<S: AsStr> Eq for ProcId<S> {
    ghost laws = { on_equiv (spec.procid_value (text_of S.text)) procid_equivalence };
}

impl<S: AsStr + Clone> ProcId<S> {
    /// Returns a copy: the same number, or a clone of the name. It fails only if an allocation does; nothing has
    /// changed then.
    pub fn try_clone(&self, alloc: Global) -> Result<ProcId<S>, AllocError>
        requires { ClonesKeepText S.is_clone S.text }
        ensures { IfOk result (λ copy. spec.procid_value (text_of S.text) copy
            ≡ spec.procid_value (text_of S.text) self.now) }
    {
        // A clone of a name brings its own allocator.
        let _ = alloc;
        match self {
            ProcId::PID(number) => Ok(ProcId::PID(*number)),
            ProcId::Name(name) => Ok(ProcId::Name(name.clone()?)),
        }
    }
}

impl ProcId<&str> {
    /// Returns the process id with a name of its own, so that it can outlive the input. If an allocation fails, nothing
    /// has changed.
    pub fn to_owned_text(&self, alloc: Global) -> Result<ProcId<String>, AllocError>
        ensures { IfOk result (λ copy. spec.procid_value (text_of string_bytes) copy
            ≡ spec.procid_value (λ s. shown s) self.now) }
    {
        match self {
            ProcId::PID(number) => Ok(ProcId::PID(*number)),
            ProcId::Name(name) => Ok(ProcId::Name(String::from_str(alloc, *name)?)),
        }
    }
}

impl<'a> From<&'a str> for ProcId<&'a str> {
    ghost from_gives = { λ text procid. spec.NamesProcess (chars text.now) (spec.procid_value (λ s. shown s) procid) };

    // It is a call, because a reading call asks for the process at two places.
    #[inline(never)]
    fn from(text: &'a str) -> ProcId<&'a str> {
        match text.parse::<i32>() {
            Ok(number) => ProcId::PID(number),
            Err(_) => ProcId::Name(text),
        }
    }
}

/// Returns whether the word, taken as a process id, is printed as it is. Any word is that has no sign and no zero
/// before other characters, so few words are parsed for it.
pub fn is_bare_word(name: &str) -> bool
    ensures { IsTrue result ↔ spec.IsBareWord (chars name.now) }
{
    leads_bare(name.as_bytes()) || prints_as_named(name)
}

// Whether the word is printed as it is, found out by parsing it.
#[cold]
#[inline(never)]
fn prints_as_named(name: &str) -> bool
    ensures { IsTrue result ↔ spec.IsBareWord (chars name.now) }
{
    match ProcId::from(name) {
        ProcId::PID(_) => leads_bare(name.as_bytes()) || begins_negative(name.as_bytes()),
        ProcId::Name(_) => true,
    }
}

/// Returns whether the text writes a signed number of 32 bits, as `5`, `+5` or `-5` do.
pub fn names_number(text: &str) -> bool
    ensures { IsTrue result ↔ (spec.IsNoI32Text (chars text.now) → ⊥) }
{
    matches!(ProcId::from(text), ProcId::PID(_))
}

/// Returns whether the process id is read back from its printed text as the process id of RFC 5424, without allocating.
pub fn is_canonical_process<S: AsStr>(process: &ProcId<S>) -> bool
    ensures { IsTrue result ↔ spec.IsCanonicalProcess (spec.procid_value (text_of S.text) process.now) }
{
    match process {
        ProcId::PID(_) => true,
        ProcId::Name(name) => {
            let name = name.as_str();
            is_canonical_word(name) && !names_number(name)
        }
    }
}
