//! The ids of the elements before. The first few are compared one by one, without allocating.
ghost use Rattle.std.specs.Prelude.{◌≡◌, ◌++◌, ◌∷◌, [], false, true, IfOk, List, MatchBool, map};
ghost use Rattle.std.specs.Str.{chars};
ghost use Rattle.syslog_text.specs.Pieces.Class.{Text};
ghost use Rattle.syslog_text.specs.Pieces.View.{shown};
ghost use Rattle.syslog_strict.specs.Conversion.{is_among};
ghost use Rattle.syslog_strict.specs.Ids.{HasSeen};

use arrayvec::ArrayVec;
use std::alloc::{AllocError, Global};
use std::collections::BTreeSet;
use syslog_text::as_str::is_same_text;

/// The ids of the elements before.
#[derive(Drop)]
pub(crate) struct Ids<'a> {
    few: ArrayVec<&'a str, 8>,
    many: BTreeSet<&'a str>,
}

impl<'a> Ids<'a> {
    /// Returns an empty set of ids.
    #[tactic(auto, using(crate::proofs::ValidLemmas::seen_none))]
    #[inline(always)]
    pub(crate) fn new(alloc: Global) -> Ids<'a>
        ensures { HasSeen result [] }
    {
        Ids {
            few: ArrayVec::new(),
            many: BTreeSet::new(alloc),
        }
    }

    /// Adds the id, and returns whether it is a new one.
    #[inline(always)]
    pub(crate) fn insert(&mut self, id: &'a str) -> Result<bool, AllocError>
        ensures { (seen : List Text) → HasSeen self.old seen
            → IfOk result (λ is_new. MatchBool is_new
            ((is_among (chars id.entry.now) seen ≡ false) × HasSeen self.new (seen ++ chars id.entry.now ∷ []))
            (is_among (chars id.entry.now) seen ≡ true)) }
    {
        if is_one_of(self.few.as_slice(), id) {
            return Ok(false);
        }
        if !self.few.is_full() {
            self.few.push(id);
            return Ok(true);
        }
        match self.many.insert(id) {
            Ok(is_new) => Ok(is_new),
            Err(_) => Err(AllocError),
        }
    }
}

// Whether the id is one of these.
#[inline(always)]
fn is_one_of(ids: &[&str], id: &str) -> bool
    ensures { result ≡ is_among (chars id.now) (map (λ s. shown s) ids.now) }
{
    for other in ids {
        if is_same_text(other, &id) {
            return true;
        }
    }
    false
}
