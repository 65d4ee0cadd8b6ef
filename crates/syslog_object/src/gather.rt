//! Objects whose keys may be repeated: then the value is an array of all values of the key, at its first place.
ghost use Rattle.std.specs.Prelude.{◌≡◌, ◌<◌, ◌+◌, ◌==◌, ◌++◌, ◌∷◌, [], List, ℕ, OnOk, IfOk, cond, drop, get_or};
ghost use Rattle.std.specs.Prelude.{length, map};
ghost use Rattle.std.specs.Bool.{OnTrue};
ghost use Rattle.json.specs.Json.{Json};
ghost use Rattle.json.specs.Print.{quoted};
ghost use Rattle.syslog_object.specs.Gathered.{gathered, one_or_all, values_at};
ghost use Rattle.syslog_object.specs.Parts.{AreDistinct, IsNewKey, compact_text, object_text, open_text};
ghost use Rattle.syslog_object.specs.Places.{AreNext, ArePlaces, IsMarked, before_member, begun};

use crate::output::Output;
use std::alloc::{AllocError, Global};
use std::collections::BTreeMap;

/// How many keys are compared with each other; if there are more, they are sorted.
const FEW: usize = 16;

/// A member of an object: a key and a value.
pub(crate) trait Member<'a>: Copy {
    // the bytes of the key
    ghost key_of: { Self → List ℕ };

    ghost json: { Self → Json };

    fn key(&self) -> &'a str
        ensures { result.now ≡ key_of self.now };

    /// Appends the text of the value.
    fn push_json(&self, alloc: Global, out: &mut Output) -> Result<(), AllocError>
        ensures { OnOk result (out.new ≡ out.old ++ compact_text (json self.now)) };
}

// Whether none of the members has this key.
#[inline(always)]
fn is_new<'a, M: Member<'a>>(key: &str, members: &[M]) -> bool
    ensures { OnTrue result (IsNewKey key.now (map M.key_of members.now)) }
{
    for member in members {
        if key == member.key() {
            return false;
        }
    }
    true
}

/// Whether the keys are few, and no key is repeated.
#[inline(always)]
pub(crate) fn are_distinct<'a, M: Member<'a>>(members: &[M]) -> bool
    ensures { OnTrue result (AreDistinct (map M.key_of members.now)) }
{
    if members.len() > FEW {
        return false;
    }
    let mut rest = members;
    'members: loop {
        let Some((first, after)) = rest.split_first() else {
            return true;
        };
        if !is_new(first.key(), after) {
            return false;
        }
        rest = after;
    }
}

/// Appends a key and a colon, after a brace if it is the first member and otherwise after a comma.
#[inline(always)]
pub(crate) fn push_key(out: &mut Output, count: usize, key: &str) -> Result<(), AllocError>
    ensures { OnOk result (out.new ≡ out.old ++ (before_member count ∷ (quoted key.now ++ 58 ∷ []))) }
{
    let before = if count == 0 { b'{' } else { b',' };
    out.push_text(&[before, b'"'], key, b"\":")
}

// Appends the closing brace after `count` members, or both braces if there are none.
#[inline(always)]
fn push_end(out: &mut Output, count: usize) -> Result<(), AllocError>
    ensures { OnOk result (out.new ≡ out.old ++ cond (count == 0) (123 ∷ 125 ∷ []) (125 ∷ [])) }
{
    if count == 0 {
        return out.push(b"{}");
    }
    out.push(b"}")
}

/// Appends the members, each key with its value.
#[inline(always)]
pub(crate) fn push_each<'a, M: Member<'a>>(
    alloc: Global,
    out: &mut Output,
    members: &[M],
) -> Result<(), AllocError>
    ensures { OnOk result (out.new
        ≡ out.old ++ object_text (map (λ m. (M.key_of m, M.json m)) members.now)) }
{
    for at in 0..members.len() {
        let member = members[at];
        push_key(out, at, member.key())?;
        member.push_json(alloc, out)?;
    }
    push_end(out, members.len())
}

/// The places of keys among members.
#[derive(Drop)]
struct Places {
    // for each place the next one of its key, or the end
    next: Vec<usize>,
    // for each place whether its key has a place before it
    again: Vec<bool>,
}

// Sets the flag of a place; of the end, which has none, it does nothing.
fn mark(flags: &mut Vec<bool>, place: usize)
    ensures { IsMarked place flags.old.items flags.new.items }
{
    if place < flags.len() {
        flags[place] = true;
    }
}

// Finds the places from the last member to the first, in time n log n.
fn find_places<'a, M: Member<'a>>(alloc: Global, members: &[M]) -> Result<Places, AllocError>
    ensures { IfOk result (λ places. ArePlaces (map (λ m. (M.key_of m, M.json m)) members.now)
        places.next.items places.again.items) }
{
    let end = members.len();
    // the first place of each key from `at` on
    let mut first = BTreeMap::new(alloc);
    let mut next = vec![in alloc; end; end]?;
    let mut again = vec![in alloc; false; end]?;
    let mut at = end;
    'members: while at > 0 {
        at -= 1;
        let later = first.insert(members[at].key(), at)?.unwrap_or(end);
        next[at] = later;
        mark(&mut again, later);
    }
    Ok(Places { next, again })
}

// Appends the values of a key from its first place on: a single one as it is, and several in an array.
fn push_values<'a, M: Member<'a>>(
    alloc: Global,
    out: &mut Output,
    members: &[M],
    next: &[usize],
    first: usize,
) -> Result<(), AllocError>
    requires within { first < length members.now }
    requires next { AreNext (map (λ m. (M.key_of m, M.json m)) members.now) 0 next.now }
    ensures { OnOk result ((p : List ℕ × Json) → p ≡ get_or (map (λ m. (M.key_of m, M.json m)) members.now) first p
        → out.new ≡ out.old ++ compact_text (one_or_all (values_at p.0
        (drop first (map (λ m. (M.key_of m, M.json m)) members.now))))) }
{
    let mut at = next[first];
    if at >= members.len() {
        return members[first].push_json(alloc, out);
    }
    out.push(b"[")?;
    members[first].push_json(alloc, out)?;
    'values: while at < members.len() {
        out.push(b",")?;
        members[at].push_json(alloc, out)?;
        at = next[at];
    }
    out.push(b"]")
}

// Appends the object of members whose keys may be repeated. All values of a key are written at its first place.
#[inline(never)]
fn push_gathered<'a, M: Member<'a>>(
    alloc: Global,
    out: &mut Output,
    members: &[M],
) -> Result<(), AllocError>
    ensures { OnOk result (out.new
        ≡ out.old ++ compact_text (gathered (map (λ m. (M.key_of m, M.json m)) members.now))) }
{
    let places = find_places(alloc, members)?;
    for at in 0..members.len() {
        let member = members[at];
        if places.again[at] {
            continue;
        }
        push_key(out, at, member.key())?;
        push_values(alloc, out, members, places.next.as_slice(), at)?;
    }
    push_end(out, members.len())
}

/// Appends the object of members. A key that is repeated has an array of all its values, at its first place. It
/// allocates only if keys are repeated or are many.
#[inline(always)]
pub(crate) fn push_members<'a, M: Member<'a>>(
    alloc: Global,
    out: &mut Output,
    members: &[M],
) -> Result<(), AllocError>
    ensures { OnOk result (out.new
        ≡ out.old ++ compact_text (gathered (map (λ m. (M.key_of m, M.json m)) members.now))) }
{
    if are_distinct(members) {
        push_each(alloc, out, members)
    } else {
        push_gathered(alloc, out, members)
    }
}
