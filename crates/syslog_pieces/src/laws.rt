//! Laws over the definitions alone: each function does nothing, and its contract is the law.
ghost use Rattle.std.specs.Prelude.{◌≡◌, ◌↔◌, ℕ, ℤ, ◌<◌, ◌≤ℤ◌, List, Option, Some, nat_eq, IsTrue, IfSome};
ghost use Rattle.syslog_pieces.specs.Words.{nat_cmp, Front, text_of, Ends, ProcId, is_not_whitespace, Text};
ghost use Rattle.syslog_pieces.specs.Words.{nanos_of_fields, IsCanonicalStamp, IsCivilNanos, BeginsWithYear};
ghost use Rattle.syslog_pieces.specs.Words.{printed_stamp, ambiguous_at, civil_fields, Each, AreCivil, IsStampAt};
ghost use Rattle.syslog_pieces.specs.Words.{IsStampText, MonthDate};
ghost use Rattle.jiff.specs.Types.{DateTime, Fold, Offset, TimeZone};
ghost use Rattle.std.specs.declared.cmp.Ordering.TheVariants.{Equal};
ghost use Rattle.syslog_pieces.specs.ProcId.{NamesProcess, named_process, procid_value, IsCanonicalProcess};
ghost use Rattle.syslog_pieces.specs.ProcId.{IsBoundedProcess, process_word, process_text};
ghost use Rattle.syslog_pieces.specs.Pri.{facility_of, severity_of, composed, facility_number, severity_number};
ghost use Rattle.syslog_pieces.specs.Pri.{facility_name, severity_name};
ghost use Rattle.syslog_pieces.specs.Timestamp.Rfc3164.{rfc3164_stamp, ShowsYearless};
ghost use Rattle.syslog_pieces.specs.Timestamp.Rfc3339.{HasStamp};
ghost use Rattle.syslog_pieces.specs.Timestamp.Zone.{Dating, IsStampOf};
ghost use Rattle.syslog_pieces.specs.declared.pri.SyslogFacility.{SyslogFacility};
ghost use Rattle.syslog_pieces.specs.declared.pri.SyslogSeverity.{SyslogSeverity};
ghost use Rattle.syslog_pieces.specs.declared.timestamp.OffsetTimestamp.{OffsetTimestamp};

use crate::pri::{SyslogFacility, SyslogSeverity};
use crate::procid::ProcId;
use crate::timestamp::OffsetTimestamp;
use syslog_text::as_str::AsStr;

/// A priority below 192 is 8 times the number of its facility, plus that of its severity.
#[tactic(auto, using(crate::proofs::PriLemmas::priority_composed))]
pub fn priority_is_composed()
    ensures { (pri : ℕ) → pri < 192 → (facility : SyslogFacility) × (severity : SyslogSeverity)
        × (facility_of pri ≡ Some facility) × (severity_of pri ≡ Some severity) × (composed facility severity ≡ pri) }
{}

/// The process id that is computed from a text is the one that the text names by definition.
#[tactic(auto, using(crate::proofs::ProcIdLemmas::named_names))]
pub fn text_names_computed_process()
    ensures { (text : Text) → NamesProcess text (named_process text) }
{}

/// A text has at most one timestamp of RFC 3339.
pub fn text_has_one_stamp()
    ensures instant { (text : List ℕ) (n o m p : ℤ) → HasStamp text n o → HasStamp text m p → n ≡ m }
    ensures at_offset { (text : List ℕ) (n o m p : ℤ) → HasStamp text n o → HasStamp text m p → o ≡ p }
{}

/// A text shows at most one month date without a year.
pub fn text_shows_one_date()
    ensures { (text : Text) (date other : MonthDate) → ShowsYearless text date → ShowsYearless text other
        → date ≡ other }
{}

/// For a given year and zones, a text has at most one timestamp of RFC 3164 at its front.
pub fn text_has_one_rfc3164_stamp()
    ensures { (dating : Dating) (text rest others : Text) (stamp other : Option OffsetTimestamp)
        → Front (rfc3164_stamp dating) text rest stamp → Front (rfc3164_stamp dating) text others other
        → (rest ≡ others) × (stamp ≡ other) }
{}

/// Where a clock in a zone shows a datetime twice, the offset that jiff names first gives the earlier of the two
/// instants.
#[tactic(auto, using(crate::proofs::TimestampLemmas::Civil::earlier_in_fold))]
pub fn fold_has_its_earlier_instant_first()
    ensures { (tz : TimeZone) (dt : DateTime) (before after : Offset) (s other : OffsetTimestamp)
        → ambiguous_at tz dt ≡ Fold before after → IsStampOf (Fold before after) dt (λ _. ⊥) s
        → IsStampAt dt after other
        → s.instant.nanosecond ≤ℤ other.instant.nanosecond }
{}

/// The civil fields of a count of nanoseconds are a date of the calendar and a time of day, and
/// they lie that many nanoseconds after 1970-01-01T00:00:00.
pub fn printed_fields_are_civil()
    ensures exist { (n : ℤ) → IsCivilNanos n → AreCivil (civil_fields n) }
    ensures count { (n : ℤ) → IsCivilNanos n → nanos_of_fields (civil_fields n) ≡ n }
{}

/// What is printed of a canonical timestamp has it as an RFC 3339 text, and a timestamp that any text has is canonical.
pub fn canonical_stamp_reads_back()
    ensures back { (stamp : OffsetTimestamp) → IsCanonicalStamp stamp
        → IsStampText (printed_stamp stamp.instant.nanosecond stamp.offset.seconds) stamp }
    ensures only { (text : Text) (stamp : OffsetTimestamp) → IsStampText text stamp → IsCanonicalStamp stamp }
{}

/// The printed text of any timestamp begins with a digit, or with `-` and a digit, and no character of it is white
/// space.
#[tactic(auto, using(crate::proofs::TimestampLemmas::Rfc3339::printed_word))]
pub fn printed_stamp_is_one_word()
    ensures begins { (stamp : OffsetTimestamp)
        → BeginsWithYear (printed_stamp stamp.instant.nanosecond stamp.offset.seconds) }
    ensures visible { (stamp : OffsetTimestamp)
        → Each is_not_whitespace (printed_stamp stamp.instant.nanosecond stamp.offset.seconds) }
{}

// When two values are equal, which comes first, and which name is whose.

/// Facilities are equal and ordered by their numbers, and so are severities.
pub fn parts_compare_by_number()
    ensures facility_eq { (a b : SyslogFacility)
        → ⟦<SyslogFacility as PartialEq>⟧.eq a b ≡ nat_eq (facility_number a) (facility_number b) }
    ensures facility_cmp { (a b : SyslogFacility)
        → ⟦<SyslogFacility as Ord>⟧.cmp a b ≡ nat_cmp (facility_number a) (facility_number b) }
    ensures severity_eq { (a b : SyslogSeverity)
        → ⟦<SyslogSeverity as PartialEq>⟧.eq a b ≡ nat_eq (severity_number a) (severity_number b) }
    ensures severity_cmp { (a b : SyslogSeverity)
        → ⟦<SyslogSeverity as Ord>⟧.cmp a b ≡ nat_cmp (severity_number a) (severity_number b) }
{}

/// No two facilities have the same name or the same number, and no two severities do.
pub fn name_is_of_one_value()
    ensures facility { (a b : SyslogFacility) → facility_name a ≡ facility_name b → a ≡ b }
    ensures severity { (a b : SyslogSeverity) → severity_name a ≡ severity_name b → a ≡ b }
    ensures facility_by_number { (a b : SyslogFacility) → facility_number a ≡ facility_number b → a ≡ b }
    ensures severity_by_number { (a b : SyslogSeverity) → severity_number a ≡ severity_number b → a ≡ b }
{}

/// Two process ids are equal exactly when they are the same number, or names with the same text. So this is an
/// equivalence.
pub fn process_ids_are_equal_by_value<S: AsStr>()
    ensures exact { (a b : ProcId S) → IsTrue (⟦<ProcId<S> as PartialEq>⟧.eq a b)
        ↔ (procid_value (text_of S.text) a ≡ procid_value (text_of S.text) b) }
    ensures reflexive { (a : ProcId S) → IsTrue (⟦<ProcId<S> as PartialEq>⟧.eq a a) }
    ensures symmetric { (a b : ProcId S) → IsTrue (⟦<ProcId<S> as PartialEq>⟧.eq a b)
        → IsTrue (⟦<ProcId<S> as PartialEq>⟧.eq b a) }
    ensures transitive { (a b c : ProcId S) → IsTrue (⟦<ProcId<S> as PartialEq>⟧.eq a b)
        → IsTrue (⟦<ProcId<S> as PartialEq>⟧.eq b c) → IsTrue (⟦<ProcId<S> as PartialEq>⟧.eq a c) }
{}

/// Two timestamps are equal exactly when their instants are, whatever the offsets. So this is an equivalence, and the
/// order agrees with it.
pub fn timestamps_are_equal_by_instant()
    ensures exact { (a b : OffsetTimestamp) → IsTrue (⟦<OffsetTimestamp as PartialEq>⟧.eq a b)
        ↔ (a.instant.nanosecond ≡ b.instant.nanosecond) }
    ensures reflexive { (a : OffsetTimestamp) → IsTrue (⟦<OffsetTimestamp as PartialEq>⟧.eq a a) }
    ensures symmetric { (a b : OffsetTimestamp) → IsTrue (⟦<OffsetTimestamp as PartialEq>⟧.eq a b)
        → IsTrue (⟦<OffsetTimestamp as PartialEq>⟧.eq b a) }
    ensures transitive { (a b c : OffsetTimestamp) → IsTrue (⟦<OffsetTimestamp as PartialEq>⟧.eq a b)
        → IsTrue (⟦<OffsetTimestamp as PartialEq>⟧.eq b c) → IsTrue (⟦<OffsetTimestamp as PartialEq>⟧.eq a c) }
    ensures order { (a b : OffsetTimestamp) → IsTrue (⟦<OffsetTimestamp as PartialEq>⟧.eq a b)
        ↔ (⟦<OffsetTimestamp as Ord>⟧.cmp a b ≡ Equal) }
{}

// What is printed of a canonical piece is read back, and what is read is canonical.

/// A printed process id, canonical or absent, is read back before the end or white space, and what is read is a
/// canonical process id, or an absent one.
#[tactic(auto, using(crate::proofs::ProcIdLemmas::processes))]
pub fn canonical_process_is_read_back()
    ensures back { (v : Option (ProcId Text)) (q : Text) → IfSome v IsCanonicalProcess → IfSome v IsBoundedProcess
        → Ends is_not_whitespace q → process_word.Is (process_text v) q v }
    ensures only { (p q : Text) (v : Option (ProcId Text)) → process_word.Is p q v → IfSome v IsCanonicalProcess }
{}
