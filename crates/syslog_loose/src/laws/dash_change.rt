//! What this project's rule of the dash changed. In the Rust crate a dash is a list of RFC 3164 before any text; here
//! it is one only at the end and before a blank.
ghost use Rattle.std.specs.Prelude.{◌↔◌};
ghost use Rattle.syslog_loose.specs.Words.{Text, Dating};
ghost use Rattle.syslog_loose.specs.Clauses.{IsCanonical, ReadsDifferently, HasDashChange, WasCanonical, WasUnreadable};
ghost use Rattle.syslog_loose.specs.Clauses.{MessageValue, dash_rule, IsUnreadable, Variant};

/// A message that is canonical if a dash is a list before any text is canonical by the rule of this project too.
#[tactic(auto, using(crate::proofs::DashChangeLemmas::condition_grows))]
pub fn what_was_canonical_is_so()
    ensures { (m : MessageValue) → WasCanonical m → IsCanonical dash_rule m }
{}

/// A text is read differently under the two rules of the dash exactly if the crate's rule reads it as RFC 3164, takes
/// `-` for its list, and the character after that is no blank.
pub fn readings_differ_where_a_dash_is_dropped()
    ensures { (variant : Variant) (dating : Dating) (text : Text) → ReadsDifferently variant dating text
        ↔ HasDashChange variant dating text }
{}

/// A text parses if a dash before any text is a list of RFC 3164, which is the Rust crate's rule, exactly if it parses
/// by the rule of this project.
pub fn what_was_read_is_read()
    ensures { (variant : Variant) (dating : Dating) (text : Text) → WasUnreadable variant dating text
        ↔ IsUnreadable variant dating text }
{}
