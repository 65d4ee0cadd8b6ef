//! Rounds of a text: round 1 is the printed text of its message, and each further round that of the round before.
ghost use Rattle.std.specs.Prelude.{◌≡◌, ◌+◌};
ghost use Rattle.syslog_loose.specs.Words.{length, Text, Dating, MonthDate, ShowsMonthDate};
ghost use Rattle.syslog_loose.specs.Clauses.{IsBounded, IsCanonical, MessageValue, printed, AsksYear, IsRead};
ghost use Rattle.syslog_loose.specs.Clauses.{dash_rule, IsFirstSettled, IsRound, IsSettled, NoneSettled, Variant};

/// A text has at most one first settled round.
pub fn one_first_settled_round()
    ensures { (variant : Variant) (dating : Dating) (text u x : Text) → IsFirstSettled variant dating text u
        → IsFirstSettled variant dating text x → u ≡ x }
{}

/// The printed text of a message shows no month date, with a year or without. This holds of each message whose numbers
/// have the bounds of their types, read or not.
pub fn printed_text_shows_no_month_date()
    ensures { (m : MessageValue) → IsBounded m → (date : MonthDate) → ShowsMonthDate (printed m) date → ⊥ }
{}

/// The printed text of a message that was read asks for no year, so the year makes a difference in round 1 alone.
#[tactic(auto, using(crate::proofs::ReadBackLemmas::printed_quiet))]
pub fn printed_text_asks_for_no_year()
    ensures { (variant : Variant) (dating : Dating) (text : Text) (m : MessageValue) → IsRead variant dating text m
        → (date : MonthDate) → AsksYear variant (printed m) date → ⊥ }
{}

/// The message of a stable text is canonical.
#[tactic(auto, using(crate::proofs::SettlingLemmas::Settles::settled_canonical))]
pub fn settled_text_is_of_a_canonical_message()
    ensures { (variant : Variant) (dating : Dating) (text : Text) (m : MessageValue) → IsSettled variant dating text
        → IsRead variant dating text m → IsCanonical dash_rule m }
{}

/// Rounds become stable, or one of them does not parse. For a text of n characters, one of the rounds 1 to n + 1 is
/// stable, or there is no round n + 2.
#[tactic(auto, using(crate::proofs::SettlingLemmas::Settles::rests))]
pub fn rounds_come_to_rest()
    ensures { (variant : Variant) (dating : Dating) (text u : Text) → NoneSettled variant dating text (length text + 1)
        → IsRound variant dating text (length text + 2) u → ⊥ }
{}
