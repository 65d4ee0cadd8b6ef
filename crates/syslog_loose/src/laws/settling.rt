//! Why printing and reading a line again and again leads to a stable text.
ghost use Rattle.std.specs.Prelude.{◌≡◌, ◌≢◌, ◌⊎◌, ◌<◌, ◌≤◌};
ghost use Rattle.syslog_loose.specs.Words.{ℕ, suc, length, IfSome, Text, Dating, DashRule, BeforeBlank};
ghost use Rattle.syslog_loose.specs.Clauses.{HasNoColon, MessageValue, HasRank, Prints, printed, IsRead3164, Weighs};

/// If the printed text of a message of RFC 3164 is read as a message that prints otherwise, the new message weighs
/// less, whatever the years and zones of the two readings. By the Rust crate's rule of the dash this holds but for
/// process names with a colon: `- [:--]` comes to weigh more.
pub fn read_again_weighs_less()
    ensures { (rule : DashRule) (first second : Dating) (text : Text) (m n : MessageValue) (w v : ℕ)
        → (rule ≡ BeforeBlank) ⊎ IfSome m.procid HasNoColon
        → IsRead3164 rule first text m → IsRead3164 rule second (printed m) n → printed n ≢ printed m
        → Weighs rule m w → Weighs rule n v → v < w }
{}

/// A message that was read as RFC 3164 weighs no more than its text has characters.
pub fn read_weighs_no_more_than_its_text()
    ensures { (rule : DashRule) (dating : Dating) (text : Text) (m : MessageValue) (w : ℕ)
        → IsRead3164 rule dating text m → Weighs rule m w → w ≤ length text }
{}

/// The message that is read from the text of one pass has a lower rank than the message before that pass. A rank is at
/// most 5, and 0 if the message has no quirk, so `settle` makes at most six passes.
pub fn each_pass_lowers_the_rank()
    ensures falls { (first second : Dating) (text : Text) (m later n : MessageValue) (rank : ℕ) → Prints m later
        → IsRead3164 BeforeBlank first text later → IsRead3164 BeforeBlank second (printed later) n
        → HasRank (suc rank) m → HasRank rank n }
    ensures highest { (m : MessageValue) → HasRank 5 m }
{}

/// A message has one weight, and no more than one.
#[tactic(auto, using(crate::proofs::SettlingLemmas::Weights::once, crate::proofs::SettlingLemmas::Weights::weight))]
pub fn one_weight()
    ensures once { (rule : DashRule) (m : MessageValue) (w v : ℕ) → Weighs rule m w → Weighs rule m v → w ≡ v }
    ensures some { (rule : DashRule) (m : MessageValue) → (w : ℕ) × Weighs rule m w }
{}
