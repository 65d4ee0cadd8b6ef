//! Laws over the definitions alone: each function does nothing, and its contract is the law.
ghost use Rattle.std.specs.Prelude.{◌≡◌, ◌↔◌};
ghost use Rattle.syslog_loose.specs.Words.{Option, Text, Division, NoFront, Row, Values, ShowsMonthDate, Dating};
ghost use Rattle.syslog_loose.specs.Words.{DashRule, MonthDate, NoDivision, ShowsYearless};
ghost use Rattle.syslog_loose.specs.{Clauses.IsNot5424, Clauses.IsForm, declared.message.Protocol.TheVariants.RFC3164};
ghost use Rattle.syslog_loose.specs.Clauses.{MessageValue, printed, IsRead, IsQuoted, Variant, Names3164, Resolves};
ghost use Rattle.syslog_loose.specs.Clauses.{rfc3164_row, IsRead3164, Quotes3164, stamped_row, rfc5424_row, IsRead5424};

pub mod comparison;
pub mod dash_change;
pub mod read_back;
pub mod rounds;
pub mod settling;

/// Two divisions of one text into the pieces of RFC 5424 are the same list of pieces with the same meanings: the
/// grammar is unambiguous.
pub fn one_rfc5424_division()
    ensures pieces { (text : Text) (vs ws : Values rfc5424_row) (d : Division rfc5424_row text vs)
        (e : Division rfc5424_row text ws) → d.pieces ≡ e.pieces }
    ensures meanings { (text : Text) (vs ws : Values rfc5424_row) → Division rfc5424_row text vs
        → Division rfc5424_row text ws → vs ≡ ws }
{}

/// A text is read as at most one message of RFC 5424.
pub fn one_rfc5424_message()
    ensures { (text : Text) (m n : MessageValue) → IsRead5424 text m → IsRead5424 text n → m ≡ n }
{}

/// A text is of the form `tag[id]` in at most one way.
pub fn one_form()
    ensures tag { (text tag id tag' id' : Text) → IsForm text tag id → IsForm text tag' id' → tag ≡ tag' }
    ensures id { (text tag id tag' id' : Text) → IsForm text tag id → IsForm text tag' id' → id ≡ id' }
{}

/// The host field and the tag field of RFC 3164 together have at most one meaning.
#[tactic(auto, using(crate::proofs::Rfc3164Lemmas::resolves_once))]
pub fn one_resolution()
    ensures { (host tag : Option (Option Text)) (r s : Names3164) → Resolves host tag r → Resolves host tag s → r ≡ s }
{}

/// Two divisions of one text into the pieces of RFC 3164, by one rule of the dash, one year and the same zones, are the
/// same list of pieces with the same meanings.
pub fn one_rfc3164_division()
    ensures pieces { (rule : DashRule) (dating : Dating) (text : Text) (vs ws : Values (rfc3164_row rule dating))
        (d : Division (rfc3164_row rule dating) text vs) (e : Division (rfc3164_row rule dating) text ws)
        → d.pieces ≡ e.pieces }
    ensures meanings { (rule : DashRule) (dating : Dating) (text : Text) (vs ws : Values (rfc3164_row rule dating))
        → Division (rfc3164_row rule dating) text vs → Division (rfc3164_row rule dating) text ws → vs ≡ ws }
{}

/// A text is read as at most one message of RFC 3164.
pub fn one_rfc3164_message()
    ensures { (rule : DashRule) (dating : Dating) (text : Text) (m n : MessageValue)
        → IsRead3164 rule dating text m → IsRead3164 rule dating text n → m ≡ n }
{}

/// After the timestamp of RFC 3164 nothing can fail. A text has no division exactly if it does not begin with an
/// optional priority, optional blanks and a timestamp, whatever the rule of the dash.
pub fn rfc3164_fails_before_its_timestamp_alone()
    ensures { (rule : DashRule) (dating : Dating) (text : Text)
        → NoDivision (rfc3164_row rule dating) text ↔ NoFront (Row (stamped_row dating)) text }
{}

/// No text has a division of both protocols, so it makes no difference which one is tried first.
pub fn no_text_has_both_divisions()
    ensures { (rule : DashRule) (dating : Dating) (text : Text) (vs : Values rfc5424_row)
        (ws : Values (rfc3164_row rule dating))
        → Division rfc5424_row text vs → Division (rfc3164_row rule dating) text ws → ⊥ }
{}

/// A text that shows a month date, with a year or without, has no division of RFC 5424.
pub fn month_date_is_no_rfc5424()
    ensures { (text : Text) (date : MonthDate) → ShowsMonthDate text date → IsNot5424 text }
{}

/// If a text shows no date without a year, the year that would be used for one makes no difference.
#[tactic(auto, using(crate::proofs::Rfc3164Lemmas::other_read))]
pub fn year_counts_for_yearless_dates_alone()
    ensures reads { (rule : DashRule) (text : Text) → ((date : MonthDate) → ShowsYearless text date → ⊥)
        → (dating other : Dating) → dating.zone ≡ other.zone → dating.local ≡ other.local
        → (m : MessageValue) → IsRead3164 rule dating text m → IsRead3164 rule other text m }
    ensures quotes { (rule : DashRule) (text : Text) → ((date : MonthDate) → ShowsYearless text date → ⊥)
        → (dating other : Dating) → dating.zone ≡ other.zone → dating.local ≡ other.local
        → (m : MessageValue) → Quotes3164 rule dating text m → Quotes3164 rule other text m }
{}

/// A printed message of RFC 3164 has no division of RFC 5424: a space is where the version would begin.
pub fn printed_rfc3164_is_no_rfc5424()
    ensures { (m : MessageValue) → m.protocol ≡ RFC3164 → IsNot5424 (printed m) }
{}

/// Each text of the message as which a text is parsed is a piece of its division, or a part of one.
#[tactic(auto, using(crate::proofs::ReadingLemmas::quoted))]
pub fn each_text_is_of_a_piece()
    ensures { (variant : Variant) (dating : Dating) (text : Text) (m : MessageValue) → IsRead variant dating text m
        → IsQuoted variant dating text m }
{}

/// A text is read as at most one message under each variant, for one year and the same zones.
#[tactic(auto, using(crate::proofs::ReadingLemmas::read_once))]
pub fn one_message()
    ensures { (variant : Variant) (dating : Dating) (text : Text) (m n : MessageValue) → IsRead variant dating text m
        → IsRead variant dating text n → m ≡ n }
{}
