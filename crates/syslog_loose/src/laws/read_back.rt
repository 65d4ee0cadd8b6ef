//! What is read back from the printed text of a message.
ghost use Rattle.std.specs.Prelude.{◌≡◌, ◌↔◌, ◌⊎◌};
ghost use Rattle.syslog_loose.specs.Words.{ℕ, IfSome, IsSome, Text, IsCanonicalStamp, Dating, DashRule};
ghost use Rattle.syslog_loose.specs.declared.message.Protocol.TheVariants.{RFC3164};
ghost use Rattle.syslog_loose.specs.Clauses.{IsBounded, IsCanonical, HasNoQuirk, HasQuirksAlone, IsNearlyCanonical};
ghost use Rattle.syslog_loose.specs.Clauses.{IsOfMonthDate, MessageValue, IsOneLine, printed, ReadsProtocol, dash_rule};
ghost use Rattle.syslog_loose.specs.Clauses.{IsRead, IsOnlyRead, IsRead3164, IsRead5424, RFC5424, Variant};

/// The printed text of a message of RFC 5424 is read as the same message exactly if the message is canonical, under
/// either rule of the dash.
pub fn rfc5424_is_read_back_exactly()
    ensures { (rule : DashRule) (version : ℕ) (m : MessageValue) → m.protocol ≡ RFC5424 version → IsBounded m
        → IsRead5424 (printed m) m ↔ IsCanonical rule m }
{}

/// A message that was read as RFC 5424 and has a facility is canonical.
pub fn read_rfc5424_is_canonical()
    ensures { (rule : DashRule) (text : Text) (m : MessageValue) → IsRead5424 text m → IsSome m.facility
        → IsCanonical rule m }
{}

/// A message that was read as RFC 5424, with a facility or without, prints as a text that is read as a message that
/// prints the same.
pub fn printed_rfc5424_prints_again()
    ensures { (text : Text) (m : MessageValue) → IsRead5424 text m
        → (n : MessageValue) × IsRead5424 (printed m) n × (printed n ≡ printed m) }
{}

/// A printed message of RFC 3164 is read as the message itself exactly if it meets the written condition, for every
/// year and zone. Each rule of the dash has its own condition.
pub fn rfc3164_is_read_back_exactly()
    ensures { (rule : DashRule) (dating : Dating) (m : MessageValue) → m.protocol ≡ RFC3164 → IsBounded m
        → IsRead3164 rule dating (printed m) m ↔ IsCanonical rule m }
{}

/// A message that was read as RFC 3164 meets all of the written condition but for its quirks, facility and severity;
/// these two meet it if it has a facility. A timestamp that isn't canonical is that of a month date that the text
/// shows.
pub fn read_rfc3164_has_quirks_alone()
    ensures near { (rule : DashRule) (dating : Dating) (text : Text) (m : MessageValue) → IsRead3164 rule dating text m
        → HasQuirksAlone m }
    ensures nearly { (rule : DashRule) (dating : Dating) (text : Text) (m : MessageValue)
        → IsRead3164 rule dating text m → IsSome m.facility → IsNearlyCanonical m }
    ensures timestamp { (rule : DashRule) (dating : Dating) (text : Text) (m : MessageValue)
        → IsRead3164 rule dating text m → IfSome m.timestamp (λ s. IsCanonicalStamp s ⊎ IsOfMonthDate dating text s) }
{}

/// A message of RFC 3164 that meets the rest of the written condition meets all of it exactly if it has none of the
/// quirks.
#[tactic(auto, using(crate::proofs::CanonicalLemmas::nearly))]
pub fn canonical_rfc3164_has_no_quirk()
    ensures { (rule : DashRule) (m : MessageValue) → m.protocol ≡ RFC3164
        → IsCanonical rule m ↔ (IsNearlyCanonical m × HasNoQuirk rule m) }
{}

/// The printed text of a message, read under `Either` or the message's own variant, is read as the message itself
/// exactly if that meets the written condition, for every year and zone. The message as which a text is read is the
/// only one.
#[tactic(auto, using(crate::proofs::ReadBackLemmas::printed_exact, crate::proofs::ReadBackLemmas::only_read_exact))]
pub fn printed_is_read_back_exactly()
    ensures read { (variant : Variant) (dating : Dating) (m : MessageValue) → ReadsProtocol variant m.protocol
        → IsBounded m
        → IsRead variant dating (printed m) m ↔ IsCanonical dash_rule m }
    ensures same { (variant : Variant) (dating : Dating) (m n : MessageValue) → ReadsProtocol variant m.protocol
        → IsBounded m
        → IsOnlyRead variant dating (printed m) n → (n ≡ m) ↔ IsCanonical dash_rule m }
{}

/// The message of one line prints as one line: if a text has no line feed, the printed text of its message has none.
#[tactic(auto, using(crate::proofs::ReadBackLemmas::printed_line))]
pub fn message_of_one_line_prints_as_one()
    ensures { (variant : Variant) (dating : Dating) (text : Text) (m : MessageValue) → IsRead variant dating text m
        → IsOneLine text
        → IsOneLine (printed m) }
{}
