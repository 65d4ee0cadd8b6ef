//! Laws of the grammar and of the conversion, over their definitions alone: each function does nothing, and its
//! contract is the law.
ghost use Rattle.std.specs.Prelude.{◌≡◌, ◌⊎◌, [], IfSome};
ghost use Rattle.syslog_text.specs.Pieces.Class.{Text};
ghost use Rattle.syslog_pieces.specs.ProcId.{IsBoundedProcess};
ghost use Rattle.syslog_elements.specs.StructuredData.Escapes.{IsUnescaped};
ghost use Rattle.syslog_pieces.specs.Timestamp.Zone.{Dating};
ghost use Rattle.syslog_loose.specs.Canonical.{IsCanonical};
ghost use Rattle.syslog_loose.specs.Message.{MessageValue};
ghost use Rattle.syslog_loose.specs.Printed.{printed};
ghost use Rattle.syslog_loose.specs.Reading.{IsRead, dash_rule};
ghost use Rattle.syslog_loose.specs.Unparsed.{Leaves};
ghost use Rattle.syslog_loose.specs.declared.variant.Variant.{Variant};
ghost use Rattle.syslog_loose.specs.declared.variant.Variant.TheVariants.{Either};
ghost use Rattle.syslog_strict.specs.Call.{IsConvertedText};
ghost use Rattle.syslog_strict.specs.Conversion.{converted, converted_value, whole};
ghost use Rattle.syslog_strict.specs.Grammar.{IsSyslogMsg};
ghost use Rattle.syslog_strict.specs.Value.{meaning};

/// The printed text of each converted message is in the grammar of RFC 5424, whether the message was read or not. A
/// process id that is a number has 32 bits, as in the program.
pub fn converted_text_is_in_the_grammar()
    ensures { (m : MessageValue) → IfSome m.procid IsBoundedProcess → IsSyslogMsg (printed (converted m)) }
{}

/// The conversion of a message that was read is canonical, with what was left unparsed of its structured data. So its
/// printed text is read as that message, whatever the year and zones of the receiver, and nothing of it is left
/// unparsed.
pub fn converted_text_is_read_back()
    ensures canonical { (variant : Variant) (dating : Dating) (text : Text) (m : MessageValue) (unparsed : Text)
        → IsRead variant dating text m → Leaves variant text unparsed
        → IsCanonical dash_rule (converted (whole m unparsed)) }
    ensures again { (variant : Variant) (dating receiver : Dating) (text : Text) (m : MessageValue) (unparsed : Text)
        → IsRead variant dating text m → Leaves variant text unparsed
        → IsRead Either receiver (printed (converted (whole m unparsed))) (converted (whole m unparsed)) }
    ensures parsed { (variant : Variant) (dating : Dating) (text : Text) (m : MessageValue) (unparsed : Text)
        → IsRead variant dating text m → Leaves variant text unparsed
        → Leaves Either (printed (converted (whole m unparsed))) [] }
{}

/// A converted text is not changed again: whatever the call may write for it, in any year and any zones, is that text.
/// And a converted message prints as its own conversion does.
#[tactic(auto, using(crate::proofs::ConversionLaws::printed_again))]
pub fn converted_text_stays()
    ensures text { (variant : Variant) (dating receiver : Dating) (input text again : Text)
        → IsConvertedText variant dating input text
        → (IsSyslogMsg text × (again ≡ text)) ⊎ IsConvertedText Either receiver text again → again ≡ text }
    ensures message { (m : MessageValue) → printed (converted (converted m)) ≡ printed (converted m) }
{}

/// A converted value means what the value meant, as the RFC reads both: a `\n` is a backslash and an `n` before and
/// after. With its escapes removed as this project does it, it is what the RFC reads.
#[tactic(auto, using(crate::proofs::ValueLemmas::value_keeps_its_meaning, crate::proofs::ValueLemmas::converted_is_unescaped))]
pub fn converted_value_keeps_its_meaning()
    ensures same { (value : Text) → meaning (converted_value value) ≡ meaning value }
    ensures unescaped { (value : Text) → IsUnescaped (converted_value value) (meaning value) }
{}
