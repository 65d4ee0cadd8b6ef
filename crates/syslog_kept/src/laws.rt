//! The laws that no character of a line is lost unseen: each function does nothing, and its contract is the law.
ghost use Rattle.std.specs.Prelude.{◌≡◌, ℕ, Bool, List, Option, Some, codes};
ghost use Rattle.json.specs.Find.{get};
ghost use Rattle.json.specs.Json.{string};
ghost use Rattle.syslog_text.specs.Pieces.Class.{Text};
ghost use Rattle.syslog_pieces.specs.Timestamp.Zone.{Dating};
ghost use Rattle.syslog_loose.specs.Message.{MessageValue};
ghost use Rattle.syslog_loose.specs.Reading.{IsRead, fallback};
ghost use Rattle.syslog_loose.specs.Unparsed.{Leaves};
ghost use Rattle.syslog_loose.specs.declared.dates.Dates.{Dates as AllDates};
ghost use Rattle.syslog_loose.specs.declared.variant.Variant.{Variant};
ghost use Rattle.syslog_sent.specs.Dialect.{dialect_text};
ghost use Rattle.syslog_dialects.specs.SentReading.{IsReadSent, LeavesSent};
ghost use Rattle.syslog_sent.specs.declared.dialect.Dialect.{Dialect};
ghost use Rattle.syslog_object.specs.Object.{Beside, beside_line, message_json, refused_json, text_json};
ghost use Rattle.syslog_kept.specs.Kept.{AccountsFor};
ghost use Rattle.syslog_kept.specs.Sent.{AccountsForSent};

/// Each character of a line that is a message is found in the object of the line, or is left out as `AccountsFor` says.
/// This holds whatever the object has as its dialect and as the raw line.
pub fn each_character_is_found()
    ensures { (variant : Variant) (dating : Dating) (text : Text) (m : MessageValue) (unparsed : Text)
        (dialect raw : Option Text) → IsRead variant dating text m → Leaves variant text unparsed
        → AccountsFor dating (message_json m (beside_line dialect unparsed raw)) text }
{}

/// Each character of a line in a dialect is of the priority, of a text or of the date that the object of the line has,
/// or is left out by the lists for that dialect. The object has nothing there that the line does not say.
pub fn each_character_of_a_dialect_is_found()
    ensures { (dates : AllDates) (dating : Dating) (dialects : Bool) (variant : Variant) (text : Text)
        (dialect : Dialect) (m : MessageValue) (unparsed : Text) (raw : Option Text)
        → IsReadSent dates dating dialects variant text (Some dialect) m
        → LeavesSent (Some dialect) variant text unparsed
        → AccountsForSent dates dialect (message_json m (beside_line (dialect_text (Some dialect)) unparsed raw)) text }
{}

/// The whole of a line that is no message is found in its object, and in the message of a call that returns the
/// fallback.
pub fn line_that_is_no_message_is_found()
    ensures refused { (line : List ℕ) → get (codes "message") (refused_json line) ≡ Some (string line) }
    ensures whole { (text : Text) (beside : Beside)
        → get (codes "message") (message_json (fallback text) beside) ≡ Some (text_json text) }
{}
