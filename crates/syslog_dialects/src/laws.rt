//! Which lines keep the port's reading, and where a dialect's texts are found, as laws over the definitions alone: each
//! function does nothing, and its contract is the law.
ghost use Rattle.std.specs.Prelude.{◌≡◌, ◌++◌, ℕ, Bool, None, Option, Some};
ghost use Rattle.syslog_text.specs.Pieces.Class.{Ends, Text};
ghost use Rattle.syslog_text.specs.Text.{is_blank, trimmed};
ghost use Rattle.syslog_text.specs.Text.Canonical.{EndsVisibly};
ghost use Rattle.syslog_pieces.specs.Timestamp.Zone.{Dating};
ghost use Rattle.syslog_loose.specs.Line.{line_value};
ghost use Rattle.syslog_loose.specs.Message.{MessageValue};
ghost use Rattle.syslog_loose.specs.Reading.{IsOnlyRead, IsUnreadable};
ghost use Rattle.syslog_loose.specs.Visit.{IsLineOf};
ghost use Rattle.syslog_loose.specs.declared.dates.Dates.{Dates as AllDates};
ghost use Rattle.syslog_loose.specs.declared.line.Line.{Line};
ghost use Rattle.syslog_loose.specs.declared.variant.Variant.{Variant};
ghost use Rattle.syslog_sent.specs.Forms.{IsOfFirst};
ghost use Rattle.syslog_dialects.specs.Dialects.{forms_of};
ghost use Rattle.syslog_dialects.specs.Found.{AreFound, IsFoundIn};
ghost use Rattle.syslog_dialects.specs.Ordinary.{IsOrdinary};
ghost use Rattle.syslog_sent.specs.Sent.{SentValue};
ghost use Rattle.syslog_dialects.specs.SentReading.{AreAsked, IsReadSent, IsSentIn, IsUnsent};
ghost use Rattle.syslog_sent.specs.declared.dialect.Dialect.{Dialect};

/// A line that `syslog_loose` parses and that is ordinary is read as it parses it, and in no dialect, whatever it says.
pub fn ordinary_lines_keep_their_reading()
    ensures kept { (dates : AllDates) (dating : Dating) (dialects : Bool) (variant : Variant) (text : Text)
        (line : Line)
        → IsLineOf variant dating text line → IsOrdinary line
        → IsReadSent dates dating dialects variant text None (line_value line) }
    ensures only { (dates : AllDates) (dating : Dating) (dialects : Bool) (variant : Variant) (text : Text)
        (line : Line)
        → IsLineOf variant dating text line → IsOrdinary line → (dialect : Dialect) (m : MessageValue)
        → IsReadSent dates dating dialects variant text (Some dialect) m → ⊥ }
{}

/// If no dialects are asked for, or one protocol alone, each text is read as `syslog_loose` parses it, or is no
/// message.
pub fn texts_are_the_ports_without_dialects()
    ensures read { (dates : AllDates) (dating : Dating) (dialects : Bool) (variant : Variant) (text : Text)
        (m : MessageValue) → (AreAsked dialects variant → ⊥) → IsOnlyRead variant dating text m
        → IsReadSent dates dating dialects variant text None m }
    ensures unread { (dates : AllDates) (dating : Dating) (dialects : Bool) (variant : Variant) (text : Text)
        → (AreAsked dialects variant → ⊥) → IsUnreadable variant dating text
        → IsUnsent dates dating dialects variant text }
{}

/// The message part of a dialect's line is the end of the trimmed text. It begins with no blank, and its last character
/// is no white space.
pub fn messages_end_their_lines()
    ensures { (dates : AllDates) (dating : Dating) (dialects : Bool) (variant : Variant) (text : Text)
        (dialect : Dialect) (m : MessageValue) → IsReadSent dates dating dialects variant text (Some dialect) m
        → ((before : Text) × (trimmed text ≡ before ++ m.msg)) × Ends is_blank m.msg × EndsVisibly m.msg }
{}

/// Each character of a dialect's line is of a text or of the date that the line says, or is left out by the lists of
/// `left_out`. Host, app name, process and message id come in this order before the message, but for macOS's log, which
/// has the process before the app name. The date comes before the host or after it, and the timestamp is that of this
/// date. Those of a line of pairs may be in the message.
pub fn texts_of_a_dialect_are_found_in_order()
    ensures said { (is_read : Bool) (priority : Option ℕ) (text : Text) (dialect : Dialect) (sent : SentValue)
        → IsOfFirst (forms_of is_read priority) text dialect sent → AreFound dialect text sent }
    ensures read { (dates : AllDates) (is_read : Bool) (text : Text) (dialect : Dialect) (m : MessageValue)
        → IsSentIn dates is_read text dialect m → IsFoundIn dates dialect (trimmed text) m }
{}
