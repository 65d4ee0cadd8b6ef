//! The flags of a command line and the date after them, and what they ask for.
ghost use Rattle.std.specs.Prelude.{◌≡◌, ◌∷◌, ◌++◌, ◌≤ℤ◌, IsSomeAnd, List, MatchOption, MatchResult, None, negsuc};
ghost use Rattle.std.specs.Prelude.{pos, ℕ};
ghost use Rattle.jiff.specs.Placed.{IsPosixZone};
ghost use Rattle.jiff.specs.Words.{plain_zone};
ghost use Rattle.syslog_loose.specs.Today.{HasYear};
ghost use Rattle.syslog_command_line.specs.Arguments.{NamesOffset};
ghost use Rattle.syslog_command_line.specs.Flags.{IsValue, NamesSeverity, NamesSize, flag_word};
ghost use Rattle.syslog_command_line.specs.Given.{AreNoFlagsAndDate, BeginsWith, BeginsWithNone, Holds, SplitsWords};
ghost use Rattle.syslog_command_line.specs.Options.{AsksForOptions, ByFlag, GivenFlag, IsZoneGiven, usual_max_line};
ghost use Rattle.syslog_command_line.specs.Options.{value_words};
ghost use Rattle.syslog_command_line.specs.Words.{IsAmong, texts};
ghost use Rattle.syslog_command_line.specs.declared.flags.Flag.{Flag};
ghost use Rattle.syslog_command_line.specs.declared.options.Options.{Options};
ghost use Rattle.syslog_lines.specs.declared.framing.Framing.TheVariants.{LineFeeds, Nuls, OctetCounts};

use crate::dates::read_offset;
use crate::flags::{Flag, find_flag};
use crate::given::Given;
use crate::values::{read_severity, read_size};
use crate::words::{Wrong, read_date_words};
use syslog_lines::Framing;
use syslog_loose::{Dates, SyslogSeverity, TimeZone, Today, zone_of_rule};

/// How many bytes the longest line that is read has, if `--max-line` is not given.
pub const MAX_LINE: usize = 67_108_864;

/// How lines are read, and what is written for them. Its texts are slices of the words.
#[derive(Drop)]
pub struct Options<'a> {
    /// Whether the output also has each line as it came.
    pub raw: bool,
    /// Whether a line is read in a dialect that it is in.
    pub dialects: bool,
    /// Whether a line that is not UTF-8 is decoded as ISO 8859-1.
    pub latin1: bool,
    /// Whether messages are written as CSV.
    pub csv: bool,
    /// How the input is cut into lines.
    pub framing: Framing,
    /// How many bytes the longest line that is read has.
    pub max_line: usize,
    /// The least severe severity of the messages that are written; absent if all are written.
    pub severity: Option<SyslogSeverity>,
    /// The host whose messages are written; absent if all are written.
    pub host: Option<&'a str>,
    /// The app name whose messages are written; absent if all are written.
    pub app: Option<&'a str>,
    /// How dates that show no year or no zone are completed.
    pub dates: Dates,
}

/// Returns what the words ask for: flags of those that are offered, each at most once and in any order, and a date.
pub(crate) fn read_options<'a>(
    words: &'a [String],
    offered: &[Flag],
) -> Result<Options<'a>, Wrong<'a>>
    ensures { MatchResult result (λ options. AsksForOptions offered.now (texts words.now) options)
        (λ wrong. IsAmong (texts words.now) wrong
        × ((options : Options) → ¬ (AsksForOptions offered.now (texts words.now) options))) }
{
    let (given, rest) = read_flags(words, offered)?;
    let today = read_date_words(rest)?;
    Ok(Options {
        raw: given.has(Flag::Raw),
        dialects: !given.has(Flag::NoDialects),
        latin1: given.has(Flag::Latin1),
        csv: given.has(Flag::Csv),
        framing: framing_of(&given),
        max_line: max_line_of(&given),
        severity: severity_of(&given),
        host: given.value(Flag::Host),
        app: given.value(Flag::App),
        dates: dates_of(&given, today),
    })
}

// Returns how the input is cut into lines.
fn framing_of(given: &Given<'_>) -> Framing
    ensures { (flags : List GivenFlag) → Holds given.now flags
        → ByFlag flags Flag.Nul (λ _. result ≡ Nuls)
        (ByFlag flags Flag.OctetCounted (λ _. result ≡ OctetCounts) (result ≡ LineFeeds)) }
{
    if given.has(Flag::Nul) {
        return Framing::Nuls;
    }
    if given.has(Flag::OctetCounted) {
        return Framing::OctetCounts;
    }
    Framing::LineFeeds
}

// Returns how many bytes the longest line has.
fn max_line_of(given: &Given<'_>) -> usize
    ensures { (flags : List GivenFlag) → Holds given.now flags
        → ByFlag flags Flag.MaxLine (λ text. NamesSize text result) (result ≡ usual_max_line) }
{
    given
        .value(Flag::MaxLine)
        .and_then(read_size)
        .unwrap_or(MAX_LINE)
}

// Returns the least severe severity that is written.
fn severity_of(given: &Given<'_>) -> Option<SyslogSeverity>
    ensures { (flags : List GivenFlag) → Holds given.now flags
        → ByFlag flags Flag.Severity (λ text. IsSomeAnd result (λ severity. NamesSeverity text severity))
        (result ≡ None) }
{
    given.value(Flag::Severity).and_then(read_severity)
}

// Returns how dates are completed, on this day.
fn dates_of(given: &Given<'_>, today: Today) -> Dates
    requires { HasYear today }
    ensures today { result.today ≡ today }
    ensures zone { (flags : List GivenFlag) → Holds given.now flags → IsZoneGiven flags (plain_zone result.zone) }
{
    match rule_of(given) {
        Some(zone) => Dates::new(today, zone),
        None => Dates::ahead(today, offset_of(given)),
    }
}

// Returns the zone that is given by its rule.
fn rule_of(given: &Given<'_>) -> Option<TimeZone<'static>>
    ensures { (flags : List GivenFlag) → Holds given.now flags
        → ByFlag flags Flag.Zone (λ text. IsSomeAnd result (λ zone. IsPosixZone text (plain_zone zone)))
        (result ≡ None) }
{
    match given.value(Flag::Zone) {
        Some(text) => zone_of_rule(text),
        None => None,
    }
}

// Returns the zone that is given by its offset, in seconds ahead of UTC: 0 if none is.
fn offset_of(given: &Given<'_>) -> i32
    ensures value { (flags : List GivenFlag) → Holds given.now flags
        → ByFlag flags Flag.Offset (λ text. NamesOffset text result) (result ≡ pos 0) }
    ensures range { (negsuc 86_399 ≤ℤ result) × (result ≤ℤ pos 86_399) }
{
    given.value(Flag::Offset).and_then(read_offset).unwrap_or(0)
}

// Reads the flags before the date. Returns them and the words after them.
fn read_flags<'a>(
    words: &'a [String],
    offered: &[Flag],
) -> Result<(Given<'a>, &'a [String]), Wrong<'a>>
    ensures { MatchResult result (λ found. SplitsWords offered.now (texts words.now) found.0 (texts found.1.now))
        (λ wrong. IsAmong (texts words.now) wrong × AreNoFlagsAndDate offered.now (texts words.now)) }
{
    let mut given = Given::new();
    let mut rest = words;
    'flags: while let Some((flag, value, after)) = read_flag(rest, offered, &given)? {
        given.add(flag, value);
        rest = after;
    }
    Ok((given, rest))
}

// Reads the flag that begins the words, if it is offered and can be given beside those before it. Returns it with its
// value, and the words after it.
fn read_flag<'a>(
    words: &'a [String],
    offered: &[Flag],
    given: &Given<'_>,
) -> Result<Option<(Flag, &'a str, &'a [String])>, Wrong<'a>>
    ensures { MatchResult result
        (λ found. MatchOption found (BeginsWithNone offered.now given.now (texts words.now))
        (λ it. BeginsWith offered.now given.now (texts words.now)
        (record { flag = it.0; value = it.1.now }) (texts it.2.now)))
        (λ wrong. IsAmong (texts words.now) wrong
        × ((flag : Flag) × (rest : List (List ℕ)) × (texts words.now ≡ flag_word flag ∷ rest))
        × BeginsWithNone offered.now given.now (texts words.now)) }
{
    let Some((word, rest)) = words.split_first() else {
        return Ok(None);
    };
    let Some(flag) = find_flag(offered, word.as_str()) else {
        return Ok(None);
    };
    if !given.allows(flag) {
        return Ok(None);
    }
    let (value, rest) = read_value(flag, rest)?;
    Ok(Some((flag, value, rest)))
}

// Reads the value of a flag, which is the first word if it takes one. Returns it, and the words after it.
fn read_value(flag: Flag, words: &[String]) -> Result<(&str, &[String]), Wrong<'_>>
    ensures { MatchResult result
        (λ found. IsValue flag found.0.now × (texts words.now ≡ value_words flag found.0.now ++ texts found.1.now))
        (λ wrong. IsAmong (texts words.now) wrong × ((value : List ℕ) (rest : List (List ℕ)) → IsValue flag value
        → ¬ (texts words.now ≡ value_words flag value ++ rest))) }
{
    if !flag.takes_value() {
        return Ok(("", words));
    }
    let Some((word, rest)) = words.split_first() else {
        return Err(Wrong::Missing);
    };
    let value = word.as_str();
    if !flag.is_value(value) {
        return Err(Wrong::Word(value));
    }
    Ok((value, rest))
}
