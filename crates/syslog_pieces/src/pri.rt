//! The priority, and the facility and the severity that it is composed of.
//!
//! **Rule.** RFC 5424 section 6.2.1, and RFC 3164 section 4.1.1, which says the same. As the Rust crate does, it also
//! reads 192 to 255, whose facility is absent. The priority of a line is optional. Nothing here allocates.
ghost use Rattle.std.specs.Prelude.{◌≡◌, ◌<◌, ◌≤◌, MatchOption, option_and_then, chars, encode_utf8_all};
ghost use Rattle.syslog_pieces.specs.Words.{WritesOnOk, Front, optional, shown, Reads};
ghost use Rattle.syslog_pieces.specs.Pri.{priority_text};
ghost use Rattle.syslog_pieces.specs.Pri as spec;

use std::fmt;
use syslog_text::text::{literal, number};

/// The facility: which part of a system a message comes from. Its number is the discriminant.
#[derive(Clone, Copy, Debug, PartialEq, Eq, PartialOrd, Ord)]
pub enum SyslogFacility {
    LOG_KERN = 0,
    LOG_USER = 1,
    LOG_MAIL = 2,
    LOG_DAEMON = 3,
    LOG_AUTH = 4,
    LOG_SYSLOG = 5,
    LOG_LPR = 6,
    LOG_NEWS = 7,
    LOG_UUCP = 8,
    LOG_CRON = 9,
    LOG_AUTHPRIV = 10,
    LOG_FTP = 11,
    LOG_NTP = 12,
    LOG_AUDIT = 13,
    LOG_ALERT = 14,
    LOG_CLOCKD = 15,
    LOG_LOCAL0 = 16,
    LOG_LOCAL1 = 17,
    LOG_LOCAL2 = 18,
    LOG_LOCAL3 = 19,
    LOG_LOCAL4 = 20,
    LOG_LOCAL5 = 21,
    LOG_LOCAL6 = 22,
    LOG_LOCAL7 = 23,
}

/// The severity: how severe a message is, 0 being the worst. Its number is the discriminant.
#[derive(Clone, Copy, Debug, PartialEq, Eq, PartialOrd, Ord)]
pub enum SyslogSeverity {
    SEV_EMERG = 0,
    SEV_ALERT = 1,
    SEV_CRIT = 2,
    SEV_ERR = 3,
    SEV_WARNING = 4,
    SEV_NOTICE = 5,
    SEV_INFO = 6,
    SEV_DEBUG = 7,
}

// The name of each facility, by its number.
static FACILITY_NAMES: [&str; 24] = [
    "kern", "user", "mail", "daemon", "auth", "syslog", "lpr", "news", "uucp", "cron", "authpriv",
    "ftp", "ntp", "audit", "alert", "clockd", "local0", "local1", "local2", "local3", "local4",
    "local5", "local6", "local7",
];

// The name of each severity, by its number.
static SEVERITY_NAMES: [&str; 8] = [
    "emerg", "alert", "crit", "err", "warning", "notice", "info", "debug",
];

impl SyslogFacility {
    /// Returns the name, as `auth`, without allocating. No two facilities have the same name.
    pub fn as_str(self) -> &'static str
        ensures { result.now ≡ encode_utf8_all (spec.facility_name self) }
    {
        FACILITY_NAMES[self as usize]
    }
}

impl SyslogSeverity {
    /// Returns the name, as `crit`, without allocating. No two severities have the same name.
    pub fn as_str(self) -> &'static str
        ensures { result.now ≡ encode_utf8_all (spec.severity_name self) }
    {
        SEVERITY_NAMES[self as usize]
    }
}

fn severity_at(number: u8) -> SyslogSeverity
    requires { number < 8 }
    ensures { spec.severity_number result ≡ number }
{
    match number {
        0 => SyslogSeverity::SEV_EMERG,
        1 => SyslogSeverity::SEV_ALERT,
        2 => SyslogSeverity::SEV_CRIT,
        3 => SyslogSeverity::SEV_ERR,
        4 => SyslogSeverity::SEV_WARNING,
        5 => SyslogSeverity::SEV_NOTICE,
        6 => SyslogSeverity::SEV_INFO,
        _ => SyslogSeverity::SEV_DEBUG,
    }
}

fn facility_at(number: u8) -> Option<SyslogFacility>
    ensures { MatchOption result (24 ≤ number) (λ facility. spec.facility_number facility ≡ number) }
{
    let facility = match number {
        0 => SyslogFacility::LOG_KERN,
        1 => SyslogFacility::LOG_USER,
        2 => SyslogFacility::LOG_MAIL,
        3 => SyslogFacility::LOG_DAEMON,
        4 => SyslogFacility::LOG_AUTH,
        5 => SyslogFacility::LOG_SYSLOG,
        6 => SyslogFacility::LOG_LPR,
        7 => SyslogFacility::LOG_NEWS,
        8 => SyslogFacility::LOG_UUCP,
        9 => SyslogFacility::LOG_CRON,
        10 => SyslogFacility::LOG_AUTHPRIV,
        11 => SyslogFacility::LOG_FTP,
        12 => SyslogFacility::LOG_NTP,
        13 => SyslogFacility::LOG_AUDIT,
        14 => SyslogFacility::LOG_ALERT,
        15 => SyslogFacility::LOG_CLOCKD,
        16 => SyslogFacility::LOG_LOCAL0,
        17 => SyslogFacility::LOG_LOCAL1,
        18 => SyslogFacility::LOG_LOCAL2,
        19 => SyslogFacility::LOG_LOCAL3,
        20 => SyslogFacility::LOG_LOCAL4,
        21 => SyslogFacility::LOG_LOCAL5,
        22 => SyslogFacility::LOG_LOCAL6,
        23 => SyslogFacility::LOG_LOCAL7,
        _ => return None,
    };
    Some(facility)
}

/// Returns the facility and the severity of a priority. The facility is the priority divided by 8, and is absent from
/// 192 on; the severity is the remainder, and is always there. (RFC 5424 stops at 191; that 192 to 255 keep their
/// severity is the Rust crate's rule.)
pub fn decompose_pri(pri: u8) -> (Option<SyslogFacility>, Option<SyslogSeverity>)
    ensures facility { result.0 ≡ spec.facility_of pri }
    ensures severity { result.1 ≡ spec.severity_of pri }
{
    (facility_at(pri / 8), Some(severity_at(pri % 8)))
}

/// Returns the facility and the severity of a priority. Both are absent if the priority is, and the facility also if
/// the priority is above 191.
pub fn parts(priority: Option<u8>) -> (Option<SyslogFacility>, Option<SyslogSeverity>)
    ensures facility { result.0 ≡ option_and_then spec.facility_of priority }
    ensures severity { result.1 ≡ option_and_then spec.severity_of priority }
{
    match priority {
        Some(priority) => decompose_pri(priority),
        None => (None, None),
    }
}

/// Reads a priority at the front of the text, as `<34>`. Returns its number, 0 to 255, and the text after it.
#[inline(always)]
pub fn priority(text: &str) -> Option<(u8, &str)>
    ensures { Reads spec.priority (λ n. n) (chars text.now) result }
{
    let rest = literal(text, '<')?;
    let (value, rest) = number(rest, 255)?;
    let rest = literal(rest, '>')?;
    Some((value as u8, rest))
}

/// Reads a priority at the front of the text, if there is one. Returns its number and the text after it, which is the
/// whole text if there is none.
#[inline(always)]
pub fn optional_priority(text: &str) -> (Option<u8>, &str)
    ensures { Front (optional spec.priority) (chars text.now) (shown result.1) result.0 }
{
    match priority(text) {
        Some((value, rest)) => (Some(value), rest),
        None => (None, text),
    }
}

/// Writes the number of a priority in printed form, as `<34>`.
pub fn write_priority<W: fmt::Write>(f: &mut fmt::Formatter<W>, number: u32) -> fmt::Result
    ensures { WritesOnOk W.write_str_gives f.old result (priority_text number) f.new }
{
    write!(f, "<{number}>")
}
