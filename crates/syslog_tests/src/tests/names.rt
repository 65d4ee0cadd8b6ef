//! Facilities and severities: their numbers, names and order.
use super::checks::{check, comes_before};
use super::rows::is_text;
use syslog_pieces::pri::{SyslogFacility, SyslogSeverity, decompose_pri};

/// In the order of their numbers.
const FACILITIES: [SyslogFacility; 24] = [
    SyslogFacility::LOG_KERN,
    SyslogFacility::LOG_USER,
    SyslogFacility::LOG_MAIL,
    SyslogFacility::LOG_DAEMON,
    SyslogFacility::LOG_AUTH,
    SyslogFacility::LOG_SYSLOG,
    SyslogFacility::LOG_LPR,
    SyslogFacility::LOG_NEWS,
    SyslogFacility::LOG_UUCP,
    SyslogFacility::LOG_CRON,
    SyslogFacility::LOG_AUTHPRIV,
    SyslogFacility::LOG_FTP,
    SyslogFacility::LOG_NTP,
    SyslogFacility::LOG_AUDIT,
    SyslogFacility::LOG_ALERT,
    SyslogFacility::LOG_CLOCKD,
    SyslogFacility::LOG_LOCAL0,
    SyslogFacility::LOG_LOCAL1,
    SyslogFacility::LOG_LOCAL2,
    SyslogFacility::LOG_LOCAL3,
    SyslogFacility::LOG_LOCAL4,
    SyslogFacility::LOG_LOCAL5,
    SyslogFacility::LOG_LOCAL6,
    SyslogFacility::LOG_LOCAL7,
];

/// Their names in that order.
const FACILITY_NAMES: &str =
    "kern user mail daemon auth syslog lpr news uucp cron authpriv ftp ntp audit alert clockd \
     local0 local1 local2 local3 local4 local5 local6 local7";

/// In the order of their numbers.
const SEVERITIES: [SyslogSeverity; 8] = [
    SyslogSeverity::SEV_EMERG,
    SyslogSeverity::SEV_ALERT,
    SyslogSeverity::SEV_CRIT,
    SyslogSeverity::SEV_ERR,
    SyslogSeverity::SEV_WARNING,
    SyslogSeverity::SEV_NOTICE,
    SyslogSeverity::SEV_INFO,
    SyslogSeverity::SEV_DEBUG,
];

/// Their names in that order.
const SEVERITY_NAMES: &str = "emerg alert crit err warning notice info debug";

fn is_facility(facility: SyslogFacility, number: usize) -> bool {
    facility as usize == number
        && i32::try_from(number) == Ok(facility as i32)
        && is_text(FACILITY_NAMES.split(' ').nth(number), facility.as_str())
}

fn is_severity(severity: SyslogSeverity, number: usize) -> bool {
    severity as usize == number
        && i32::try_from(number) == Ok(severity as i32)
        && is_text(SEVERITY_NAMES.split(' ').nth(number), severity.as_str())
}

#[test]
fn numbers_names_and_orders_each_facility(rt: HostRuntime) {
    for (number, facility) in FACILITIES.iter().enumerate() {
        check(&rt, is_facility(*facility, number), facility.as_str());
        for before in FACILITIES.iter().take(number) {
            check(&rt, comes_before(before, facility), facility.as_str());
        }
    }
    check(&rt, SyslogFacility::LOG_CRON as i32 == 9, "cron");
}

#[test]
fn numbers_names_and_orders_each_severity(rt: HostRuntime) {
    for (number, severity) in SEVERITIES.iter().enumerate() {
        check(&rt, is_severity(*severity, number), severity.as_str());
        for before in SEVERITIES.iter().take(number) {
            check(&rt, comes_before(before, severity), severity.as_str());
        }
    }
}

#[test]
fn composes_what_it_decomposed(rt: HostRuntime) {
    match decompose_pri(165) {
        (Some(facility), Some(severity)) => {
            check(&rt, facility as u32 * 8 + severity as u32 == 165, "165");
        }
        _ => check(&rt, false, "no facility or no severity"),
    }
}
