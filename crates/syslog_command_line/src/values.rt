//! The values of flags.
ghost use Rattle.std.specs.Prelude.{◌≡◌, MatchOption, ℕ};
ghost use Rattle.syslog_pieces.specs.declared.pri.SyslogSeverity.{SyslogSeverity};
ghost use Rattle.syslog_command_line.specs.Flags.{NamesSeverity, NamesSize};

use syslog_loose::SyslogSeverity;

/// The largest number that `read_size` returns.
const MOST: usize = 0x7fff_ffff_ffff_ffff;

/// Returns the number of bytes, from 1 to 2^63 - 1, that decimal digits write; none for any other text.
pub fn read_size(text: &str) -> Option<usize>
    ensures { MatchOption result ((size : ℕ) → ¬ (NamesSize text.now size)) (λ size. NamesSize text.now size) }
{
    if !text.bytes().all(|byte| byte.is_ascii_digit()) {
        return None;
    }
    let Ok(size) = text.parse::<usize>() else {
        return None;
    };
    if (1..=MOST).contains(&size) {
        Some(size)
    } else {
        None
    }
}

/// Returns the severity of a name: `emerg`, `alert`, `crit`, `err`, `warning`, `notice`, `info` or `debug`, or the
/// older names `panic`, `error` and `warn`. Returns none for any other text.
pub fn read_severity(name: &str) -> Option<SyslogSeverity>
    ensures { MatchOption result ((severity : SyslogSeverity) → ¬ (NamesSeverity name.now severity))
        (λ severity. NamesSeverity name.now severity) }
{
    match name {
        "emerg" | "panic" => Some(SyslogSeverity::SEV_EMERG),
        "alert" => Some(SyslogSeverity::SEV_ALERT),
        "crit" => Some(SyslogSeverity::SEV_CRIT),
        "err" | "error" => Some(SyslogSeverity::SEV_ERR),
        "warning" | "warn" => Some(SyslogSeverity::SEV_WARNING),
        "notice" => Some(SyslogSeverity::SEV_NOTICE),
        "info" => Some(SyslogSeverity::SEV_INFO),
        "debug" => Some(SyslogSeverity::SEV_DEBUG),
        _ => None,
    }
}
