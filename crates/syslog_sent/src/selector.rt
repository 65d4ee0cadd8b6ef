//! The severity as a word before a program's name, and the facility before it: `daemon.info`.
ghost use Rattle.std.specs.Prelude.{◌≡◌, ◌||◌, chars};
ghost use Rattle.syslog_text.specs.Pieces.Class.{Row};
ghost use Rattle.syslog_text.specs.Pieces.View.{Reads, Recognises, shown};
ghost use Rattle.syslog_sent.specs.Selector as spec;

use crate::named::is_word;
use crate::runs::{Run, split};
use syslog_text::text::{CharClass, literal, split_run};

fn is_grave(word: &str) -> bool
    ensures { result ≡ spec.is_grave (chars word.now) }
{
    is_word(word, "emerg")
        || (is_word(word, "alert")
            || (is_word(word, "crit") || (is_word(word, "err") || is_word(word, "error"))))
}

fn is_mild(word: &str) -> bool
    ensures { result ≡ spec.is_mild (chars word.now) }
{
    is_word(word, "warning")
        || (is_word(word, "warn")
            || (is_word(word, "notice") || (is_word(word, "info") || is_word(word, "debug"))))
}

/// Returns whether the word is a severity.
pub fn is_severity(word: &str) -> bool
    ensures { result ≡ spec.is_severity (chars word.now) }
{
    is_grave(word) || is_mild(word)
}

/// Returns a severity at the front, and the text after it.
pub fn severity(text: &str) -> Option<(&str, &str)>
    ensures { Reads spec.severity (λ t. shown t) (chars text.now) result }
{
    let (word, rest) = split_run(text, CharClass::Visible);
    is_severity(word).then_some((word, rest))
}

fn is_system_facility(word: &str) -> bool
    ensures { result ≡ spec.is_system_facility (chars word.now) }
{
    is_word(word, "kern")
        || (is_word(word, "user")
            || (is_word(word, "mail")
                || (is_word(word, "daemon")
                    || (is_word(word, "auth")
                        || (is_word(word, "syslog")
                            || (is_word(word, "lpr")
                                || (is_word(word, "news")
                                    || (is_word(word, "uucp")
                                        || (is_word(word, "cron")
                                            || (is_word(word, "authpriv")
                                                || is_word(word, "ftp")))))))))))
}

fn is_local_facility(word: &str) -> bool
    ensures { result ≡ spec.is_local_facility (chars word.now) }
{
    is_word(word, "local0")
        || (is_word(word, "local1")
            || (is_word(word, "local2")
                || (is_word(word, "local3")
                    || (is_word(word, "local4")
                        || (is_word(word, "local5")
                            || (is_word(word, "local6") || is_word(word, "local7")))))))
}

fn is_facility(word: &str) -> bool
    ensures { result ≡ spec.is_facility (chars word.now) }
{
    is_system_facility(word) || is_local_facility(word)
}

// Returns the text after the name of a facility.
fn facility(text: &str) -> Option<&str>
    ensures { Recognises spec.facility (chars text.now) result }
{
    let (word, rest) = split(text, Run::Plain);
    is_facility(word).then_some(rest)
}

/// Returns the text after a facility, a dot and a severity.
pub fn selector(text: &str) -> Option<&str>
    ensures { Recognises (Row spec.selector_row) (chars text.now) result }
{
    let after_facility = facility(text)?;
    let at_severity = literal(after_facility, '.')?;
    let (_, rest) = severity(at_severity)?;
    Some(rest)
}
