//! Which messages a filter is asked for: by severity, host and app name. The rule is this project's own choice.
//!
//! The choice of the severity `err` and the host `gw` chooses the messages of that host that are errors or worse.
#![tactic(auto)]

ghost use Rattle.std.specs.Prelude.{◌≡◌, ◌↔◌, IfSome, IsTrue, MatchOption, None, Some};
ghost use Rattle.std.specs.Str.{chars};
ghost use Rattle.syslog_loose.specs.Line.{line_value};
ghost use Rattle.syslog_text.specs.Pieces.View.{seen};
ghost use Rattle.syslog_choice.specs.Chosen.{IsAsSevere, IsChosen, IsEverything};

mod apart;

pub use apart::{Apart, sent_apart};
use syslog_loose::{Line, SyslogSeverity};

/// Which messages are chosen: those that match everything that is given here.
#[derive(Clone, Copy)]
pub struct Choice<'a> {
    /// The least severe severity that is chosen; absent if any is.
    pub severity: Option<SyslogSeverity>,
    /// The host whose messages are chosen; absent if any is.
    pub host: Option<&'a str>,
    /// The app name whose messages are chosen; absent if any is.
    pub app: Option<&'a str>,
}

impl<'a> Choice<'a> {
    /// Returns the choice of the messages that match all of these; none if nothing is given, so that every message is
    /// chosen.
    pub fn of(
        severity: Option<SyslogSeverity>,
        host: Option<&'a str>,
        app: Option<&'a str>,
    ) -> Option<Choice<'a>>
        ensures { MatchOption result ((severity ≡ None) × (host.entry ≡ None) × (app.entry ≡ None))
            (λ choice. (choice.severity ≡ severity) × (choice.host ≡ host.entry) × (choice.app ≡ app.entry)
            × (¬ (IsEverything choice))) }
    {
        let choice = Choice {
            severity,
            host,
            app,
        };
        if choice.is_everything() {
            None
        } else {
            Some(choice)
        }
    }

    /// Returns whether nothing is given, so that every message is chosen.
    #[inline(always)]
    pub fn is_everything(&self) -> bool
        ensures { IsTrue result ↔ IsEverything self.now }
    {
        self.severity.is_none() && self.host.is_none() && self.app.is_none()
    }

    /// Returns whether the message of the line is chosen.
    #[inline(always)]
    pub fn is_chosen(&self, line: &Line<'_>) -> bool
        ensures { IsTrue result ↔ IsChosen self.now (line_value line.now) }
    {
        is_severe(self.severity, line)
            && is_named(self.host, line.hostname)
            && is_named(self.app, line.appname)
    }
}

// Whether the line has this severity or a worse one, if one is given.
#[inline(always)]
fn is_severe(least: Option<SyslogSeverity>, line: &Line<'_>) -> bool
    ensures { IsTrue result ↔ IfSome least (λ it. IsAsSevere it (line_value line.now)) }
{
    match least {
        Some(least) => line
            .severity()
            .is_some_and(|severity| severity as u8 <= least as u8),
        None => true,
    }
}

// Whether the name is the one that is given, if one is.
#[inline(always)]
fn is_named(given: Option<&str>, name: Option<&str>) -> bool
    ensures { IsTrue result ↔ IfSome given.entry (λ it. seen name.entry ≡ Some (chars it.now)) }
{
    match given {
        Some(given) => name.is_some_and(|name| is_same(name, given)),
        None => true,
    }
}

fn is_same(name: &str, given: &str) -> bool
    ensures { IsTrue result ↔ (chars name.now ≡ chars given.now) }
{
    name == given
}
