//! Hosts, and how forms end: a program's name and its message, or the message alone. The host is read once, for all
//! forms that begin with one.
ghost use Rattle.std.specs.Prelude.{◌≡◌, MatchOption, None, chars};
ghost use Rattle.syslog_named_forms.specs.Hosts as spec;
ghost use Rattle.syslog_text.specs.Pieces.View.{seen, shown};

use syslog_sent::named::{Named, Program, process_id, read_program, tagged, untagged};
use syslog_sent::skips::colon;
use syslog_text::text::{blanks, host, some_blanks};

/// A host, if the line shows one, and the text after it and the blanks that follow it.
#[derive(Clone, Copy)]
pub(crate) struct AfterHost<'a> {
    pub(crate) hostname: Option<&'a str>,
    pub(crate) text: &'a str,
}

/// Returns the host at the front, if there is one, and the text after it and the blanks that follow it.
#[inline(always)]
pub(crate) fn past_host(text: &str) -> Option<AfterHost<'_>>
    ensures { spec.ReadsHost (chars text.now) result }
{
    let (hostname, after_host) = host(text)?;
    let text = some_blanks(after_host)?;
    Some(AfterHost { hostname, text })
}

/// Reads a program and its message, beside this host, where there is a text.
#[inline(always)]
pub(crate) fn program_from<'a>(
    hostname: Option<&'a str>,
    text: Option<&'a str>,
) -> Option<Named<'a>>
    ensures { MatchOption text.entry (result ≡ None)
        (λ t. spec.Tells spec.program_tail (spec.program_said (seen hostname.entry)) t result) }
{
    let (program, rest) = read_program(text?)?;
    Some(tagged(hostname, program, blanks(rest)))
}

/// Reads the id of a process and a message after a program's name, where there is one.
#[inline(always)]
pub(crate) fn process_from<'a>(
    hostname: Option<&'a str>,
    name: Option<(&'a str, &'a str)>,
) -> Option<Named<'a>>
    ensures { MatchOption name.entry (result ≡ None)
        (λ n. spec.Tells spec.process_tail (spec.process_said (seen hostname.entry) (shown n.0)) n.1 result) }
{
    let (name, at_id) = name?;
    let (id, after_id) = process_id(at_id)?;
    let rest = colon(after_id)?;
    let program = Program {
        name,
        process: Some(id),
    };
    Some(tagged(hostname, program, blanks(rest)))
}

/// Returns the text as a message without a program, where there is an end of what begins it.
#[inline(always)]
pub(crate) fn untagged_from<'a>(
    hostname: Option<&'a str>,
    text: &'a str,
    end: Option<&'a str>,
) -> Option<Named<'a>>
    ensures { MatchOption end.entry (result ≡ None)
        (λ _. spec.IsUntagged (seen hostname.entry) (shown text.entry) result) }
{
    let _ = end?;
    Some(untagged(hostname, text))
}
