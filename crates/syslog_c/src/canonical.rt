//! Whether the message of a line is read back from its printed text.
ghost use Rattle.std.specs.Prelude.{◌≡◌};
ghost use Rattle.syslog_c.specs.Line.{OnLine};
ghost use Rattle.syslog_c.specs.Outcome.{IsCodeOf};
ghost use Rattle.syslog_c.specs.Reported.{ReportsOwnCanonical};

use crate::options::Options;
use crate::outcome::Outcome;
use crate::read_line::read_line;

/// Sets `canonical` to 1 if the line's message is read back from its printed text as the same message, and otherwise to
/// 0. Nothing is allocated.
#[unsafe(no_mangle)]
pub extern "C" fn syslog_is_canonical(line: &[u8], options: &Options, canonical: &mut u32) -> u32
    ensures { IsCodeOf result (λ outcome. OnLine options.now line.now outcome (canonical.new ≡ 0)
        (λ rules dating text. ReportsOwnCanonical rules.variant dating text canonical.new outcome)) }
{
    report_canonical(line, options, canonical) as u32
}

fn report_canonical(line: &[u8], options: &Options, canonical: &mut u32) -> Outcome
    ensures { OnLine options.now line.now result (canonical.new ≡ 0) (λ rules dating text.
        ReportsOwnCanonical rules.variant dating text canonical.new result) }
{
    match read_line(line, options) {
        Ok((_, line)) => {
            *canonical = u32::from(line.is_canonical());
            Outcome::Done
        }
        Err(outcome) => {
            *canonical = 0;
            outcome
        }
    }
}
