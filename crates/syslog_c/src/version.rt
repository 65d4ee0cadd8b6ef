//! The version of the library.
ghost use Rattle.std.specs.Prelude.{◌≡◌, codes};
ghost use Rattle.syslog_c.specs.Fields.{IsText};

use crate::convert::text_of;
use crate::fields::Text;
use syslog_loose::VERSION;

/// Returns the version of the library as a number, to compare with `SYSLOG_VERSION` of the header: 1,000,000 times the
/// major version, plus 1,000 times the minor one, plus the patch.
#[unsafe(no_mangle)]
pub extern "C" fn syslog_version() -> u32
    ensures { result ≡ 1_000 }
{
    1_000
}

/// Sets `text` to the version of the library, as `0.1.0`.
#[unsafe(no_mangle)]
pub extern "C" fn syslog_version_text(text: &mut Text<'static>)
    ensures { IsText text.new (codes "0.1.0") }
{
    *text = text_of(VERSION);
}
