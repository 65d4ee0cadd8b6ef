//! Why parsing a text returned no message.
use std::alloc::AllocError;
use thiserror::Error;

/// Why parsing a text returned no message. The number is the discriminant.
#[derive(Clone, Copy, Debug, PartialEq, Eq, Error)]
pub enum ParseFault {
    /// The text does not parse by the protocol, or by either of the protocols, that was asked for.
    #[error("unable to parse input as valid syslog message")]
    Invalid = 1,
    /// An allocation failed.
    #[error("out of memory")]
    Memory = 2,
}

impl From<AllocError> for ParseFault {
    ghost use Rattle.std.specs.Prelude.{◌≡◌};
    ghost use Rattle.syslog_loose.specs.declared.fault.ParseFault.TheVariants.{Memory};

    ghost from_gives = { λ _ fault. fault ≡ Memory };

    fn from(_refused: AllocError) -> ParseFault {
        ParseFault::Memory
    }
}
