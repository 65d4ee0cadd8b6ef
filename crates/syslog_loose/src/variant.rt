//! What a caller says of how a text is to be read: by which protocol, and which year a date without one is of.
ghost use Rattle.std.specs.Prelude.{◌≡◌, ◌≢◌};
ghost use Rattle.syslog_loose.specs.{ReadBack.ReadsProtocol, Words.MatchBool};
ghost use Rattle.syslog_loose.specs.declared.message.Protocol.TheVariants as protocol;
ghost use Rattle.syslog_loose.specs.declared.variant.Variant.TheVariants as variants;

/// The protocols by which a text is read.
#[derive(Clone, Copy, Debug)]
pub enum Variant {
    /// RFC 5424, and RFC 3164 if the text does not parse by that.
    Either,
    /// RFC 3164 alone.
    RFC3164,
    /// RFC 5424 alone.
    RFC5424,
}

impl Variant {
    /// Whether texts are read by RFC 5424.
    #[inline(always)]
    pub(crate) fn reads_rfc5424(self) -> bool
        ensures { MatchBool result (self ≢ variants.RFC3164) (self ≡ variants.RFC3164) }
    {
        !matches!(self, Variant::RFC3164)
    }

    /// Whether texts are read by RFC 3164.
    #[inline(always)]
    pub(crate) fn reads_rfc3164(self) -> bool
        ensures { MatchBool result (ReadsProtocol self protocol.RFC3164) (ReadsProtocol self protocol.RFC3164 → ⊥) }
    {
        !matches!(self, Variant::RFC5424)
    }
}

/// The month, day, hour, minute and second of a date without a year.
pub type IncompleteDate = (u32, u32, u32, u32, u32);
