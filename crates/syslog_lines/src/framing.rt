//! How the input is cut into frames, and which part of each is its line.
//!
//! **Rule.** Octet counts are those of RFC 6587 (section 3.4.1). The other two framings, and what is left out at the
//! ends of a message, are this project's own choice.
ghost use Rattle.std.specs.Prelude.{◌≡◌, IsUtf8, Some, length, true, false};
ghost use Rattle.syslog_lines.specs.Frames.{ending_of, is_above, line_of, plain_lines, without_last};

/// How the input is cut into frames.
#[derive(Clone, Copy, Debug, PartialEq, Eq)]
pub enum Framing {
    /// Each frame ends in a line feed.
    LineFeeds,
    /// Each frame ends in NUL.
    Nuls,
    /// Each frame begins with the count of its octets and a space, or otherwise ends in a line feed.
    OctetCounts,
}

impl Framing {
    /// Returns the byte that ends a frame without a count.
    #[inline]
    pub fn ending(self) -> u8
        ensures { result ≡ ending_of self }
    {
        match self {
            Framing::LineFeeds | Framing::OctetCounts => b'\n',
            Framing::Nuls => 0,
        }
    }
}

/// How the input is cut into frames, and which of their bytes are read as lines.
#[derive(Clone, Copy, Debug, PartialEq, Eq)]
pub struct Frames {
    /// How the input is cut into frames.
    pub framing: Framing,
    /// Whether a byte order mark at the head of the input is left out, and a carriage return and a NUL at the end of a
    /// message.
    pub strips: bool,
    /// How many bytes a line may have; absent if any number.
    pub longest: Option<usize>,
}

impl Frames {
    /// Returns the frames of plain lines: what is between line feeds, of any length, with each of its bytes.
    pub fn plain() -> Frames
        ensures { result ≡ plain_lines }
    {
        Frames {
            framing: Framing::LineFeeds,
            strips: false,
            longest: None,
        }
    }

    /// Returns the frames of messages: cut as `framing` says, with the ends of a message left out, and lines of at most
    /// `longest` bytes.
    pub fn messages(framing: Framing, longest: usize) -> Frames
        ensures framing { result.framing ≡ framing }
        ensures strips { result.strips ≡ true }
        ensures longest { result.longest ≡ Some longest }
    {
        Frames {
            framing,
            strips: true,
            longest: Some(longest),
        }
    }

    /// Returns whether a line of `size` bytes is too long.
    #[inline]
    pub fn is_too_long(self, size: usize) -> bool
        ensures { result ≡ is_above self.longest size }
    {
        match self.longest {
            Some(longest) => size > longest,
            None => false,
        }
    }

    /// Returns the line of a message: without the ends that are left out.
    #[inline(always)]
    pub fn line(self, message: &[u8]) -> &[u8]
        ensures { result.now ≡ line_of self.strips message.now }
    {
        if !self.strips {
            return message;
        }
        // (most lines have neither)
        if !may_end(message) {
            return message;
        }
        without_end(without_end(message, b'\r'), 0)
    }

    /// Returns the line of a message that is a text: without the ends that are left out.
    #[inline(always)]
    pub fn text_line(self, message: &str) -> &str
        ensures line { result.now ≡ line_of self.strips message.now }
        ensures utf8 { IsUtf8 result.now }
    {
        let size = self.line(message.as_bytes()).len();
        &message[..size]
    }
}

// Returns whether the last byte is one that may be left out, or a control character below it.
#[inline(always)]
fn may_end(message: &[u8]) -> bool
    ensures { result ≡ false → line_of true message.now ≡ message.now }
{
    let size = message.len();
    if size == 0 {
        return false;
    }
    message[size - 1] <= b'\r'
}

// Returns the message without this byte at its end.
#[tactic(auto, using(crate::proofs::LineLemmas::without_last_none, crate::proofs::LineLemmas::without_last_other, crate::proofs::LineLemmas::without_last_same))]
fn without_end(message: &[u8], byte: u8) -> &[u8]
    ensures { result.now ≡ without_last byte message.now }
{
    let size = message.len();
    if size == 0 {
        return message;
    }
    if message[size - 1] != byte {
        return message;
    }
    &message[..size - 1]
}
