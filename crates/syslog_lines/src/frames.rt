//! The first frame of some bytes.
ghost use Rattle.std.specs.Prelude.{◌<◌, ◌≤◌, length, take, drop, IfOk, IfSome, MatchOption};
ghost use Rattle.syslog_lines.specs.Frames.{AreDigits, IsCounted, IsFrame, IsOpen, IsUncounted};
ghost use Rattle.syslog_lines.specs.Place.{Ends, IsCutBy};
ghost use Rattle.syslog_lines.specs.declared.framing.Framing.TheVariants.{OctetCounts};

use crate::framing::Framing;
use memchr::memchr;

/// No count has more digits.
const DIGITS: usize = 9;

// Returns the number of digits that the bytes begin with, up to nine, and the number that they write.
fn read_digits(bytes: &[u8]) -> (usize, usize)
    ensures { AreDigits bytes.now result.0 result.1 }
{
    let mut octets: usize = 0;
    let mut size: usize = 0;
    while size < DIGITS && size < bytes.len() && bytes[size] >= b'0' && bytes[size] <= b'9' {
        octets = octets * 10 + usize::from(bytes[size] - b'0');
        size += 1;
    }
    (size, octets)
}

// Returns the size of the count that the bytes begin with, with the space after it, and what it counts.
fn read_count(framing: Framing, bytes: &[u8]) -> Option<(usize, usize)>
    ensures counted { MatchOption result (IsUncounted framing bytes.now)
        (λ x. IsCounted framing bytes.now x.1 (drop x.0 bytes.now)) }
    ensures within { IfSome result (λ x. x.0 ≤ length bytes.now) }
{
    match framing {
        Framing::LineFeeds | Framing::Nuls => None,
        Framing::OctetCounts => octet_count(bytes),
    }
}

// Returns the size of the octet count that the bytes begin with, with the space after it, and the number of octets.
fn octet_count(bytes: &[u8]) -> Option<(usize, usize)>
    ensures counted { MatchOption result (IsUncounted OctetCounts bytes.now)
        (λ x. IsCounted OctetCounts bytes.now x.1 (drop x.0 bytes.now)) }
    ensures within { IfSome result (λ x. x.0 ≤ length bytes.now) }
{
    let (size, octets) = read_digits(bytes);
    if size == 0 {
        return None;
    }
    if size == bytes.len() {
        return None;
    }
    if bytes[0] == b'0' {
        return None;
    }
    if bytes[size] != b' ' {
        return None;
    }
    Some((size + 1, octets))
}

/// Returns the message of the first frame and the size of that frame, if all of it is there. The first `seen` bytes
/// have no whole frame.
pub fn whole_frame(framing: Framing, bytes: &[u8], seen: usize) -> Option<(&[u8], usize)>
    requires within { seen ≤ length bytes.now }
    requires open { IsOpen framing (take seen bytes.now) }
    ensures whole { MatchOption result (IsOpen framing bytes.now)
        (λ x. IsFrame framing x.0.now (take x.1 bytes.now)) }
    ensures within { IfSome result (λ x. (0 < x.1) × (x.1 ≤ length bytes.now)) }
{
    let Some((head, octets)) = read_count(framing, bytes) else {
        return ended_frame(framing, bytes, seen);
    };
    if octets > bytes.len() - head {
        return None;
    }
    let size = head + octets;
    Some((&bytes[head..size], size))
}

// Returns the message and the size of the first frame, if it is whole, of bytes that begin with no count.
fn ended_frame(framing: Framing, bytes: &[u8], seen: usize) -> Option<(&[u8], usize)>
    requires none { IsUncounted framing bytes.now }
    requires within { seen ≤ length bytes.now }
    requires open { IsOpen framing (take seen bytes.now) }
    ensures whole { MatchOption result (IsOpen framing bytes.now)
        (λ x. IsFrame framing x.0.now (take x.1 bytes.now)) }
    ensures within { IfSome result (λ x. (0 < x.1) × (x.1 ≤ length bytes.now)) }
{
    match memchr(framing.ending(), &bytes[seen..]) {
        Some(end) => Some((&bytes[..seen + end], seen + end + 1)),
        None => None,
    }
}

/// Returns the bytes that are there of the message of a frame that is cut, and how many octets of its count are
/// missing, if it has one.
pub fn cut_message(framing: Framing, bytes: &[u8]) -> (&[u8], Option<usize>)
    requires { IsOpen framing bytes.now }
    ensures { IsCutBy framing bytes.now result.0.now result.1 }
{
    match read_count(framing, bytes) {
        Some((head, octets)) => {
            let message = &bytes[head..];
            (message, Some(octets - message.len()))
        }
        None => (bytes, None),
    }
}

/// Returns how many of the bytes end a frame that is cut, of which so many octets are missing, or an ending. If it goes
/// on after them, the error is what is missing then.
pub fn frame_end(
    framing: Framing,
    missing: Option<usize>,
    bytes: &[u8],
) -> Result<usize, Option<usize>>
    ensures within { IfOk result (λ end. end ≤ length bytes.now) }
    ensures ends { Ends framing missing bytes.now result }
{
    match missing {
        Some(left) if left > bytes.len() => Err(Some(left - bytes.len())),
        Some(left) => Ok(left),
        None => match memchr(framing.ending(), bytes) {
            Some(end) => Ok(end + 1),
            None => Err(None),
        },
    }
}
