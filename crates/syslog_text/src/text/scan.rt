//! Runs of ASCII bytes of a class: sixteen at a time while they last, then one by one.
ghost use Rattle.std.specs.Prelude.{◌≡◌, ◌<◌, IsTrue, length, slice_index};
ghost use Rattle.syslog_text.specs.Bodies.Scan.{IsRun, byte_in};

use crate::text::CharClass;
use crate::text::lanes::{LANES, class_run};

// The classes of each byte: its entry has the bit of each class that it is of, and no bit if it is not ASCII. Most
// bytes are of all classes but `Digit` and `Blank`, which is 8188. The clause of `is_in` says that each entry is right.
static CLASSES: [u16; 256] = [
    2044, 2044, 2044, 2044, 2044, 2044, 2044, 2044, 2044, 498, 496, 496, 496, 496, 2044, 2044,
    2044, 2044, 2044, 2044, 2044, 2044, 2044, 2044, 2044, 2044, 2044, 2044, 2044, 2044, 2044, 2044,
    498, 8188, 3932, 8188, 8188, 8188, 8188, 8188, 8188, 8188, 8188, 8188, 8188, 8188, 8188, 8188,
    8189, 8189, 8189, 8189, 8189, 8189, 8189, 8189, 8189, 8189, 6652, 8188, 8188, 4068, 8188, 8188,
    8188, 8188, 8188, 8188, 8188, 8188, 8188, 8188, 8188, 8188, 8188, 8188, 8188, 8188, 8188, 8188,
    8188, 8188, 8188, 8188, 8188, 8188, 8188, 8188, 8188, 8188, 8188, 7164, 7772, 3876, 8188, 8188,
    8188, 8188, 8188, 8188, 8188, 8188, 8188, 8188, 8188, 8188, 8188, 8188, 8188, 8188, 8188, 8188,
    8188, 8188, 8188, 8188, 8188, 8188, 8188, 8188, 8188, 8188, 8188, 8188, 8188, 8188, 8188, 2044,
    0, 0, 0, 0, 0, 0, 0, 0, 0, 0, 0, 0, 0, 0, 0, 0, 0, 0, 0, 0, 0, 0, 0, 0, 0, 0, 0, 0, 0, 0, 0, 0,
    0, 0, 0, 0, 0, 0, 0, 0, 0, 0, 0, 0, 0, 0, 0, 0, 0, 0, 0, 0, 0, 0, 0, 0, 0, 0, 0, 0, 0, 0, 0, 0,
    0, 0, 0, 0, 0, 0, 0, 0, 0, 0, 0, 0, 0, 0, 0, 0, 0, 0, 0, 0, 0, 0, 0, 0, 0, 0, 0, 0, 0, 0, 0, 0,
    0, 0, 0, 0, 0, 0, 0, 0, 0, 0, 0, 0, 0, 0, 0, 0, 0, 0, 0, 0, 0, 0, 0, 0, 0, 0, 0, 0, 0, 0, 0, 0,
];

/// Whether the byte is ASCII and of the class.
#[inline(always)]
pub(crate) fn is_in(b: u8, class: CharClass) -> bool
    ensures { result ≡ byte_in class b }
{
    CLASSES[b as usize] & (1 << class as u16) != 0
}

/// How many bytes at the front are ASCII and of the class.
#[inline(always)]
pub(crate) fn ascii_run(bytes: &[u8], class: CharClass) -> usize
    ensures { IsRun (byte_in class) bytes.now result }
{
    let mut end = 0;
    'blocks: while bytes.len() - end >= LANES {
        let run = class_run(bytes, end, class);
        if run < LANES {
            return end + run;
        }
        end += LANES;
    }
    'tail: while end < bytes.len() && is_in(bytes[end], class) {
        end += 1;
    }
    end
}

/// Whether the byte at this place is ASCII, or the place is the end.
#[inline(always)]
pub(crate) fn is_cut(bytes: &[u8], at: usize) -> bool
    ensures { IsTrue result → at < length bytes.now → slice_index bytes.now at < 128 }
{
    at >= bytes.len() || bytes[at] < 128
}
