//! Runs of the characters that the names of programs and the keys and values of pairs are made of.
ghost use Rattle.std.specs.Prelude.{◌≡◌, ◌<◌, ◌≤◌, ℕ, chars, false, length, slice_index, true};
ghost use Rattle.syslog_text.specs.Pieces.Class.{some_run, texted};
ghost use Rattle.syslog_text.specs.Pieces.View.{Reads, shown};
ghost use Rattle.syslog_text.specs.Bodies.Scan.{EndsRun, SplitsRun};
ghost use Rattle.syslog_sent.specs.Runs.{is_of, is_unquoted};

/// A class of characters.
#[derive(Clone, Copy)]
pub enum Run {
    /// A letter, a digit, `-`, `.`, `/` or `_`.
    Word,
    /// A letter, a digit, `!` or `-`.
    Plain,
    /// Any character but a quote.
    Unquoted,
    /// A character of `Word` or of `Plain`: a letter, a digit, `!`, `-`, `.`, `/` or `_`.
    Either,
}

impl Run {
    /// Returns whether the character is of the class.
    pub fn has(self, c: char) -> bool
        ensures { result ≡ is_of self c }
    {
        match self {
            Run::Word => {
                c.is_ascii_alphabetic()
                    || (c.is_ascii_digit() || (c == '-' || (c == '.' || (c == '/' || c == '_'))))
            }
            Run::Plain => {
                c.is_ascii_alphabetic() || (c.is_ascii_digit() || (c == '!' || c == '-'))
            }
            Run::Unquoted => c != '"',
            Run::Either => {
                c.is_ascii_alphabetic()
                    || (c.is_ascii_digit()
                        || (c == '!' || (c == '-' || (c == '.' || (c == '/' || c == '_')))))
            }
        }
    }
}

// The classes of each byte: 1 is `Word`, 2 is `Plain`, 4 is `Unquoted`, and 8 is `Either`. The clause of `is_in` says
// that each entry is right.
static CLASSES: [u8; 256] = [
    4, 4, 4, 4, 4, 4, 4, 4, 4, 4, 4, 4, 4, 4, 4, 4, 4, 4, 4, 4, 4, 4, 4, 4, 4, 4, 4, 4, 4, 4, 4, 4,
    4, 14, 0, 4, 4, 4, 4, 4, 4, 4, 4, 4, 4, 15, 13, 13, 15, 15, 15, 15, 15, 15, 15, 15, 15, 15, 4,
    4, 4, 4, 4, 4, 4, 15, 15, 15, 15, 15, 15, 15, 15, 15, 15, 15, 15, 15, 15, 15, 15, 15, 15, 15,
    15, 15, 15, 15, 15, 15, 15, 4, 4, 4, 4, 13, 4, 15, 15, 15, 15, 15, 15, 15, 15, 15, 15, 15, 15,
    15, 15, 15, 15, 15, 15, 15, 15, 15, 15, 15, 15, 15, 15, 4, 4, 4, 4, 4, 4, 4, 4, 4, 4, 4, 4, 4,
    4, 4, 4, 4, 4, 4, 4, 4, 4, 4, 4, 4, 4, 4, 4, 4, 4, 4, 4, 4, 4, 4, 4, 4, 4, 4, 4, 4, 4, 4, 4, 4,
    4, 4, 4, 4, 4, 4, 4, 4, 4, 4, 4, 4, 4, 4, 4, 4, 4, 4, 4, 4, 4, 4, 4, 4, 4, 4, 4, 4, 4, 4, 4, 4,
    4, 4, 4, 4, 4, 4, 4, 4, 4, 4, 4, 4, 4, 4, 4, 4, 4, 4, 4, 4, 4, 4, 4, 4, 4, 4, 4, 4, 4, 4, 4, 4,
    4, 4, 4, 4, 4, 4, 4, 4, 4, 4, 4, 4, 4, 4, 4, 4, 4, 4, 4, 4, 4, 4, 4, 4,
];

// Whether the byte, as a character, is of the class.
#[inline(always)]
fn is_in(b: u8, run: Run) -> bool
    ensures { result ≡ is_of run b }
{
    CLASSES[b as usize] & (1 << run as u8) != 0
}

// How many bytes at the front are characters of the class. It looks at four in each turn of its loop, since half of
// what a byte takes is the loop itself.
#[inline(always)]
fn run_len(bytes: &[u8], run: Run) -> usize
    ensures within { result ≤ length bytes.now }
    ensures pass { (k : ℕ) → k < result → is_of run (slice_index bytes.now k) ≡ true }
    ensures stop { result < length bytes.now → is_of run (slice_index bytes.now result) ≡ false }
{
    let mut end = 0;
    'fours: while bytes.len() - end >= 4 {
        if !is_in(bytes[end], run) {
            return end;
        }
        if !is_in(bytes[end + 1], run) {
            return end + 1;
        }
        if !is_in(bytes[end + 2], run) {
            return end + 2;
        }
        if !is_in(bytes[end + 3], run) {
            return end + 3;
        }
        end += 4;
    }
    'tail: while end < bytes.len() && is_in(bytes[end], run) {
        end += 1;
    }
    end
}

// The place after the maximal run at the front that has no quote, in bytes.
fn unquoted_end(text: &str) -> usize
    ensures { EndsRun is_unquoted text.now result }
{
    match text.find('"') {
        Some(end) => end,
        None => text.len(),
    }
}

// The place after the maximal run of the class at the front, in bytes. All classes but `Unquoted` are of ASCII alone.
fn run_end(text: &str, run: Run) -> usize
    ensures { EndsRun (is_of run) text.now result }
{
    match run {
        Run::Word => run_len(text.as_bytes(), Run::Word),
        Run::Plain => run_len(text.as_bytes(), Run::Plain),
        Run::Unquoted => unquoted_end(text),
        Run::Either => run_len(text.as_bytes(), Run::Either),
    }
}

/// Returns the maximal run of the class at the front, which may be empty, and the text after it.
pub fn split(text: &str, run: Run) -> (&str, &str)
    ensures { SplitsRun (is_of run) text.now result.0.now result.1.now }
{
    text.split_at(run_end(text, run))
}

/// Returns the maximal run of the class at the front, if it is not empty, and the text after it.
pub fn split_some(text: &str, run: Run) -> Option<(&str, &str)>
    ensures { Reads (texted (some_run (is_of run))) (λ t. shown t) (chars text.now) result }
{
    let (word, rest) = split(text, run);
    if word.is_empty() {
        return None;
    }
    Some((word, rest))
}
