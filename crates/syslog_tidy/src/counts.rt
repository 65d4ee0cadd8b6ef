//! The counts of `changed`.

/// How many lines `changed` read, and how many of them it wrote. The counts saturate.
#[derive(Clone, Copy, Debug, PartialEq, Eq)]
pub struct Changed {
    /// The number of lines.
    pub lines: u64,
    /// The number of lines that read differently under the two rules of the dash.
    pub changed: u64,
}
