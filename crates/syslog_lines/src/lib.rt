//! Filters of lines, from a reader to a writer.
//!
//! `pump` reads the input a block at a time, gives each line to a `LineFilter`, and writes the output of a block before
//! it reads the next. `docs/PROMISES.md` says what was read and written if it ends early. The programs are built on it.
//!
//! If `reader` holds the lines `a` and `b`, and `filter` writes each line as it is, `pump(alloc, Frames::plain(),
//! &filter, &mut reader, &mut writer)` writes `a` and `b`, each with a line feed. It returns a `Tally` with `answered`
//! 2 and `skipped` 0.
#![tactic(auto)]

mod apply;
mod block;
pub mod filter;
mod frames;
pub mod framing;
pub mod laws;
mod lines;
mod place;
pub mod pump;
mod search;
pub mod summary;
mod watched;

pub use filter::{LineFilter, push_frame, push_line};
pub use framing::{Frames, Framing};
pub use lines::first_line;
pub use summary::{LineCounts, RunFault, Summary, Tally};
pub use watched::Watched;
