//! From a reader to a writer, through a filter: a block of input at a time.
//!
//! **Rule.** What is read and written, and what after a fault, is this project's own choice, stated in
//! `specs/Pump.antt`.
ghost use Rattle.std.specs.Prelude.{◌≡◌, false, IfOk, IfErr};
ghost use Rattle.syslog_lines.specs.Pump.{EndsEarly, FailedAs, PumpsAll};

use crate::apply::Collected;
use crate::block::Block;
use crate::filter::LineFilter;
use crate::framing::Frames;
use crate::place::Place;
use crate::summary::{RunFault, Tally};
use crate::watched::Watched;
use std::alloc::Global;
use std::io::{Read, Write};

/// Reads the messages of these frames to the end of the input, and writes what the filter gives for the line of each. A
/// line that is too long is counted, and the filter doesn't see it.
///
/// The output of each block of input is written before more is read, and the writer is flushed at the end. A call that
/// failed is not repeated. It allocates a block of input, its output, and the longest frame up to the limit. `RunFault`
/// says why it ended early.
pub fn pump<F: LineFilter, R: Read, W: Write>(
    alloc: Global,
    frames: Frames,
    filter: &F,
    reader: &mut Watched<R>,
    writer: &mut Watched<W>,
) -> Result<Tally, RunFault>
    requires reader { reader.old.failed ≡ false }
    requires writer { writer.old.failed ≡ false }
    ensures ok { IfOk result (λ tally. PumpsAll frames (F.answers filter.now) (R.remaining reader.old.inner)
        (R.remaining reader.new.inner)
        (W.contents writer.old.inner) (W.contents writer.new.inner) tally) }
    ensures err { IfErr result (λ fault. EndsEarly frames (F.answers filter.now) (R.remaining reader.old.inner)
        (R.remaining reader.new.inner)
        (W.contents writer.old.inner) (W.contents writer.new.inner) fault) }
    ensures failed { FailedAs result reader.new.failed writer.new.failed }
{
    let mut collected = Collected {
        alloc,
        text: String::new(alloc),
        output: Vec::new(alloc),
        tally: Tally::new(),
    };
    let mut block = Block::new(alloc, frames.longest)?;
    let mut place = Place::start(frames);
    let mut seen = 0;
    while block.fill(reader)? {
        let past = collected.filter_held(frames, filter, &mut place, block.held(), seen);
        writer.write_whole(&collected.output)?;
        block.pass(past?);
        seen = block.held().len();
    }
    let answered = collected.filter_last(frames, filter, place, block.held());
    writer.write_whole(&collected.output)?;
    answered?;
    if writer.flush().is_err() {
        return Err(RunFault::Write);
    }
    Ok(collected.tally)
}
