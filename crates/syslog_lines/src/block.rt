//! The input, a block at a time.
ghost use Rattle.std.specs.Prelude.{◌≡◌, ◌+◌, ◌<◌, ◌≤◌, [], length, take, drop};
ghost use Rattle.std.specs.Prelude.{vec_len, false, true, IfOk, IfErr, OnOk, OnErr};
ghost use Rattle.std.specs.Io.KnownBytes.{Consumes, IsAtEnd, Keeps};
ghost use Rattle.syslog_lines.specs.Size.{block_size};

use crate::summary::RunFault;
use crate::watched::Watched;
use std::alloc::{AllocError, Global};
use std::io;
use std::io::Read;

/// How many bytes a block holds, if no frame is longer.
const SIZE: usize = 65536;

/// The bytes of the input that were read and are not done with.
#[derive(Drop)]
pub struct Block {
    bytes: Vec<u8>,
    passed: usize,
    end: usize,
    most: usize,
    ghost ordered: { passed ≤ end },
    ghost within: { end ≤ vec_len bytes },
    ghost roomy: { block_size ≤ vec_len bytes },
}

impl Block {
    ghost use Rattle.syslog_lines.specs.Block.{Fills, StopsReading, held_bytes};

    /// Returns an empty block, for which it allocates 64 KiB. It grows for frames whose lines have up to `longest`
    /// bytes.
    pub fn new(alloc: Global, longest: Option<usize>) -> Result<Block, AllocError>
        ensures { IfOk result (λ block. held_bytes block ≡ []) }
    {
        let bytes = vec![in alloc; 0u8; SIZE]?;
        let most = longest.unwrap_or(usize::MAX).saturating_add(SIZE);
        Ok(Block {
            bytes,
            passed: 0,
            end: 0,
            most,
        })
    }

    /// Returns the bytes that were read and are not done with.
    pub fn held(&self) -> &[u8]
        ensures { result.now ≡ held_bytes self.now }
    {
        &self.bytes[self.passed..self.end]
    }

    /// Drops the first `size` of the bytes, which are done with.
    pub fn pass(&mut self, size: usize)
        requires { size ≤ length (held_bytes self.old) }
        ensures { held_bytes self.new ≡ drop size (held_bytes self.old) }
    {
        self.passed += size;
    }

    /// Reads once, after the bytes that are held. Returns false at the end of the input.
    ///
    /// Returns `RunFault::Read` if the read fails, and `RunFault::Memory` if what is held takes the whole block and an
    /// allocation for a larger one fails. Neither takes anything from the reader.
    pub fn fill<R: Read>(&mut self, reader: &mut Watched<R>) -> Result<bool, RunFault>
        requires { reader.old.failed ≡ false }
        ensures ok { IfOk result (λ more. Fills (R.remaining reader.old.inner)
            (R.remaining reader.new.inner) self.old self.new more) }
        ensures err { IfErr result (λ fault. StopsReading (held_bytes self.old) fault reader.new.failed) }
        ensures well { OnOk result (reader.new.failed ≡ false) }
        ensures unchanged { OnErr result (Keeps (R.remaining reader.old.inner) (R.remaining reader.new.inner)) }
        ensures counted { OnOk result ((reader.old.calls < u64.MAX) × (reader.new.calls ≡ reader.old.calls + 1)) }
    {
        self.keep_held();
        self.make_room()?;
        let Ok(count) = read_into(reader, &mut self.bytes, self.end) else {
            return Err(RunFault::Read);
        };
        if count == 0 {
            return Ok(false);
        }
        self.end += count;
        Ok(true)
    }

    // Moves what is held to the front.
    fn keep_held(&mut self)
        ensures passed { self.new.passed ≡ 0 }
        ensures held { held_bytes self.new ≡ held_bytes self.old }
    {
        if self.passed > 0 {
            self.bytes.copy_within(self.passed..self.end, 0);
            self.end -= self.passed;
            self.passed = 0;
        }
    }

    // Doubles the space where all of it is taken, up to the most that is to be held.
    fn make_room(&mut self) -> Result<(), AllocError>
        ensures ok { OnOk result (self.new.end < vec_len self.new.bytes) }
        ensures err { OnErr result (block_size ≤ self.old.end) }
        ensures passed { self.new.passed ≡ self.old.passed }
        ensures end { self.new.end ≡ self.old.end }
        ensures held { OnOk result (held_bytes self.new ≡ held_bytes self.old) }
    {
        let size = self.bytes.len();
        if self.end < size {
            return Ok(());
        }
        let Some(least) = size.checked_add(SIZE) else {
            return Err(AllocError);
        };
        let wanted = size.saturating_mul(2).min(self.most).max(least);
        self.bytes.reserve_exact(wanted - size)?;
        self.bytes.resize(wanted, 0)
    }
}

// Reads once into the vector, from a place on. It is apart so that `fill` need not say how a slice is written back.
fn read_into<R: Read>(reader: &mut Watched<R>, bytes: &mut Vec<u8>, at: usize) -> io::Result<usize>
    requires { at < vec_len bytes.old }
    ensures len { vec_len bytes.new ≡ vec_len bytes.old }
    ensures front { take at bytes.new.items ≡ take at bytes.old.items }
    ensures fits { IfOk result (λ count. at + count ≤ vec_len bytes.new) }
    ensures ok { IfOk result (λ count. Consumes (R.remaining reader.old.inner) (R.remaining reader.new.inner)
        (take count (drop at bytes.new.items))) }
    ensures end { IfOk result (λ count. count ≡ 0 → IsAtEnd (R.remaining reader.new.inner)) }
    ensures well { OnOk result (reader.new.failed ≡ reader.old.failed) }
    ensures counted { OnOk result ((reader.old.calls < u64.MAX) × (reader.new.calls ≡ reader.old.calls + 1)) }
    ensures err { OnErr result (reader.new.failed ≡ true) }
    ensures unchanged { OnErr result (Keeps (R.remaining reader.old.inner) (R.remaining reader.new.inner)) }
{
    reader.read(&mut bytes[at..])
}
