// Std's readers and writers as sources and sinks.

ghost use Rattle.std.specs.Prelude.{◌≡◌, ◌<◌, ◌≤◌, length, take, true, false, Ok, IfOk, IsOk, IsErr, OnOk, OnErr};
ghost use Rattle.std.specs.Io.KnownBytes.{Appends, Consumes, IsAtEnd, Keeps};
ghost use Rattle.fs_io.specs.Count.{raised};

use crate::fault::Failed;
use crate::sink::Sink;
use crate::source::Source;
use std::io;
use std::io::{Read, Write};
use std::marker::Model;

// A source's answer for a reader's: an `Err` is no end of input but a fault, and is counted.
fn taken(answer: io::Result<usize>, faults: &mut u64) -> Result<usize, Failed>
    ensures got { IfOk answer (λ n. (result ≡ Ok n) × (faults.new ≡ faults.old)) }
    ensures failed { OnErr answer (IsErr result × (faults.new ≡ raised faults.old)) }
    ensures never_falls { faults.old ≤ faults.new }
{
    match answer {
        Ok(n) => Ok(n),
        Err(_) => {
            *faults = faults.saturating_add(1);
            Err(Failed)
        }
    }
}

// A sink's answer for a writer's that was given these bytes: an `Err` is a fault, and so is nothing taken of some bytes.
fn given(answer: io::Result<usize>, bytes: &[u8], faults: &mut u64) -> Result<usize, Failed>
    ensures some { IfOk answer (λ n. 0 < n → (result ≡ Ok n) × (faults.new ≡ faults.old)) }
    ensures empty { IfOk answer (λ n. length bytes.now ≡ 0 → (result ≡ Ok n) × (faults.new ≡ faults.old)) }
    ensures nothing { IfOk answer (λ n. n ≡ 0 → 0 < length bytes.now → IsErr result × (faults.new ≡ raised faults.old)) }
    ensures failed { OnErr answer (IsErr result × (faults.new ≡ raised faults.old)) }
    ensures never_falls { faults.old ≤ faults.new }
{
    match answer {
        Ok(n) if n > 0 || bytes.is_empty() => Ok(n),
        _ => {
            *faults = faults.saturating_add(1);
            Err(Failed)
        }
    }
}

// A sink's answer for a writer's that was flushed: an `Err` is a fault, and leaves the mark as it was.
fn flushed(answer: io::Result<()>, is_clean: &mut bool, faults: &mut u64) -> Result<(), Failed>
    ensures flushed { OnOk answer (IsOk result × (is_clean.new ≡ true) × (faults.new ≡ faults.old)) }
    ensures failed { OnErr answer (IsErr result × (is_clean.new ≡ is_clean.old) × (faults.new ≡ raised faults.old)) }
    ensures never_falls { faults.old ≤ faults.new }
{
    match answer {
        Ok(()) => {
            *is_clean = true;
            Ok(())
        }
        Err(_) => {
            *faults = faults.saturating_add(1);
            Err(Failed)
        }
    }
}

/// A reader of std as a source. It tells what is left where the reader tells it, as one of bytes in memory does;
/// standard input tells nothing. Each `Err` of the reader counts as a fault.
#[derive(Debug, Drop)]
pub struct ReadSource<R> {
    reader: R,
    faults: u64,
}

impl<R> Model for ReadSource<R> {
    ghost use Rattle.fs_io.specs.Adapted.{Reading};

    ghost Value = { Reading R };

    ghost view = { λ s. record { reader = s.reader; faults = s.faults } };
}

impl<R> ReadSource<R> {
    /// A source over the reader, with no fault so far. Takes no memory.
    pub fn new(reader: R) -> ReadSource<R>
        ensures { result ≡ record { reader = reader; faults = 0 } }
    {
        ReadSource { reader, faults: 0 }
    }

    /// The reader.
    pub fn into_inner(self) -> R
        ensures { result ≡ self.reader }
    {
        let ReadSource { reader, faults: _ } = self;
        reader
    }

    /// How many faults there were.
    pub fn faults(&self) -> u64
        ensures { result ≡ self.now.faults }
    {
        self.faults
    }
}

impl<R: Read> Source for ReadSource<R> {
    ghost state = { λ s. record { left = R.remaining s.reader; faults = s.faults } };

    fn read(&mut self, buf: &mut [u8]) -> Result<usize, Failed>
        ensures within { IfOk result (λ n. n ≤ length buf.new) }
        ensures bytes { IfOk result (λ n. Consumes (R.remaining self.old.reader) (R.remaining self.new.reader) (take n buf.new)) }
        ensures end { IfOk result (λ n. n ≡ 0 → 0 < length buf.new → IsAtEnd (R.remaining self.old.reader)) }
        ensures never_falls { self.old.faults ≤ self.new.faults }

        ensures got { OnOk result (self.new.faults ≡ self.old.faults) }
        ensures failed { OnErr result (self.new.faults ≡ raised self.old.faults) }
        ensures kept { OnErr result (Keeps (R.remaining self.old.reader) (R.remaining self.new.reader)) }
    {
        taken(self.reader.read(buf), &mut self.faults)
    }
}

/// A writer of std as a sink. It tells nothing of what it holds; what the writer tells of it grows by exactly the bytes
/// that were put. Each `Err` of the writer counts as a fault, and so does a write that takes none of at least one byte.
#[derive(Debug, Drop)]
pub struct WriteSink<W> {
    writer: W,
    faults: u64,
    is_clean: bool,
}

impl<W> Model for WriteSink<W> {
    ghost use Rattle.fs_io.specs.Adapted.{Writing};

    ghost Value = { Writing W };

    ghost view = { λ s. record { writer = s.writer; faults = s.faults; clean = s.is_clean } };
}

impl<W> WriteSink<W> {
    /// A sink over the writer, with no fault so far. It isn't clean, since the writer may hold bytes. Takes no memory.
    pub fn new(writer: W) -> WriteSink<W>
        ensures { result ≡ record { writer = writer; faults = 0; clean = false } }
    {
        WriteSink {
            writer,
            faults: 0,
            is_clean: false,
        }
    }

    /// The writer.
    pub fn into_inner(self) -> W
        ensures { result ≡ self.writer }
    {
        let WriteSink {
            writer,
            faults: _,
            is_clean: _,
        } = self;
        writer
    }

    /// How many faults there were.
    pub fn faults(&self) -> u64
        ensures { result ≡ self.now.faults }
    {
        self.faults
    }
}

impl<W: Write> Sink for WriteSink<W> {
    ghost use Rattle.std.specs.Prelude.{None};

    ghost state = { λ s. record { held = None; faults = s.faults; clean = s.clean } };

    fn write(&mut self, bytes: &[u8]) -> Result<usize, Failed>
        ensures within { IfOk result (λ n. n ≤ length bytes.now) }
        ensures some { IfOk result (λ n. 0 < length bytes.now → 0 < n) }
        ensures unclean { self.new.clean ≡ false }
        ensures never_falls { self.old.faults ≤ self.new.faults }

        ensures put { OnOk result (self.new.faults ≡ self.old.faults) }
        ensures failed { OnErr result (self.new.faults ≡ raised self.old.faults) }
        ensures grew { IfOk result (λ n. Appends (W.contents self.old.writer) (W.contents self.new.writer) (take n bytes.now)) }
        ensures stayed { OnErr result (Keeps (W.contents self.old.writer) (W.contents self.new.writer)) }
    {
        self.is_clean = false;
        given(self.writer.write(bytes), bytes, &mut self.faults)
    }

    fn flush(&mut self) -> Result<(), Failed>
        ensures never_falls { self.old.faults ≤ self.new.faults }

        ensures flushed { OnOk result ((self.new.clean ≡ true) × (self.new.faults ≡ self.old.faults)) }
        ensures failed { OnErr result ((self.new.clean ≡ self.old.clean) × (self.new.faults ≡ raised self.old.faults)) }
        ensures stayed { Keeps (W.contents self.old.writer) (W.contents self.new.writer) }
    {
        flushed(self.writer.flush(), &mut self.is_clean, &mut self.faults)
    }
}
