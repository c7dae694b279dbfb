//! A source over std's readers and a sink over its writers, as standard input and output are. They show what these show.
ghost use Rattle.std.specs.Prelude.{None, ◌≡◌, false};

use crate::reading::PIECE;
use crate::{Failed, Sink, Source};
use std::io::{Read, Write};
use std::marker::Model;

/// A source over a reader, such as standard input. Contracts see the reader, how many bytes were taken and how often a read failed. The
/// bytes that are left are those that the reader will give, as far as it says which (`Read::remaining`).
///
/// The code does this, though no clause says so: a read fails where the reader fails, also where it was only interrupted, and where the
/// number of bytes taken could pass the last value of 64 bits; and it asks the reader for at most 4,096 bytes.
#[derive(Drop)]
pub struct StdSource<R: Read + Drop> {
    reader: R,
    taken: u64,
    faults: u64,
}

impl<R: Read + Drop> Model for StdSource<R> {
    ghost use Rattle.px_io.specs.Standard.{SourceState};

    ghost Value = { SourceState R };

    ghost view = { λ s. record { reader = s.reader; taken = s.taken; faults = s.faults } };
}

impl<R: Read + Drop> StdSource<R> {
    /// Returns the source of what the reader gives from now on. Does not allocate.
    pub fn new(reader: R) -> Self
        ensures { result ≡ record { reader = reader; taken = 0; faults = 0 } }
    {
        StdSource {
            reader,
            taken: 0,
            faults: 0,
        }
    }
}

impl<R: Read + Drop> Source for StdSource<R> {
    ghost left = { λ s. R.remaining s.reader };

    ghost taken = { λ s. s.taken };

    ghost faults = { λ s. s.faults };

    ghost never_fails = { λ s. false };

    // A reader that fails may have written into what it borrowed, so it gets a piece of its own.
    fn read(&mut self, into: &mut [u8]) -> Result<usize, Failed> {
        let mut piece = [0; PIECE];
        let room = into.len().min(PIECE);
        if room as u64 <= u64::MAX - self.taken {
            if let Ok(count) = self.reader.read(&mut piece[..room]) {
                into[..count].copy_from_slice(&piece[..count]);
                self.taken += count as u64;
                return Ok(count);
            }
        }
        self.faults = self.faults.saturating_add(1);
        Err(Failed)
    }
}

/// A sink over a writer, such as standard output. Contracts see the writer and how often a write failed. The bytes that were written are
/// those that the writer holds, as far as it says which (`Write::contents`).
///
/// The code does this, though no clause says so: a write fails where the writer fails, also where it was only interrupted, and where the
/// writer takes none of some bytes.
#[derive(Drop)]
pub struct StdSink<W: Write + Drop> {
    writer: W,
    faults: u64,
}

impl<W: Write + Drop> Model for StdSink<W> {
    ghost use Rattle.px_io.specs.Standard.{SinkState};

    ghost Value = { SinkState W };

    ghost view = { λ s. record { writer = s.writer; faults = s.faults } };
}

impl<W: Write + Drop> StdSink<W> {
    /// Returns the sink that hands on to the writer what it is given. Does not allocate.
    pub fn new(writer: W) -> Self
        ensures { result ≡ record { writer = writer; faults = 0 } }
    {
        StdSink { writer, faults: 0 }
    }
}

impl<W: Write + Drop> Sink for StdSink<W> {
    ghost written = { λ s. W.contents s.writer };

    ghost faults = { λ s. s.faults };

    ghost sure = { λ s. None };

    fn write(&mut self, bytes: &[u8]) -> Result<usize, Failed> {
        match self.writer.write(bytes) {
            Ok(count) if count > 0 || bytes.is_empty() => Ok(count),
            _ => {
                self.faults = self.faults.saturating_add(1);
                Err(Failed)
            }
        }
    }
}
