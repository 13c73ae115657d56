//! The real streams. They tell what the reader or the writer below tells of its bytes, which is nothing for
//! standard input and output.
ghost use Rattle.std.specs.Prelude.{◌≡◌, IfOk};

use hive_edge::{Failed, Sink, Source};
use std::io::{Read, Write};

/// A source over any reader.
#[derive(Drop)]
pub struct RealIn<R: Read + Drop> {
    reader: R,
    faults: u64,
}

impl<R: Read + Drop> RealIn<R> {
    /// A source over `reader` that has not failed yet.
    pub fn new(reader: R) -> RealIn<R>
        ensures reader { result.reader ≡ reader }
        ensures faults { result.faults ≡ 0 }
    {
        RealIn { reader, faults: 0 }
    }
}

impl<R: Read + Drop> Source for RealIn<R> {
    ghost rest = { λ source. R.remaining source.reader };

    ghost faults = { λ source. source.faults };

    fn read(&mut self, buf: &mut [u8]) -> Result<usize, Failed> {
        match self.reader.read(buf) {
            Ok(count) => Ok(count),
            Err(_) => {
                self.faults = self.faults.saturating_add(1);
                Err(Failed)
            }
        }
    }
}

/// A sink over any writer.
#[derive(Drop)]
pub struct RealOut<W: Write + Drop> {
    writer: W,
    faults: u64,
}

impl<W: Write + Drop> RealOut<W> {
    /// A sink over `writer` that has not failed yet.
    pub fn new(writer: W) -> RealOut<W>
        ensures writer { result.writer ≡ writer }
        ensures faults { result.faults ≡ 0 }
    {
        RealOut { writer, faults: 0 }
    }
}

impl<W: Write + Drop> Sink for RealOut<W> {
    ghost got = { λ sink. W.contents sink.writer };

    ghost faults = { λ sink. sink.faults };

    ghost admits = { λ _ _. Unit {0} };

    ghost admits_front = { λ _ _ _ _. tt };

    fn write(&mut self, piece: &[u8]) -> Result<usize, Failed> {
        match self.writer.write(piece) {
            // A write that takes nothing of a piece would never end, so it counts as a fault.
            Ok(count) if count > 0 => Ok(count),
            _ => {
                self.faults = self.faults.saturating_add(1);
                Err(Failed)
            }
        }
    }

    fn flush(&mut self) -> Result<(), Failed> {
        match self.writer.flush() {
            Ok(()) => Ok(()),
            Err(_) => {
                self.faults = self.faults.saturating_add(1);
                Err(Failed)
            }
        }
    }
}
