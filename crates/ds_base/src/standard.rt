//! The trusted edge: a source and a sink over std's reader and writer.
ghost use Rattle.std.specs.Prelude.{◌≡◌, ◌≢◌, ◌<◌, ◌≤◌, None, length};
ghost use Rattle.ds_base.specs.Outside.{risen, Gives, Accepts};

use crate::outside::{Gave, Sink, Source, Taken};
use std::io::{Read, Write};
use std::marker::Model;

/// A source over a reader. It tells nothing of what is left: contracts see the count of the reader's errors.
#[derive(Drop)]
pub struct StdSource<R> {
    reader: R,
    faults: u64,
}

impl<R> Model for StdSource<R> {
    ghost use Rattle.std.specs.Prelude.{ℕ};

    ghost Value = { ℕ };

    ghost view = { λ s. s.faults };
}

impl<R: Read> StdSource<R> {
    pub fn new(reader: R) -> StdSource<R>
        ensures { result ≡ 0 }
    {
        StdSource { reader, faults: 0 }
    }
}

impl<R: Read> Source for StdSource<R> {
    ghost left = { λ _. None };

    ghost faults = { λ s. s };

    fn next(&mut self, buf: &mut [u8]) -> Taken
        requires { 0 < length buf.old }
        ensures gives { Gives None None result buf.new }
        ensures faults { self.old ≤ self.new }
        ensures failed { result ≡ Taken.Failed → self.new ≡ risen self.old }
        ensures well { result ≢ Taken.Failed → self.new ≡ self.old }
    {
        match self.reader.read(buf) {
            Ok(0) => Taken::End,
            Ok(n) => Taken::Got(n),
            Err(_) => {
                self.faults = self.faults.saturating_add(1);
                Taken::Failed
            }
        }
    }
}

/// A sink over a writer. It tells nothing of what was taken: contracts see the count of the writer's errors, where a
/// writer that takes nothing of a piece counts as one.
#[derive(Drop)]
pub struct StdSink<W> {
    writer: W,
    faults: u64,
}

impl<W> Model for StdSink<W> {
    ghost use Rattle.std.specs.Prelude.{ℕ};

    ghost Value = { ℕ };

    ghost view = { λ s. s.faults };
}

impl<W: Write> StdSink<W> {
    pub fn new(writer: W) -> StdSink<W>
        ensures { result ≡ 0 }
    {
        StdSink { writer, faults: 0 }
    }
}

impl<W: Write> Sink for StdSink<W> {
    ghost taken = { λ _. None };

    ghost faults = { λ s. s };

    fn put(&mut self, piece: &[u8]) -> Gave
        requires { 0 < length piece.now }
        ensures accepts { Accepts None None result piece.now }
        ensures faults { self.old ≤ self.new }
        ensures failed { result ≡ Gave.Failed → self.new ≡ risen self.old }
        ensures well { result ≢ Gave.Failed → self.new ≡ self.old }
    {
        match self.writer.write(piece) {
            Ok(n) if n > 0 => Gave::Took(n),
            _ => {
                self.faults = self.faults.saturating_add(1);
                Gave::Failed
            }
        }
    }
}
