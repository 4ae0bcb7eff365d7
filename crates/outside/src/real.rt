// Adapters of real streams, which tell no content. What a stream does is trusted.
ghost use Rattle.std.specs.Prelude.{◌≡◌, ◌≤◌, take, length, None, IfOk, OnOk, OnErr};
ghost use Rattle.std.specs.Io.KnownBytes.{Appends, ReadConsumes};
ghost use Rattle.outside.specs.Adapted.{AppendsPart};
ghost use Rattle.outside.specs.Causes.{FailsOnlyIfRose, faults_after};
ghost use Rattle.outside.specs.Count.{Rose, last_count, next_count};

use crate::errors::{DevError, Failed};
use crate::traits::{Sink, Source};
use crate::transfer::write_whole;
use std::io::{Read, Write};
use std::marker::Model;

/// A source over a reader.
#[derive(Drop)]
pub struct StdSource<R: Read> {
    inner: R,
    faults: u64,
}

impl<R: Read> Model for StdSource<R> {
    ghost use Rattle.std.specs.Prelude.{◌≤◌};
    ghost use Rattle.outside.specs.Count.{last_count};
    ghost use Rattle.outside.specs.Adapted.{Adapted};

    ghost Value = { Adapted };

    ghost view = { λ s. record { known = R.remaining s.inner; faults = s.faults } };

    ghost invariant = { λ s. s.faults ≤ last_count };
}

impl<R: Read> StdSource<R> {
    /// A source over this reader, with no fault yet.
    pub fn new(inner: R) -> Self
        ensures { result ≡ record { known = R.remaining inner; faults = 0 } }
    {
        StdSource { inner, faults: 0 }
    }
}

impl<R: Read> Source for StdSource<R> {
    ghost left = { λ _. None };

    ghost faults = { λ s. s.faults };

    fn take(&mut self, buf: &mut [u8]) -> Result<usize, Failed>
        ensures within { IfOk result (λ count. count ≤ length buf.new) }
        ensures moved { ReadConsumes self.old.known self.new.known result buf.new }

        ensures counted { OnErr result (self.new.faults ≡ next_count self.old.faults) }
        ensures not_counted { OnOk result (self.new.faults ≡ self.old.faults) }
        ensures cause { OnErr result (Rose self.old.faults self.new.faults) }
        ensures later { self.old.faults ≤ self.new.faults }
        ensures bounded { self.new.faults ≤ last_count }
    {
        match self.inner.read(buf) {
            Ok(count) => Ok(count),
            Err(_) => {
                self.faults = self.faults.saturating_add(1);
                Err(Failed)
            }
        }
    }
}

/// A sink over a writer.
#[derive(Drop)]
pub struct StdSink<W: Write> {
    inner: W,
    faults: u64,
}

impl<W: Write> Model for StdSink<W> {
    ghost use Rattle.std.specs.Prelude.{◌≤◌};
    ghost use Rattle.outside.specs.Count.{last_count};
    ghost use Rattle.outside.specs.Adapted.{Adapted};

    ghost Value = { Adapted };

    ghost view = { λ s. record { known = W.contents s.inner; faults = s.faults } };

    ghost invariant = { λ s. s.faults ≤ last_count };
}

impl<W: Write> StdSink<W> {
    /// A sink over this writer, with no fault yet.
    pub fn new(inner: W) -> Self
        ensures { result ≡ record { known = W.contents inner; faults = 0 } }
    {
        StdSink { inner, faults: 0 }
    }
}

impl<W: Write> Sink for StdSink<W> {
    ghost written = { λ _. None };

    ghost faults = { λ s. s.faults };

    fn put(&mut self, bytes: &[u8]) -> Result<(), DevError>
        ensures whole { OnOk result (Appends self.old.known self.new.known bytes.now) }
        ensures part { OnErr result (AppendsPart self.old.known self.new.known bytes.now) }

        ensures faults { self.new.faults ≡ faults_after result self.old.faults }
        ensures cause { FailsOnlyIfRose result self.old.faults self.new.faults }
        ensures later { self.old.faults ≤ self.new.faults }
        ensures bounded { self.new.faults ≤ last_count }
    {
        match write_whole(&mut self.inner, bytes) {
            Ok(()) => Ok(()),
            Err(Failed) => {
                self.faults = self.faults.saturating_add(1);
                Err(DevError::Failed)
            }
        }
    }
}
