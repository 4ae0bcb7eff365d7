// Streams in memory that never fail.
ghost use Rattle.std.specs.Prelude.{◌≡◌, ◌++◌, [], Some};

use crate::errors::{DevError, Failed};
use crate::streams::BytesLeft;
use crate::traits::{Sink, Source};
use std::alloc::Global;
use std::marker::Model;

/// A source of bytes in memory that never fails.
#[derive(Drop)]
pub struct SureSource {
    left: BytesLeft,
}

impl Model for SureSource {
    ghost use Rattle.std.specs.Prelude.{List, ℕ};

    ghost Value = { List ℕ };

    ghost view = { λ s. s.left };
}

impl SureSource {
    /// A source of these bytes.
    pub fn new(bytes: Vec<u8>) -> Self
        ensures { result ≡ bytes.items }
    {
        SureSource {
            left: BytesLeft::new(bytes),
        }
    }

    /// The bytes left.
    pub fn rest(&self) -> &[u8]
        ensures { result.now ≡ self.now }
    {
        self.left.as_slice()
    }
}

impl Source for SureSource {
    ghost left = { λ s. Some s };

    ghost faults = { λ _. 0 };

    fn take(&mut self, buf: &mut [u8]) -> Result<usize, Failed> {
        Ok(self.left.move_out(buf))
    }
}

/// A sink into memory that never fails.
#[derive(Drop)]
pub struct SureSink {
    bytes: Vec<u8>,
}

impl Model for SureSink {
    ghost use Rattle.std.specs.Prelude.{List, ℕ};

    ghost Value = { List ℕ };

    ghost view = { λ s. s.bytes.items };
}

impl SureSink {
    /// A sink with nothing in it.
    pub fn new(alloc: Global) -> Self
        ensures { result ≡ [] }
    {
        SureSink {
            bytes: Vec::new(alloc),
        }
    }

    /// The bytes written.
    pub fn bytes(&self) -> &[u8]
        ensures { result.now ≡ self.now }
    {
        self.bytes.as_slice()
    }
}

impl Sink for SureSink {
    ghost written = { λ s. Some s };

    ghost faults = { λ _. 0 };

    fn put(&mut self, bytes: &[u8]) -> Result<(), DevError> {
        self.bytes.extend_from_slice(bytes)?;
        Ok(())
    }
}
