// Streams in memory, which tell their content and fail at the calls that they are told to.
ghost use Rattle.std.specs.Prelude.{◌≡◌, ◌≤◌, ◌++◌, ◌↔◌, List, ℕ, [], length, take, drop, min, Some, IsErr, IfOk, OnOk, OnErr};
ghost use Rattle.outside.specs.Calls.{NextFails, after_call};
ghost use Rattle.outside.specs.Count.{last_count, next_count};
ghost use Rattle.outside.specs.Memory.{Stream};

use crate::errors::{DevError, Failed};
use crate::failing::FailingCalls;
use crate::streams::BytesLeft;
use crate::traits::{Sink, Source};
use std::alloc::Global;
use std::marker::Model;

/// A source of bytes in memory.
#[derive(Drop)]
pub struct MemSource {
    left: BytesLeft,
    calls: FailingCalls,
    faults: u64,
}

impl Model for MemSource {
    ghost use Rattle.std.specs.Prelude.{◌≤◌};
    ghost use Rattle.outside.specs.Count.{last_count};
    ghost use Rattle.outside.specs.Memory.{Stream};

    ghost Value = { Stream };

    ghost view = { λ s. record { bytes = s.left; calls = s.calls; faults = s.faults } };

    ghost invariant = { λ s. s.faults ≤ last_count };
}

impl MemSource {
    /// A source of these bytes. The calls of `take` whose numbers are in `fail` fail, where the
    /// first call has number 1 and a number stops at 2^64 - 1.
    pub fn new(bytes: Vec<u8>, fail: Vec<u64>) -> Self
        ensures { result ≡ record { bytes = bytes.items; calls = record { made = 0; failing = fail.items }; faults = 0 } }
    {
        MemSource {
            left: BytesLeft::new(bytes),
            calls: FailingCalls::new(fail),
            faults: 0,
        }
    }

    /// The bytes left.
    pub fn rest(&self) -> &[u8]
        ensures { result.now ≡ self.now.bytes }
    {
        self.left.as_slice()
    }
}

impl Source for MemSource {
    ghost left = { λ s. Some s.bytes };

    ghost faults = { λ s. s.faults };

    fn take(&mut self, buf: &mut [u8]) -> Result<usize, Failed>
        ensures failing { IsErr result ↔ NextFails self.old.calls }
        ensures count { IfOk result (λ count. count ≡ min (length buf.new) (length self.old.bytes)) }
        ensures bytes { IfOk result (λ count. take count buf.new ≡ take count self.old.bytes) }
        ensures rest { IfOk result (λ count. drop count buf.new ≡ drop count buf.old) }
        ensures ok { IfOk result (λ count. self.new ≡ record self.old {
          bytes = drop count self.old.bytes;
          calls = after_call self.old.calls;
        }) }
        ensures err { OnErr result (self.new ≡ record self.old {
          calls = after_call self.old.calls;
          faults = next_count self.old.faults;
        }) }
        ensures later { self.old.faults ≤ self.new.faults }
        ensures bounded { self.new.faults ≤ last_count }
    {
        if self.calls.count_call() {
            self.faults = self.faults.saturating_add(1);
            return Err(Failed);
        }
        Ok(self.left.move_out(buf))
    }
}

/// A sink into memory.
#[derive(Drop)]
pub struct MemSink {
    bytes: Vec<u8>,
    calls: FailingCalls,
    faults: u64,
}

impl Model for MemSink {
    ghost use Rattle.std.specs.Prelude.{◌≤◌};
    ghost use Rattle.outside.specs.Count.{last_count};
    ghost use Rattle.outside.specs.Memory.{Stream};

    ghost Value = { Stream };

    ghost view = { λ s. record { bytes = s.bytes.items; calls = s.calls; faults = s.faults } };

    ghost invariant = { λ s. s.faults ≤ last_count };
}

impl MemSink {
    /// A sink with nothing in it. The calls of `put` whose numbers are in `fail` fail, where the
    /// first call has number 1 and a number stops at 2^64 - 1.
    pub fn new(alloc: Global, fail: Vec<u64>) -> Self
        ensures { result ≡ record { bytes = []; calls = record { made = 0; failing = fail.items }; faults = 0 } }
    {
        MemSink {
            bytes: Vec::new(alloc),
            calls: FailingCalls::new(fail),
            faults: 0,
        }
    }

    /// The bytes written.
    pub fn bytes(&self) -> &[u8]
        ensures { result.now ≡ self.now.bytes }
    {
        self.bytes.as_slice()
    }
}

impl Sink for MemSink {
    ghost written = { λ s. Some s.bytes };

    ghost faults = { λ s. s.faults };

    fn put(&mut self, bytes: &[u8]) -> Result<(), DevError>
        ensures failing { (result ≡ Err DevError.Failed) ↔ NextFails self.old.calls }
        ensures ok { OnOk result (self.new ≡ record self.old {
          bytes = self.old.bytes ++ bytes.now;
          calls = after_call self.old.calls;
        }) }
        ensures err { OnErr result (self.new.bytes ≡ self.old.bytes) }
        ensures failed { result ≡ Err DevError.Failed → self.new.faults ≡ next_count self.old.faults }
        ensures no_memory { result ≡ Err DevError.NoMemory → self.new.faults ≡ self.old.faults }
        ensures counted { self.new.calls ≡ after_call self.old.calls }
        ensures later { self.old.faults ≤ self.new.faults }
        ensures bounded { self.new.faults ≤ last_count }
    {
        if self.calls.count_call() {
            self.faults = self.faults.saturating_add(1);
            return Err(DevError::Failed);
        }
        self.bytes.extend_from_slice(bytes)?;
        Ok(())
    }
}
