//! The kernel's state.
ghost use Rattle.std.specs.Prelude.{◌≡◌, ◌<◌, ◌^◌, All, length};
ghost use Rattle.kernel_core.specs.FileSystem.{IsFileSystem};
ghost use Rattle.kernel_model.specs.Descriptions.{output_of};
ghost use Rattle.kernel_model.specs.Pending.{AreSound};
ghost use Rattle.kernel_model.specs.Table.{descriptor_limit};
ghost use Rattle.kernel_model.specs.declared.limit.Limit.{Limit as Bounds};
ghost use Rattle.kernel_model.specs.declared.signal.Action.{Action};
ghost use Rattle.native_signal.specs.Fitting.{IsNumberedStack};

use crate::chance::Chance;
use crate::system::all_fit;
use kernel_model::Limit;
use native_files::Files;
use native_signal::Signals;
use native_timer::Timers;
use std::alloc::Global;
use std::marker::Model;

/// How many resources have a limit (getrlimit(2)).
pub(crate) const RESOURCES: usize = 16;

/// The native kernel of one process. Contracts see it as `Kernel` of `kernel_model`. (The type is this
/// project's own.)
#[derive(Drop)]
pub struct NativeKernel {
    pub(crate) files: Files,
    /// The clock, in nanoseconds from 0.
    pub(crate) clock: u64,
    /// How many nanoseconds since the Unix epoch the clock began.
    pub(crate) epoch: u128,
    pub(crate) timers: Timers,
    pub(crate) signals: Signals,
    pub(crate) limits: [Limit; RESOURCES],
    pub(crate) chance: Chance,
    pub(crate) alloc: Global,
}

impl Model for NativeKernel {
    ghost use Rattle.std.specs.Prelude.{◌<◌, ◌^◌};
    ghost use Rattle.std.specs.Coded.{codes};
    ghost use Rattle.kernel_core.specs.Nodes.{nodes_code};
    ghost use Rattle.kernel_model.specs.State.{Kernel};

    ghost Value = { Kernel };

    ghost coded = { Prim.hlevel (codes, nodes_code) };

    ghost view = { λ k. record {
      files = k.files;
      clock = k.clock;
      epoch = k.epoch;
      timer = k.timers;
      signals = k.signals;
      limits = k.limits;
      chance = k.chance;
    } };

    ghost invariant = { λ k. k.epoch < 2 ^ 72 };
}

impl NativeKernel {
    /// Which output a descriptor leads to: 1 for standard output and 2 for standard error, by whichever
    /// number it is open; None for anything else, and where it is not open. It takes no memory.
    pub fn output(&self, fd: u32) -> Option<u8>
        ensures { result ≡ output_of self.now.files fd }
    {
        self.files.output(fd)
    }

    /// There are 1,024 places of descriptors, whatever is open: it does nothing, and tells its caller this.
    pub fn whole(&self)
        ensures { length self.now.files.table.fds ≡ descriptor_limit }
    {
        self.files.whole();
    }

    /// The nodes are a file system, and the umask fits 16 bits: it changes nothing, and tells its caller this.
    pub fn files_valid(&self)
        ensures nodes { IsFileSystem self.now.files.nodes }
        ensures umask { self.now.files.umask < 2 ^ 16 }
    {
        self.files.valid();
    }

    /// What pends can, with no address, neither the mask nor that of an action has KILL or STOP, and each handler
    /// and the alternate stack fit 64 bits: it changes nothing, and tells its caller this.
    pub fn signals_fit(&self)
        ensures sound { AreSound self.now.signals }
        ensures handlers { All (λ (action : Action). action.handler < 2 ^ 64) self.now.signals.actions }
        ensures stack { IsNumberedStack self.now.signals.stack }
    {
        self.signals.sound();
        self.signals.numbers_fit();
    }

    /// Each limit fits 64 bits: it changes nothing, and tells its caller this.
    pub fn limits_fit(&self)
        ensures { All (λ (limit : Bounds). (limit.soft < 2 ^ 64) × (limit.hard < 2 ^ 64)) self.now.limits }
    {
        all_fit(&self.limits);
    }
}
