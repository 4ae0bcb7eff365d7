//! A kernel that begins, and the file tree that it leaves.
ghost use Rattle.std.specs.Prelude.{◌≡◌, ◌↔◌, ℕ, ◌+◌, ◌*◌, ◌^◌, ◌<◌, Contains, IfOk, option_map};
ghost use Rattle.kernel_core.specs.LoadedTree.{saved};
ghost use Rattle.kernel_core.specs.ValidTree.{IsReached, IsValidTree, numbers};
ghost use Rattle.kernel_model.specs.Begin.{first_limits, first_state};
ghost use Rattle.kernel_model.specs.Clock.{second};
ghost use Rattle.native_kernel.specs.Settings.{settings_of, size_of};
ghost use Rattle.schedule.specs.Ranges.{IsGivenSchedule};

use crate::chance::Chance;
use crate::kernel::{NativeKernel, RESOURCES};
use kernel_core::{NoMemory, Tree};
use kernel_model::{Limit, Winsize};
use native_files::Files;
use native_signal::Signals;
use native_timer::Timers;
use schedule::Schedule;
use std::alloc::Global;

/// How many bytes of chance the first stack of a program takes. (This project's own.)
const STACK_CHANCE: usize = 16;

const NANOSECONDS_PER_SECOND: u128 = 1_000_000_000;

/// No limit (RLIM_INFINITY of getrlimit(2)).
const UNLIMITED: Limit = Limit {
    soft: u64::MAX,
    hard: u64::MAX,
};

/// The limit of the stack, 8 MiB for its soft one.
const STACK_LIMIT: Limit = Limit {
    soft: 8 << 20,
    hard: u64::MAX,
};

/// The limit of descriptors.
const DESCRIPTOR_LIMIT: Limit = Limit {
    soft: 1024,
    hard: 1024,
};

/// The places of the stack's limit and that of descriptors.
const STACK: usize = 3;

const DESCRIPTORS: usize = 5;

impl NativeKernel {
    /// The kernel of a process that begins: the nodes of the tree, the streams, no signal and no timer, and
    /// what the schedule says of the clock, the terminal and chance. It takes its memory from `alloc`.
    #[tactic(auto, unfolding(kernel_model::specs::Begin::first_state))]
    pub fn new(alloc: Global, tree: Tree, schedule: &Schedule) -> Result<NativeKernel, NoMemory>
        requires tree { IsValidTree tree }
        requires schedule { IsGivenSchedule schedule.now }
        ensures first { IfOk result (λ kernel. kernel ≡ first_state tree (settings_of schedule.now)) }
    {
        Ok(NativeKernel {
            files: Files::new(alloc, tree, terminal_size(schedule.tty))?,
            clock: 0,
            epoch: epoch_of(schedule),
            timers: Timers::new(),
            signals: Signals::new(alloc)?,
            limits: first_limits(),
            chance: Chance::new(alloc, schedule.random.as_slice(), STACK_CHANCE)?,
            alloc,
        })
    }

    /// The nodes as a file tree: those that names lead to from the root, by rising number, each with the time
    /// of its last modification in whole seconds. It copies every byte once. (The form is this project's own.)
    pub fn tree(&self) -> Result<Tree, NoMemory>
        ensures saved { IfOk result (λ tree. tree ≡ saved self.now.files.nodes) }
        ensures valid { IfOk result IsValidTree }
        ensures reached { IfOk result (λ tree. (number : ℕ) → Contains (numbers tree.nodes) number ↔ IsReached tree.nodes number) }
    {
        self.files.tree()
    }
}

/// When the clock begins, in nanoseconds since the Unix epoch.
fn epoch_of(schedule: &Schedule) -> u128
    requires { IsGivenSchedule schedule.now }
    ensures epoch { result ≡ (settings_of schedule.now).epoch_seconds * second + (settings_of schedule.now).epoch_nanoseconds }
    ensures bounded { result < 2 ^ 72 }
{
    u128::from(schedule.epoch_s) * NANOSECONDS_PER_SECOND + u128::from(schedule.epoch_n)
}

/// The size of a terminal, in the kernel's own type.
fn terminal_size(size: Option<schedule::Winsize>) -> Option<Winsize>
    ensures { result ≡ option_map size_of size }
{
    match size {
        None => None,
        Some(size) => Some(Winsize {
            rows: size.rows,
            cols: size.cols,
        }),
    }
}

fn first_limits() -> [Limit; RESOURCES]
    ensures { result ≡ first_limits }
{
    let mut limits = [UNLIMITED; RESOURCES];
    limits[STACK] = STACK_LIMIT;
    limits[DESCRIPTORS] = DESCRIPTOR_LIMIT;
    limits
}
