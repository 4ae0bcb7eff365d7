//! What the calls of a process are made with.

use guest_space::Space;
use host_mem::HostMem;
use mips_exec::Cpu;
use native_kernel::NativeKernel;
use std::alloc::Global;

/// What the calls of a process are made with: its processor and its memory, and the kernel that it calls.
#[derive(Drop)]
pub(crate) struct Core {
    pub cpu: Cpu,
    pub space: Space,
    pub kernel: NativeKernel,
    /// The memory of the host in which native calls find their buffers.
    pub memory: HostMem,
    /// What gives the calls on files the memory for paths.
    pub alloc: Global,
}
