//! The calls on memory.

/// A call on mappings, or on the break.
#[derive(Clone, Copy)]
pub enum MapCall {
    /// brk(2)
    Brk,
    /// mmap(2)
    Mmap,
    /// munmap(2)
    Munmap,
    /// mprotect(2)
    Mprotect,
    /// msync(2)
    Msync,
    /// mremap(2)
    Mremap,
    /// mmap2(2)
    Mmap2,
    /// madvise(2)
    Madvise,
}
