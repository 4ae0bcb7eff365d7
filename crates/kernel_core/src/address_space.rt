//! What an o32 program's address space is divided into.

/// How many bytes a page has.
pub const PAGE_SIZE: u32 = 4096;

/// The first address that no program may use (`TASK_SIZE` of Linux `arch/mips/include/asm/processor.h`).
pub const USER_END: u32 = 0x7FFF_8000;

/// How many pages may be mapped at most, which is 512 MiB (this project's own).
pub const PAGE_LIMIT: u32 = 131_072;

/// PROT_READ of mmap(2): a page of this protection may be read.
pub const PROT_READ: u8 = 1;

/// PROT_WRITE of mmap(2): a page of this protection may be written.
pub const PROT_WRITE: u8 = 2;

/// PROT_EXEC of mmap(2): instructions may be fetched from a page of this protection.
pub const PROT_EXEC: u8 = 4;

/// The first page of the stack, which begins at 0x7F7F0000 (this project's own).
pub const STACK_PAGE: u32 = 0x7F7F0;

/// How many pages the stack has, which is 8 MiB (this project's own).
pub const STACK_PAGES: u32 = 2048;
