//! The limits of a file tree, and of a file system in memory.

/// How many nodes there may be at most (this project's own).
pub const NODE_LIMIT: u32 = 65_536;

/// How many blocks all files together may keep at most, which is 256 MiB (this project's own).
pub const BLOCK_LIMIT: u32 = 65_536;

/// How many entries all directories together may have at most (this project's own).
pub const ENTRY_LIMIT: u32 = 131_072;

/// The greatest size of a file in bytes, 2^44 (this project's own).
pub const GREATEST_SIZE: u64 = 17_592_186_044_416;

/// The greatest cookie of an entry, 2^31 - 1 (this project's own).
pub const GREATEST_COOKIE: u32 = 2_147_483_647;

/// The greatest length of a name in bytes (NAME_MAX of limits.h).
pub const LONGEST_NAME: usize = 255;

/// The greatest length of a symbolic link's target in bytes: PATH_MAX of limits.h, which counts the NUL,
/// less 1.
pub const LONGEST_TARGET: usize = 4095;

/// How many bytes a block of a file has (this project's own).
pub const BLOCK_SIZE: usize = 4096;

/// The number of the root directory (this project's own).
pub const ROOT_NUMBER: u64 = 1;

/// The greatest number of a node, 2^63 - 1 (this project's own).
pub const GREATEST_NUMBER: u64 = 0x7FFF_FFFF_FFFF_FFFF;

/// The greatest mode of a node: the twelve mode bits of chmod(2).
pub const GREATEST_MODE: u16 = 0o7777;

/// How many symbolic links a walk follows at most (path_resolution(7)).
pub const LINK_LIMIT: u32 = 40;

/// The greatest length of a path in bytes with its NUL (PATH_MAX of limits.h).
pub const PATH_MAX: usize = 4096;

/// How many bytes read(2) and write(2) move at most.
pub const GREATEST_TRANSFER: u32 = 0x7FFF_F000;
