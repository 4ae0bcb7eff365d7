//! What the calls that move bytes come to, and what those that look tell.

ghost use Rattle.std.specs.Prelude.{◌≡◌, Some};
ghost use Rattle.native_files.specs.Answers.{moved};
ghost use Rattle.native_files.specs.inside.Steps.{IsSure, reached};

use kernel_core::{Bytes, CoreError, Errno, Wake};
use native_vfs::NodeKind;

/// What a read or a write comes to where it is not refused (read(2), write(2)).
#[derive(Clone, Copy)]
pub enum Progress {
    /// So many bytes were moved.
    Done(usize),
    /// The call waits. Of a write to a pipe a first part may have been put.
    Waits(Wake),
}

/// What stat(2) tells of what a descriptor has open. The owner, the group and the size of a block are the
/// same for all.
#[derive(Clone, Copy)]
pub struct Status {
    /// The device (`st_dev`): 1 for nodes, and 2 for streams and pipes (this project's own).
    pub device: u64,
    /// The number (`st_ino`), from 1 to 2^63 - 1.
    pub number: u64,
    /// The type bits of inode(7), and the twelve mode bits (`st_mode`).
    pub mode: u32,
    /// How many names it has (`st_nlink`).
    pub links: u32,
    /// The device of a terminal (`st_rdev`), and 0 for anything else.
    pub terminal_device: u64,
    /// In bytes (`st_size`), at most 2^44.
    pub size: u64,
    /// In units of 512 bytes (`st_blocks`).
    pub sectors: u32,
    /// The time of the last access, in nanoseconds since the Epoch, within whole seconds of 64 bits.
    pub access: i128,
    /// The time of the last modification, in the same units.
    pub modified: i128,
    /// The time of the last change, in the same units.
    pub changed: i128,
}

/// An entry of a directory (getdents(2)), `.` and `..` included.
#[derive(Drop)]
pub struct Entry {
    /// Its cookie (`d_off`), from 1 to 2^31 - 1.
    pub cookie: u32,
    /// Its name, of 1 to 255 bytes (`d_name`).
    pub name: Bytes,
    /// The number of the node that it names (`d_ino`).
    pub node: u64,
    /// What the node is (`d_type`).
    pub kind: NodeKind,
}

/// A transfer that can't end early, as one that may.
pub(crate) fn or_refused(progress: Result<Progress, Errno>) -> Result<Progress, CoreError>
    ensures moved { moved result ≡ Some (reached progress) }
    ensures sure { IsSure result }
{
    match progress {
        Ok(progress) => Ok(progress),
        Err(error) => Err(CoreError::Refused(error)),
    }
}
