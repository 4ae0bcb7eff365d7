//! The calls on what is open: lseek(2), fstat(2), getdents64(2), fsync(2), fdatasync(2).
ghost use Rattle.std.specs.Prelude.{◌≡◌, ◌<◌, ◌≤◌, ◌++◌, All, IfOk, IsTrue, OnOk, false, length, map};
ghost use Rattle.std.specs.List.{flat_map};
ghost use Rattle.host_mem.specs.Memory.{written};
ghost use Rattle.kernel_core.specs.FileSystem.{IsTime};
ghost use Rattle.kernel_core.specs.LoadedTree.{whole_seconds};
ghost use Rattle.kernel_model.specs.Came.{told_as, told_zero};
ghost use Rattle.kernel_model.specs.ContentRows.{entries, seek, status, sync};
ghost use Rattle.kernel_model.specs.Whole.{on_files};
ghost use Rattle.layouts.specs.Dirents.{dirent64_length};
ghost use Rattle.layouts.specs.Native as native;
ghost use Rattle.layouts.specs.Number.{field_at, is_in_range, with_value};
ghost use Rattle.native_calls.specs.HostBytes.{accessible};
ghost use Rattle.native_calls.specs.Status.{entry_bytes, entry_records, entry_type, part_of_second, status_bytes};
ghost use Rattle.native_files.specs.Answers.{IsStatus, entry_told, status_told};
ghost use Rattle.native_files.specs.declared.progress.Entry.{Entry as Listed};
ghost use Rattle.native_vfs.specs.Seen.{kind_told};
ghost use Rattle.native_kernel.specs.inside.Quiet.{Fills, Gives, Stores};

use crate::kernel::NativeKernel;
use crate::replies::{failure, zero};
use crate::structures::{accessible, store};
use host_mem::HostMem;
use kernel_core::{CoreError, NoMemory, Reply};
use layouts::field_index::stat;
use layouts::{EntryType, NativeStructure, dirent64_length, native_layout, put_dirent64};
use native_files::{Entry, Status};
use native_vfs::NodeKind;
use std::alloc::Global;

const STATUS_SIZE: usize = 128;

/// The longest entry: that of a name of 255 bytes.
const LONGEST_ENTRY: usize = 280;

const BLOCK_SIZE: i128 = 4096;

const NANOSECONDS_PER_SECOND: i128 = 1_000_000_000;

impl NativeKernel {
    /// lseek(2): EBADF, ESPIPE, EINVAL.
    pub(crate) fn lseek(&mut self, fd: u32, offset: i64, origin: u32) -> Reply
        ensures row { Gives (on_files self.old (seek self.old.files fd offset origin)) result self.new }
        ensures clock { self.new.clock ≡ self.old.clock }
    {
        match self.files.seek(fd, offset, origin) {
            Err(error) => failure(error),
            Ok(place) => Reply::Done(place as i64),
        }
    }

    /// getdents64(2): EBADF, ENOTDIR, ENOENT, EINVAL, EFAULT.
    pub(crate) fn getdents(
        &mut self,
        fd: u32,
        buffer: u64,
        size: u32,
        mem: &mut HostMem,
    ) -> Result<Reply, NoMemory>
        ensures row { IfOk result (λ reply. Fills (written mem.old buffer) (told_as (flat_map entry_bytes)
            (on_files self.old (entries self.old.files fd entry_records size (accessible mem.old buffer size)))) reply self.new mem.old mem.new) }
        ensures clock { self.new.clock ≡ self.old.clock }
    {
        let room = accessible(mem, buffer, u64::from(size));
        match self.files.entries(fd, size, room) {
            Ok(entries) => {
                let bytes = entries_bytes(self.alloc, entries.as_slice())?;
                mem.write(buffer, bytes.as_slice());
                Ok(Reply::Done(bytes.len() as i64))
            }
            Err(CoreError::Refused(error)) => Ok(failure(error)),
            Err(CoreError::Stop(_)) => Err(NoMemory),
        }
    }

    /// fsync(2) and fdatasync(2): EBADF, EINVAL.
    pub(crate) fn sync(&self, fd: u32) -> Reply
        ensures { Gives (told_zero (on_files self.now (sync self.now.files fd))) result self.now }
    {
        zero(self.files.sync(fd))
    }

    /// fstat(2): EBADF, EFAULT.
    pub(crate) fn fstat(&self, fd: u32, address: u64, mem: &mut HostMem) -> Reply
        ensures { Stores (told_as status_bytes (on_files self.now (status self.now.files fd))) address result self.now mem.old mem.new }
    {
        match self.files.status(fd) {
            Err(error) => failure(error),
            Ok(status) => store(mem, address, &status_bytes(status)),
        }
    }
}

/// The structure of a status. The fields are named one by one, so that each place, and with it each offset and
/// width, is known before the program runs.
pub(crate) fn status_bytes(status: Status) -> [u8; STATUS_SIZE]
    requires { IsStatus status }
    ensures { result ≡ status_bytes (status_told status) }
{
    let mut bytes = [0; STATUS_SIZE];
    put_field(stat::DEV, i128::from(status.device), &mut bytes);
    put_field(stat::INO, i128::from(status.number), &mut bytes);
    put_field(stat::MODE, i128::from(status.mode), &mut bytes);
    put_field(stat::NLINK, i128::from(status.links), &mut bytes);
    put_field(stat::UID, 0, &mut bytes);
    put_field(stat::GID, 0, &mut bytes);
    put_field(stat::RDEV, i128::from(status.terminal_device), &mut bytes);
    put_field(stat::SIZE, i128::from(status.size), &mut bytes);
    put_field(stat::ATIME, seconds(status.access), &mut bytes);
    put_field(stat::ATIME_NS, nanoseconds(status.access), &mut bytes);
    put_field(stat::MTIME, seconds(status.modified), &mut bytes);
    put_field(stat::MTIME_NS, nanoseconds(status.modified), &mut bytes);
    put_field(stat::CTIME, seconds(status.changed), &mut bytes);
    put_field(stat::CTIME_NS, nanoseconds(status.changed), &mut bytes);
    put_field(stat::BLKSIZE, BLOCK_SIZE, &mut bytes);
    put_field(stat::BLOCKS, i128::from(status.sectors), &mut bytes);
    bytes
}

/// The whole seconds of a time, rounded down.
#[inline(always)]
fn seconds(time: i128) -> i128
    requires { IsTime time }
    ensures { result ≡ whole_seconds time }
{
    time.div_euclid(NANOSECONDS_PER_SECOND)
}

/// The nanoseconds of a time past its whole seconds.
#[inline(always)]
fn nanoseconds(time: i128) -> i128
    requires { IsTime time }
    ensures { result ≡ part_of_second time }
{
    time.rem_euclid(NANOSECONDS_PER_SECOND)
}

/// Puts a value into the field of a status at this place in the layout.
#[inline(always)]
fn put_field(place: usize, value: i128, bytes: &mut [u8])
    requires in_table { place < 16 }
    requires in_range { IsTrue (is_in_range (field_at native.stat.fields place).signed (field_at native.stat.fields place).width value) }
    requires whole { length bytes.old ≡ 128 }
    ensures { bytes.new ≡ with_value false (field_at native.stat.fields place) value bytes.old }
{
    layouts::put(native_layout(NativeStructure::Stat), place, bytes, value);
}

/// The entries as getdents64(2) gives them, one behind the other.
fn entries_bytes(alloc: Global, entries: &[Entry]) -> Result<Vec<u8>, NoMemory>
    requires { All (λ (entry : Listed). length entry.name ≤ 255) entries.now }
    ensures { IfOk result (λ bytes. bytes.items ≡ flat_map entry_bytes (map entry_told entries.now)) }
{
    let mut bytes = Vec::new(alloc);
    let mut room = [0; LONGEST_ENTRY];
    for entry in entries {
        push_entry(&mut bytes, entry, &mut room)?;
    }
    Ok(bytes)
}

/// Adds an entry, which is made in `room`.
fn push_entry(bytes: &mut Vec<u8>, entry: &Entry, room: &mut [u8]) -> Result<(), NoMemory>
    requires short { length entry.now.name ≤ 255 }
    requires room { length room.old ≡ 280 }
    ensures { OnOk result (bytes.new.items ≡ bytes.old.items ++ entry_bytes (entry_told entry.now)) }
{
    let name = entry.name.as_slice();
    let space = &mut room[..dirent64_length(name.len())];
    write_entry(entry, name, space);
    bytes.extend_from_slice(space)?;
    Ok(())
}

/// Writes an entry, which has this name.
fn write_entry(entry: &Entry, name: &[u8], space: &mut [u8])
    requires name { name.now ≡ entry.now.name }
    requires short { length name.now ≤ 255 }
    requires whole { length space.old ≡ dirent64_length (length name.now) }
    ensures { space.new ≡ entry_bytes (entry_told entry.now) }
{
    let kind = entry_type(entry.kind).number();
    put_dirent64(
        false,
        space,
        entry.node,
        u64::from(entry.cookie),
        kind,
        name,
    );
}

/// What an entry says of its node's kind.
fn entry_type(kind: NodeKind) -> EntryType
    ensures { result ≡ entry_type (kind_told kind) }
{
    match kind {
        NodeKind::File => EntryType::File,
        NodeKind::Directory => EntryType::Directory,
        NodeKind::Link => EntryType::Link,
    }
}
