//! The call that opens what a path names (open(2), openat(2), creat(2)).
ghost use Rattle.std.specs.Prelude.{◌≡◌, ℕ, ◌+◌, ◌<◌, ◌≤◌, ◌^◌, ◌&&◌, false, OnOk, Ok, Some, None, IsSome, length, slice_set};
ghost use Rattle.kernel_core.specs.FileSystem.{IsFileSystem, IsTime};
ghost use Rattle.kernel_core.specs.NodeCalls.{held};
ghost use Rattle.kernel_core.specs.Nodes.{NodeContent, update};
ghost use Rattle.kernel_core.specs.Queries.{holds_at, kind_of};
ghost use Rattle.kernel_core.specs.ValidTree.{greatest_mode};
ghost use Rattle.kernel_model.specs.Always.{IsTable};
ghost use Rattle.kernel_model.specs.Descriptions.{description_of};
ghost use Rattle.kernel_model.specs.Opening.{follows, kind_refusal, open_file};
ghost use Rattle.kernel_model.specs.Table.{descriptor_limit, inserted, lowest_free, number_at as number_at_fd, slot};
ghost use Rattle.kernel_model.specs.declared.descriptor.Object.TheVariants as objects;
ghost use Rattle.native_files.specs.Answers.{Answers, IsPlain, WhereRead, base_of, text_of};
ghost use Rattle.native_files.specs.inside.Kept.{AreKept};
ghost use Rattle.native_files.specs.inside.Openings.{Opens, OpensAt, StaysKept, opened_at, opened_missing, opened_node};
ghost use Rattle.native_vfs.specs.Held.{KeepsHeld};
ghost use Rattle.native_vfs.specs.Keyed.{AgreesAt, IsLiveKey, number_at, place_at};
ghost use Rattle.native_vfs.specs.Seen.{kind_told};

use crate::changes::{is_missing_before_slash, permitted};
use crate::files::Files;
use crate::flags::kept;
use crate::readiness::writes;
use crate::walking::{Base, PathFrom, walk};
use kernel_core::{CoreError, Errno, NoMemory, OpenFlags};
use kernel_model::{Description, Object};
use native_fd::Table;
use native_vfs::{NodeKind, Place, Vfs};

/// How a node is opened: as which descriptor, with which flags, with which mode bits where it is made, and at which
/// time, in nanoseconds since the Epoch.
#[derive(Clone, Copy)]
struct Opening {
    fd: u32,
    flags: OpenFlags,
    mode: u16,
    now: i128,
}

impl Files {
    /// Opens what a path names (open(2), openat(2); creat(2) is a case of it) and gives the least free descriptor.
    /// Under O_CREAT a name that is missing is made, a regular file with the low twelve bits of `mode` that the umask
    /// leaves; under O_TRUNC a file that is there is cut to no byte. `flags` is None where they have no access mode or
    /// a flag that is not listed. `now` is in nanoseconds since the Epoch, within whole seconds of 64 bits. It is
    /// refused with EINVAL for other flags, and for O_CREAT with O_DIRECTORY; what was wrong with the path; EMFILE where
    /// no descriptor is free; then as the walk is. A missing name is ENOENT without O_CREAT and before a slash, and then
    /// refused as a new file is: ENOENT where its directory was removed, ENOSPC where a limit is reached. A node that
    /// is there is EEXIST under O_CREAT with O_EXCL; a link ENOTDIR under O_DIRECTORY and else ELOOP; a directory EISDIR
    /// under O_CREAT or O_TRUNC or for writing; a file ENOTDIR under O_DIRECTORY. After NoMemory the files are not used
    /// again. (The limits, and that O_CREAT with O_DIRECTORY is refused, are this project's own.)
    #[tactic(auto, unfolding(kernel_model::specs::Opening::open_file))]
    pub fn open_file(
        &mut self,
        now: i128,
        base: Base,
        path: Result<&[u8], Errno>,
        flags: Option<OpenFlags>,
        mode: u32,
    ) -> Result<u32, CoreError>
        requires time { IsTime now }
        requires path { WhereRead IsPlain (text_of path) }
        ensures row { Answers (open_file self.old None now (base_of base) (text_of path.entry) flags mode) result self.new }
    {
        match flags {
            None => Err(CoreError::Refused(Errno::EINVAL)),
            Some(flags) => {
                if flags.creat() && flags.directory() {
                    return Err(CoreError::Refused(Errno::EINVAL));
                }
                match path {
                    Err(error) => Err(CoreError::Refused(error)),
                    Ok(path) => self.open_named(now, base, path, flags, mode),
                }
            }
        }
    }

    fn open_named(
        &mut self,
        now: i128,
        base: Base,
        path: &[u8],
        flags: OpenFlags,
        mode: u32,
    ) -> Result<u32, CoreError>
        requires time { IsTime now }
        requires path { IsPlain path.now }
        requires allowed { (flags.creat && flags.directory) ≡ false }
        ensures row { Answers (open_file self.old None now (base_of base) (Ok path.now) (Some flags) mode) result self.new }
    {
        let Some(fd) = self.table.lowest(0) else {
            return Err(CoreError::Refused(Errno::EMFILE));
        };
        let keys = self.node_keys.as_slice();
        let follow = follows(flags);
        let from = PathFrom { base, path };
        match walk(&self.vfs, &self.table, keys, self.directory, from, follow) {
            Err(error) => Err(error),
            Ok(at) => {
                let mode = permitted(self.umask, (mode % 0x1000) as u16);
                let how = Opening {
                    fd,
                    flags,
                    mode,
                    now,
                };
                let keys = self.node_keys.as_mut_slice();
                match open_place(&mut self.vfs, &mut self.table, keys, &at, path, how) {
                    Err(error) => Err(error),
                    Ok(()) => Ok(fd),
                }
            }
        }
    }
}

/// Opens a free descriptor that leads to what stands at a place, to which `path` led.
fn open_place(
    vfs: &mut Vfs,
    table: &mut Table<Description>,
    node_keys: &mut [usize],
    at: &Place,
    path: &[u8],
    how: Opening,
) -> Result<(), CoreError>
    requires agrees { AgreesAt vfs.old at.now }
    requires mode { how.mode ≤ greatest_mode }
    requires valid { IsFileSystem vfs.old.nodes }
    requires time { IsTime how.now }
    requires table { IsTable table.old }
    requires sized { length node_keys.old ≡ 1024 }
    requires few { (node : ℕ) → holds_at vfs.old.nodes node + 1 < 2 ^ 32 }
    requires least { lowest_free table.old.fds 0 ≡ Some how.fd }
    requires within { how.fd < descriptor_limit }
    requires free { slot table.old.fds how.fd ≡ None }
    ensures opened { OpensAt vfs.old.nodes table.old (opened_at vfs.old.nodes how.now path.now how.flags how.mode (place_at vfs.old at.now) (place_at vfs.old at.now).node) how.fd how.flags result vfs.new.nodes table.new }
    ensures kept { (directory : ℕ) → AreKept vfs.old table.old.live node_keys.old directory → StaysKept vfs.old vfs.new table.new.live node_keys.new directory }
{
    let Opening { fd, flags, .. } = how;
    match node_to_open(vfs, at, path, how) {
        Err(error) => Err(error),
        Ok(key) => {
            open_key(vfs, table, node_keys, fd, key, flags)?;
            Ok(())
        }
    }
}

/// Opens a free descriptor that leads to a new description of a node, which is held once more.
fn open_key(
    vfs: &mut Vfs,
    table: &mut Table<Description>,
    node_keys: &mut [usize],
    fd: u32,
    key: usize,
    flags: OpenFlags,
) -> Result<(), NoMemory>
    requires live { IsLiveKey vfs.old key }
    requires table { IsTable table.old }
    requires sized { length node_keys.old ≡ 1024 }
    requires few { (node : ℕ) → holds_at vfs.old.nodes node + 1 < 2 ^ 32 }
    requires least { lowest_free table.old.fds 0 ≡ Some fd }
    requires within { fd < descriptor_limit }
    requires free { slot table.old.fds fd ≡ None }
    ensures nodes { OnOk result (vfs.new.nodes ≡ update vfs.old.nodes (number_at vfs.old key) held) }
    ensures table { OnOk result (table.new ≡ inserted table.old fd (description_of (objects.Node (number_at vfs.old key)) flags) flags.cloexec) }
    ensures kept { (directory : ℕ) → AreKept vfs.old table.old.live node_keys.old directory → StaysKept vfs.old vfs.new table.new.live node_keys.new directory }
{
    let number = vfs.number(key);
    table.insert(fd, node_description(number, flags))?;
    table.set_cloexec(fd, flags.cloexec());
    vfs.hold(key);
    set_key(table, node_keys, fd, key);
    Ok(())
}

/// Puts the key of a node where the description of a descriptor has it.
fn set_key(table: &Table<Description>, node_keys: &mut [usize], fd: u32, key: usize)
    requires open { IsSome (number_at_fd table.now fd) }
    requires sized { length node_keys.old ≡ 1024 }
    ensures { (number : ℕ) → number_at_fd table.now fd ≡ Some number → node_keys.new ≡ slice_set node_keys.old number key }
{
    match table.number(fd) {
        Some(number) => node_keys[number as usize] = key,
        None => unreachable!(),
    }
}

fn node_description(number: u64, flags: OpenFlags) -> Description
    ensures { result ≡ description_of (objects.Node number) flags }
{
    Description {
        object: Object::Node(number),
        position: 0,
        flags: kept(flags),
    }
}

/// The key of the node at a place: one that is made, or one that is there, cut to no byte where that is asked for.
fn node_to_open(vfs: &mut Vfs, at: &Place, path: &[u8], how: Opening) -> Result<usize, CoreError>
    requires agrees { AgreesAt vfs.old at.now }
    requires mode { how.mode ≤ greatest_mode }
    requires valid { IsFileSystem vfs.old.nodes }
    requires time { IsTime how.now }
    ensures opened { Opens vfs.old.nodes (opened_at vfs.old.nodes how.now path.now how.flags how.mode (place_at vfs.old at.now) (place_at vfs.old at.now).node) result vfs.new }
    ensures held { KeepsHeld vfs.old vfs.new }
    ensures valid { IsFileSystem vfs.new.nodes }
{
    match at.node {
        None => make_node(vfs, at, path, how),
        Some(node) => cut_node(vfs, node, how),
    }
}

/// Makes a file under a name that is not there.
fn make_node(vfs: &mut Vfs, at: &Place, path: &[u8], how: Opening) -> Result<usize, CoreError>
    requires agrees { AgreesAt vfs.old at.now }
    requires mode { how.mode ≤ greatest_mode }
    requires valid { IsFileSystem vfs.old.nodes }
    requires time { IsTime how.now }
    ensures opened { Opens vfs.old.nodes (opened_missing vfs.old.nodes how.now path.now how.flags how.mode (place_at vfs.old at.now)) result vfs.new }
    ensures held { KeepsHeld vfs.old vfs.new }
    ensures valid { IsFileSystem vfs.new.nodes }
{
    if !how.flags.creat() {
        return Err(CoreError::Refused(Errno::ENOENT));
    }
    if is_missing_before_slash(path, at) {
        return Err(CoreError::Refused(Errno::ENOENT));
    }
    vfs.create(at, how.mode, how.now)
}

/// A node that may be opened. A file is cut to no byte where that is asked for.
fn cut_node(vfs: &mut Vfs, node: usize, how: Opening) -> Result<usize, CoreError>
    requires live { IsLiveKey vfs.old node }
    requires valid { IsFileSystem vfs.old.nodes }
    requires time { IsTime how.now }
    ensures opened { Opens vfs.old.nodes (opened_node vfs.old.nodes how.now how.flags (number_at vfs.old node)) result vfs.new }
    ensures held { KeepsHeld vfs.old vfs.new }
    ensures valid { IsFileSystem vfs.new.nodes }
{
    if how.flags.creat() && how.flags.excl() {
        return Err(CoreError::Refused(Errno::EEXIST));
    }
    if let Some(error) = kind_refusal(vfs.kind(node), how.flags) {
        return Err(CoreError::Refused(error));
    }
    if !how.flags.trunc() {
        return Ok(node);
    }
    match vfs.set_size(node, 0, how.now) {
        Ok(()) => Ok(node),
        Err(error) => Err(error),
    }
}

/// Why a node of this kind can't be opened.
fn kind_refusal(kind: NodeKind, flags: OpenFlags) -> Option<Errno>
    ensures { (content : NodeContent) → kind_of content ≡ kind_told kind → result ≡ kind_refusal None flags (Some content) }
{
    match kind {
        NodeKind::Link => Some(if flags.directory() {
            Errno::ENOTDIR
        } else {
            Errno::ELOOP
        }),
        NodeKind::Directory => {
            if flags.creat() || flags.trunc() || writes(flags.access()) {
                Some(Errno::EISDIR)
            } else {
                None
            }
        }
        NodeKind::File => {
            if flags.directory() {
                Some(Errno::ENOTDIR)
            } else {
                None
            }
        }
    }
}

/// Whether a link in the last place is followed: not under O_NOFOLLOW, and not under O_CREAT with O_EXCL.
fn follows(flags: OpenFlags) -> bool
    ensures { result ≡ follows flags }
{
    !(flags.nofollow() || flags.creat() && flags.excl())
}
