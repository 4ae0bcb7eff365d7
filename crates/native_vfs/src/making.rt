//! What makes a name: a file, a directory, a symbolic link, or a second name of a node.
ghost use Rattle.std.specs.Prelude.{◌≡◌, ◌≤◌, ◌==◌, ℕ, false, length, None, OnOk, IfOk, OnErr, IsSome};
ghost use Rattle.std.specs.List.{list_any};
ghost use Rattle.slab.specs.Slab.{get as slab_get};
ghost use Rattle.kernel_core.specs.FileSystem.{IsFileSystem, IsTime};
ghost use Rattle.kernel_core.specs.NameCalls as names;
ghost use Rattle.kernel_core.specs.Totals.{content_blocks};
ghost use Rattle.kernel_core.specs.ValidTree.{greatest_mode};
ghost use Rattle.number_pool.specs.Places.{AreAllTaken, IsLeastFree};
ghost use Rattle.native_vfs.specs.Answers.{IsAnswer, Makes};
ghost use Rattle.native_vfs.specs.Held.{KeepsHeld};
ghost use Rattle.native_vfs.specs.Keyed.{AreKeys, AgreesAt, IsLiveKey, place_at, number_at};
ghost use Rattle.native_vfs.specs.inside.Making.{IsMade, IsNamedAgain};
ghost use Rattle.native_vfs.specs.inside.Steps.{IsSame};
ghost use Rattle.native_vfs.specs.inside.Stored.{ContentLeads, content_of, keyed_of, nodes_of, number_of_key};

use crate::inodes::Inodes;
use crate::numbers::{NUMBER_LEVELS, number_of};
use crate::place::Place;
use crate::refusals::{link_refusal, make_refusal, symlink_refusal};
use crate::steps::{add_link, add_name, insert, link, reserve_name};
use crate::stored::{Stored, StoredContent, StoredDirectory, copied};
use crate::table::number;
use crate::vfs::Vfs;
use directory_names::{Directory, NodeRef};
use file_blocks::Content;
use kernel_core::{Bytes, CoreError, NoMemory};
use number_pool::NumberPool;
use std::alloc::Global;

impl Vfs {
    /// Makes a regular file without content under the place's name (open(2) with O_CREAT), and gives its
    /// key. `mode` is its twelve mode bits, and `now` is in nanoseconds since the Epoch, within whole
    /// seconds of 64 bits. It is refused with EEXIST where the name is there, ENOENT where the directory
    /// was removed, and ENOSPC where 65,536 nodes or 131,072 entries live or the directory's cookies end
    /// (these limits are this project's own). After an error nothing has changed.
    pub fn create(&mut self, at: &Place, mode: u16, now: i128) -> Result<usize, CoreError>
        requires agrees { AgreesAt self.old at.now }
        requires mode { mode ≤ greatest_mode }
        requires time { IsTime now }
        ensures answer { IsAnswer (names.make_refusal self.old.nodes (place_at self.old at.now)) result }
        ensures made { IfOk result (λ key. Makes self.old self.new key (λ number. names.after_create self.old.nodes (place_at self.old at.now) number mode now)) }
        ensures err { OnErr result (self.new ≡ self.old) }
        ensures held { KeepsHeld self.old self.new }
        ensures valid { IsFileSystem self.new.nodes }
        ensures keys { AreKeys self.new }
    {
        if let Some(error) = make_refusal(&self.inodes, at) {
            return Err(CoreError::Refused(error));
        }
        let file = NewNode {
            mode,
            links: 1,
            content: StoredContent::File(Content::new(self.alloc)),
        };
        let key = make(&mut self.inodes, at, file, now, self.alloc)?;
        self.inodes.entries += 1;
        Ok(key)
    }

    /// Makes an empty directory under the place's name (mkdir(2)), and gives its key. `mode` is its twelve
    /// mode bits, and `now` is in nanoseconds since the Epoch, within whole seconds of 64 bits. It is
    /// refused with EEXIST where the name is there, ENOENT where the directory above was removed, and
    /// ENOSPC where 65,536 nodes or 131,072 entries live or the directory's cookies end (these limits are
    /// this project's own). After an error nothing has changed.
    pub fn mkdir(&mut self, at: &Place, mode: u16, now: i128) -> Result<usize, CoreError>
        requires agrees { AgreesAt self.old at.now }
        requires mode { mode ≤ greatest_mode }
        requires time { IsTime now }
        ensures answer { IsAnswer (names.make_refusal self.old.nodes (place_at self.old at.now)) result }
        ensures made { IfOk result (λ key. Makes self.old self.new key (λ number. names.after_mkdir self.old.nodes (place_at self.old at.now) number mode now)) }
        ensures err { OnErr result (self.new ≡ self.old) }
        ensures held { KeepsHeld self.old self.new }
        ensures valid { IsFileSystem self.new.nodes }
        ensures keys { AreKeys self.new }
    {
        if let Some(error) = make_refusal(&self.inodes, at) {
            return Err(CoreError::Refused(error));
        }
        let above = NodeRef {
            number: number(&self.inodes.table, at.dir),
            key: at.dir,
        };
        let directory = NewNode {
            mode,
            links: 2,
            content: StoredContent::Directory(StoredDirectory {
                parent: Some(above),
                names: Directory::new(self.alloc),
            }),
        };
        let key = make(&mut self.inodes, at, directory, now, self.alloc)?;
        add_link(&mut self.inodes.table, at.dir);
        self.inodes.entries += 1;
        Ok(key)
    }

    /// Makes a symbolic link to the target under the place's name (symlink(2)). The target has at most
    /// 4,095 bytes and no NUL, and `now` is in nanoseconds since the Epoch, within whole seconds of 64
    /// bits. It is refused with ENOENT where the target is empty or the directory was removed, EEXIST
    /// where the name is there, and ENOSPC where 65,536 nodes or 131,072 entries live or the directory's
    /// cookies end (these limits are this project's own). After an error nothing has changed.
    pub fn symlink(&mut self, at: &Place, target: &[u8], now: i128) -> Result<(), CoreError>
        requires agrees { AgreesAt self.old at.now }
        requires short { length target.now ≤ 4095 }
        requires plain { list_any (λ byte. byte == 0) target.now ≡ false }
        requires time { IsTime now }
        ensures answer { IsAnswer (names.symlink_refusal self.old.nodes (place_at self.old at.now) target.now) result }
        ensures made { OnOk result ((key : ℕ) × Makes self.old self.new key (λ number. names.after_symlink self.old.nodes (place_at self.old at.now) number target.now now)) }
        ensures err { OnErr result (self.new ≡ self.old) }
        ensures held { KeepsHeld self.old self.new }
        ensures valid { IsFileSystem self.new.nodes }
        ensures keys { AreKeys self.new }
    {
        if let Some(error) = symlink_refusal(&self.inodes, at, target) {
            return Err(CoreError::Refused(error));
        }
        make_link(&mut self.inodes, at, target, now, self.alloc)?;
        self.inodes.entries += 1;
        Ok(())
    }

    /// Gives a file or a symbolic link the place's name as one more (link(2)). `node` is the key of a live
    /// node, and `now` is in nanoseconds since the Epoch, within whole seconds of 64 bits. It is refused
    /// with EPERM where the node is a directory, EEXIST where the name is there, ENOENT where the directory
    /// was removed, and ENOSPC where 131,072 entries live or the directory's cookies end (these limits, and
    /// that EPERM comes before EEXIST, are this project's own). After an error nothing has changed.
    pub fn link(&mut self, node: usize, at: &Place, now: i128) -> Result<(), CoreError>
        requires live { IsLiveKey self.old node }
        requires agrees { AgreesAt self.old at.now }
        requires time { IsTime now }
        ensures answer { IsAnswer (names.link_refusal self.old.nodes (number_at self.old node) (place_at self.old at.now)) result }
        ensures named { OnOk result (self.new.nodes ≡ names.after_link self.old.nodes (number_at self.old node) (place_at self.old at.now) now) }
        ensures same { OnOk result (self.new.keys ≡ self.old.keys) }
        ensures err { OnErr result (self.new ≡ self.old) }
        ensures held { KeepsHeld self.old self.new }
        ensures valid { IsFileSystem self.new.nodes }
        ensures keys { AreKeys self.new }
    {
        if let Some(error) = link_refusal(&self.inodes, node, at) {
            return Err(CoreError::Refused(error));
        }
        name_again(&mut self.inodes, node, at, now, self.alloc)?;
        self.inodes.entries += 1;
        Ok(())
    }
}

/// A node that is to be made: all but its number and its times.
#[derive(Drop)]
struct NewNode {
    mode: u16,
    links: u32,
    content: StoredContent,
}

/// Makes a node under a name that may be made, and gives its key. After an error nothing has changed.
fn make(
    inodes: &mut Inodes,
    at: &Place,
    node: NewNode,
    now: i128,
    alloc: Global,
) -> Result<usize, NoMemory>
    requires agrees { AgreesAt (keyed_of inodes.old.table) at.now }
    requires free { names.make_refusal (nodes_of inodes.old.table) (place_at (keyed_of inodes.old.table) at.now) ≡ None }
    requires leads { ContentLeads inodes.old.table node.content }
    requires no_blocks { content_blocks (content_of node.content) ≡ 0 }
    ensures made { IfOk result (λ key. IsMade inodes.old.table inodes.new.table key (λ number. names.after_make (nodes_of inodes.old.table) (place_at (keyed_of inodes.old.table) at.now) number (names.new_inode node.mode node.links (content_of node.content) now) now)) }
    ensures same { OnErr result (IsSame inodes.old.table inodes.new.table) }
    ensures entries { inodes.new.entries ≡ inodes.old.entries }
{
    let place = free_place(&inodes.numbers);
    let number = number_of(place);
    let name = copied(alloc, at.name.as_slice())?;
    reserve_name(&mut inodes.table, at.dir)?;
    let stored = Stored {
        number,
        mode: node.mode,
        access: now,
        modified: now,
        changed: now,
        links: node.links,
        holds: 0,
        content: node.content,
    };
    let key = insert(&mut inodes.table, stored)?;
    add_name(
        &mut inodes.table,
        at.dir,
        name,
        NodeRef { number, key },
        now,
    );
    inodes.numbers.take(place);
    Ok(key)
}

/// Makes a symbolic link under a name that may be made. After an error nothing has changed.
fn make_link(
    inodes: &mut Inodes,
    at: &Place,
    target: &[u8],
    now: i128,
    alloc: Global,
) -> Result<usize, NoMemory>
    requires agrees { AgreesAt (keyed_of inodes.old.table) at.now }
    requires free { names.make_refusal (nodes_of inodes.old.table) (place_at (keyed_of inodes.old.table) at.now) ≡ None }
    ensures made { IfOk result (λ key. IsMade inodes.old.table inodes.new.table key (λ number. names.after_symlink (nodes_of inodes.old.table) (place_at (keyed_of inodes.old.table) at.now) number target.now now)) }
    ensures same { OnErr result (IsSame inodes.old.table inodes.new.table) }
    ensures entries { inodes.new.entries ≡ inodes.old.entries }
{
    let target = copied(alloc, target)?;
    let link = NewNode {
        mode: 0o777,
        links: 1,
        content: StoredContent::Link(target),
    };
    make(inodes, at, link, now, alloc)
}

/// Gives a node a name that may be made as one more. After an error nothing has changed.
fn name_again(
    inodes: &mut Inodes,
    node: usize,
    at: &Place,
    now: i128,
    alloc: Global,
) -> Result<(), NoMemory>
    requires live { IsSome (slab_get inodes.old.table node) }
    requires system { IsFileSystem (nodes_of inodes.old.table) }
    requires agrees { AgreesAt (keyed_of inodes.old.table) at.now }
    requires free { names.link_refusal (nodes_of inodes.old.table) (number_of_key inodes.old.table node) (place_at (keyed_of inodes.old.table) at.now) ≡ None }
    ensures named { OnOk result (IsNamedAgain inodes.old.table inodes.new.table (names.after_link (nodes_of inodes.old.table) (number_of_key inodes.old.table node) (place_at (keyed_of inodes.old.table) at.now) now)) }
    ensures same { OnErr result (IsSame inodes.old.table inodes.new.table) }
    ensures entries { inodes.new.entries ≡ inodes.old.entries }
{
    let name = copied(alloc, at.name.as_slice())?;
    reserve_name(&mut inodes.table, at.dir)?;
    let number = number(&inodes.table, node);
    link(&mut inodes.table, node, now);
    add_name(
        &mut inodes.table,
        at.dir,
        name,
        NodeRef { number, key: node },
        now,
    );
    Ok(())
}

/// The least free place of a pool that has one.
fn free_place(numbers: &NumberPool<NUMBER_LEVELS>) -> u32
    requires { length numbers.now ≡ 65536 → AreAllTaken numbers.now → ⊥ }
    ensures least { IsLeastFree numbers.now result }
    ensures whole { length numbers.now ≡ 65536 }
{
    match numbers.least_free() {
        Some(place) => place,
        None => unreachable!(),
    }
}
