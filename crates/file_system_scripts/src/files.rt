//! A file system whose calls are made by path, and tell an error by its name.
ghost use Rattle.std.specs.Prelude.{◌≡◌, IfOk, IsSome, IfSome};
ghost use Rattle.kernel_core.specs.ValidTree.{IsValidTree};
ghost use Rattle.native_vfs.specs.Answers.{MayStart};
ghost use Rattle.native_vfs.specs.Keyed.{AgreesAt, IsLiveKey};
ghost use Rattle.file_system_scripts.specs.Named.{AreHeld};

use crate::checks::{is_directory, is_file, is_link, is_parent, may_start};
use crate::images::{EMPTY_TREE, image_of_file};
use crate::text::tree_text;
use fs_image::decode;
use kernel_core::{Bytes, CoreError, Errno, NoMemory, Tree};
use native_vfs::{NodeKind, Place, Status, Vfs};
use std::alloc::{AllocError, Global};

/// What a call answers, or the name of its error, or what it lacks.
pub type Answer<T> = Result<T, &'static str>;

/// The most holds that a test has.
const MOST_HOLDS: u32 = 9;

/// A file system and what the calls on it stand on. Each call looks first at what the call under test requires.
#[derive(Drop)]
pub struct Files {
    alloc: Global,
    vfs: Vfs,
    /// The node that paths without a slash at their beginning begin at.
    start: Which,
    /// The key of the node that a test has named, which is held.
    named: Option<usize>,
    /// How many of its holds are by that name, where there is one.
    times: u32,
    /// How many holds there were.
    holds: u32,
    /// The time of the calls, in nanoseconds since the Epoch.
    clock: i64,
    ghost held: { AreHeld vfs named times holds },
}

/// The node that a step of a test is about.
#[derive(Clone, Copy)]
pub enum Which {
    /// The node of this path. A last link is not followed.
    At(&'static str),
    /// The node that was named.
    Named,
}

/// A call, by the paths of its nodes.
#[derive(Clone, Copy)]
pub enum Call {
    /// The name of the file and its mode.
    Create(&'static str, u16),
    /// The name of the directory and its mode.
    Mkdir(&'static str, u16),
    /// The target and the name of the link.
    Symlink(&'static str, &'static str),
    /// The old name and the new one.
    Link(&'static str, &'static str),
    /// The name of the file or link.
    Unlink(&'static str),
    /// The name of the directory.
    Rmdir(&'static str),
    /// The old name and the new one.
    Rename(&'static str, &'static str),
    /// Holds a node once more.
    Hold(Which),
    /// Releases the named node once.
    Release,
    /// A file and its new size.
    SetSize(Which, u64),
    /// A node and its new mode.
    SetMode(Which, u16),
    /// A node and its new times of access and modification.
    SetTimes(Which, Option<i64>, Option<i64>),
}

/// What a walk finds: the number of the directory, the name, and the number of the node.
#[derive(Drop)]
pub struct Found {
    pub dir: u64,
    pub name: Bytes,
    pub node: Option<u64>,
}

/// The tree of an image.
fn tree_of(alloc: Global, image: &[u8]) -> Answer<Tree>
    ensures { IfOk result IsValidTree }
{
    match decode(alloc, image) {
        Ok(tree) => Ok(tree),
        Err(_) => Err("an image"),
    }
}

impl Files {
    /// The file system of one empty root directory, at the time 1.
    pub fn new(alloc: Global) -> Answer<Files> {
        Files::of(alloc, tree_of(alloc, EMPTY_TREE)?)
    }

    /// The file system of a root directory whose entry `f` names an empty file: the cookie of the entry, the file's
    /// number and its time of modification in seconds.
    pub fn of_file(alloc: Global, cookie: u32, number: u64, mtime: i64) -> Answer<Files> {
        match image_of_file(alloc, cookie, number, mtime) {
            Ok(image) => Files::of(alloc, tree_of(alloc, image.as_slice())?),
            Err(_) => Err("no memory"),
        }
    }

    /// The file system of a tree, at the time 1.
    fn of(alloc: Global, tree: Tree) -> Answer<Files>
        requires { IsValidTree tree }
    {
        match Vfs::new(alloc, tree) {
            Ok(vfs) => Ok(Files {
                alloc,
                vfs,
                start: Which::At("/"),
                named: None,
                times: 0,
                holds: 0,
                clock: 1,
            }),
            Err(NoMemory) => Err("no memory"),
        }
    }

    /// The file system that these calls make of an empty root directory at the time 1.
    pub fn with(alloc: Global, calls: &[Call]) -> Answer<Files> {
        let mut files = Files::new(alloc)?;
        files.call_each(calls)?;
        Ok(files)
    }

    /// Carries out each of the calls.
    fn call_each(&mut self, calls: &[Call]) -> Answer<()> {
        for call in calls {
            self.call(*call)?;
        }
        Ok(())
    }

    /// The tree that the file system stands for.
    fn tree(&self) -> Answer<Tree>
        ensures { IfOk result IsValidTree }
    {
        match self.vfs.tree() {
            Ok(tree) => Ok(tree),
            Err(NoMemory) => Err("no memory"),
        }
    }

    /// The file system of the tree that this one stands for.
    pub fn loaded(&self) -> Answer<Files> {
        Files::of(self.alloc, self.tree()?)
    }

    /// The tree that the file system stands for, as text.
    pub fn text(&self) -> Answer<String> {
        match tree_text(self.alloc, &self.tree()?) {
            Ok(text) => Ok(text),
            Err(_) => Err("no memory"),
        }
    }

    /// Lets the calls come at this time.
    pub fn set_clock(&mut self, now: i64) {
        self.clock = now;
    }

    /// Lets paths without a slash at their beginning begin at this node.
    pub fn start_at(&mut self, node: Which) {
        self.start = node;
    }

    /// Holds the node of a path, and names it.
    pub fn name(&mut self, path: &str) -> Answer<()> {
        let key = self.key_at(path)?;
        if self.named.is_some() || self.holds >= MOST_HOLDS {
            return Err("a first name and few holds");
        }
        self.vfs.hold(key);
        self.named = Some(key);
        self.times = 1;
        self.holds += 1;
        Ok(())
    }

    /// Where the last name of a path from a node stands.
    fn place_from(&self, start: usize, path: &str, follow: bool) -> Answer<Place>
        requires { IsLiveKey self.now.vfs start }
        ensures { IfOk result (AgreesAt self.now.vfs) }
    {
        let path = path.as_bytes();
        if path.contains(&0) || !may_start(&self.vfs, start, path) {
            return Err("a path without NUL and a directory to begin at");
        }
        match self.vfs.walk(start, path, follow) {
            Ok(place) => Ok(place),
            Err(error) => Err(error_name(error)),
        }
    }

    /// Where a path's last name stands.
    fn place(&self, path: &str, follow: bool) -> Answer<Place>
        ensures { IfOk result (AgreesAt self.now.vfs) }
    {
        let start = self.start_key()?;
        self.place_from(start, path, follow)
    }

    /// The key of the node that paths begin at: that of the root where it was named and is so no longer.
    fn start_key(&self) -> Answer<usize>
        ensures { IfOk result (IsLiveKey self.now.vfs) }
    {
        match self.start {
            Which::At(path) => self.key_from_root(path),
            Which::Named => Ok(self.named.unwrap_or(self.vfs.root_key())),
        }
    }

    /// What a walk finds.
    pub fn walk(&self, path: &str, follow: bool) -> Answer<Found> {
        let place = self.place(path, follow)?;
        let dir = self.vfs.status(place.dir).number;
        let node = match place.node {
            Some(key) => Some(self.vfs.status(key).number),
            None => None,
        };
        Ok(Found {
            dir,
            name: place.name,
            node,
        })
    }

    /// The key of the node of a path from the root.
    fn key_from_root(&self, path: &str) -> Answer<usize>
        ensures { IfOk result (IsLiveKey self.now.vfs) }
    {
        let place = self.place_from(self.vfs.root_key(), path, false)?;
        match place.node {
            Some(key) => Ok(key),
            None => Err("no such node"),
        }
    }

    fn key_at(&self, path: &str) -> Answer<usize>
        ensures { IfOk result (IsLiveKey self.now.vfs) }
    {
        let place = self.place(path, false)?;
        match place.node {
            Some(key) => Ok(key),
            None => Err("no such node"),
        }
    }

    fn named_key(&self) -> Answer<usize>
        ensures { IfOk result (IsLiveKey self.now.vfs) }
    {
        match self.named {
            Some(key) => Ok(key),
            None => Err("a named node"),
        }
    }

    fn key(&self, node: Which) -> Answer<usize>
        ensures { IfOk result (IsLiveKey self.now.vfs) }
    {
        match node {
            Which::At(path) => self.key_at(path),
            Which::Named => self.named_key(),
        }
    }

    /// Carries out a call.
    pub fn call(&mut self, call: Call) -> Answer<()> {
        match call {
            Call::Create(path, mode) => self.create(path, mode),
            Call::Mkdir(path, mode) => self.mkdir(path, mode),
            Call::Symlink(target, path) => self.symlink(target, path),
            Call::Link(old, new) => self.link(old, new),
            Call::Unlink(path) => self.unlink(path),
            Call::Rmdir(path) => self.rmdir(path),
            Call::Rename(old, new) => self.rename(old, new),
            Call::Hold(node) => self.hold(node),
            Call::Release => self.release(),
            Call::SetSize(node, size) => self.set_size(node, size),
            Call::SetMode(node, mode) => self.set_mode(node, mode),
            Call::SetTimes(node, access, modified) => self.set_times(node, access, modified),
        }
    }

    /// Makes a file of this name and mode.
    #[tactic(auto, using(crate::proofs::HoldLemmas::held_still))]
    pub fn create(&mut self, path: &str, mode: u16) -> Answer<()> {
        let place = self.place(path, false)?;
        if mode > 0o7777 {
            return Err("a mode");
        }
        told(self.vfs.create(&place, mode, i128::from(self.clock)))?;
        Ok(())
    }

    #[tactic(auto, using(crate::proofs::HoldLemmas::held_still))]
    fn mkdir(&mut self, path: &str, mode: u16) -> Answer<()> {
        let place = self.place(path, false)?;
        if mode > 0o7777 {
            return Err("a mode");
        }
        told(self.vfs.mkdir(&place, mode, i128::from(self.clock)))?;
        Ok(())
    }

    /// Makes a symbolic link with this target and name.
    #[tactic(auto, using(crate::proofs::HoldLemmas::held_still))]
    pub fn symlink(&mut self, target: &str, path: &str) -> Answer<()> {
        let place = self.place(path, false)?;
        let target = target.as_bytes();
        if target.contains(&0) || target.len() > 4095 {
            return Err("a target");
        }
        told(self.vfs.symlink(&place, target, i128::from(self.clock)))
    }

    /// Gives the node of the old name the new name too.
    pub fn link(&mut self, old: &str, new: &str) -> Answer<()> {
        let node = self.key_at(old)?;
        let place = self.place(new, false)?;
        told(self.vfs.link(node, &place, i128::from(self.clock)))
    }

    fn unlink(&mut self, path: &str) -> Answer<()> {
        let place = self.place(path, false)?;
        told(self.vfs.unlink(&place, i128::from(self.clock)))
    }

    fn rmdir(&mut self, path: &str) -> Answer<()> {
        let place = self.place(path, false)?;
        told(self.vfs.rmdir(&place, i128::from(self.clock)))
    }

    fn rename(&mut self, old: &str, new: &str) -> Answer<()> {
        let from = self.place(old, false)?;
        let to = self.place(new, false)?;
        told(self.vfs.rename(&from, &to, i128::from(self.clock)))
    }

    fn hold(&mut self, node: Which) -> Answer<()> {
        match node {
            Which::At(path) => self.hold_at(path),
            Which::Named => self.hold_named(),
        }
    }

    fn hold_at(&mut self, path: &str) -> Answer<()> {
        let key = self.key_at(path)?;
        if self.holds >= MOST_HOLDS {
            return Err("few holds");
        }
        self.vfs.hold(key);
        self.holds += 1;
        Ok(())
    }

    #[tactic(auto, using(crate::proofs::HoldLemmas::held_by_name_again))]
    fn hold_named(&mut self) -> Answer<()> {
        let Some(key) = self.named else {
            return Err("a named node");
        };
        if self.holds >= MOST_HOLDS || self.times >= MOST_HOLDS {
            return Err("few holds");
        }
        self.vfs.hold(key);
        self.times += 1;
        self.holds += 1;
        Ok(())
    }

    #[tactic(auto, using(crate::proofs::HoldLemmas::releases))]
    fn release(&mut self) -> Answer<()> {
        let Some(key) = self.named else {
            return Err("a named node");
        };
        self.vfs.release(key);
        if self.times == 1 {
            self.named = None;
            return Ok(());
        }
        self.times -= 1;
        Ok(())
    }

    fn set_size(&mut self, node: Which, size: u64) -> Answer<()> {
        let key = self.key(node)?;
        if !is_file(&self.vfs, key) {
            return Err("a file");
        }
        told(self.vfs.set_size(key, size, i128::from(self.clock)))
    }

    fn set_mode(&mut self, node: Which, mode: u16) -> Answer<()> {
        let key = self.key(node)?;
        if mode > 0o7777 {
            return Err("a mode");
        }
        self.vfs.set_mode(key, mode, i128::from(self.clock));
        Ok(())
    }

    fn set_times(&mut self, node: Which, access: Option<i64>, modified: Option<i64>) -> Answer<()> {
        let key = self.key(node)?;
        let access = access.map(|time| i128::from(time));
        let modified = modified.map(|time| i128::from(time));
        let now = i128::from(self.clock);
        self.vfs.set_times(key, access, modified, now);
        Ok(())
    }

    /// The number of the root.
    pub fn root(&self) -> Answer<u64> {
        Ok(self.vfs.status(self.vfs.root_key()).number)
    }

    /// Whether a node is of this kind.
    pub fn is_of_kind(&self, node: Which, kind: NodeKind) -> Answer<bool> {
        let key = self.key(node)?;
        Ok(self.vfs.kind(key) == kind)
    }

    /// What stat(2) tells of a node.
    pub fn status(&self, node: Which) -> Answer<Status> {
        Ok(self.vfs.status(self.key(node)?))
    }

    /// Moves bytes into a buffer, and tells how many.
    pub fn read(&self, node: Which, at: u64, buf: &mut [u8]) -> Answer<usize> {
        let key = self.key(node)?;
        if !is_file(&self.vfs, key) {
            return Err("a file");
        }
        Ok(self.vfs.read(key, at, buf))
    }

    /// Writes bytes, and tells how many.
    pub fn write(&mut self, node: Which, at: u64, bytes: &[u8]) -> Answer<usize> {
        let key = self.key(node)?;
        if !is_file(&self.vfs, key) {
            return Err("a file");
        }
        told(self.vfs.write(key, at, bytes, i128::from(self.clock)))
    }

    /// Writes as many bytes 7, and tells how many of them were written.
    pub fn write_sevens(&mut self, node: Which, at: u64, count: usize) -> Answer<usize> {
        match sevens(self.alloc, count) {
            Ok(bytes) => self.write(node, at, bytes.as_slice()),
            Err(_) => Err("no memory"),
        }
    }

    /// Whether the target of a link is this one.
    pub fn has_target(&self, node: Which, target: &str) -> Answer<bool> {
        let key = self.key(node)?;
        if !is_link(&self.vfs, key) {
            return Err("a link");
        }
        Ok(self.vfs.target(key) == target.as_bytes())
    }

    /// The number of the directory above a directory, by a path that ends in its `..`.
    pub fn parent(&self, path: &str) -> Answer<u64> {
        let place = self.place(path, false)?;
        if !is_parent(&self.vfs, &place) {
            return Err("a directory with a parent");
        }
        Ok(self.vfs.status(self.vfs.parent(place.dir)).number)
    }

    /// Whether the entry after a cookie is this one, of a cookie, a name and a number.
    pub fn is_next(
        &self,
        dir: Which,
        after: u32,
        wanted: Option<(u32, &str, u64)>,
    ) -> Answer<bool> {
        let key = self.key(dir)?;
        if !is_directory(&self.vfs, key) {
            return Err("a directory");
        }
        match (self.vfs.entry_after(key, after), wanted) {
            (Some((cookie, name, node)), Some((to, text, number))) => {
                Ok(
                    cookie == to
                        && name == text.as_bytes()
                        && self.vfs.status(node).number == number,
                )
            }
            (None, None) => Ok(true),
            _ => Ok(false),
        }
    }
}

fn sevens(alloc: Global, count: usize) -> Result<Vec<u8>, AllocError> {
    let mut bytes = Vec::new(alloc);
    bytes.resize(count, 7)?;
    Ok(bytes)
}

/// What a call answers, with the name of its error.
fn told<T>(answer: Result<T, CoreError>) -> Answer<T> {
    match answer {
        Ok(value) => Ok(value),
        Err(error) => Err(error_name(error)),
    }
}

/// The name of an error by errno(3).
fn error_name(error: CoreError) -> &'static str {
    match error {
        CoreError::Refused(Errno::EPERM) => "EPERM",
        CoreError::Refused(Errno::ENOENT) => "ENOENT",
        CoreError::Refused(Errno::EBUSY) => "EBUSY",
        CoreError::Refused(Errno::EEXIST) => "EEXIST",
        CoreError::Refused(Errno::ENOTDIR) => "ENOTDIR",
        CoreError::Refused(Errno::EISDIR) => "EISDIR",
        CoreError::Refused(Errno::EINVAL) => "EINVAL",
        CoreError::Refused(Errno::EFBIG) => "EFBIG",
        CoreError::Refused(Errno::ENOSPC) => "ENOSPC",
        CoreError::Refused(Errno::ENAMETOOLONG) => "ENAMETOOLONG",
        CoreError::Refused(Errno::ENOTEMPTY) => "ENOTEMPTY",
        CoreError::Refused(Errno::ELOOP) => "ELOOP",
        CoreError::Refused(_) => "another error",
        CoreError::Stop(_) => "no memory",
    }
}
