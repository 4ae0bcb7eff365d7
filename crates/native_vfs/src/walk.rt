//! The walk of a path (path_resolution(7), symlink(7)).
ghost use Rattle.std.specs.Prelude.{◌≡◌, ◌⊎◌, ◌+◌, ◌<◌, ◌≤◌, true, false, ◌==◌, length, Some, None, option_map, if◌then◌else◌};
ghost use Rattle.std.specs.FinMap as map;
ghost use Rattle.std.specs.List.{list_any};
ghost use Rattle.kernel_core.specs.Nodes.{is_directory};
ghost use Rattle.kernel_core.specs.PathWalk as walking;
ghost use Rattle.kernel_core.specs.ValidTree as tree;
ghost use Rattle.native_vfs.specs.Answers.{IsWalked, MayStart};
ghost use Rattle.native_vfs.specs.Keyed.{Keyed, IsLiveKey, number_at, inode_at, AgreesAt};
ghost use Rattle.native_vfs.specs.inside.Stored.{inode_of};
ghost use Rattle.native_vfs.specs.inside.Walking.{IsSound, named_key, walk_of, steps_left, IsUnderWay, IsFound, Gives};

use crate::path::{Rest, begins_with_slash, ends_with_slash};
use crate::place::Place;
use crate::stored::{Stored, StoredContent, StoredDirectory, copied};
use crate::table::node;
use crate::vfs::Vfs;
use kernel_core::limits::LONGEST_NAME;
use kernel_core::{CoreError, Errno};

/// The greatest number of symbolic links that a walk follows (path_resolution(7)).
const LINK_LIMIT: u32 = 40;

/// A walk under way: the key of the node where it stands, the components that are left, whether the
/// path ends in a slash, whether the target of a link in its last place does, and how many links it
/// followed.
#[derive(Drop)]
struct Walk<'a> {
    at: usize,
    rest: Rest<'a>,
    slash: bool,
    target_slash: bool,
    links: u32,
}

/// Where a walk ended, as a [`Place`] whose name is not yet copied.
#[derive(Clone, Copy)]
struct Found<'a> {
    dir: usize,
    name: &'a [u8],
    node: Option<usize>,
}

impl Vfs {
    /// Walks the path from the directory `from` on, or from the root where the path begins with a
    /// slash (path_resolution(7)), and tells where its last name stands. A symbolic link in the
    /// last place is followed where `follow` says so, and before a slash always. The path has no
    /// NUL. `from` is the key of a live directory, also of a removed one; where the path begins with
    /// a slash or is empty it may be any number.
    ///
    /// ENOENT: the path is empty, or a component other than the last is not there, or the last one
    /// of a link's target that ends in a slash while the path doesn't. ENAMETOOLONG: a component
    /// has more than 255 bytes. ENOTDIR: a component would be looked up in no directory, or what a
    /// path or a target that ends in a slash names is no directory. ELOOP: a forty-first link would
    /// be followed. NoMemory comes only where memory runs out. A last name that is not there is
    /// found as None, also before the path's slash, and the caller says what that is.
    ///
    /// It costs one look-up for each component of the path and of the targets that it follows. It
    /// takes memory for a copy of the last name, and where it follows a link before other
    /// components.
    ///
    /// This project's own: that ENAMETOOLONG comes before ENOTDIR, that `..` in a removed directory
    /// names nothing, and that a last link before a slash is always followed.
    pub fn walk(&self, from: usize, path: &[u8], follow: bool) -> Result<Place, CoreError>
        requires start { MayStart self.now from path.now }
        requires plain { list_any (λ byte. byte == 0) path.now ≡ false }
        ensures { IsWalked self.now (number_at self.now from) path.now follow result }
    {
        if path.is_empty() {
            return Err(CoreError::Refused(Errno::ENOENT));
        }
        let mut walk = Walk {
            at: self.walk_start(from, path),
            rest: Rest::new(self.alloc, path),
            slash: ends_with_slash(path),
            target_slash: false,
            links: 0,
        };
        loop {
            if let Some(found) = self.walk_step(&mut walk, follow)? {
                let name = copied(self.alloc, found.name)?;
                return Ok(Place {
                    dir: found.dir,
                    name,
                    node: found.node,
                });
            }
        }
    }

    /// The key of the directory where a path begins.
    fn walk_start(&self, from: usize, path: &[u8]) -> usize
        requires some { 1 ≤ length path.now }
        requires start { MayStart self.now from path.now }
        ensures live { IsLiveKey self.now result }
        ensures number { number_at self.now result
            ≡ (if walking.begins_with_slash path.now then tree.root else number_at self.now from) }
        ensures directory { is_directory self.now.nodes (number_at self.now result) ≡ true }
    {
        if begins_with_slash(path) {
            self.root_key()
        } else {
            from
        }
    }

    /// Takes one component.
    fn walk_step<'a>(
        &'a self,
        walk: &mut Walk<'a>,
        follow: bool,
    ) -> Result<Option<Found<'a>>, CoreError>
        requires { IsUnderWay self.now walk.old }
        ensures { Gives self.now (steps_left walk.old)
            (walking.walk_step self.now.nodes follow (walk_of self.now walk.old)) walk.new result }
    {
        let Some(name) = walk.rest.next_component() else {
            return Ok(Some(Found {
                dir: walk.at,
                name: &[],
                node: Some(walk.at),
            }));
        };
        if name.len() > LONGEST_NAME {
            return Err(CoreError::Refused(Errno::ENAMETOOLONG));
        }
        match &self.node_at(walk.at).content {
            StoredContent::Directory(directory) => {
                let found = Found {
                    dir: walk.at,
                    name,
                    node: named(walk.at, directory, name),
                };
                self.at_named(walk, found, follow)
            }
            _ => Err(CoreError::Refused(Errno::ENOTDIR)),
        }
    }

    /// Goes on from a component that names this node, or none.
    fn at_named<'a>(
        &'a self,
        walk: &mut Walk<'a>,
        found: Found<'a>,
        follow: bool,
    ) -> Result<Option<Found<'a>>, CoreError>
        requires way { IsUnderWay self.now walk.old }
        requires found { IsFound self.now found }
        requires here { found.dir ≡ walk.old.at }
        ensures { Gives self.now (steps_left walk.old + 1)
            (walking.at_named self.now.nodes follow (walk_of self.now walk.old)
            found.entry.name.now walk.old.rest (option_map (number_at self.now) found.entry.node))
            walk.new result }
    {
        let Some(node) = found.node else {
            return at_missing(walk, found);
        };
        match &self.node_at(node).content {
            StoredContent::Link(target) => self.at_link(walk, found, target.as_slice(), follow),
            StoredContent::Directory(_) => at_node(walk, found, node, true),
            StoredContent::File(_) => at_node(walk, found, node, false),
        }
    }

    /// Follows a link to its target, or finds the link itself.
    fn at_link<'a>(
        &self,
        walk: &mut Walk<'a>,
        found: Found<'a>,
        target: &'a [u8],
        follow: bool,
    ) -> Result<Option<Found<'a>>, CoreError>
        requires way { IsUnderWay self.now walk.old }
        requires found { IsFound self.now found }
        requires here { found.dir ≡ walk.old.at }
        requires target { tree.IsTarget target.now }
        ensures { (number : _) → option_map (number_at self.now) found.entry.node ≡ Some number →
            Gives self.now (steps_left walk.old + 1)
            (walking.at_link follow (walk_of self.now walk.old)
            found.entry.name.now walk.old.rest number target.now)
            walk.new result }
    {
        if walk.rest.is_empty() {
            if !(walk.slash || walk.target_slash || follow) {
                return Ok(Some(found));
            }
            walk.target_slash = walk.target_slash || ends_with_slash(target);
        }
        self.follow_link(walk, target)
    }

    /// Puts the target of a link in the place of the link.
    fn follow_link<'a>(
        &self,
        walk: &mut Walk<'a>,
        target: &'a [u8],
    ) -> Result<Option<Found<'a>>, CoreError>
        requires way { IsUnderWay self.now walk.old }
        requires target { tree.IsTarget target.now }
        ensures { Gives self.now (steps_left walk.old + 1)
            (walking.following (walk_of self.now walk.old) target.now walk.old.rest
            walk.old.target_slash)
            walk.new result }
    {
        if walk.links == LINK_LIMIT {
            return Err(CoreError::Refused(Errno::ELOOP));
        }
        walk.rest.put_before(target)?;
        if begins_with_slash(target) {
            walk.at = self.root_key();
        }
        walk.links += 1;
        Ok(None)
    }

    /// The node at a key.
    fn node_at(&self, key: usize) -> &Stored
        requires { IsLiveKey self.now key }
        ensures inode { inode_at self.now key ≡ Some (inode_of result.now) }
        ensures sound { IsSound self.now result.now.content }
    {
        node(&self.inodes.table, key)
    }
}

/// The key of the node that a name names in the directory at a key.
fn named(at: usize, directory: &StoredDirectory, name: &[u8]) -> Option<usize>
    ensures { result ≡ named_key at directory.now name.now }
{
    if name.is_empty() || name == b".".as_slice() {
        return Some(at);
    }
    if name == b"..".as_slice() {
        return directory.parent.map(|parent| parent.key);
    }
    directory.names.find(name).map(|node| node.key)
}

/// A component that names no node: only the last one may be missing.
fn at_missing<'a>(walk: &Walk<'a>, found: Found<'a>) -> Result<Option<Found<'a>>, CoreError>
    requires none { found.node ≡ None }
    requires here { found.dir ≡ walk.now.at }
    ensures { (system : Keyed) (most : _) → IsFound system found.entry →
        Gives system most
        (walking.at_missing (walk_of system walk.now) found.entry.name.now walk.now.rest)
        walk.now result }
{
    if !walk.rest.is_empty() || (walk.target_slash && !walk.slash) {
        return Err(CoreError::Refused(Errno::ENOENT));
    }
    Ok(Some(found))
}

/// A component that names a node that is no link.
fn at_node<'a>(
    walk: &mut Walk<'a>,
    found: Found<'a>,
    node: usize,
    is_directory: bool,
) -> Result<Option<Found<'a>>, CoreError>
    requires node { found.node ≡ Some node }
    requires here { found.dir ≡ walk.old.at }
    ensures { (system : Keyed) → IsFound system found.entry → IsUnderWay system walk.old →
        Gives system (steps_left walk.old + 1)
        (walking.at_node is_directory (walk_of system walk.old)
        found.entry.name.now walk.old.rest (number_at system node))
        walk.new result }
{
    if !walk.rest.is_empty() {
        walk.at = node;
        return Ok(None);
    }
    if (walk.slash || walk.target_slash) && !is_directory {
        return Err(CoreError::Refused(Errno::ENOTDIR));
    }
    Ok(Some(found))
}
