//! The files of a process.
ghost use Rattle.std.specs.Prelude.{◌≡◌, ◌<◌, ◌^◌, Some, None, IfSome, OnOk, length, option_map};
ghost use Rattle.kernel_core.specs.FileSystem.{IsFileSystem};
ghost use Rattle.kernel_model.specs.Always.{IsTable};
ghost use Rattle.kernel_model.specs.DescriptorRows.{after_close, after_duplicate};
ghost use Rattle.kernel_model.specs.Descriptions.{node_of, opened, readable, writable};
ghost use Rattle.kernel_model.specs.Table.{descriptor_limit, inserted, number_at, slot, with_description};
ghost use Rattle.kernel_model.specs.Transfers.{moved_to};

use crate::flow::Flow;
use crate::readiness::{reads, writes};
use kernel_core::NoMemory;
use kernel_model::{Description, Object, Terminal};
use native_fd::Table;
use native_vfs::Vfs;
use std::alloc::Global;
use std::marker::Model;

/// The files of a process: the nodes, the descriptors and their descriptions, pipes and streams, the working
/// directory, the umask, and the terminal that the streams are, where they are one. Contracts see it as
/// `Files` of `kernel_model`, whose rows say what each call comes to. (The type is this project's own.)
#[derive(Drop)]
pub struct Files {
    pub(crate) vfs: Vfs,
    pub(crate) table: Table<Description>,
    /// By the number of each description the key of the node that it has open.
    pub(crate) node_keys: Vec<usize>,
    pub(crate) flow: Flow,
    /// The key of the working directory.
    pub(crate) directory: usize,
    pub(crate) umask: u16,
    pub(crate) terminal: Option<Terminal>,
    pub(crate) alloc: Global,
}

impl Model for Files {
    ghost use Rattle.std.specs.Coded.{codes};
    ghost use Rattle.kernel_core.specs.Nodes.{nodes_code};
    ghost use Rattle.kernel_model.specs.State.{Files as FilesState};
    ghost use Rattle.native_vfs.specs.Keyed.{number_at};
    ghost use Rattle.native_files.specs.inside.Kept.{AreKept};

    ghost Value = { FilesState };

    ghost coded = { Prim.hlevel (codes, nodes_code) };

    ghost view = { λ f. record { nodes = f.vfs.nodes; table = f.table; flow = f.flow; directory = number_at f.vfs f.directory; umask = f.umask; terminal = f.terminal } };

    ghost invariant = { λ f. AreKept f.vfs f.table.live f.node_keys.items f.directory };
}

impl Files {
    /// The description of a descriptor, or None where it is not open.
    pub(crate) fn opened(&self, fd: u32) -> Option<Description>
        ensures { result ≡ opened self.now fd }
    {
        self.table.get(fd)
    }

    /// There are 1,024 places of descriptors, whatever is open.
    pub fn whole(&self)
        ensures { length self.now.table.fds ≡ descriptor_limit }
    {
        let _number = self.table.number(0);
    }

    /// The nodes are a file system, and the umask fits 16 bits: it changes nothing, and tells its caller this.
    pub fn valid(&self)
        ensures nodes { IsFileSystem self.now.nodes }
        ensures umask { self.now.umask < 2 ^ 16 }
    {
        let (_nodes, _umask) = (&self.vfs, self.umask);
    }

    /// Opens a descriptor that leads to a new description, which has no node open.
    pub(crate) fn insert(
        &mut self,
        fd: u32,
        description: Description,
        cloexec: bool,
    ) -> Result<(), NoMemory>
        requires within { fd < descriptor_limit }
        requires free { slot self.old.table.fds fd ≡ None }
        requires no_node { node_of description.object ≡ None }
        ensures { OnOk result (self.new ≡ record self.old { table = inserted self.old.table fd description cloexec }) }
    {
        self.table.insert(fd, description)?;
        self.table.set_cloexec(fd, cloexec);
        Ok(())
    }

    /// Another descriptor of the description of `fd`.
    pub(crate) fn share(&mut self, fd: u32, onto: u32, cloexec: bool)
        requires within { onto < descriptor_limit }
        requires free { slot self.old.table.fds onto ≡ None }
        ensures { self.new ≡ after_duplicate self.old fd onto cloexec }
    {
        self.table.dup_to(fd, onto);
        self.table.set_cloexec(onto, cloexec);
    }

    /// Changes a description, which has the same object open as before.
    pub(crate) fn change(&mut self, fd: u32, description: Description)
        requires same { option_map (λ d. d.object) (opened self.old fd) ≡ Some description.object }
        ensures { self.new ≡ record self.old { table = with_description self.old.table fd description } }
    {
        self.table.set(fd, description);
    }

    /// The description of a descriptor that is open for reading.
    pub(crate) fn readable(&self, fd: u32) -> Option<Description>
        ensures readable { result ≡ readable self.now fd }
        ensures open { IfSome result (λ description. opened self.now fd ≡ Some description) }
    {
        match self.opened(fd) {
            None => None,
            Some(description) => {
                if reads(description.flags.access()) {
                    Some(description)
                } else {
                    None
                }
            }
        }
    }

    /// The description of a descriptor that is open for writing.
    pub(crate) fn writable(&self, fd: u32) -> Option<Description>
        ensures writable { result ≡ writable self.now fd }
        ensures open { IfSome result (λ description. opened self.now fd ≡ Some description) }
    {
        match self.opened(fd) {
            None => None,
            Some(description) => {
                if writes(description.flags.access()) {
                    Some(description)
                } else {
                    None
                }
            }
        }
    }

    /// Moves a description to another position.
    pub(crate) fn move_to(&mut self, fd: u32, description: Description, position: u64)
        requires open { opened self.old fd ≡ Some description }
        ensures { self.new ≡ moved_to self.old fd description position }
    {
        self.change(
            fd,
            Description {
                object: description.object,
                position,
                flags: description.flags,
            },
        );
    }

    /// Closes a descriptor: of the last one of a description the end of a pipe is closed, or the node is
    /// released. One that is not open stays so. It takes no memory.
    pub fn close_open(&mut self, fd: u32)
        ensures closed { self.new ≡ after_close self.old fd }
        ensures free { slot self.new.table.fds fd ≡ None }
    {
        match self.table.number(fd) {
            None => {}
            Some(number) => self.close_numbered(fd, number),
        }
    }

    /// Closes a descriptor that leads to the description of this number.
    fn close_numbered(&mut self, fd: u32, number: u32)
        requires open { number_at self.old.table fd ≡ Some number }
        requires valid { IsTable self.old.table }
        ensures closed { self.new ≡ after_close self.old fd }
        ensures free { slot self.new.table.fds fd ≡ None }
    {
        match self.table.close(fd) {
            None => {}
            Some(description) => match description.object {
                Object::Stream(_) => {}
                Object::ReadEnd(pipe) => self.flow.close_readers(pipe),
                Object::WriteEnd(pipe) => self.flow.close_writers(pipe),
                Object::Node(_) => self.vfs.release(self.node_keys[number as usize]),
            },
        }
    }
}
