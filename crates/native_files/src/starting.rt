//! The files of a process that begins, and the file tree that it leaves.
ghost use Rattle.std.specs.Prelude.{◌≡◌, ◌↔◌, ℕ, Contains, IfOk, option_map, replicate};
ghost use Rattle.kernel_core.specs.LoadedTree.{saved};
ghost use Rattle.kernel_core.specs.ValidTree.{IsReached, IsValidTree, numbers};
ghost use Rattle.kernel_model.specs.Begin as begin;
ghost use Rattle.native_fd.specs.Table.{no_descriptors};

use crate::files::Files;
use crate::flags::with_largefile_alone;
use crate::flow::Flow;
use kernel_core::{Access, NoMemory, Tree};
use kernel_model::{
    Description, Object, Stream, Terminal, TerminalCharacters, TerminalSettings, Winsize,
};
use native_fd::{DESCRIPTORS, Table};
use native_vfs::Vfs;
use std::alloc::{AllocError, Global};

/// The mode bits that a new node does not get at first (umask(2)).
const FIRST_UMASK: u16 = 0o022;

impl Files {
    /// The files of a process that begins: the nodes of the tree, the streams at the descriptors 0, 1 and
    /// 2, the root as working directory and the umask 022. `terminal` is the size of the terminal that the
    /// streams are, where they are one. It takes its memory from `alloc`. (What a process begins with is
    /// this project's own.)
    pub fn new(alloc: Global, tree: Tree, terminal: Option<Winsize>) -> Result<Files, NoMemory>
        requires valid { IsValidTree tree }
        ensures first { IfOk result (λ files. files ≡ begin.first_files tree terminal) }
    {
        let mut files = without_descriptors(alloc, tree, terminal)?;
        files.insert(0, stream_description(Stream::Input, Access::Read), false)?;
        files.insert(1, stream_description(Stream::Out, Access::Write), false)?;
        files.insert(2, stream_description(Stream::Err, Access::Write), false)?;
        Ok(files)
    }

    /// The nodes as a file tree: those that names lead to from the root, by rising number, each with the time
    /// of its last modification in whole seconds. It copies every byte once. (The form is this project's own.)
    pub fn tree(&self) -> Result<Tree, NoMemory>
        ensures saved { IfOk result (λ tree. tree ≡ saved self.now.nodes) }
        ensures valid { IfOk result IsValidTree }
        ensures reached { IfOk result (λ tree. (number : ℕ) → Contains (numbers tree.nodes) number ↔ IsReached tree.nodes number) }
    {
        self.vfs.tree()
    }
}

fn without_descriptors(
    alloc: Global,
    tree: Tree,
    terminal: Option<Winsize>,
) -> Result<Files, NoMemory>
    requires valid { IsValidTree tree }
    ensures { IfOk result (λ files. files ≡ record (begin.first_files tree terminal) { table = no_descriptors }) }
{
    let mut vfs = Vfs::new(alloc, tree)?;
    let directory = vfs.root_key();
    vfs.hold(directory);
    Ok(Files {
        vfs,
        table: Table::new(alloc)?,
        node_keys: no_keys(alloc, DESCRIPTORS as usize)?,
        flow: Flow::new(alloc)?,
        directory,
        umask: FIRST_UMASK,
        terminal: first_terminal(terminal),
        alloc,
    })
}

fn no_keys(alloc: Global, count: usize) -> Result<Vec<usize>, AllocError>
    ensures { IfOk result (λ keys. keys.items ≡ replicate count 0) }
{
    vec![in alloc; 0; count]
}

fn stream_description(stream: Stream, access: Access) -> Description
    ensures { result ≡ begin.stream_description stream access }
{
    Description {
        object: Object::Stream(stream),
        position: 0,
        flags: with_largefile_alone(access),
    }
}

/// A terminal of this size, whose settings are zeros.
fn first_terminal(size: Option<Winsize>) -> Option<Terminal>
    ensures { result ≡ option_map begin.first_terminal size }
{
    match size {
        None => None,
        Some(size) => Some(Terminal {
            size,
            settings: no_settings(),
        }),
    }
}

fn no_settings() -> TerminalSettings
    ensures { result ≡ begin.no_settings }
{
    TerminalSettings {
        input: 0,
        output: 0,
        control: 0,
        local: 0,
        line: 0,
        characters: TerminalCharacters {
            intr: 0,
            quit: 0,
            erase: 0,
            kill: 0,
            min: 0,
            time: 0,
            eol2: 0,
            swtc: 0,
            start: 0,
            stop: 0,
            susp: 0,
            reprint: 0,
            discard: 0,
            werase: 0,
            lnext: 0,
            eof: 0,
            eol: 0,
        },
    }
}
