//! What is told of what a descriptor has open, and where it is read next: lseek(2), fstat(2), and FIONREAD of
//! ioctl(2).
ghost use Rattle.std.specs.Prelude.{◌≡◌, ◌≤◌, ◌+ℤ◌, pos, IsSome, IfOk, IfSome, Some};
ghost use Rattle.kernel_core.specs.FileContent.{greatest_size};
ghost use Rattle.kernel_core.specs.Nodes.{file_at};
ghost use Rattle.kernel_core.specs.ValidTree.{greatest_number};
ghost use Rattle.kernel_model.specs.Came.{came_as};
ghost use Rattle.kernel_model.specs.ContentRows as rows;
ghost use Rattle.kernel_model.specs.Descriptions.{content_at, node_of, opened, output_at, output_of};
ghost use Rattle.native_files.specs.Answers.{IsStatus, came_of, status_told};
ghost use Rattle.native_files.specs.inside.Contents.{number_in};
ghost use Rattle.native_files.specs.inside.Places.{position_at, seek_node};

use crate::files::Files;
use crate::nodes::{file_size, key_at, node_status};
use crate::progress::Status;
use kernel_core::Errno;
use kernel_core::limits::GREATEST_SIZE;
use kernel_model::{Description, Object, Stream, Terminal};

/// The device on which streams and pipes lie (`st_dev` of stat(2), this project's own).
const FLOW_DEVICE: u64 = 2;

/// The mode of a pipe: S_IFIFO of inode(7) with the mode 0600 (this project's own).
const PIPE_MODE: u32 = 0o010_600;

/// The mode of a terminal: S_IFCHR of inode(7) with the mode 0620 (this project's own).
const TERMINAL_MODE: u32 = 0o020_620;

/// The device of a terminal (`st_rdev` of stat(2), this project's own).
const TERMINAL_DEVICE: u64 = 0x8800;

/// The number of each pipe (`st_ino` of stat(2), this project's own).
const PIPE_NUMBER: u64 = 4;

impl Files {
    /// Moves a description to a place (lseek(2)): `offset` counts from the beginning for the origin 0, from the
    /// position for 1 and from the end of a file for 2. EBADF where the descriptor is not open; ESPIPE for
    /// streams and pipes; EINVAL for another origin, for the end of a directory, and for a place below 0 or past
    /// 2^44. It takes no memory.
    #[tactic(auto, unfolding(kernel_model::specs::ContentRows::seek))]
    pub fn seek(&mut self, fd: u32, offset: i64, origin: u32) -> Result<u64, Errno>
        ensures came { came_of result ≡ (rows.seek self.old fd offset origin).came }
        ensures state { self.new ≡ (rows.seek self.old fd offset origin).state }
        ensures small { IfOk result (λ place. place ≤ greatest_size) }
    {
        match self.opened(fd) {
            None => Err(Errno::EBADF),
            Some(description) => match description.object {
                Object::Stream(_) => Err(Errno::ESPIPE),
                Object::ReadEnd(_) => Err(Errno::ESPIPE),
                Object::WriteEnd(_) => Err(Errno::ESPIPE),
                Object::Node(_) => self.seek_node(fd, description, offset, origin),
            },
        }
    }

    /// Moves the description of a node.
    fn seek_node(
        &mut self,
        fd: u32,
        description: Description,
        offset: i64,
        origin: u32,
    ) -> Result<u64, Errno>
        requires open { opened self.old fd ≡ Some description }
        requires node { IsSome (node_of description.object) }
        ensures came { came_of result ≡ (seek_node self.old fd description (number_in description.object) offset origin).came }
        ensures state { self.new ≡ (seek_node self.old fd description (number_in description.object) offset origin).state }
        ensures small { IfOk result (λ place. place ≤ greatest_size) }
    {
        match self.seek_from(fd, &description, origin) {
            None => Err(Errno::EINVAL),
            Some(from) => match position_at(from, offset) {
                None => Err(Errno::EINVAL),
                Some(place) => {
                    self.move_to(fd, description, place);
                    Ok(place)
                }
            },
        }
    }

    /// The place from which an offset counts.
    #[tactic(auto, using(crate::proofs::Places::origins))]
    fn seek_from(&self, fd: u32, description: &Description, origin: u32) -> Option<u64>
        requires open { opened self.now fd ≡ Some description.now }
        requires node { IsSome (node_of description.now.object) }
        ensures { result ≡ rows.seek_from self.now.nodes description.now (number_in description.now.object) origin }
    {
        match origin {
            0 => Some(0),
            1 => Some(description.position),
            2 => self.open_size(fd, description),
            _ => None,
        }
    }

    /// The size of the file that a description has open, or None for another node.
    fn open_size(&self, fd: u32, description: &Description) -> Option<u64>
        requires open { opened self.now fd ≡ Some description.now }
        requires node { IsSome (node_of description.now.object) }
        ensures size { result ≡ rows.size_of (content_at self.now.nodes (number_in description.now.object)) }
        ensures small { IfSome result (λ size. size ≤ greatest_size) }
    {
        let key = key_at(&self.table, self.node_keys.as_slice(), fd);
        file_size(&self.vfs, key)
    }

    /// What stat(2) tells of what a descriptor has open (fstat(2)). EBADF where the descriptor is not open.
    #[tactic(auto, unfolding(kernel_model::specs::ContentRows::status))]
    pub fn status(&self, fd: u32) -> Result<Status, Errno>
        ensures came { came_as status_told (came_of result) ≡ (rows.status self.now fd).came }
        ensures state { (rows.status self.now fd).state ≡ self.now }
        ensures fits { IfOk result IsStatus }
    {
        match self.opened(fd) {
            None => Err(Errno::EBADF),
            Some(description) => match description.object {
                Object::Stream(stream) => Ok(stream_status(stream, self.terminal)),
                Object::ReadEnd(_) => Ok(pipe_status()),
                Object::WriteEnd(_) => Ok(pipe_status()),
                Object::Node(_) => Ok(self.open_status(fd, &description)),
            },
        }
    }

    /// What stat(2) tells of the node that a description has open.
    fn open_status(&self, fd: u32, description: &Description) -> Status
        requires open { opened self.now fd ≡ Some description.now }
        requires node { IsSome (node_of description.now.object) }
        ensures told { rows.status_at self.now.nodes (number_in description.now.object) ≡ Some (status_told result) }
        ensures fits { IsStatus result }
    {
        let key = key_at(&self.table, self.node_keys.as_slice(), fd);
        node_status(&self.vfs, key)
    }

    /// How many bytes are ready: those of a pipe at either end, or those of a file from the position on
    /// (FIONREAD of ioctl(2)). EBADF where the descriptor is not open; ENOTTY for a stream and for a directory.
    #[tactic(auto, unfolding(kernel_model::specs::ContentRows::bytes_ready))]
    pub fn bytes_ready(&self, fd: u32) -> Result<u64, Errno>
        ensures came { came_of result ≡ (rows.bytes_ready self.now fd).came }
        ensures state { (rows.bytes_ready self.now fd).state ≡ self.now }
        ensures small { IfOk result (λ count. count ≤ greatest_size) }
    {
        match self.opened(fd) {
            None => Err(Errno::EBADF),
            Some(description) => match self.ready_bytes(fd, &description) {
                None => Err(Errno::ENOTTY),
                Some(count) => Ok(count),
            },
        }
    }

    fn ready_bytes(&self, fd: u32, description: &Description) -> Option<u64>
        requires open { opened self.now fd ≡ Some description.now }
        ensures count { result ≡ rows.ready_bytes self.now description.now description.now.object }
        ensures small { IfSome result (λ count. count ≤ greatest_size) }
    {
        match description.object {
            Object::Stream(_) => None,
            Object::ReadEnd(pipe) => self.flow.pipe_bytes(pipe),
            Object::WriteEnd(pipe) => self.flow.pipe_bytes(pipe),
            Object::Node(_) => self.file_rest(fd, description),
        }
    }

    /// How many bytes a file has behind the position.
    #[tactic(auto, using(crate::proofs::Places::rests))]
    fn file_rest(&self, fd: u32, description: &Description) -> Option<u64>
        requires open { opened self.now fd ≡ Some description.now }
        requires node { IsSome (node_of description.now.object) }
        ensures count { result ≡ rows.file_rest description.now.position (file_at self.now.nodes (number_in description.now.object)) }
        ensures small { IfSome result (λ count. count ≤ greatest_size) }
    {
        match self.open_size(fd, description) {
            None => None,
            Some(size) => Some(size.saturating_sub(description.position)),
        }
    }

    /// Which output a descriptor has open: 1 for standard output, 2 for standard error, and None for anything
    /// else.
    pub fn output(&self, fd: u32) -> Option<u8>
        ensures { result ≡ output_of self.now fd }
    {
        match self.opened(fd) {
            None => None,
            Some(description) => output_at(description.object),
        }
    }
}

fn output_at(object: Object) -> Option<u8>
    ensures { result ≡ output_at object }
{
    match object {
        Object::Stream(Stream::Input) => None,
        Object::Stream(Stream::Out) => Some(1),
        Object::Stream(Stream::Err) => Some(2),
        Object::ReadEnd(_) => None,
        Object::WriteEnd(_) => None,
        Object::Node(_) => None,
    }
}

/// The position at this distance from a place, where a description may have it.
fn position_at(from: u64, offset: i64) -> Option<u64>
    ensures place { result ≡ position_at (pos from +ℤ offset) }
    ensures small { IfSome result (λ place. place ≤ greatest_size) }
{
    let place = i128::from(from) + i128::from(offset);
    if place < 0 || place > i128::from(GREATEST_SIZE) {
        return None;
    }
    Some(place.unsigned_abs() as u64)
}

fn stream_status(stream: Stream, terminal: Option<Terminal>) -> Status
    ensures told { status_told result ≡ rows.stream_status (rows.stream_number stream) terminal }
    ensures fits { IsStatus result }
{
    let number = stream_number(stream);
    match terminal {
        None => flow_status(number, PIPE_MODE, 0),
        Some(_) => flow_status(number, TERMINAL_MODE, TERMINAL_DEVICE),
    }
}

fn stream_number(stream: Stream) -> u64
    ensures number { result ≡ rows.stream_number stream }
    ensures small { result ≤ greatest_number }
{
    match stream {
        Stream::Input => 1,
        Stream::Out => 2,
        Stream::Err => 3,
    }
}

fn pipe_status() -> Status
    ensures told { status_told result ≡ rows.pipe_status }
    ensures fits { IsStatus result }
{
    flow_status(PIPE_NUMBER, PIPE_MODE, 0)
}

/// What stat(2) tells of a stream or a pipe.
fn flow_status(number: u64, mode: u32, terminal_device: u64) -> Status
    requires { number ≤ greatest_number }
    ensures told { status_told result ≡ rows.flow_status number mode terminal_device }
    ensures fits { IsStatus result }
{
    Status {
        device: FLOW_DEVICE,
        number,
        mode,
        links: 1,
        terminal_device,
        size: 0,
        sectors: 0,
        access: 0,
        modified: 0,
        changed: 0,
    }
}
