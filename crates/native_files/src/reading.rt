//! Reading (read(2), readv(2), pread(2)).
ghost use Rattle.std.specs.Prelude.{◌≡◌, ℕ, List, ◌+◌, ◌<◌, ◌≤◌, ◌^◌, IsSome, IfOk, Some, [], length, min};
ghost use Rattle.kernel_model.specs.Came.{came_as};
ghost use Rattle.kernel_model.specs.Descriptions.{content_at, node_of, opened};
ghost use Rattle.kernel_model.specs.Pipes.{pipe_at};
ghost use Rattle.kernel_model.specs.Transfers as rows;
ghost use Rattle.kernel_model.specs.declared.descriptor.Description.{Description};
ghost use Rattle.kernel_model.specs.declared.descriptor.Object.TheVariants as objects;
ghost use Rattle.native_files.specs.Answers.{IsUndone, MovesWithin, ReadStops, ReadsSo, came_of, filled, moved};
ghost use Rattle.native_files.specs.inside.Contents.{content_read, number_in, read_asked, read_asked_at};
ghost use Rattle.native_files.specs.inside.Steps.{reached};

use crate::files::Files;
use crate::lengths::most_of;
use crate::nodes::{key_at, read_file};
use crate::progress::{Progress, or_refused};
use kernel_core::{CoreError, Errno, Stop};
use kernel_model::{Description, Object, Stream};
use outside::{Failed, Source};

impl Files {
    /// Reads into the beginning of a buffer, and leaves the rest of it (read(2), readv(2)). `asked` is how
    /// many bytes the program names, or what was wrong with its vector; the buffer has room for those of
    /// them that can be stored. EBADF where the descriptor is not open for reading, then the vector's error;
    /// 0 bytes give 0, and EFAULT comes where none can be stored. EISDIR for a directory; EAGAIN where an
    /// empty pipe has writers and the description does not wait. It stops early only where the input failed,
    /// which then leaves what it has. It takes no memory.
    #[tactic(auto, unfolding(kernel_model::specs::Transfers::read))]
    pub fn read<I: Source>(
        &mut self,
        fd: u32,
        asked: Result<u64, Errno>,
        buffer: &mut [u8],
        input: &mut I,
    ) -> Result<Progress, CoreError>
        ensures row { (left : List ℕ) → I.left input.old ≡ Some left → ReadsSo (rows.read self.old left fd asked (length buffer.old)) (moved result) self.new (I.left input.old) (I.left input.new) buffer.old buffer.new }
        ensures undone { IsUndone (moved result) (rows.read self.old [] fd asked (length buffer.old)).came }
        ensures within { MovesWithin (min (length buffer.new) rows.transfer_limit) (moved result) }
        ensures stops { ReadStops result (I.faults input.old) (I.faults input.new) }
        ensures later { I.faults input.old ≤ I.faults input.new }
    {
        match self.readable(fd) {
            None => Err(CoreError::Refused(Errno::EBADF)),
            Some(description) => self.read_asked(fd, description, asked, buffer, input),
        }
    }

    /// Reads as many bytes as are asked for and can be stored.
    fn read_asked<I: Source>(
        &mut self,
        fd: u32,
        description: Description,
        asked: Result<u64, Errno>,
        buffer: &mut [u8],
        input: &mut I,
    ) -> Result<Progress, CoreError>
        requires open { opened self.old fd ≡ Some description }
        ensures row { (left : List ℕ) → I.left input.old ≡ Some left → ReadsSo (read_asked self.old left fd description asked (length buffer.old)) (moved result) self.new (I.left input.old) (I.left input.new) buffer.old buffer.new }
        ensures undone { IsUndone (moved result) (read_asked self.old [] fd description asked (length buffer.old)).came }
        ensures within { MovesWithin (min (length buffer.new) rows.transfer_limit) (moved result) }
        ensures stops { ReadStops result (I.faults input.old) (I.faults input.new) }
        ensures later { I.faults input.old ≤ I.faults input.new }
    {
        match most_of(asked, buffer.len()) {
            Err(error) => Err(CoreError::Refused(error)),
            Ok(most) => {
                if most == 0 {
                    return Ok(Progress::Done(0));
                }
                self.read_object(fd, description, &mut buffer[..most], input)
            }
        }
    }

    /// Reads what a description has open into the whole of a buffer.
    fn read_object<I: Source>(
        &mut self,
        fd: u32,
        description: Description,
        buffer: &mut [u8],
        input: &mut I,
    ) -> Result<Progress, CoreError>
        requires open { opened self.old fd ≡ Some description }
        ensures row { (left : List ℕ) → I.left input.old ≡ Some left → ReadsSo (rows.read_object self.old left fd description (length buffer.old) description.object) (moved result) self.new (I.left input.old) (I.left input.new) buffer.old buffer.new }
        ensures undone { IsUndone (moved result) (rows.read_object self.old [] fd description (length buffer.old) description.object).came }
        ensures within { MovesWithin (length buffer.new) (moved result) }
        ensures stops { ReadStops result (I.faults input.old) (I.faults input.new) }
        ensures later { I.faults input.old ≤ I.faults input.new }
    {
        match description.object {
            Object::Stream(stream) => self.read_stream(stream, buffer, input),
            Object::ReadEnd(pipe) => or_refused(self.read_end(description, pipe, buffer)),
            Object::WriteEnd(_) => Err(CoreError::Refused(Errno::EBADF)),
            Object::Node(_) => or_refused(self.read_node(fd, description, buffer)),
        }
    }

    /// Reads the input. The outputs are EBADF.
    fn read_stream<I: Source>(
        &mut self,
        stream: Stream,
        buffer: &mut [u8],
        input: &mut I,
    ) -> Result<Progress, CoreError>
        ensures row { (left : List ℕ) (fd : ℕ) (description : Description) → I.left input.old ≡ Some left → ReadsSo (rows.read_object self.old left fd description (length buffer.old) (objects.Stream stream)) (moved result) self.new (I.left input.old) (I.left input.new) buffer.old buffer.new }
        ensures undone { (fd : ℕ) (description : Description) → IsUndone (moved result) (rows.read_object self.old [] fd description (length buffer.old) (objects.Stream stream)).came }
        ensures within { MovesWithin (length buffer.new) (moved result) }
        ensures stops { ReadStops result (I.faults input.old) (I.faults input.new) }
        ensures later { I.faults input.old ≤ I.faults input.new }
    {
        match stream {
            Stream::Input => match self.flow.take_input(input, buffer) {
                Ok(count) => Ok(Progress::Done(count)),
                Err(Failed) => Err(CoreError::Stop(Stop::ReadFault)),
            },
            Stream::Out => Err(CoreError::Refused(Errno::EBADF)),
            Stream::Err => Err(CoreError::Refused(Errno::EBADF)),
        }
    }

    /// Reads from a pipe.
    #[tactic(auto, using(crate::proofs::EndSteps::read_ends))]
    fn read_end(
        &mut self,
        description: Description,
        pipe: u32,
        buffer: &mut [u8],
    ) -> Result<Progress, Errno>
        ensures came { reached result ≡ came_as length (rows.read_end self.old description pipe (length buffer.old) (pipe_at self.old.flow pipe)).came }
        ensures state { self.new ≡ (rows.read_end self.old description pipe (length buffer.old) (pipe_at self.old.flow pipe)).state }
        ensures stored { buffer.new ≡ filled buffer.old (rows.read_end self.old description pipe (length buffer.old) (pipe_at self.old.flow pipe)).came }
    {
        let nonblock = description.flags.nonblock();
        self.flow.read_pipe(pipe, nonblock, buffer)
    }

    /// Reads a node at the description's position, which moves by the bytes that were read.
    fn read_node(
        &mut self,
        fd: u32,
        description: Description,
        buffer: &mut [u8],
    ) -> Result<Progress, Errno>
        requires open { opened self.old fd ≡ Some description }
        requires node { IsSome (node_of description.object) }
        ensures came { reached result ≡ came_as length (rows.read_node self.old fd description (number_in description.object) (length buffer.old)).came }
        ensures state { self.new ≡ (rows.read_node self.old fd description (number_in description.object) (length buffer.old)).state }
        ensures stored { buffer.new ≡ filled buffer.old (rows.read_node self.old fd description (number_in description.object) (length buffer.old)).came }
    {
        let position = description.position;
        match self.read_content(fd, &description, position, buffer) {
            Err(error) => Err(error),
            Ok(count) => {
                self.move_to(fd, description, position + count as u64);
                Ok(Progress::Done(count))
            }
        }
    }

    /// Reads at a place of a file, and leaves the description's position (pread(2)). EBADF as for `read`;
    /// EINVAL for a place below 0; ESPIPE for a stream and a pipe; then what `read` has. It takes no memory.
    #[tactic(auto, using(crate::proofs::Keeping::read_at_keeps), unfolding(kernel_model::specs::Transfers::read_at))]
    pub fn read_at(
        &self,
        fd: u32,
        place: i64,
        asked: Result<u64, Errno>,
        buffer: &mut [u8],
    ) -> Result<usize, Errno>
        ensures came { came_of result ≡ came_as length (rows.read_at self.now fd place asked (length buffer.old)).came }
        ensures state { (rows.read_at self.now fd place asked (length buffer.old)).state ≡ self.now }
        ensures stored { buffer.new ≡ filled buffer.old (rows.read_at self.now fd place asked (length buffer.old)).came }
        ensures within { IfOk result (λ count. count ≤ min (length buffer.new) rows.transfer_limit) }
    {
        let Some(description) = self.readable(fd) else {
            return Err(Errno::EBADF);
        };
        if place < 0 {
            return Err(Errno::EINVAL);
        }
        match description.object {
            Object::Stream(_) => Err(Errno::ESPIPE),
            Object::ReadEnd(_) => Err(Errno::ESPIPE),
            Object::WriteEnd(_) => Err(Errno::ESPIPE),
            Object::Node(_) => {
                self.read_asked_at(fd, &description, place.unsigned_abs(), asked, buffer)
            }
        }
    }

    /// Reads as many bytes as are asked for and can be stored from a place of a node on.
    fn read_asked_at(
        &self,
        fd: u32,
        description: &Description,
        at: u64,
        asked: Result<u64, Errno>,
        buffer: &mut [u8],
    ) -> Result<usize, Errno>
        requires open { opened self.now fd ≡ Some description.now }
        requires node { IsSome (node_of description.now.object) }
        ensures came { came_of result ≡ came_as length (read_asked_at self.now at asked (number_in description.now.object) (length buffer.old)).came }
        ensures stored { buffer.new ≡ filled buffer.old (read_asked_at self.now at asked (number_in description.now.object) (length buffer.old)).came }
        ensures within { IfOk result (λ count. count ≤ min (length buffer.new) rows.transfer_limit) }
    {
        let most = most_of(asked, buffer.len())?;
        if most == 0 {
            return Ok(0);
        }
        self.read_content(fd, description, at, &mut buffer[..most])
    }

    /// Reads the node that a description has open, at a place.
    fn read_content(
        &self,
        fd: u32,
        description: &Description,
        at: u64,
        buffer: &mut [u8],
    ) -> Result<usize, Errno>
        requires open { opened self.now fd ≡ Some description.now }
        requires node { IsSome (node_of description.now.object) }
        ensures came { came_of result ≡ came_as length (content_read at (length buffer.old) (content_at self.now.nodes (number_in description.now.object))) }
        ensures stored { buffer.new ≡ filled buffer.old (content_read at (length buffer.old) (content_at self.now.nodes (number_in description.now.object))) }
        ensures end { IfOk result (λ count. at + count < 2 ^ 64) }
    {
        let key = key_at(&self.table, self.node_keys.as_slice(), fd);
        read_file(&self.vfs, key, at, buffer)
    }
}
