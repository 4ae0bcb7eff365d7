//! Writing (write(2), writev(2), pwrite(2)).
ghost use Rattle.std.specs.Prelude.{◌≡◌, ℕ, ℤ, ◌≤◌, IsSome, IfOk, None, Some, length, min};
ghost use Rattle.kernel_core.specs.FileSystem.{IsTime};
ghost use Rattle.kernel_core.specs.Nodes.{file_at};
ghost use Rattle.kernel_model.specs.Descriptions.{node_of, opened};
ghost use Rattle.kernel_model.specs.Pipes.{pipe_at};
ghost use Rattle.kernel_model.specs.Transfers as rows;
ghost use Rattle.kernel_model.specs.declared.descriptor.Description.{Description};
ghost use Rattle.kernel_model.specs.declared.descriptor.Object.TheVariants as objects;
ghost use Rattle.native_files.specs.Answers.{Answers, MovesWithin, WriteStops, WritesSo, moved};
ghost use Rattle.native_files.specs.inside.Contents.{AnswersCount, WritesNode, number_in, write_asked_at};
ghost use Rattle.native_files.specs.inside.Steps.{SendsSo, SinkStops, reached};

use crate::files::Files;
use crate::lengths::most_of;
use crate::nodes::{Written, key_at, write_file};
use crate::progress::{Progress, or_refused};
use kernel_core::{CoreError, Errno, Stop};
use kernel_model::{Description, Object, Stream};
use outside::{DevError, Sink};

/// A descriptor that is open, and the description that it leads to.
#[derive(Clone, Copy)]
struct OpenDescriptor {
    fd: u32,
    description: Description,
}

impl Files {
    /// Writes bytes (write(2), writev(2)). `asked` is how many the program names, or what was wrong with its
    /// vector; `bytes` are those of them that can be loaded. `now` is in nanoseconds since the Epoch, within
    /// whole seconds of 64 bits. EBADF where the descriptor is not open for writing, then the vector's error;
    /// 0 bytes give 0, and EFAULT comes where none can be loaded. EFBIG and ENOSPC for a file; EPIPE for a
    /// pipe that nobody reads, and EAGAIN where there is no room and the description does not wait. It stops
    /// early where an output failed, which then has a first part, or where memory ran out; the files are not
    /// used again then.
    #[tactic(auto, unfolding(kernel_model::specs::Transfers::write))]
    pub fn write<O: Sink, E: Sink>(
        &mut self,
        now: i128,
        fd: u32,
        asked: Result<u64, Errno>,
        bytes: &[u8],
        out: &mut O,
        err: &mut E,
    ) -> Result<Progress, CoreError>
        requires time { IsTime now }
        ensures row { WritesSo (rows.write self.old None now fd asked bytes.now) (moved result) self.new (O.written out.old) (O.written out.new) (E.written err.old) (E.written err.new) }
        ensures within { MovesWithin (min (length bytes.now) rows.transfer_limit) (moved result) }
        ensures stops { WriteStops result (O.faults out.old) (O.faults out.new) (E.faults err.old) (E.faults err.new) }
        ensures out_later { O.faults out.old ≤ O.faults out.new }
        ensures err_later { E.faults err.old ≤ E.faults err.new }
    {
        match self.writable(fd) {
            None => Err(CoreError::Refused(Errno::EBADF)),
            Some(description) => match most_of(asked, bytes.len()) {
                Err(error) => Err(CoreError::Refused(error)),
                Ok(most) => {
                    if most == 0 {
                        return Ok(Progress::Done(0));
                    }
                    let open = OpenDescriptor { fd, description };
                    self.write_object(now, &open, &bytes[..most], out, err)
                }
            },
        }
    }

    /// Writes all bytes to what a description has open.
    fn write_object<O: Sink, E: Sink>(
        &mut self,
        now: i128,
        open: &OpenDescriptor,
        bytes: &[u8],
        out: &mut O,
        err: &mut E,
    ) -> Result<Progress, CoreError>
        requires open { opened self.old open.now.fd ≡ Some open.now.description }
        requires time { IsTime now }
        ensures row { WritesSo (rows.write_object self.old None now open.now.fd open.now.description bytes.now open.now.description.object) (moved result) self.new (O.written out.old) (O.written out.new) (E.written err.old) (E.written err.new) }
        ensures within { MovesWithin (length bytes.now) (moved result) }
        ensures stops { WriteStops result (O.faults out.old) (O.faults out.new) (E.faults err.old) (E.faults err.new) }
        ensures out_later { O.faults out.old ≤ O.faults out.new }
        ensures err_later { E.faults err.old ≤ E.faults err.new }
    {
        match open.description.object {
            Object::Stream(stream) => self.write_stream(stream, bytes, out, err),
            Object::ReadEnd(_) => Err(CoreError::Refused(Errno::EBADF)),
            Object::WriteEnd(pipe) => or_refused(self.write_end(open.description, pipe, bytes)),
            Object::Node(_) => self.write_node(now, open, bytes),
        }
    }

    /// Sends all bytes to an output. The input is EBADF.
    fn write_stream<O: Sink, E: Sink>(
        &mut self,
        stream: Stream,
        bytes: &[u8],
        out: &mut O,
        err: &mut E,
    ) -> Result<Progress, CoreError>
        ensures row { (now : ℤ) (fd : ℕ) (description : Description) → WritesSo (rows.write_object self.old None now fd description bytes.now (objects.Stream stream)) (moved result) self.new (O.written out.old) (O.written out.new) (E.written err.old) (E.written err.new) }
        ensures within { MovesWithin (length bytes.now) (moved result) }
        ensures stops { WriteStops result (O.faults out.old) (O.faults out.new) (E.faults err.old) (E.faults err.new) }
        ensures out_later { O.faults out.old ≤ O.faults out.new }
        ensures err_later { E.faults err.old ≤ E.faults err.new }
    {
        match stream {
            Stream::Input => Err(CoreError::Refused(Errno::EBADF)),
            Stream::Out => self.send(stream, out, bytes),
            Stream::Err => self.send(stream, err, bytes),
        }
    }

    /// Sends all bytes to the device of a stream, and counts them.
    fn send<S: Sink>(
        &mut self,
        stream: Stream,
        sink: &mut S,
        bytes: &[u8],
    ) -> Result<Progress, CoreError>
        ensures sent { SendsSo self.old stream bytes.now result self.new (S.written sink.old) (S.written sink.new) }
        ensures stops { SinkStops result (S.faults sink.old) (S.faults sink.new) }
        ensures later { S.faults sink.old ≤ S.faults sink.new }
    {
        match sink.put(bytes) {
            Ok(()) => {
                let count = bytes.len();
                self.flow.count_sent(stream, count);
                Ok(Progress::Done(count))
            }
            Err(DevError::Failed) => Err(CoreError::Stop(Stop::WriteFault)),
            Err(DevError::NoMemory) => Err(CoreError::Stop(Stop::NoMemory)),
        }
    }

    /// Writes to a pipe.
    #[tactic(auto, using(crate::proofs::EndSteps::write_ends))]
    fn write_end(
        &mut self,
        description: Description,
        pipe: u32,
        bytes: &[u8],
    ) -> Result<Progress, Errno>
        ensures came { reached result ≡ (rows.write_end self.old description pipe bytes.now (pipe_at self.old.flow pipe)).came }
        ensures state { self.new ≡ (rows.write_end self.old description pipe bytes.now (pipe_at self.old.flow pipe)).state }
    {
        let nonblock = description.flags.nonblock();
        self.flow.write_pipe(pipe, nonblock, bytes)
    }

    /// Writes to a node at the description's position, or at its end, behind which the position then is.
    fn write_node(
        &mut self,
        now: i128,
        open: &OpenDescriptor,
        bytes: &[u8],
    ) -> Result<Progress, CoreError>
        requires open { opened self.old open.now.fd ≡ Some open.now.description }
        requires node { IsSome (node_of open.now.description.object) }
        requires time { IsTime now }
        ensures row { AnswersCount (rows.write_node self.old None now open.now.fd open.now.description (number_in open.now.description.object) bytes.now) result self.new }
        ensures within { MovesWithin (length bytes.now) (moved result) }
    {
        let position = open.description.position;
        match self.write_content(now, open, position, bytes) {
            Err(error) => Err(error),
            Ok(written) => {
                self.move_to(open.fd, open.description, written.end);
                Ok(Progress::Done(written.count))
            }
        }
    }

    /// Writes at a place of a file, or under O_APPEND at its end, and leaves the description's position
    /// (pwrite(2)). EBADF as for `write`; EINVAL for a place below 0; ESPIPE for a stream and a pipe; then what
    /// `write` has for a file. After NoMemory the files are not used again.
    #[tactic(auto, unfolding(kernel_model::specs::Transfers::write_at))]
    pub fn write_at(
        &mut self,
        now: i128,
        fd: u32,
        place: i64,
        asked: Result<u64, Errno>,
        bytes: &[u8],
    ) -> Result<usize, CoreError>
        requires time { IsTime now }
        ensures row { Answers (rows.write_at self.old None now fd place asked bytes.now) result self.new }
        ensures within { IfOk result (λ count. count ≤ min (length bytes.now) rows.transfer_limit) }
    {
        let Some(description) = self.writable(fd) else {
            return Err(CoreError::Refused(Errno::EBADF));
        };
        if place < 0 {
            return Err(CoreError::Refused(Errno::EINVAL));
        }
        match description.object {
            Object::Stream(_) => Err(CoreError::Refused(Errno::ESPIPE)),
            Object::ReadEnd(_) => Err(CoreError::Refused(Errno::ESPIPE)),
            Object::WriteEnd(_) => Err(CoreError::Refused(Errno::ESPIPE)),
            Object::Node(_) => {
                let open = OpenDescriptor { fd, description };
                self.write_asked_at(now, &open, place.unsigned_abs(), asked, bytes)
            }
        }
    }

    /// Writes as many bytes as are asked for and can be loaded from a place of a node on.
    fn write_asked_at(
        &mut self,
        now: i128,
        open: &OpenDescriptor,
        at: u64,
        asked: Result<u64, Errno>,
        bytes: &[u8],
    ) -> Result<usize, CoreError>
        requires open { opened self.old open.now.fd ≡ Some open.now.description }
        requires node { IsSome (node_of open.now.description.object) }
        requires time { IsTime now }
        ensures row { Answers (write_asked_at self.old now open.now.description (number_in open.now.description.object) at asked bytes.now) result self.new }
        ensures within { IfOk result (λ count. count ≤ min (length bytes.now) rows.transfer_limit) }
    {
        match most_of(asked, bytes.len()) {
            Err(error) => Err(CoreError::Refused(error)),
            Ok(most) => {
                if most == 0 {
                    return Ok(0);
                }
                match self.write_content(now, open, at, &bytes[..most]) {
                    Ok(written) => Ok(written.count),
                    Err(error) => Err(error),
                }
            }
        }
    }

    /// Writes to the node that a description has open, at a place or at its end.
    fn write_content(
        &mut self,
        now: i128,
        open: &OpenDescriptor,
        at: u64,
        bytes: &[u8],
    ) -> Result<Written, CoreError>
        requires open { opened self.old open.now.fd ≡ Some open.now.description }
        requires node { IsSome (node_of open.now.description.object) }
        requires time { IsTime now }
        ensures written { WritesNode self.old.nodes now (number_in open.now.description.object) open.now.description.flags.append at bytes.now (file_at self.old.nodes (number_in open.now.description.object)) result self.new.nodes }
        ensures others { self.new ≡ record self.old { nodes = self.new.nodes } }
        ensures within { IfOk result (λ written. written.count ≤ length bytes.now) }
    {
        let key = key_at(&self.table, self.node_keys.as_slice(), open.fd);
        let append = open.description.flags.append();
        write_file(&mut self.vfs, key, append, at, bytes, now)
    }
}
