//! The calls that move bytes of one buffer: read(2), write(2), pread(2), pwrite(2).
ghost use Rattle.std.specs.Prelude.{◌≡◌, ℕ, ◌+◌, ◌≤◌, List, Some, None, Ok, IfOk, OnErr, OnOk, length, slice_index};
ghost use Rattle.host_mem.specs.Memory.{written};
ghost use Rattle.kernel_core.specs.FileSystem.{IsTime};
ghost use Rattle.kernel_core.specs.declared.error.Errno.TheVariants.{EPIPE};
ghost use Rattle.kernel_core.specs.declared.signal.Sig.TheVariants.{Pipe};
ghost use Rattle.kernel_model.specs.Came.{Refused, came_as};
ghost use Rattle.kernel_model.specs.Clock as clock;
ghost use Rattle.kernel_model.specs.Pending.{CanPend};
ghost use Rattle.kernel_model.specs.SignalRows.{kill_info};
ghost use Rattle.kernel_model.specs.Transfers.{read, read_at, transfer_limit};
ghost use Rattle.kernel_model.specs.Whole.{kernel_write, on_files};
ghost use Rattle.native_calls.specs.HostBytes.{accessible};
ghost use Rattle.native_calls.specs.Transfers.{after_write, pwrite_row, read_row, write_row};
ghost use Rattle.native_files.specs.Answers.{MovesWithin, ReadStops, came_of, moved};
ghost use Rattle.native_kernel.specs.inside.Moving.{FillsPart, IsReading, IsWriting, ReadingStops, ReadsInto, WritingStops, after_came, settled};
ghost use Rattle.native_kernel.specs.inside.Quiet.{Fills, IsQuiet};

use crate::ids::OWN_ID;
use crate::kernel::NativeKernel;
use crate::replies::{counted, failure, settled};
use crate::structures::{Part, accessible, loadable, part_place};
use host_mem::HostMem;
use kernel_core::{CoreError, Errno, Info, NoMemory, Reply, Sig, Stop};
use native_files::{Files, Progress};
use outside::{Sink, Source};

/// Who sends SIGPIPE: the process itself, by kill(2) (SI_USER).
const SENT_BY_KILL: i32 = 0;

/// A buffer as a call names it: its address, and how many bytes it has.
#[derive(Clone, Copy)]
pub(crate) struct Buffer {
    pub(crate) address: u64,
    pub(crate) count: u64,
}

impl Buffer {
    /// The buffer that the second and the third word of a call give.
    #[inline(always)]
    pub(crate) fn of(args: &[u64; 6]) -> Buffer
        ensures { result ≡ record { address = slice_index args.now 1; count = slice_index args.now 2 } }
    {
        Buffer {
            address: args[1],
            count: args[2],
        }
    }
}

impl NativeKernel {
    /// read(2): EBADF, EFAULT, and the refusals of what is open.
    #[tactic(auto, unfolding(native_calls::specs::Transfers::read_row, kernel_model::specs::Whole::kernel_read))]
    pub(crate) fn read<I: Source>(
        &mut self,
        fd: u32,
        buffer: Buffer,
        mem: &mut HostMem,
        input: &mut I,
    ) -> Result<Reply, Stop>
        ensures row { IsReading (read_row self.old mem.old fd buffer.address buffer.count) result self.new mem.new (I.left input.old) (I.left input.new) }
        ensures stops { ReadingStops result (I.faults input.old) (I.faults input.new) }
        ensures later { I.faults input.old ≤ I.faults input.new }
        ensures clock { self.new.clock ≡ self.old.clock }
    {
        let Buffer { address, count } = buffer;
        let room = accessible(mem, address, count);
        let place = part_place(mem, address, room);
        let part = Part { place, room };
        let memory = mem.as_mut_slice();
        let came = read_part(&mut self.files, fd, count, memory, part, input);
        settled(came)
    }

    /// write(2): EBADF, EFAULT, and the refusals of what is open; EPIPE comes with SIGPIPE.
    #[tactic(auto, unfolding(native_calls::specs::Transfers::write_row))]
    pub(crate) fn write<O: Sink, E: Sink>(
        &mut self,
        fd: u32,
        buffer: Buffer,
        mem: &HostMem,
        out: &mut O,
        err: &mut E,
    ) -> Result<Reply, Stop>
        ensures row { IsWriting (write_row self.old mem.now fd buffer.address buffer.count) result self.new mem.now
            (O.written out.old) (O.written out.new) (E.written err.old) (E.written err.new) }
        ensures stops { WritingStops result (O.faults out.old) (O.faults out.new) (E.faults err.old) (E.faults err.new) }
        ensures out_later { O.faults out.old ≤ O.faults out.new }
        ensures err_later { E.faults err.old ≤ E.faults err.new }
        ensures clock { self.new.clock ≡ self.old.clock }
    {
        let Buffer { address, count } = buffer;
        self.send(fd, Ok(count), loadable(mem, address, count), out, err)
    }

    /// pread(2): EBADF, EINVAL below 0, ESPIPE, EFAULT, EISDIR.
    pub(crate) fn pread(&self, fd: u32, buffer: Buffer, at: i64, mem: &mut HostMem) -> Reply
        ensures { Fills (written mem.old buffer.address) (on_files self.now (read_at self.now.files fd at (Ok buffer.count) (accessible mem.old buffer.address buffer.count)))
            result self.now mem.old mem.new }
    {
        let Buffer { address, count } = buffer;
        let room = accessible(mem, address, count);
        let place = part_place(mem, address, room);
        let part = Part { place, room };
        let memory = mem.as_mut_slice();
        counted(read_part_at(&self.files, fd, at, count, memory, part))
    }

    /// pwrite(2): EBADF, EINVAL below 0, ESPIPE, EFAULT, EFBIG, ENOSPC.
    #[tactic(auto, unfolding(native_calls::specs::Transfers::pwrite_row))]
    pub(crate) fn pwrite(
        &mut self,
        fd: u32,
        buffer: Buffer,
        at: i64,
        mem: &HostMem,
    ) -> Result<Reply, NoMemory>
        ensures row { IfOk result (λ reply. IsQuiet (pwrite_row self.old mem.now fd buffer.address buffer.count at) reply self.new mem.now) }
        ensures clock { self.new.clock ≡ self.old.clock }
    {
        let Buffer { address, count } = buffer;
        let now = self.real_time();
        match self
            .files
            .write_at(now, fd, at, Ok(count), loadable(mem, address, count))
        {
            Ok(count) => Ok(Reply::Done(count as i64)),
            Err(CoreError::Refused(error)) => Ok(failure(error)),
            Err(CoreError::Stop(_)) => Err(NoMemory),
        }
    }

    /// Writes bytes to what a descriptor has open, and posts SIGPIPE with EPIPE; `asked` is how many bytes
    /// the program names, or what was wrong with its vector.
    #[tactic(auto, using(crate::proofs::Sending::vain_stops))]
    pub(crate) fn send<O: Sink, E: Sink>(
        &mut self,
        fd: u32,
        asked: Result<u64, Errno>,
        bytes: &[u8],
        out: &mut O,
        err: &mut E,
    ) -> Result<Reply, Stop>
        ensures row { (memory : List ℕ) → IsWriting (after_write memory (kernel_write self.old None fd asked bytes.now)) result self.new memory
            (O.written out.old) (O.written out.new) (E.written err.old) (E.written err.new) }
        ensures stops { WritingStops result (O.faults out.old) (O.faults out.new) (E.faults err.old) (E.faults err.new) }
        ensures out_later { O.faults out.old ≤ O.faults out.new }
        ensures err_later { E.faults err.old ≤ E.faults err.new }
        ensures clock { self.new.clock ≡ self.old.clock }
    {
        let now = self.real_time();
        let came = self.files.write(now, fd, asked, bytes, out, err);
        match self.post_if_broken(&came) {
            Ok(()) => settled(came),
            Err(NoMemory) => Err(Stop::NoMemory),
        }
    }

    /// Posts SIGPIPE where a write came to EPIPE.
    fn post_if_broken(&mut self, came: &Result<Progress, CoreError>) -> Result<(), NoMemory>
        ensures row { OnOk result (self.new ≡ after_came self.old (moved came.now)) }
        ensures broken { OnErr result (moved came.now ≡ Some (Refused EPIPE)) }
        ensures clock { self.new.clock ≡ self.old.clock }
    {
        if let Err(CoreError::Refused(Errno::EPIPE)) = came {
            self.signals.post(pipe_info(), false)?;
        }
        Ok(())
    }

    /// The time that nodes are marked with, in nanoseconds since the Unix epoch.
    pub(crate) fn real_time(&self) -> i128
        ensures time { result ≡ clock.now self.now }
        ensures within { IsTime result }
    {
        (self.epoch + u128::from(self.clock)) as i128
    }
}

/// Reads into a part of memory.
fn read_part<I: Source>(
    files: &mut Files,
    fd: u32,
    count: u64,
    memory: &mut [u8],
    part: Part,
    input: &mut I,
) -> Result<Progress, CoreError>
    requires { part.place + part.room ≤ length memory.old }
    ensures row { (left : List ℕ) → I.left input.old ≡ Some left → ReadsInto (read files.old left fd (Ok count) part.room) (moved result) files.new
        (I.left input.old) (I.left input.new) memory.old part.place part.room memory.new }
    ensures within { MovesWithin transfer_limit (moved result) }
    ensures stops { ReadStops result (I.faults input.old) (I.faults input.new) }
    ensures later { I.faults input.old ≤ I.faults input.new }
{
    let Part { place, room } = part;
    files.read(fd, Ok(count), &mut memory[place..place + room], input)
}

/// Reads into a part of memory from a place of a file on.
fn read_part_at(
    files: &Files,
    fd: u32,
    at: i64,
    count: u64,
    memory: &mut [u8],
    part: Part,
) -> Result<usize, Errno>
    requires { part.place + part.room ≤ length memory.old }
    ensures came { came_of result ≡ came_as length (read_at files.now fd at (Ok count) part.room).came }
    ensures state { (read_at files.now fd at (Ok count) part.room).state ≡ files.now }
    ensures stored { FillsPart (read_at files.now fd at (Ok count) part.room).came memory.old part.place part.room memory.new }
    ensures within { IfOk result (λ moved. moved ≤ transfer_limit) }
{
    let Part { place, room } = part;
    files.read_at(fd, at, Ok(count), &mut memory[place..place + room])
}

/// SIGPIPE, sent by the process itself (pipe(7)).
fn pipe_info() -> Info
    ensures info { result ≡ kill_info Pipe }
    ensures can_pend { CanPend result }
{
    Info {
        sig: Sig::Pipe,
        code: SENT_BY_KILL,
        errno: 0,
        pid: OWN_ID as u32,
        uid: 0,
        value: 0,
        addr: 0,
    }
}
