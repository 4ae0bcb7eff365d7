//! What flows beside files: pipes, and how many bytes were moved at the streams.
ghost use Rattle.std.specs.Prelude.{◌≡◌, ◌<◌, ◌≤◌, IfOk, IfSome, OnOk, OnErr, [], is_none, length, option_map, position};
ghost use Rattle.kernel_model.specs.Begin.{free_places, first_flow};
ghost use Rattle.kernel_model.specs.Came.{came_as};
ghost use Rattle.kernel_model.specs.ContentRows.{pipe_bytes};
ghost use Rattle.kernel_model.specs.Pipes.{pipe_at, pipe_size, after_step, with_pipe, new_pipe, without_readers, without_writers, read_pipe, write_pipe, more_taken, more_sent};
ghost use Rattle.kernel_model.specs.Readiness.{read_end_ready, write_end_ready};
ghost use Rattle.kernel_model.specs.Table.{slot, new_place};
ghost use Rattle.native_files.specs.Answers.{filled};
ghost use Rattle.native_files.specs.inside.Ends.{closed_readers, closed_writers};
ghost use Rattle.native_files.specs.inside.Steps.{reached, read_at_end, write_at_end, piped, stepped};
ghost use Rattle.outside.specs.Count.{Rose};
ghost use Rattle.outside.specs.Input.{MovesOut};

use crate::events::{Events, poll_bits, ready_for};
use crate::progress::Progress;
use kernel_core::{Errno, NoMemory, PollBits, Wake};
use kernel_model::{Moved, PipeEnds, Stream};
use native_pipe::{PIPE_SIZE, Pipe};
use outside::{Failed, Source};
use std::alloc::{AllocError, Global};
use std::marker::Model;

/// How many pipes there are at most: each has a descriptor.
const PIPES: usize = 1024;

/// The most bytes that are written to a pipe as a whole (PIPE_BUF of pipe(7)). A pipe that is ready for
/// writing has room for so many.
const WHOLE_WRITE: usize = 4096;

/// The pipes by their numbers, and how many bytes were moved at the streams.
#[derive(Drop)]
pub(crate) struct Flow {
    pipes: Vec<Option<PipeEnds<Pipe>>>,
    moved: Moved,
}

impl Model for Flow {
    ghost use Rattle.kernel_model.specs.State.{Flow};

    ghost Value = { Flow };

    ghost use Rattle.std.specs.Prelude.{◌≡◌, length};

    ghost view = { λ f. record { pipes = f.pipes.items; moved = f.moved } };

    ghost invariant = { λ f. length f.pipes.items ≡ 1024 };
}

impl Flow {
    /// No pipe, and nothing was moved.
    pub(crate) fn new(alloc: Global) -> Result<Flow, NoMemory>
        ensures { IfOk result (λ flow. flow ≡ first_flow) }
    {
        Ok(Flow {
            pipes: no_pipes(alloc, PIPES)?,
            moved: Moved {
                taken: 0,
                out: 0,
                err: 0,
            },
        })
    }

    /// The least number that no pipe has, or how many numbers there are where none is free.
    pub(crate) fn new_number(&self) -> u32
        ensures { result ≡ new_place self.now.pipes }
    {
        least_free(self.pipes.as_slice())
    }

    /// A new pipe without bytes, both of whose ends are open, under a number that no pipe has.
    pub(crate) fn open(&mut self, number: u32, bytes: Pipe)
        requires { bytes ≡ [] }
        ensures { self.new ≡ with_pipe self.old number new_pipe }
    {
        let number = number as usize;
        if number < self.pipes.len() {
            self.pipes[number] = Some(PipeEnds {
                bytes,
                readers: true,
                writers: true,
            });
        }
    }

    /// The read end of a pipe is closed, and the pipe goes where its other end is closed too.
    pub(crate) fn close_readers(&mut self, number: u32)
        ensures { self.new ≡ without_readers self.old number (pipe_at self.old number) }
    {
        close_readers(self.pipes.as_mut_slice(), number as usize);
    }

    /// The write end of a pipe is closed, and the pipe goes where its other end is closed too.
    pub(crate) fn close_writers(&mut self, number: u32)
        ensures { self.new ≡ without_writers self.old number (pipe_at self.old number) }
    {
        close_writers(self.pipes.as_mut_slice(), number as usize);
    }

    /// Reads from a pipe, where it is there.
    pub(crate) fn read_pipe(
        &mut self,
        number: u32,
        nonblock: bool,
        buffer: &mut [u8],
    ) -> Result<Progress, Errno>
        ensures flow { self.new ≡ after_step self.old number (read_at_end nonblock (length buffer.old) (pipe_at self.old number)).pipe }
        ensures came { reached result ≡ came_as length (read_at_end nonblock (length buffer.old) (pipe_at self.old number)).came }
        ensures stored { buffer.new ≡ filled buffer.old (read_at_end nonblock (length buffer.old) (pipe_at self.old number)).came }
    {
        read_from(self.pipes.as_mut_slice(), number as usize, nonblock, buffer)
    }

    /// Writes these bytes, of which there is one, to a pipe, where it is there.
    pub(crate) fn write_pipe(
        &mut self,
        number: u32,
        nonblock: bool,
        bytes: &[u8],
    ) -> Result<Progress, Errno>
        ensures flow { self.new ≡ after_step self.old number (write_at_end nonblock bytes.now (pipe_at self.old number)).pipe }
        ensures came { reached result ≡ (write_at_end nonblock bytes.now (pipe_at self.old number)).came }
    {
        write_to(self.pipes.as_mut_slice(), number as usize, nonblock, bytes)
    }

    /// How many bytes a pipe holds, where it is there.
    pub(crate) fn pipe_bytes(&self, number: u32) -> Option<u64>
        ensures count { result ≡ pipe_bytes (pipe_at self.now number) }
        ensures small { IfSome result (λ count. count ≤ pipe_size) }
    {
        pipe_bytes(self.pipes.as_slice(), number as usize)
    }

    /// Takes bytes of the input into the beginning of a buffer, and counts them.
    pub(crate) fn take_input<I: Source>(
        &mut self,
        input: &mut I,
        buffer: &mut [u8],
    ) -> Result<usize, Failed>
        ensures within { IfOk result (λ count. count ≤ length buffer.new) }
        ensures moved { IfOk result (MovesOut (I.left input.old) (I.left input.new) buffer.old buffer.new) }
        ensures counted { IfOk result (λ count. self.new ≡ more_taken self.old count) }
        ensures failed { OnErr result (self.new ≡ self.old) }
        ensures unchanged { OnErr result (I.left input.new ≡ I.left input.old) }
        ensures cause { OnErr result (Rose (I.faults input.old) (I.faults input.new)) }
        ensures no_fault { OnOk result (I.faults input.new ≡ I.faults input.old) }
        ensures later { I.faults input.old ≤ I.faults input.new }
    {
        let count = input.take(buffer)?;
        self.moved.taken = self.moved.taken.saturating_add(count as u128);
        Ok(count)
    }

    /// Counts bytes that were sent to a stream.
    pub(crate) fn count_sent(&mut self, stream: Stream, count: usize)
        ensures { self.new ≡ more_sent self.old stream count }
    {
        match stream {
            Stream::Input => {}
            Stream::Out => self.moved.out = self.moved.out.saturating_add(count as u128),
            Stream::Err => self.moved.err = self.moved.err.saturating_add(count as u128),
        }
    }

    /// What the read end of a pipe is ready for.
    pub(crate) fn read_end_ready(&self, number: u32) -> PollBits
        ensures { result ≡ read_end_ready (pipe_at self.now number) }
    {
        read_end_ready(self.pipes.as_slice(), number as usize)
    }

    /// What the write end of a pipe is ready for.
    pub(crate) fn write_end_ready(&self, number: u32) -> PollBits
        ensures { result ≡ write_end_ready (pipe_at self.now number) }
    {
        write_end_ready(self.pipes.as_slice(), number as usize)
    }
}

/// The least number that no pipe has.
fn least_free(pipes: &[Option<PipeEnds<Pipe>>]) -> u32
    requires { length pipes.now ≡ 1024 }
    ensures { result ≡ new_place pipes.now }
{
    match first_free(pipes) {
        Some(number) => number as u32,
        None => pipes.len() as u32,
    }
}

fn first_free(pipes: &[Option<PipeEnds<Pipe>>]) -> Option<usize>
    ensures first { result ≡ position (λ pipe. is_none pipe) pipes.now }
    ensures within { IfSome result (λ number. number < length pipes.now) }
{
    pipes.iter().position(|pipe| pipe.is_none())
}

/// The read end of a pipe is closed, and the pipe goes where its other end is closed too.
fn close_readers(pipes: &mut [Option<PipeEnds<Pipe>>], number: usize)
    ensures { pipes.new ≡ closed_readers pipes.old number (slot pipes.old number) }
{
    if number >= pipes.len() {
        return;
    }
    let goes = match &pipes[number] {
        Some(ends) => !ends.writers,
        None => false,
    };
    if goes {
        pipes[number] = None;
    } else if let Some(ends) = &mut pipes[number] {
        ends.readers = false;
    }
}

/// The write end of a pipe is closed, and the pipe goes where its other end is closed too.
fn close_writers(pipes: &mut [Option<PipeEnds<Pipe>>], number: usize)
    ensures { pipes.new ≡ closed_writers pipes.old number (slot pipes.old number) }
{
    if number >= pipes.len() {
        return;
    }
    let goes = match &pipes[number] {
        Some(ends) => !ends.readers,
        None => false,
    };
    if goes {
        pipes[number] = None;
    } else if let Some(ends) = &mut pipes[number] {
        ends.writers = false;
    }
}

fn read_from(
    pipes: &mut [Option<PipeEnds<Pipe>>],
    number: usize,
    nonblock: bool,
    buffer: &mut [u8],
) -> Result<Progress, Errno>
    ensures pipes { pipes.new ≡ stepped pipes.old number (read_at_end nonblock (length buffer.old) (slot pipes.old number)).pipe }
    ensures came { reached result ≡ came_as length (read_at_end nonblock (length buffer.old) (slot pipes.old number)).came }
    ensures stored { buffer.new ≡ filled buffer.old (read_at_end nonblock (length buffer.old) (slot pipes.old number)).came }
{
    if number >= pipes.len() {
        return Err(Errno::EBADF);
    }
    match &mut pipes[number] {
        Some(ends) => read_ends(ends, nonblock, buffer),
        None => Err(Errno::EBADF),
    }
}

/// What is there first; the end without writers; else a wait, or EAGAIN for a description that does not
/// wait (pipe(7)).
#[tactic(auto, using(crate::proofs::Filled::taken))]
fn read_ends(
    ends: &mut PipeEnds<Pipe>,
    nonblock: bool,
    buffer: &mut [u8],
) -> Result<Progress, Errno>
    ensures pipe { ends.new ≡ piped ends.old (read_pipe ends.old nonblock (length buffer.old)).pipe }
    ensures came { reached result ≡ came_as length (read_pipe ends.old nonblock (length buffer.old)).came }
    ensures stored { buffer.new ≡ filled buffer.old (read_pipe ends.old nonblock (length buffer.old)).came }
{
    if !ends.bytes.is_empty() {
        return Ok(Progress::Done(ends.bytes.take(buffer)));
    }
    if !ends.writers {
        return Ok(Progress::Done(0));
    }
    if nonblock {
        return Err(Errno::EAGAIN);
    }
    Ok(waits_after(0))
}

fn write_to(
    pipes: &mut [Option<PipeEnds<Pipe>>],
    number: usize,
    nonblock: bool,
    bytes: &[u8],
) -> Result<Progress, Errno>
    ensures pipes { pipes.new ≡ stepped pipes.old number (write_at_end nonblock bytes.now (slot pipes.old number)).pipe }
    ensures came { reached result ≡ (write_at_end nonblock bytes.now (slot pipes.old number)).came }
{
    if number >= pipes.len() {
        return Err(Errno::EBADF);
    }
    match &mut pipes[number] {
        Some(ends) => write_ends(ends, nonblock, bytes),
        None => Err(Errno::EBADF),
    }
}

/// All bytes where there is room for them; of more than go whole as many as there is room for; the rest
/// waits, or is left for a description that does not wait (pipe(7)).
fn write_ends(ends: &mut PipeEnds<Pipe>, nonblock: bool, bytes: &[u8]) -> Result<Progress, Errno>
    ensures pipe { ends.new ≡ piped ends.old (write_pipe ends.old nonblock bytes.now).pipe }
    ensures came { reached result ≡ (write_pipe ends.old nonblock bytes.now).came }
{
    if !ends.readers {
        return Err(Errno::EPIPE);
    }
    let room = PIPE_SIZE - ends.bytes.len();
    if bytes.len() <= room {
        return Ok(Progress::Done(ends.bytes.put(bytes)));
    }
    if room == 0 || bytes.len() <= WHOLE_WRITE {
        return if nonblock {
            Err(Errno::EAGAIN)
        } else {
            Ok(waits_after(0))
        };
    }
    let count = ends.bytes.put(bytes);
    Ok(if nonblock {
        Progress::Done(count)
    } else {
        waits_after(count)
    })
}

/// A wait without end, after so many bytes were put.
fn waits_after(count: usize) -> Progress
    ensures { result ≡ Progress.Waits (record { done = count; until = None }) }
{
    Progress::Waits(Wake {
        done: count as u64,
        until: None,
    })
}

fn pipe_bytes(pipes: &[Option<PipeEnds<Pipe>>], number: usize) -> Option<u64>
    ensures count { result ≡ pipe_bytes (slot pipes.now number) }
    ensures small { IfSome result (λ count. count ≤ pipe_size) }
{
    if number >= pipes.len() {
        return None;
    }
    match &pipes[number] {
        None => None,
        Some(ends) => Some(ends.bytes.len() as u64),
    }
}

/// Ready with bytes, and hung up without writers.
fn read_end_ready(pipes: &[Option<PipeEnds<Pipe>>], number: usize) -> PollBits
    ensures { result ≡ read_end_ready (slot pipes.now number) }
{
    if number >= pipes.len() {
        return ready_for(false, false);
    }
    match &pipes[number] {
        None => ready_for(false, false),
        Some(ends) => poll_bits(Events {
            reading: !ends.bytes.is_empty(),
            writing: false,
            error: false,
            hung_up: !ends.writers,
            closed: false,
        }),
    }
}

/// Ready with readers and room for a write that goes whole, and in error without readers.
fn write_end_ready(pipes: &[Option<PipeEnds<Pipe>>], number: usize) -> PollBits
    ensures { result ≡ write_end_ready (slot pipes.now number) }
{
    if number >= pipes.len() {
        return ready_for(false, false);
    }
    match &pipes[number] {
        None => ready_for(false, false),
        Some(ends) => poll_bits(Events {
            reading: false,
            writing: ends.readers && WHOLE_WRITE <= PIPE_SIZE - ends.bytes.len(),
            error: !ends.readers,
            hung_up: false,
            closed: false,
        }),
    }
}

#[tactic(auto, unfolding(kernel_model::specs::Begin::free_places))]
fn no_pipes(alloc: Global, count: usize) -> Result<Vec<Option<PipeEnds<Pipe>>>, AllocError>
    ensures { IfOk result (λ pipes. pipes.items ≡ free_places count) }
{
    let mut pipes = Vec::with_capacity(alloc, count)?;
    for _place in 0..count {
        pipes.push(None)?;
    }
    Ok(pipes)
}
