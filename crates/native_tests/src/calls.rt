//! Scripts of a native kernel and its streams, step by step.
ghost use Rattle.kernel_core.specs.ValidTree.{IsValidTree};
ghost use Rattle.kernel_model.specs.Pending.{CanPend};

use crate::filling::{fill_blocks, make_names};
use crate::steps::{Step, read};
use host_mem::HostMem;
use kernel_core::{Info, Reply, Sig, Stop, Tree};
use native_kernel::{NativeKernel, Post};
use native_scripts::rows::Call;
use native_scripts::trees::{EMPTY_TREE, tree_of};
use outside::{Devices, MemSink, MemSource};
use schedule::parse;
use std::alloc::{AllocError, Global};
use std::test::Fail;

/// The streams of a test.
pub(crate) type Streams = Devices<MemSource, MemSink, MemSink>;

/// A new kernel of this tree, whose schedule is a text.
pub(crate) fn kernel_of(alloc: Global, tree: Tree, schedule: &str) -> Result<NativeKernel, Fail>
    requires { IsValidTree tree }
{
    let Ok(schedule) = parse(alloc, schedule.as_bytes()) else {
        return Err(Fail::from("a schedule"));
    };
    let Ok(kernel) = NativeKernel::new(alloc, tree, &schedule) else {
        return Err(Fail::from("no memory"));
    };
    Ok(kernel)
}

/// Streams with this input, of which the calls of these numbers fail, counted from 1.
fn streams(alloc: Global, input: &str, failing: &[u64]) -> Result<Streams, AllocError> {
    Ok(Devices {
        input: MemSource::new(input.as_bytes().to_vec(alloc)?, failing.to_vec(alloc)?),
        out: MemSink::new(alloc, failing.to_vec(alloc)?),
        err: MemSink::new(alloc, failing.to_vec(alloc)?),
    })
}

/// What comes of a call, with host memory as it leaves it.
pub(crate) fn made(
    kernel: &mut NativeKernel,
    streams: &mut Streams,
    number: u64,
    arguments: [u64; 6],
    memory: &mut HostMem,
) -> Result<Reply, Stop> {
    kernel.call(number, arguments, memory, streams)
}

/// Whether a call comes out as its row says.
fn is_answered(
    alloc: Global,
    kernel: &mut NativeKernel,
    streams: &mut Streams,
    call: &Call,
) -> bool {
    let mut memory = HostMem::new(alloc);
    if memory.push(call.before.bytes()).is_err() {
        return false;
    }
    let came = made(kernel, streams, call.number, call.arguments, &mut memory);
    came == call.came && memory.as_slice() == call.after.bytes()
}

/// A signal that the process with the id 1 sends by kill(2).
fn sent_from_outside(sig: Sig) -> Info
    ensures { CanPend result }
{
    Info {
        sig,
        code: 0,
        errno: 0,
        pid: 1,
        uid: 0,
        value: 0,
        addr: 0,
    }
}

fn is_same(post: Post, expected: Post) -> bool {
    match post {
        Post::Queued => matches!(expected, Post::Queued),
        Post::Dropped => matches!(expected, Post::Dropped),
        Post::Full => matches!(expected, Post::Full),
    }
}

fn is_posted(kernel: &mut NativeKernel, signal: Sig, is_awaited: bool, expected: Post) -> bool {
    match kernel.post(sent_from_outside(signal), is_awaited) {
        Ok(post) => is_same(post, expected),
        Err(_) => false,
    }
}

/// Whether a step comes out as it says.
fn is_right(alloc: Global, kernel: &mut NativeKernel, streams: &mut Streams, step: &Step) -> bool {
    match step {
        Step::Nothing => true,
        Step::Makes(call) => is_answered(alloc, kernel, streams, call),
        Step::Clock(time) => { kernel.clock() <= *time && kernel.advance(*time, false).is_ok() }
        Step::Posts {
            signal,
            is_awaited,
            came,
        } => is_posted(kernel, *signal, *is_awaited, *came),
        Step::IsDeliverable(expected) => kernel.deliverable() == *expected,
        Step::NextTime(expected) => kernel.next_time() == *expected,
        Step::Output(bytes) => streams.out.bytes() == bytes.bytes(),
        Step::Errors(bytes) => streams.err.bytes() == bytes.bytes(),
        Step::Names(most, call) => {
            let count = make_names(alloc, kernel, streams, call, *most);
            call.came == Ok(Reply::Done(count.cast_signed()))
        }
        Step::Blocks(most, call) => {
            let count = fill_blocks(alloc, kernel, streams, call, *most);
            call.came == Ok(Reply::Done(count.cast_signed()))
        }
    }
}

fn first_wrong_of(
    alloc: Global,
    kernel: &mut NativeKernel,
    streams: &mut Streams,
    text: &str,
) -> Result<Option<usize>, Fail> {
    let mut place: usize = 0;
    for line in text.lines() {
        let step = read(alloc, line)?;
        if !is_right(alloc, kernel, streams, &step) {
            return Ok(Some(place));
        }
        place = place.saturating_add(1);
    }
    Ok(None)
}

/// The line of the first step that does not come out as it says, counted from 0. The streams are new, have this input, and fail at
/// the calls of these numbers.
fn first_wrong_with(
    alloc: Global,
    kernel: &mut NativeKernel,
    input: &str,
    failing: &[u64],
    text: &str,
) -> Result<Option<usize>, Fail> {
    let mut streams = streams(alloc, input, failing)?;
    first_wrong_of(alloc, kernel, &mut streams, text)
}

/// The same, with no input and no failure.
pub(crate) fn first_wrong(
    alloc: Global,
    kernel: &mut NativeKernel,
    text: &str,
) -> Result<Option<usize>, Fail> {
    first_wrong_with(alloc, kernel, "", &[], text)
}

/// The same of a new kernel, whose tree is that of an image.
pub(crate) fn first_wrong_of_image(
    alloc: Global,
    image: &[u8],
    text: &str,
) -> Result<Option<usize>, Fail> {
    let mut kernel = kernel_of(alloc, tree_of(alloc, image)?, "")?;
    first_wrong(alloc, &mut kernel, text)
}

/// The same of a new kernel of an empty tree, with this schedule.
pub(crate) fn first_wrong_of_new(
    alloc: Global,
    schedule: &str,
    text: &str,
) -> Result<Option<usize>, Fail> {
    let mut kernel = kernel_of(alloc, tree_of(alloc, EMPTY_TREE)?, schedule)?;
    first_wrong(alloc, &mut kernel, text)
}

/// The same of a new kernel of an empty tree, with this input and these calls that fail.
pub(crate) fn first_wrong_of_streams(
    alloc: Global,
    input: &str,
    failing: &[u64],
    text: &str,
) -> Result<Option<usize>, Fail> {
    let mut kernel = kernel_of(alloc, tree_of(alloc, EMPTY_TREE)?, "")?;
    first_wrong_with(alloc, &mut kernel, input, failing, text)
}
