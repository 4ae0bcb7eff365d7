//! ppoll(2), which is poll(2) with a time and a mask.
ghost use Rattle.std.specs.Prelude.{◌≤◌, count_by};
ghost use Rattle.kernel_model.specs.Readiness.{entry_limit, is_any};
ghost use Rattle.native_calls.specs.Polls.{entries_at, polled, ppoll_row};
ghost use Rattle.native_polls.specs.Answers.{Answers};
ghost use Rattle.native_polls.specs.inside.Waiting.{Finds, poll_entries, poll_waiting};

use crate::ends::{Found, ended, found_or_wait};
use crate::masks::masked_wait;
use crate::readiness::Readiness;
use crate::telling::{store_told, told_count};
use crate::times::wait_at;
use host_mem::HostMem;
use kernel_core::{Errno, Reply};

/// How many entries there are at most: as many as descriptors (EINVAL of poll(2)).
const ENTRY_LIMIT: u32 = 1024;

/// ppoll(2) of `count` entries from `address` on, when the clock shows `clock`, in nanoseconds: how many of them
/// are told any event, and each gets what is told of it. An entry is told those events of its descriptor that it
/// asks for, and unasked POLLERR, POLLHUP and POLLNVAL; one whose descriptor is below 0 is told nothing (Linux
/// `include/uapi/asm-generic/poll.h`).
///
/// The call waits where nothing is told, until the time at `time` is over, and without end where that address is
/// null; nothing is stored while it waits. EFAULT and EINVAL of the time come first, then those of the mask, then
/// EINVAL for more than 1,024 entries, then EFAULT of the entries. The time left is stored at each end, also at an
/// error once the time was accepted. The call takes no memory.
pub fn ppoll<F: Readiness>(
    files: &F,
    clock: u64,
    address: u64,
    count: u32,
    time: u64,
    mask: u64,
    size: u64,
    mem: &mut HostMem,
) -> Reply
    ensures { Answers (λ kernel left. ppoll_row kernel mem.old address count time mask size left)
        (F.files files.now) clock result mem.new }
{
    let wait = wait_at(mem, time);
    let masked = masked_wait(mem, wait, mask, size);
    let came = poll(files, clock, masked, address, count, mem);
    ended(came, clock, time, wait, mem)
}

/// What a poll comes to that waits so long, or whose time or mask is wrong.
fn poll<F: Readiness>(
    files: &F,
    clock: u64,
    wait: Result<Option<u128>, Errno>,
    address: u64,
    count: u32,
    mem: &mut HostMem,
) -> Result<Found, Errno>
    ensures { Finds (polled address mem.old) (count_by is_any)
        (poll_waiting (F.files files.now) clock wait count (entries_at mem.old address count)) result mem.old mem.new }
{
    let wait = wait?;
    if count > ENTRY_LIMIT {
        return Err(Errno::EINVAL);
    }
    poll_entries(files, clock, wait, address, count, mem)
}

/// What a poll of entries comes to that are not too many.
fn poll_entries<F: Readiness>(
    files: &F,
    clock: u64,
    wait: Option<u128>,
    address: u64,
    count: u32,
    mem: &mut HostMem,
) -> Result<Found, Errno>
    requires { count ≤ entry_limit }
    ensures { Finds (polled address mem.old) (count_by is_any)
        (poll_entries (F.files files.now) clock wait (entries_at mem.old address count)) result mem.old mem.new }
{
    let told = told_count(files, address, count, mem)?;
    let found = found_or_wait(clock, wait, told);
    if let Found::Told(_) = found {
        store_told(files, address, count, mem);
    }
    Ok(found)
}
