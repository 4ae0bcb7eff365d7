//! pselect(2), which is select(2) with a time in nanoseconds and a mask.
ghost use Rattle.std.specs.Prelude.{◌≡◌, ◌≤◌};
ghost use Rattle.kernel_model.specs.Readiness.{counted_fds, names_any_closed, set_count};
ghost use Rattle.native_calls.specs.HostBytes.{read_as};
ghost use Rattle.native_calls.specs.Polls as polls;
ghost use Rattle.native_calls.specs.Polls.{pselect_row, selected};
ghost use Rattle.native_polls.specs.Answers.{Answers, places_of};
ghost use Rattle.native_polls.specs.inside.FdSets.{StoresSets, sets_of};
ghost use Rattle.native_polls.specs.inside.Waiting.{Finds, select_counted, select_sets, select_waiting};

use crate::ends::{Found, ended, found_or_wait};
use crate::fd_sets::{FdSets, Side, WORDS, names_closed, ready_set, set_at, size_of, store_set};
use crate::masks::{after_argument, masked_by};
use crate::readiness::Readiness;
use crate::times::wait_at;
use host_mem::HostMem;
use kernel_core::{Errno, Reply};

/// How many descriptors count at most: as many as there are.
const FD_LIMIT: u32 = 1024;

/// Where the three sets of a call are: the addresses of those for reading, for writing and for exceptions. One
/// that is null is an empty set, and nothing is stored there.
#[derive(Clone, Copy)]
pub struct SetPlaces {
    pub read: u64,
    pub write: u64,
    pub except: u64,
}

/// Where the three sets of a call are, and how many descriptors count in each: the first ones.
#[derive(Clone, Copy)]
struct CountedPlaces {
    count: u32,
    places: SetPlaces,
}

/// pselect(2) of the first `count` descriptors of each set, when the clock shows `clock`, in nanoseconds: how many
/// bits are set, and each set holds those of its descriptors that are ready. There are no exceptions. A count
/// above 1,024 counts as that.
///
/// The call waits where nothing is ready, until the time at `time` is over, and without end where that address is
/// null; nothing is stored while it waits. EFAULT comes first where what `argument` points to can't be read, which
/// is the address of a mask and the size of a set; then come EFAULT and EINVAL of the time, then those of the mask,
/// then EINVAL for a count below 0, then EFAULT of the sets, then EBADF where a set has a descriptor that is not
/// open. The time left is stored at each end, also at an error once the time was accepted. The call takes no
/// memory.
pub fn pselect<F: Readiness>(
    files: &F,
    clock: u64,
    count: i32,
    places: SetPlaces,
    time: u64,
    argument: u64,
    mem: &mut HostMem,
) -> Reply
    ensures { Answers (λ kernel left. pselect_row kernel mem.old count (places_of places) time argument left)
        (F.files files.now) clock result mem.new }
{
    let wait = wait_at(mem, time);
    let masked = masked_by(mem, wait, argument);
    let accepted = after_argument(mem, wait, argument);
    let came = select(files, clock, masked, count, places, mem);
    ended(came, clock, time, accepted, mem)
}

/// What a select comes to that waits so long, or whose time or mask is wrong.
fn select<F: Readiness>(
    files: &F,
    clock: u64,
    wait: Result<Option<u128>, Errno>,
    count: i32,
    places: SetPlaces,
    mem: &mut HostMem,
) -> Result<Found, Errno>
    ensures { Finds (selected (counted_fds count) (places_of places) mem.old) set_count
        (select_waiting (F.files files.now) clock wait count (polls.sets_at mem.old (counted_fds count) (places_of places)))
        result mem.old mem.new }
{
    let wait = wait?;
    if count < 0 {
        return Err(Errno::EINVAL);
    }
    let counted = CountedPlaces {
        count: count.unsigned_abs().min(FD_LIMIT),
        places,
    };
    select_sets(files, clock, wait, counted, mem)
}

/// What a select of so many descriptors comes to.
fn select_sets<F: Readiness>(
    files: &F,
    clock: u64,
    wait: Option<u128>,
    counted: CountedPlaces,
    mem: &mut HostMem,
) -> Result<Found, Errno>
    requires { counted.count ≤ 1024 }
    ensures { Finds (selected counted.count (places_of counted.places) mem.old) set_count
        (select_sets (F.files files.now) clock wait counted.count (polls.sets_at mem.old counted.count (places_of counted.places)))
        result mem.old mem.new }
{
    let sets = sets_at(mem, counted)?;
    select_counted(files, clock, wait, counted, &sets, mem)
}

/// The three sets in memory, read in their order.
fn sets_at(mem: &HostMem, counted: CountedPlaces) -> Result<FdSets, Errno>
    requires { counted.count ≤ 1024 }
    ensures { read_as (sets_of counted.count) result ≡ polls.sets_at mem.now counted.count (places_of counted.places) }
{
    let CountedPlaces { count, places } = counted;
    let read = set_at(mem, count, places.read)?;
    let write = set_at(mem, count, places.write)?;
    let except = set_at(mem, count, places.except)?;
    Ok(FdSets {
        read,
        write,
        except,
    })
}

/// What a select of so many descriptors of these sets comes to.
fn select_counted<F: Readiness>(
    files: &F,
    clock: u64,
    wait: Option<u128>,
    counted: CountedPlaces,
    sets: &FdSets,
    mem: &mut HostMem,
) -> Result<Found, Errno>
    requires { counted.count ≤ 1024 }
    ensures { Finds (selected counted.count (places_of counted.places) mem.old) set_count
        (select_counted (F.files files.now) clock wait (sets_of counted.count sets.now)) result mem.old mem.new }
{
    let count = counted.count;
    if names_any_closed(files, count, sets) {
        return Err(Errno::EBADF);
    }
    let read = ready_set(files, count, &sets.read, Side::Reading);
    let write = ready_set(files, count, &sets.write, Side::Writing);
    let found = found_or_wait(clock, wait, size_of(count, &read) + size_of(count, &write));
    if let Found::Told(_) = found {
        store_sets(counted, &read, &write, mem);
    }
    Ok(found)
}

/// Whether any of the sets has a descriptor that counts and is not open.
fn names_any_closed<F: Readiness>(files: &F, count: u32, sets: &FdSets) -> bool
    requires { count ≤ 1024 }
    ensures { result ≡ names_any_closed (F.files files.now) (sets_of count sets.now) }
{
    names_closed(files, count, &sets.read)
        || names_closed(files, count, &sets.write)
        || names_closed(files, count, &sets.except)
}

/// Stores these sets of what is ready, and an empty one for exceptions.
fn store_sets(counted: CountedPlaces, read: &[u64; WORDS], write: &[u64; WORDS], mem: &mut HostMem)
    requires { counted.count ≤ 1024 }
    ensures { StoresSets counted.count (places_of counted.places) read.now write.now mem.old mem.new }
{
    let CountedPlaces { count, places } = counted;
    store_set(count, places.read, read, mem);
    store_set(count, places.write, write, mem);
    store_set(count, places.except, &[0; WORDS], mem);
}
