//! The calls on the system's names, limits and chance: uname(2), prlimit(2), getrandom(2).
ghost use Rattle.std.specs.Prelude.{◌≡◌, ◌+◌, ◌^◌, ◌<◌, ◌≤◌, All, IsTrue, length, slice_index_or};
ghost use Rattle.host_mem.specs.Memory.{is_inside, replaced, written};
ghost use Rattle.kernel_model.specs.Came.{done};
ghost use Rattle.kernel_model.specs.System.{after_chance, are_random_flags, random_bytes, resource_place, round, set_limit, set_limit_to, unlimited};
ghost use Rattle.kernel_model.specs.declared.limit.Limit.{Limit as Bounds};
ghost use Rattle.native_calls.specs.HostBytes.{accessible, unless_null};
ghost use Rattle.native_calls.specs.System.{limit_at, limit_bytes, limit_in, name_bytes, prlimit_row};
ghost use Rattle.native_files.specs.Answers.{came_of};
ghost use Rattle.native_kernel.specs.inside.Quiet.{Fills, IsQuiet, Stores};

use crate::chance::Chance;
use crate::descriptors::has;
use crate::ids::OWN_ID;
use crate::kernel::{NativeKernel, RESOURCES};
use crate::replies::failure;
use crate::structures::{accessible, double_at, put, store, store_unless_null};
use host_mem::{FIRST_ADDRESS, HostMem};
use kernel_core::{Errno, Reply, Resource};
use kernel_model::Limit;
use layouts::{NativeStructure, UtsnameText, put_text};
use number_tables::NativeNumber;

/// Six texts of 65 bytes (struct new_utsname).
const NAMES_SIZE: usize = 390;

/// A soft limit and a hard one (struct rlimit64).
const LIMIT_SIZE: usize = 16;

/// How many descriptors there are at most.
const DESCRIPTORS: u64 = 1024;

/// The flags of getrandom(2).
const GRND_NONBLOCK: u64 = 1;

const GRND_RANDOM: u64 = 2;

const GRND_INSECURE: u64 = 4;

/// How many bytes a call moves at most (MAX_RW_COUNT of Linux `include/linux/fs.h`).
const TRANSFER_LIMIT: usize = 0x7FFF_F000;

impl NativeKernel {
    /// uname(2): EFAULT.
    pub(crate) fn uname(&self, address: u64, mem: &mut HostMem) -> Reply
        ensures { Stores (done self.now name_bytes) address result self.now mem.old mem.new }
    {
        store(mem, address, &name_bytes())
    }

    /// prlimit(2): EFAULT; ESRCH for another process, EINVAL for no resource and for a soft limit above the hard
    /// one, EPERM for more descriptors than there are.
    #[tactic(auto, unfolding(native_calls::specs::System::prlimit_row))]
    pub(crate) fn prlimit(
        &mut self,
        pid: i32,
        resource: u32,
        limit: u64,
        old: u64,
        mem: &mut HostMem,
    ) -> Reply
        ensures row { IsQuiet (prlimit_row self.old mem.old pid resource limit old) result self.new mem.new }
        ensures clock { self.new.clock ≡ self.old.clock }
    {
        let limit = limit_unless_null(mem, limit);
        match self.set_limit(pid, Resource::of_native(u64::from(resource)), limit) {
            Err(error) => failure(error),
            Ok(limit) => store_unless_null(mem, old, &limit_bytes(limit)),
        }
    }

    /// Gives the limit of a resource, and sets it to another where there is one.
    #[tactic(auto, unfolding(kernel_model::specs::System::set_limit))]
    fn set_limit(
        &mut self,
        pid: i32,
        resource: Option<Resource>,
        limit: Option<Result<Limit, Errno>>,
    ) -> Result<Limit, Errno>
        ensures came { came_of result ≡ (set_limit self.old pid resource limit).came }
        ensures state { self.new ≡ (set_limit self.old pid resource limit).state }
        ensures clock { self.new.clock ≡ self.old.clock }
    {
        if pid != 0 && pid != OWN_ID {
            return Err(Errno::ESRCH);
        }
        let Some(resource) = resource else {
            return Err(Errno::EINVAL);
        };
        match limit {
            None => Ok(limit_of(&self.limits, resource)),
            Some(Err(error)) => Err(error),
            Some(Ok(limit)) => self.change_limit(resource, limit),
        }
    }

    /// Sets the limit of a resource, and gives the one that it had.
    fn change_limit(&mut self, resource: Resource, limit: Limit) -> Result<Limit, Errno>
        ensures came { came_of result ≡ (set_limit_to self.old resource (Some limit)).came }
        ensures state { self.new ≡ (set_limit_to self.old resource (Some limit)).state }
        ensures clock { self.new.clock ≡ self.old.clock }
    {
        if limit.soft > limit.hard {
            return Err(Errno::EINVAL);
        }
        if resource == Resource::Nofile && limit.hard > DESCRIPTORS {
            return Err(Errno::EPERM);
        }
        let old = limit_of(&self.limits, resource);
        self.limits[resource_place(resource)] = limit;
        Ok(old)
    }

    /// getrandom(2): EINVAL for flags, EFAULT.
    #[tactic(auto, unfolding(kernel_model::specs::System::random_bytes))]
    pub(crate) fn getrandom(
        &mut self,
        buffer: u64,
        count: u64,
        flags: u32,
        mem: &mut HostMem,
    ) -> Reply
        ensures row { Fills (written mem.old buffer) (random_bytes self.old count (accessible mem.old buffer count) flags)
            result self.new mem.old mem.new }
        ensures clock { self.new.clock ≡ self.old.clock }
    {
        if !are_random_flags(u64::from(flags)) {
            return failure(Errno::EINVAL);
        }
        if count == 0 {
            return Reply::Done(0);
        }
        let room = accessible(mem, buffer, count);
        if room == 0 {
            return failure(Errno::EFAULT);
        }
        let most = room.min(TRANSFER_LIMIT);
        put_chance(&mut self.chance, mem, buffer, most);
        Reply::Done(most as i64)
    }
}

/// The names of the system, the node, the release, the version, the machine and the domain, each with NULs
/// behind it up to its end. (The names are this project's own.)
fn name_bytes() -> [u8; NAMES_SIZE]
    ensures { result ≡ name_bytes }
{
    let mut bytes = [0; NAMES_SIZE];
    put_text(&mut bytes, UtsnameText::Sysname, b"Linux");
    put_text(&mut bytes, UtsnameText::Nodename, b"o32");
    put_text(&mut bytes, UtsnameText::Release, b"5.10.0");
    put_text(&mut bytes, UtsnameText::Version, b"#1");
    put_text(&mut bytes, UtsnameText::Machine, b"mips");
    put_text(&mut bytes, UtsnameText::Domainname, b"(none)");
    bytes
}

/// The limit of a resource.
fn limit_of(limits: &[Limit; RESOURCES], resource: Resource) -> Limit
    ensures { result ≡ slice_index_or limits.now (resource_place resource) unlimited }
{
    limits[resource_place(resource)]
}

/// Each of the limits fits 64 bits: it changes nothing, and tells its caller this.
pub(crate) fn all_fit(limits: &[Limit; RESOURCES])
    ensures { All (λ (limit : Bounds). (limit.soft < 2 ^ 64) × (limit.hard < 2 ^ 64)) limits.now }
{
    for limit in limits {
        fits(*limit);
    }
}

fn fits(limit: Limit)
    ensures { (limit.soft < 2 ^ 64) × (limit.hard < 2 ^ 64) }
{}

/// The place of a resource among the limits.
fn resource_place(resource: Resource) -> usize
    ensures place { result ≡ resource_place resource }
    ensures within { result ≤ 15 }
{
    match resource {
        Resource::Cpu => 0,
        Resource::Fsize => 1,
        Resource::Data => 2,
        Resource::Stack => 3,
        Resource::Core => 4,
        Resource::Nofile => 5,
        Resource::As => 6,
        Resource::Rss => 7,
        Resource::Nproc => 8,
        Resource::Memlock => 9,
        Resource::Locks => 10,
        Resource::Sigpending => 11,
        Resource::Msgqueue => 12,
        Resource::Nice => 13,
        Resource::Rtprio => 14,
        Resource::Rttime => 15,
    }
}

/// The new limit that a structure in memory has, or None where the address is null: nothing is read there.
fn limit_unless_null(mem: &HostMem, address: u64) -> Option<Result<Limit, Errno>>
    ensures { result ≡ unless_null address (limit_at mem.now address) }
{
    if address == 0 {
        None
    } else {
        Some(limit_at(mem, address))
    }
}

/// The limit that a structure in memory has, or EFAULT where it is not there.
fn limit_at(mem: &HostMem, address: u64) -> Result<Limit, Errno>
    ensures { result ≡ limit_at mem.now address }
{
    match mem.read(address, LIMIT_SIZE as u64) {
        None => Err(Errno::EFAULT),
        Some(bytes) => Ok(limit_in(bytes)),
    }
}

fn limit_in(bytes: &[u8]) -> Limit
    requires { length bytes.now ≡ 16 }
    ensures { result ≡ limit_in bytes.now }
{
    Limit {
        soft: double_at(bytes, 0),
        hard: double_at(bytes, 8),
    }
}

/// The structure of a limit.
fn limit_bytes(limit: Limit) -> [u8; LIMIT_SIZE]
    ensures { result ≡ limit_bytes limit }
{
    let values = [i128::from(limit.soft), i128::from(limit.hard)];
    let mut bytes = [0; LIMIT_SIZE];
    put(NativeStructure::Rlimit, &values, &mut bytes);
    bytes
}

/// Whether there are no flags but GRND_NONBLOCK and one of GRND_RANDOM and GRND_INSECURE.
fn are_random_flags(flags: u64) -> bool
    ensures { result ≡ are_random_flags flags }
{
    flags <= GRND_NONBLOCK + GRND_RANDOM + GRND_INSECURE
        && !(has(flags, GRND_RANDOM) && has(flags, GRND_INSECURE))
}

/// Writes the next bytes of chance from an address on, where they are all there.
fn put_chance(chance: &mut Chance, mem: &mut HostMem, address: u64, count: usize)
    requires { IsTrue (is_inside mem.old address count) }
    ensures stored { mem.new ≡ written mem.old address (round chance.old.bytes chance.old.at count) }
    ensures goes_on { chance.new ≡ after_chance chance.old count }
{
    let place = (address - FIRST_ADDRESS) as usize;
    fill_part(chance, mem.as_mut_slice(), place, count);
}

/// Fills a part of memory with the next bytes of chance.
fn fill_part(chance: &mut Chance, memory: &mut [u8], place: usize, count: usize)
    requires { place + count ≤ length memory.old }
    ensures stored { memory.new ≡ replaced memory.old place (round chance.old.bytes chance.old.at count) }
    ensures goes_on { chance.new ≡ after_chance chance.old count }
{
    chance.fill(&mut memory[place..place + count]);
}
