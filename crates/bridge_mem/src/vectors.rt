//! Vectors of buffers (readv(2)).
ghost use Rattle.std.specs.Prelude.{◌≡◌, ◌+◌, ◌*◌, ◌≤◌, [], length, take, OnOk, if◌then◌else◌};
ghost use Rattle.guest_space.specs.Access.{user_end};
ghost use Rattle.layouts.specs.O32.{iovec};
ghost use Rattle.o32_model.specs.GuestBytes as spec;
ghost use Rattle.o32_model.specs.GuestBytes.{vector, structure, read_as, ranges_in, sum_limit, all_accessible, all_loadable, all_copied_out};
ghost use Rattle.bridge_mem.specs.inside.Lengths.{all_readable};
ghost use Rattle.bridge_mem.specs.inside.Ranges.{word_in, range_in};

use crate::buffers::{fresh_room, read_bytes};
use crate::structures::store_structure;
use arrayvec::ArrayVec;
use guest_space::Space;
use host_mem::HostMem;
use kernel_core::{Errno, NoMemory};
use o32_model::Range;
use std::marker::Model;

/// How many buffers a vector has at most (UIO_MAXIOV of Linux `include/uapi/linux/uio.h`).
const VECTOR_LIMIT: usize = 1024;

/// How many bytes they have at most in all (SSIZE_MAX of limits.h).
const SUM_LIMIT: u64 = 0x7FFF_FFFF;

/// How many bytes a buffer takes in a vector: an address and a length (struct iovec).
const RANGE_SIZE: u32 = 8;

/// So many buffers as a vector has.
type Ranges = ArrayVec<Range, VECTOR_LIMIT>;

/// The buffers of a vector, which contracts see as their list: at most 1,024, of at most 2^31 - 1 bytes in
/// all. It takes no memory.
#[derive(Drop)]
pub struct Vector {
    ranges: Ranges,
    byte_count: u32,
}

impl Model for Vector {
    ghost use Rattle.std.specs.Prelude.{◌≡◌, ◌≤◌, List};
    ghost use Rattle.o32_model.specs.GuestBytes.{total, sum_limit};
    ghost use Rattle.o32_model.specs.declared.range.Range.{Range};

    ghost Value = { List Range };

    ghost view = { λ v. v.ranges.items };

    ghost invariant = { λ v. (v.byte_count ≡ total v.ranges.items) × (v.byte_count ≤ sum_limit) };
}

impl Vector {
    /// Reads the vector of `count` buffers at `address`: EINVAL for more than 1,024, then EFAULT where one
    /// of its bytes may not be loaded, then EINVAL where the buffers have more than 2^31 - 1 bytes in all.
    /// It takes no memory.
    pub fn read(space: &Space, address: u32, count: u32) -> Result<Vector, Errno>
        ensures { result ≡ vector space.now address count }
    {
        if count as usize > VECTOR_LIMIT {
            return Err(Errno::EINVAL);
        }
        let mut ranges = Ranges::new();
        push_ranges(space, address, count, &mut ranges)?;
        let total = total_length(ranges.as_slice());
        if total > SUM_LIMIT {
            return Err(Errno::EINVAL);
        }
        Ok(Vector {
            ranges,
            byte_count: total as u32,
        })
    }

    /// The buffers, in order.
    pub fn ranges(&self) -> &[Range]
        ensures { result.now ≡ self.now }
    {
        self.ranges.as_slice()
    }

    /// How many bytes the buffers have in all.
    pub fn total(&self) -> u32
        ensures value { result ≡ spec.total self.now }
        ensures bound { result ≤ sum_limit }
    {
        self.byte_count
    }

    /// How many bytes of the buffers may be stored to, one buffer after the other, up to the first that may
    /// not.
    pub fn accessible(&self, space: &Space) -> u32
        ensures { result ≡ all_accessible space.now self.now }
    {
        writable_length(space, self.ranges.as_slice())
    }

    /// Makes those bytes of the buffers host memory that may be loaded, one buffer after the other, up to
    /// the first that may not.
    pub fn load(&self, space: &Space, mem: &mut HostMem) -> Result<(), NoMemory>
        ensures { OnOk result (mem.new ≡ all_loadable space.now self.now) }
    {
        let ranges = self.ranges.as_slice();
        fresh_room(mem, readable_length(space, ranges))?;
        gather(space, ranges, mem.as_mut_slice());
        Ok(())
    }

    /// Writes the first `count` bytes of host memory, or all where there are fewer, to the buffers, one
    /// after the other. Nothing is promised where one of them may not be stored to.
    pub fn store(&self, space: &mut Space, mem: &HostMem, count: u32) -> Result<(), NoMemory>
        ensures { let bytes = take count mem.now in
            OnOk result (length bytes ≤ all_accessible space.old self.now → space.new ≡ all_copied_out space.old self.now bytes) }
    {
        let bytes = mem.as_slice();
        let there = bytes.len().min(count as usize);
        scatter(space, self.ranges.as_slice(), &bytes[..there])?;
        Ok(())
    }
}

/// Adds the buffers that so many structures name, one behind the other.
fn push_ranges(space: &Space, address: u32, count: u32, ranges: &mut Ranges) -> Result<(), Errno>
    requires few { count ≤ 1024 }
    requires empty { ranges.old.items ≡ [] }
    ensures answer { read_as (λ _. ranges.new.items) result ≡ read_as (ranges_in count) (structure space.now address (count * iovec.size)) }
    ensures count { OnOk result (length ranges.new.items ≡ count) }
{
    for done in 0..count {
        ranges.push(read_range(space, address + done * RANGE_SIZE)?);
    }
    Ok(())
}

/// The buffer that the structure at an address names.
fn read_range(space: &Space, at: u32) -> Result<Range, Errno>
    ensures value { result ≡ read_as range_in (structure space.now at iovec.size) }
    ensures inside { OnOk result (at + iovec.size ≤ user_end) }
{
    let address = read_word(space, at)?;
    let length = read_word(space, at + 4)?;
    Ok(Range { address, length })
}

/// The word at an address.
fn read_word(space: &Space, at: u32) -> Result<u32, Errno>
    ensures value { result ≡ read_as word_in (structure space.now at 4) }
    ensures inside { OnOk result (at + 4 ≤ user_end) }
{
    match space.load(at, 4) {
        Ok(word) => Ok(word),
        Err(_) => Err(Errno::EFAULT),
    }
}

/// How many bytes the buffers have in all.
fn total_length(ranges: &[Range]) -> u64
    requires { length ranges.now ≤ 1024 }
    ensures { result ≡ spec.total ranges.now }
{
    ranges.iter().map(|range| u64::from(range.length)).sum()
}

/// How many bytes of the buffers may be stored to, up to the first that may not.
fn writable_length(space: &Space, ranges: &[Range]) -> u32
    requires { spec.total ranges.now ≤ sum_limit }
    ensures { result ≡ all_accessible space.now ranges.now }
{
    let mut sum = 0;
    for range in ranges {
        let there = space.writable(range.address, range.length);
        sum += there;
        if there != range.length {
            return sum;
        }
    }
    sum
}

/// How many bytes of the buffers may be loaded, up to the first that may not.
fn readable_length(space: &Space, ranges: &[Range]) -> u32
    requires { spec.total ranges.now ≤ sum_limit }
    ensures { result ≡ all_readable space.now ranges.now }
{
    let mut sum = 0;
    for range in ranges {
        let there = space.readable(range.address, range.length);
        sum += there;
        if there != range.length {
            return sum;
        }
    }
    sum
}

/// Reads those bytes of the buffers that may be loaded, of which there are as many as `bytes` has.
fn gather(space: &Space, ranges: &[Range], bytes: &mut [u8])
    requires { length bytes.old ≡ all_readable space.now ranges.now }
    ensures { bytes.new ≡ all_loadable space.now ranges.now }
{
    let mut done = 0;
    for range in ranges {
        let size = (bytes.len() - done).min(range.length as usize);
        read_bytes(space, range.address, &mut bytes[done..done + size]);
        done += size;
    }
}

/// Writes the bytes to the buffers, one after the other.
fn scatter(space: &mut Space, ranges: &[Range], bytes: &[u8]) -> Result<(), NoMemory>
    ensures { OnOk result (length bytes.now ≤ all_accessible space.old ranges.now
        → space.new ≡ all_copied_out space.old ranges.now bytes.now) }
{
    let mut rest = bytes;
    for range in ranges {
        let (piece, later) = rest.split_at(rest.len().min(range.length as usize));
        store_structure(space, range.address, piece)?;
        rest = later;
    }
    Ok(())
}
