//! The calls that move bytes of a vector of buffers: readv(2), writev(2).
ghost use Rattle.std.specs.Prelude.{◌≡◌, ◌*◌, ◌≤◌, IfOk, IfSome, length, min, option_map, replicate, slice_index};
ghost use Rattle.layouts.specs.Native.{iovec};
ghost use Rattle.layouts.specs.Shape.{record_values};
ghost use Rattle.native_calls.specs.HostBytes as spec;
ghost use Rattle.native_calls.specs.HostBytes.{all_accessible, all_loadable, all_written, range_of, ranges_in, sum_limit, vector, vector_limit};
ghost use Rattle.native_calls.specs.Transfers.{readv_row, writev_row};
ghost use Rattle.native_kernel.specs.inside.Moving.{IsReading, IsWriting, ReadingStops, WritingStops};
ghost use Rattle.native_kernel.specs.inside.Vectors.{GivesVector, ReadsRanges, scattered};

use crate::kernel::NativeKernel;
use crate::replies::settled;
use crate::structures::{accessible, double_at, loadable};
use host_mem::HostMem;
use kernel_core::{CoreError, Errno, Items, NoMemory, Reply, Stop};
use native_calls::Range;
use native_files::Progress;
use outside::{Sink, Source};
use std::alloc::Global;

/// How many buffers a vector has at most (UIO_MAXIOV of Linux `include/uapi/linux/uio.h`).
const VECTOR_LIMIT: u64 = 1024;

/// How many bytes they have at most in all (SSIZE_MAX of limits.h).
const SUM_LIMIT: u128 = (1 << 63) - 1;

/// How many bytes a buffer takes in a vector (struct iovec).
const RANGE_SIZE: usize = 16;

/// A vector of buffers as a call names it: the address of its structures, and how many they are.
#[derive(Clone, Copy)]
pub(crate) struct BufferVector {
    pub(crate) address: u64,
    pub(crate) count: u64,
}

impl BufferVector {
    /// The vector that the second and the third word of a call give.
    #[inline(always)]
    pub(crate) fn of(args: &[u64; 6]) -> BufferVector
        ensures { result ≡ record { address = slice_index args.now 1; count = slice_index args.now 2 } }
    {
        BufferVector {
            address: args[1],
            count: args[2],
        }
    }
}

impl NativeKernel {
    /// readv(2): EBADF, then EINVAL, EFAULT and EINVAL of the vector, and the refusals of what is open.
    #[tactic(auto, unfolding(native_calls::specs::Transfers::readv_row))]
    pub(crate) fn readv<I: Source>(
        &mut self,
        fd: u32,
        buffers: BufferVector,
        mem: &mut HostMem,
        input: &mut I,
    ) -> Result<Reply, Stop>
        ensures row { IsReading (readv_row self.old mem.old fd buffers.address buffers.count) result self.new mem.new (I.left input.old) (I.left input.new) }
        ensures stops { ReadingStops result (I.faults input.old) (I.faults input.new) }
        ensures later { I.faults input.old ≤ I.faults input.new }
        ensures clock { self.new.clock ≡ self.old.clock }
    {
        match vector(self.alloc, mem, buffers.address, buffers.count) {
            Ok(ranges) => {
                let asked = total(ranges.as_slice());
                self.read_ranges(fd, Ok(asked), ranges.as_slice(), mem, input)
            }
            Err(CoreError::Refused(error)) => self.read_ranges(fd, Err(error), &[], mem, input),
            Err(CoreError::Stop(stop)) => Err(stop),
        }
    }

    /// Reads into the buffers one after the other; `asked` is how many bytes they have, or what was wrong
    /// with the vector.
    fn read_ranges<I: Source>(
        &mut self,
        fd: u32,
        asked: Result<u64, Errno>,
        ranges: &[Range],
        mem: &mut HostMem,
        input: &mut I,
    ) -> Result<Reply, Stop>
        requires { spec.total ranges.now ≤ sum_limit }
        ensures row { ReadsRanges self.old mem.old fd asked ranges.now result self.new mem.new (I.left input.old) (I.left input.new) }
        ensures stops { ReadingStops result (I.faults input.old) (I.faults input.new) }
        ensures later { I.faults input.old ≤ I.faults input.new }
        ensures clock { self.new.clock ≡ self.old.clock }
    {
        let mut buffer = zeros(self.alloc, all_accessible(mem, ranges))?;
        let came = self.files.read(fd, asked, buffer.as_mut_slice(), input);
        scatter_read(&came, buffer.as_slice(), ranges, mem);
        settled(came)
    }

    /// writev(2): EBADF, then EINVAL, EFAULT and EINVAL of the vector, and the refusals of what is open;
    /// EPIPE comes with SIGPIPE.
    #[tactic(auto, unfolding(native_calls::specs::Transfers::writev_row), using(crate::proofs::Quietly::sent_nothing))]
    pub(crate) fn writev<O: Sink, E: Sink>(
        &mut self,
        fd: u32,
        buffers: BufferVector,
        mem: &HostMem,
        out: &mut O,
        err: &mut E,
    ) -> Result<Reply, Stop>
        ensures row { IsWriting (writev_row self.old mem.now fd buffers.address buffers.count) result self.new mem.now
            (O.written out.old) (O.written out.new) (E.written err.old) (E.written err.new) }
        ensures stops { WritingStops result (O.faults out.old) (O.faults out.new) (E.faults err.old) (E.faults err.new) }
        ensures out_later { O.faults out.old ≤ O.faults out.new }
        ensures err_later { E.faults err.old ≤ E.faults err.new }
        ensures clock { self.new.clock ≡ self.old.clock }
    {
        match vector(self.alloc, mem, buffers.address, buffers.count) {
            Ok(ranges) => {
                let asked = total(ranges.as_slice());
                match gather(self.alloc, mem, ranges.as_slice()) {
                    Ok(bytes) => self.send(fd, Ok(asked), bytes.as_slice(), out, err),
                    Err(NoMemory) => Err(Stop::NoMemory),
                }
            }
            Err(CoreError::Refused(error)) => self.send(fd, Err(error), &[], out, err),
            Err(CoreError::Stop(stop)) => Err(stop),
        }
    }
}

/// The buffers of a vector: EINVAL for too many, then EFAULT where the vector can't be read, then EINVAL for
/// too many bytes.
fn vector(alloc: Global, mem: &HostMem, address: u64, count: u64) -> Result<Items<Range>, CoreError>
    ensures value { GivesVector (vector mem.now address count) result }
    ensures few { IfOk result (λ ranges. spec.total ranges ≤ sum_limit) }
{
    if count > VECTOR_LIMIT {
        return Err(CoreError::Refused(Errno::EINVAL));
    }
    let Some(bytes) = structures(mem, address, count) else {
        return Err(CoreError::Refused(Errno::EFAULT));
    };
    let ranges = ranges_in(alloc, bytes, count as usize)?;
    if wide_total(ranges.as_slice()) > SUM_LIMIT {
        return Err(CoreError::Refused(Errno::EINVAL));
    }
    Ok(Items::from(ranges))
}

/// The structures of a vector, or None where they are not all there; of none nothing is read.
fn structures(mem: &HostMem, address: u64, count: u64) -> Option<&[u8]>
    requires { count ≤ vector_limit }
    ensures value { spec.given (option_map (λ bytes. bytes.now) result) ≡ spec.vector_structures mem.now address count }
    ensures sized { IfSome result (λ bytes. length bytes.now ≡ count * 16) }
{
    if count == 0 {
        return Some(&[]);
    }
    mem.read(address, count * RANGE_SIZE as u64)
}

/// The buffers that so many structures name.
fn ranges_in(alloc: Global, bytes: &[u8], count: usize) -> Result<Vec<Range>, NoMemory>
    requires { length bytes.now ≡ count * 16 }
    ensures { IfOk result (λ ranges. ranges.items ≡ ranges_in count bytes.now) }
{
    let mut ranges = Vec::new(alloc);
    for done in 0..count {
        ranges.push(range_in(&bytes[done * RANGE_SIZE..]))?;
    }
    Ok(ranges)
}

/// The buffer that a structure names.
fn range_in(bytes: &[u8]) -> Range
    requires { 16 ≤ length bytes.now }
    ensures { result ≡ range_of (record_values iovec bytes.now) }
{
    Range {
        address: double_at(bytes, 0),
        length: double_at(bytes, 8),
    }
}

/// How many bytes the buffers have in all.
fn wide_total(ranges: &[Range]) -> u128
    requires { length ranges.now ≤ 1024 }
    ensures { result ≡ spec.total ranges.now }
{
    ranges.iter().map(|range| u128::from(range.length)).sum()
}

/// The same, where it is small enough.
fn total(ranges: &[Range]) -> u64
    requires { spec.total ranges.now ≤ sum_limit }
    ensures { result ≡ spec.total ranges.now }
{
    ranges.iter().map(|range| range.length).sum()
}

/// How many of those bytes are there, up to the first that is not.
fn all_accessible(mem: &HostMem, ranges: &[Range]) -> usize
    requires { spec.total ranges.now ≤ sum_limit }
    ensures { result ≡ all_accessible mem.now ranges.now }
{
    let mut sum = 0;
    for range in ranges {
        let there = accessible(mem, range.address, range.length);
        sum += there;
        if there as u64 != range.length {
            return sum;
        }
    }
    sum
}

/// Those bytes.
fn gather(alloc: Global, mem: &HostMem, ranges: &[Range]) -> Result<Vec<u8>, NoMemory>
    ensures { IfOk result (λ bytes. bytes.items ≡ all_loadable mem.now ranges.now) }
{
    let mut bytes = Vec::new(alloc);
    for range in ranges {
        let there = loadable(mem, range.address, range.length);
        bytes.extend_from_slice(there)?;
        if there.len() as u64 != range.length {
            return Ok(bytes);
        }
    }
    Ok(bytes)
}

/// So many zeros.
fn zeros(alloc: Global, count: usize) -> Result<Vec<u8>, NoMemory>
    ensures { IfOk result (λ bytes. bytes.items ≡ replicate count 0) }
{
    Ok(vec![in alloc; 0; count]?)
}

/// How many of these bytes a buffer of this length takes.
fn piece_length(bytes: &[u8], most: u64) -> usize
    ensures { result ≡ min most (length bytes.now) }
{
    most.min(bytes.len() as u64) as usize
}

/// Puts what was read into the buffers, one after the other.
fn scatter_read(
    came: &Result<Progress, CoreError>,
    bytes: &[u8],
    ranges: &[Range],
    mem: &mut HostMem,
)
    ensures { mem.new ≡ scattered came.now mem.old ranges.now bytes.now }
{
    if let Ok(Progress::Done(count)) = came {
        scatter(&bytes[..bytes.len().min(*count)], ranges, mem);
    }
}

fn scatter(bytes: &[u8], ranges: &[Range], mem: &mut HostMem)
    ensures { mem.new ≡ all_written mem.old ranges.now bytes.now }
{
    let mut rest = bytes;
    for range in ranges {
        let (piece, later) = rest.split_at(piece_length(rest, range.length));
        mem.write(range.address, piece);
        rest = later;
    }
}
