//! What a mapping is asked to be: mmap(2).
ghost use Rattle.std.specs.Prelude.{◌≡◌, ◌<◌, ◌≤◌, ◌==◌, ◌&&◌, ◌||◌, not, false, IfOk};
ghost use Rattle.bridge_map.specs.Rows.{IsAsked, asked_for, guest_of, maps_no_file};
ghost use Rattle.guest_space.specs.Memory.{Memory};
ghost use Rattle.kernel_model.specs.Came.{with_given};
ghost use Rattle.kernel_model.specs.State.{Kernel};
ghost use Rattle.mips_exec.specs.Processor.{Processor};
ghost use Rattle.o32_model.specs.Mappings.{mmap_in};
ghost use Rattle.o32_model.specs.Ranges as ranges;

use crate::range::{is_aligned, page_count};
use kernel_core::{Errno, MapFlags};
use number_tables::map_flags_in_o32;
use o32_model::CallWords;

/// A mapping as a program asks for it: its type and flags, the address where it may or must go, how many pages
/// it has and with which protection, and the descriptor and the place, in bytes, of a file that it shows.
#[derive(Drop)]
pub(crate) struct Asked {
    pub(crate) flags: MapFlags,
    pub(crate) address: u32,
    pub(crate) count: u32,
    pub(crate) protection: u8,
    pub(crate) fd: u32,
    pub(crate) offset: u64,
}

/// What the words of mmap(2) ask for: an address, a length, a protection and flags, and on the stack a
/// descriptor and an offset in units of so many bytes, at most 4,096. EFAULT where one of those two can't be
/// read; EINVAL for a type that is none of the two, no length, and an offset or a fixed place that is off a page.
#[tactic(auto, unfolding(o32_model::specs::Mappings::mmap))]
pub(crate) fn asked_in(args: &CallWords, unit: u32) -> Result<Asked, Errno>
    requires { unit ≤ 4096 }
    ensures row { (kernel : Kernel) (processor : Processor) (memory : Memory)
        → mmap_in unit kernel (guest_of args.now processor memory) ≡ with_given memory result (asked_for kernel.files memory) }
    ensures asked { IfOk result IsAsked }
    ensures no_file { IfOk result (λ asked. asked.flags.anonymous ≡ maps_no_file args.now) }
{
    let Some(fd) = args.stack[0] else {
        return Err(Errno::EFAULT);
    };
    let Some(units) = args.stack[1] else {
        return Err(Errno::EFAULT);
    };
    let Some(flags) = map_flags_in_o32(args.reg[3]) else {
        return Err(Errno::EINVAL);
    };
    let offset = u64::from(units) * u64::from(unit);
    if is_unmappable(flags, args.reg[0], args.reg[1], offset) {
        return Err(Errno::EINVAL);
    }
    Ok(Asked {
        flags,
        address: args.reg[0],
        count: page_count(args.reg[1]),
        protection: (args.reg[2] % 8) as u8,
        fd,
        offset,
    })
}

/// Whether what a mapping is asked to be is wrong whatever it maps: it has no byte, or its offset or its fixed
/// place is off a page.
fn is_unmappable(flags: MapFlags, address: u32, length: u32, offset: u64) -> bool
    ensures value { result ≡ (length == 0 || not (ranges.is_aligned offset) || flags.fixed && not (ranges.is_aligned address)) }
    ensures some { result ≡ false → 0 < length }
{
    length == 0 || offset % 4096 != 0 || (flags.fixed() && !is_aligned(address))
}
