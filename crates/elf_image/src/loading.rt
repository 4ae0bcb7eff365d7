//! What the load headers of a judged file ask for.
ghost use Rattle.std.specs.Prelude.{◌≡◌, ◌+◌, ◌<◌, ◌≤◌, ◌^◌, All, IfOk, length, map, take, drop};
ghost use Rattle.std.specs.List.{find};
ghost use Rattle.elf_image.specs.Loading.{protection_of, segment_of, holds, address_by};

use crate::load_plan::Segment;
use crate::program_header::ProgramHeader;
use kernel_core::address_space::{PROT_EXEC, PROT_READ, PROT_WRITE};
use kernel_core::{Bytes, Items};
use std::alloc::{AllocError, Global};

/// PF_X, PF_W and PF_R of p_flags: execute, write and read.
const PF_X: u32 = 1;

const PF_W: u32 = 2;

const PF_R: u32 = 4;

fn protection(flags: u32) -> u8
    ensures { result ≡ protection_of flags }
{
    let read = (flags / PF_R % 2) as u8;
    let write = (flags / PF_W % 2) as u8;
    let execute = (flags / PF_X % 2) as u8;
    PROT_READ * read + PROT_WRITE * write + PROT_EXEC * execute
}

/// The bytes that a header has in the file.
fn file_part<'a>(bytes: &'a [u8], load: &ProgramHeader) -> &'a [u8]
    requires { 0 < load.now.filesz → load.now.offset + load.now.filesz ≤ length bytes.now }
    ensures { result.now ≡ take load.now.filesz (drop load.now.offset bytes.now) }
{
    if load.filesz == 0 {
        return &[];
    }
    let rest = &bytes[load.offset as usize..];
    &rest[..load.filesz as usize]
}

fn segment(alloc: Global, bytes: &[u8], load: &ProgramHeader) -> Result<Segment, AllocError>
    requires { 0 < load.now.filesz → load.now.offset + load.now.filesz ≤ length bytes.now }
    ensures { IfOk result (λ s. s ≡ segment_of bytes.now load.now) }
{
    let copy = Vec::from_slice(alloc, file_part(bytes, load))?;
    Ok(Segment {
        vaddr: load.vaddr,
        memsz: load.memsz,
        prot: protection(load.flags),
        bytes: Bytes::from(copy),
    })
}

/// The segments that load headers ask for.
pub fn segments(
    alloc: Global,
    bytes: &[u8],
    loads: &[ProgramHeader],
) -> Result<Items<Segment>, AllocError>
    requires { All (λ h. 0 < h.filesz → h.offset + h.filesz ≤ length bytes.now) loads.now }
    ensures { IfOk result (λ s. s ≡ map (segment_of bytes.now) loads.now) }
{
    let mut items = Vec::with_capacity(alloc, loads.len())?;
    for load in loads {
        items.push(segment(alloc, bytes, load)?)?;
    }
    Ok(Items::from(items))
}

/// The address in memory of the `size` bytes at a place of the file: by the first header whose
/// bytes in the file hold them all, else 0.
pub fn address_of(loads: &[ProgramHeader], place: u32, size: u32) -> u32
    requires { All (λ h. h.vaddr + h.filesz < 2 ^ 32) loads.now }
    ensures { result ≡ address_by place (find (holds place size) loads.now) }
{
    let end = u64::from(place) + u64::from(size);
    for load in loads {
        if load.offset <= place && end <= u64::from(load.offset) + u64::from(load.filesz) {
            return load.vaddr + (place - load.offset);
        }
    }
    0
}
