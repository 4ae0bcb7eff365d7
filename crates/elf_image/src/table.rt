//! The program header table.
ghost use Rattle.std.specs.Prelude.{◌≡◌, ◌+◌, ◌*◌, ◌<◌, ◌≤◌, ◌==◌, length, IfOk, filter};
ghost use Rattle.std.specs.List.{list_any};
ghost use Rattle.elf_image.specs.Fields.{header_at, headers_at, program_headers, is_load};
ghost use Rattle.elf_image.specs.inside.Header.{HasHeader};

use crate::fields::{TABLE_COUNT, TABLE_PLACE, half_at, word_at};
use crate::program_header::ProgramHeader;
use std::alloc::{AllocError, Global};

/// The bytes of a program header (Elf32_Phdr).
const HEADER_SIZE: usize = 32;

/// PT_LOAD and PT_INTERP of p_type.
const PT_LOAD: u32 = 1;

const PT_INTERP: u32 = 3;

fn header_of(bytes: &[u8], place: usize) -> ProgramHeader
    requires { place + 32 ≤ length bytes.now }
    ensures { result ≡ header_at bytes.now place }
{
    ProgramHeader {
        kind: word_at(bytes, place),
        offset: word_at(bytes, place + 4),
        vaddr: word_at(bytes, place + 8),
        filesz: word_at(bytes, place + 16),
        memsz: word_at(bytes, place + 20),
        flags: word_at(bytes, place + 24),
    }
}

/// So many program headers from a place of the file on.
fn headers_of(
    alloc: Global,
    bytes: &[u8],
    start: usize,
    count: u16,
) -> Result<Vec<ProgramHeader>, AllocError>
    requires { 0 < count → start + 32 * count ≤ length bytes.now }
    ensures { IfOk result (λ v. v.items ≡ headers_at bytes.now start count) }
{
    let mut headers = Vec::with_capacity(alloc, usize::from(count))?;
    let mut place = start;
    for _ in 0..count {
        headers.push(header_of(bytes, place))?;
        place += HEADER_SIZE;
    }
    Ok(headers)
}

/// The program header table of a file.
pub fn table_of(alloc: Global, bytes: &[u8]) -> Result<Vec<ProgramHeader>, AllocError>
    requires { HasHeader bytes.now }
    ensures { IfOk result (λ v. v.items ≡ program_headers bytes.now) }
{
    let place = word_at(bytes, TABLE_PLACE);
    headers_of(alloc, bytes, place as usize, half_at(bytes, TABLE_COUNT))
}

/// Whether a header asks for an interpreter.
pub fn asks_interpreter(headers: &[ProgramHeader]) -> bool
    ensures { result ≡ list_any (λ h. h.kind == 3) headers.now }
{
    headers.iter().any(|header| header.kind == PT_INTERP)
}

/// The headers that ask for memory.
pub fn loads_of(alloc: Global, headers: &[ProgramHeader]) -> Result<Vec<ProgramHeader>, AllocError>
    ensures { IfOk result (λ v. v.items ≡ filter is_load headers.now) }
{
    headers
        .iter()
        .copied()
        .filter(|header| header.kind == PT_LOAD && header.memsz > 0)
        .collect(alloc)
}
