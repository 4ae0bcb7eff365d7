//! The executable around the code.
ghost use Rattle.std.specs.Prelude.{◌≡◌, ◌+◌, ◌++◌, ◌<◌, ◌≤◌, ◌^◌, IfOk, OnOk, length};
ghost use Rattle.soak_program.specs.Executable.{file_header, halves, headers, page_end, segment_header, soak_file, whole_pages, words};

use crate::instructions::code;
use kernel_core::NoMemory;
use kernel_core::address_space::PAGE_SIZE;
use std::alloc::Global;

/// e_ident: the magic number, ELFCLASS32, ELFDATA2MSB and EV_CURRENT.
const IDENT: [u8; 16] = [0x7F, b'E', b'L', b'F', 1, 2, 1, 0, 0, 0, 0, 0, 0, 0, 0, 0];

const ET_EXEC: u16 = 2;

const EM_MIPS: u16 = 8;

const EV_CURRENT: u32 = 1;

/// EF_MIPS_ARCH_32 and EF_MIPS_ABI_O32.
const FLAGS: u32 = 0x5000_1000;

/// The bytes of a file's header and of a program header.
const HEADER_SIZE: u16 = 52;

const PROGRAM_HEADER_SIZE: u16 = 32;

/// The place of the program headers in the file, right behind its own.
const PROGRAM_HEADERS_AT: u32 = 52;

const PT_LOAD: u32 = 1;

/// PF_X, PF_W and PF_R of p_flags: execute, write and read.
const PF_X: u32 = 1;

const PF_W: u32 = 2;

const PF_R: u32 = 4;

/// The address of the code, and of the program's first instruction.
const CODE_ADDRESS: u32 = 0x0040_0000;

const DATA_ADDRESS: u32 = 0x1000_0000;

/// The name of the file that the program writes, which a zero ends, and behind it the sum.
const DATA: [u8; 8] = *b"/s\0\0\0\0\0\0";

/// Adds numbers of two bytes each, high byte first.
fn put_halves(file: &mut Vec<u8>, numbers: &[u16]) -> Result<(), NoMemory>
    ensures { OnOk result (file.new.items ≡ file.old.items ++ halves numbers.now) }
{
    for number in numbers {
        file.extend_from_slice(&number.to_be_bytes())?;
    }
    Ok(())
}

/// Adds numbers of four bytes each, high byte first.
fn put_words(file: &mut Vec<u8>, numbers: &[u32]) -> Result<(), NoMemory>
    ensures { OnOk result (file.new.items ≡ file.old.items ++ words numbers.now) }
{
    for number in numbers {
        file.extend_from_slice(&number.to_be_bytes())?;
    }
    Ok(())
}

#[tactic(auto, unfolding(crate::specs::Executable::file_header))]
fn put_file_header(file: &mut Vec<u8>) -> Result<(), NoMemory>
    ensures header { OnOk result (file.new.items ≡ file.old.items ++ file_header) }
    ensures length { OnOk result (length file.new.items ≡ length file.old.items + 52) }
{
    file.extend_from_slice(&IDENT)?;
    put_halves(file, &[ET_EXEC, EM_MIPS])?;
    put_words(
        file,
        &[EV_CURRENT, CODE_ADDRESS, PROGRAM_HEADERS_AT, 0, FLAGS],
    )?;
    put_halves(file, &[HEADER_SIZE, PROGRAM_HEADER_SIZE, 2, 0, 0, 0])?;
    Ok(())
}

/// A part of the file that is loaded whole.
#[derive(Clone, Copy)]
struct Segment {
    /// Its place in the file.
    offset: u32,
    /// Its address in memory.
    address: u32,
    /// Its bytes, in the file and in memory.
    size: u32,
    /// p_flags.
    flags: u32,
}

#[tactic(auto, unfolding(crate::specs::Executable::segment_header))]
fn put_segment_header(file: &mut Vec<u8>, segment: Segment) -> Result<(), NoMemory>
    ensures header { OnOk result (file.new.items ≡ file.old.items ++ segment_header segment.offset segment.address segment.size segment.flags) }
    ensures length { OnOk result (length file.new.items ≡ length file.old.items + 32) }
{
    let Segment {
        offset,
        address,
        size,
        flags,
    } = segment;
    let fields = [
        PT_LOAD, offset, address, address, size, size, flags, PAGE_SIZE,
    ];
    put_words(file, &fields)?;
    Ok(())
}

/// The least multiple of a page's bytes that is not below a size.
fn page_end(size: u32) -> u32
    requires { size + 4096 < 2 ^ 32 }
    ensures { result ≡ page_end size }
{
    (size + (PAGE_SIZE - 1)) / PAGE_SIZE * PAGE_SIZE
}

/// The headers for a code of so many bytes.
#[tactic(auto, unfolding(crate::specs::Executable::headers))]
fn put_headers(file: &mut Vec<u8>, size: u32) -> Result<(), NoMemory>
    requires { size + 8192 < 2 ^ 32 }
    ensures headers { OnOk result (file.new.items ≡ file.old.items ++ headers size) }
    ensures length { OnOk result (length file.new.items ≡ length file.old.items + 116) }
{
    let code = Segment {
        offset: PAGE_SIZE,
        address: CODE_ADDRESS,
        size,
        flags: PF_R + PF_X,
    };
    let data = Segment {
        offset: page_end(PAGE_SIZE + size),
        address: DATA_ADDRESS,
        size: DATA.len() as u32,
        flags: PF_R + PF_W,
    };
    put_file_header(file)?;
    put_segment_header(file, code)?;
    put_segment_header(file, data)?;
    Ok(())
}

/// Fills the last page with zeros.
#[tactic(auto, unfolding(crate::specs::Executable::whole_pages))]
fn fill_page(file: &mut Vec<u8>) -> Result<(), NoMemory>
    requires { length file.old.items + 4096 < 2 ^ 32 }
    ensures filled { OnOk result (file.new.items ≡ whole_pages file.old.items) }
    ensures length { OnOk result (length file.new.items < length file.old.items + 4096) }
{
    let end = page_end(file.len() as u32) as usize;
    file.resize(end, 0)?;
    Ok(())
}

/// The executable of the program for so many numbers, 1 to 65,536, which is run with an empty file system and
/// ends with status 0. Its data follows its code at the next place in the file whose offset is a multiple of
/// 4096. (System V gABI and its MIPS supplement; the program is this project's own.)
#[tactic(auto, unfolding(crate::specs::Executable::soak_file))]
pub fn soak_program(alloc: Global, count: u32) -> Result<Vec<u8>, NoMemory>
    requires some { 1 ≤ count }
    requires few { count ≤ 65536 }
    ensures { IfOk result (λ bytes. bytes.items ≡ soak_file count) }
{
    let code = code(alloc, count)?;
    let mut file = Vec::new(alloc);
    put_headers(&mut file, code.len() as u32)?;
    fill_page(&mut file)?;
    file.extend_from_slice(&code)?;
    fill_page(&mut file)?;
    file.extend_from_slice(&DATA)?;
    Ok(file)
}
