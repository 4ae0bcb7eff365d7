//! The rules that a file is judged by.
ghost use Rattle.std.specs.Prelude.{◌≡◌, ◌<◌, [], ◌++◌, map, All, IfNone, IfOk};
ghost use Rattle.elf_image.specs.Rules.{first_broken, header_rules, load_rules, loads_rules, whole_rules};
ghost use Rattle.elf_image.specs.inside.Judges.{Judges};
ghost use Rattle.elf_image.specs.inside.Taken.{entry_spans, AreApart, SameSpans};
ghost use Rattle.elf_image.specs.Fields.{span_of};
ghost use Rattle.elf_image.specs.inside.Header.{HasHeader};

use crate::fields::{
    CLASS, FLAGS, HEADER_SIZE, IDENT_VERSION, MACHINE, ORDER, TABLE_COUNT, TABLE_PLACE,
    TABLE_WIDTH, TYPE, VERSION, half_at, word_at,
};
use crate::program_header::ProgramHeader;
use crate::refusal::{ElfError, ElfRefusal};
use crate::taken::{meets, page_count};
use kernel_core::address_space::PAGE_SIZE;
use std::alloc::Global;
use std::collections::BTreeMap;

/// The first four bytes of an ELF file: 0x7F, then `ELF`.
const MAGIC: u32 = 0x7F45_4C46;

/// Values of e_ident, e_version, e_type and e_machine (System V gABI).
const ELFCLASS32: u8 = 1;

const ELFDATA2MSB: u8 = 2;

const IDENT_CURRENT: u8 = 1;

const EV_CURRENT: u32 = 1;

const ET_EXEC: u16 = 2;

const EM_MIPS: u16 = 8;

/// EF_MIPS_ABI2, EF_MIPS_MICROMIPS and EF_MIPS_ARCH_ASE_M16.
const REFUSED_FLAGS: u32 = 0x0600_0020;

/// The lowest address that a segment may have (this project's own).
const LOWEST_ADDRESS: u32 = 0x1000;

/// Where the stack begins, and segments end (this project's own).
const STACK_BOTTOM: u64 = 0x7F7F_0000;

/// How many pages all segments may touch (this project's own).
const MOST_PAGES: u32 = 120_000;

/// The first rule of the file's header that is broken.
#[tactic(auto, unfolding(crate::specs::Rules::header_rules))]
pub fn broken_header_rule(bytes: &[u8]) -> Option<ElfRefusal>
    ensures first { result ≡ first_broken (header_rules bytes.now) }
    ensures kept { IfNone result (HasHeader bytes.now) }
{
    if bytes.len() < HEADER_SIZE {
        return Some(ElfRefusal::Short);
    }
    if word_at(bytes, 0) != MAGIC {
        return Some(ElfRefusal::Magic);
    }
    if bytes[CLASS] != ELFCLASS32 {
        return Some(ElfRefusal::Class);
    }
    if bytes[ORDER] != ELFDATA2MSB {
        return Some(ElfRefusal::Order);
    }
    if bytes[IDENT_VERSION] != IDENT_CURRENT || word_at(bytes, VERSION) != EV_CURRENT {
        return Some(ElfRefusal::Version);
    }
    if half_at(bytes, TYPE) != ET_EXEC {
        return Some(ElfRefusal::Type);
    }
    if half_at(bytes, MACHINE) != EM_MIPS {
        return Some(ElfRefusal::Machine);
    }
    if word_at(bytes, FLAGS) & REFUSED_FLAGS != 0 {
        return Some(ElfRefusal::Abi);
    }
    let count = u64::from(half_at(bytes, TABLE_COUNT));
    let end = u64::from(word_at(bytes, TABLE_PLACE)) + 32 * count;
    if count > 0 && (half_at(bytes, TABLE_WIDTH) != 32 || (bytes.len() as u64) < end) {
        return Some(ElfRefusal::Table);
    }
    None
}

/// The first rule that a load header breaks, beside the memory that is taken.
fn broken_load_rule(
    size: usize,
    taken: &BTreeMap<u32, u32>,
    load: &ProgramHeader,
) -> Option<ElfRefusal>
    requires apart { AreApart taken.now.entries }
    requires memory { 0 < load.now.memsz }
    ensures { result ≡ first_broken (load_rules size (entry_spans taken.now.entries) load.now) }
{
    let file_end = u64::from(load.offset) + u64::from(load.filesz);
    if load.filesz > 0 && (size as u64) < file_end {
        return Some(ElfRefusal::Outside);
    }
    if load.memsz < load.filesz {
        return Some(ElfRefusal::Sizes);
    }
    let end = u64::from(load.vaddr) + u64::from(load.memsz);
    if load.vaddr < LOWEST_ADDRESS || STACK_BOTTOM < end {
        return Some(ElfRefusal::Address);
    }
    if load.offset % PAGE_SIZE != load.vaddr % PAGE_SIZE {
        return Some(ElfRefusal::Offset);
    }
    if meets(taken, load.vaddr, end as u32) {
        return Some(ElfRefusal::Overlap);
    }
    None
}

/// Judges load headers one after the other, and gives the memory that they take.
fn taken_by(
    alloc: Global,
    size: usize,
    loads: &[ProgramHeader],
) -> Result<BTreeMap<u32, u32>, ElfError>
    requires { All (λ h. 0 < h.memsz) loads.now }
    ensures judged { Judges (first_broken (loads_rules size [] loads.now)) result }
    ensures apart { IfOk result (λ taken. AreApart taken.entries) }
    ensures same { IfOk result (λ taken. SameSpans (map span_of loads.now) taken.entries) }
{
    let mut taken = BTreeMap::new(alloc);
    for load in loads {
        if let Some(rule) = broken_load_rule(size, &taken, load) {
            return Err(ElfError::Refused(rule));
        }
        taken.insert(load.vaddr, load.vaddr + load.memsz)?;
    }
    Ok(taken)
}

/// Judges the load headers, each by itself and all together.
pub fn judge_loads(alloc: Global, size: usize, loads: &[ProgramHeader]) -> Result<(), ElfError>
    requires { All (λ h. 0 < h.memsz) loads.now }
    ensures { Judges (first_broken (loads_rules size [] loads.now ++ whole_rules loads.now)) result }
{
    let taken = taken_by(alloc, size, loads)?;
    if loads.is_empty() {
        return Err(ElfError::Refused(ElfRefusal::NoLoad));
    }
    if page_count(taken) > MOST_PAGES {
        return Err(ElfError::Refused(ElfRefusal::Pages));
    }
    Ok(())
}
