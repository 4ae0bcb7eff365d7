//! Why a file is not loaded.
ghost use Rattle.std.specs.Prelude.{◌≡◌};
ghost use Rattle.elf_image.specs.Refusal.{elf_rule_number};
ghost use Rattle.elf_image.specs.declared.refusal.ElfError.TheVariants.{NoMemory};

use std::alloc::{AllocError, AllocFailed};
use thiserror::Error;

/// A rule that a file breaks, in the order in which the rules are tried. The rules up to
/// [`ElfRefusal::Interp`] and the last two are about the file as a whole; the others are tried on
/// each load header with a memory size above 0, one header after the other. (System V gABI and its
/// MIPS supplement; order, limits and numbers are this project's own.)
#[derive(Clone, Copy, Debug, PartialEq, Eq)]
pub enum ElfRefusal {
    /// The file has fewer than the 52 bytes of an ELF-32 header.
    Short,
    /// The file does not begin with `7F 45 4C 46`.
    Magic,
    /// The file is not of class `ELFCLASS32`.
    Class,
    /// The file's numbers are not stored high byte first.
    Order,
    /// One of the two version fields is not 1.
    Version,
    /// The file is not an executable (`ET_EXEC`).
    Type,
    /// The file is not for MIPS.
    Machine,
    /// A flag asks for the n32 convention, microMIPS or MIPS16.
    Abi,
    /// There are program headers, and their size is not 32 bytes or the table passes the file's
    /// end.
    Table,
    /// A program header asks for an interpreter.
    Interp,
    /// A segment's bytes in the file pass its end.
    Outside,
    /// A segment has more bytes in the file than in memory.
    Sizes,
    /// A segment has a byte below 0x1000 or from 0x7F7F0000 on.
    Address,
    /// A segment's place in the file and its address differ modulo 4096.
    Offset,
    /// A segment has a byte in common with an earlier one.
    Overlap,
    /// No program header asks for memory.
    NoLoad,
    /// The segments touch more than 120,000 pages of 4096 bytes.
    Pages,
}

impl ElfRefusal {
    /// The rule's number, 1 to 17 in the order in which the rules are tried.
    pub fn number(self) -> u8
        ensures { result ≡ elf_rule_number self }
    {
        match self {
            ElfRefusal::Short => 1,
            ElfRefusal::Magic => 2,
            ElfRefusal::Class => 3,
            ElfRefusal::Order => 4,
            ElfRefusal::Version => 5,
            ElfRefusal::Type => 6,
            ElfRefusal::Machine => 7,
            ElfRefusal::Abi => 8,
            ElfRefusal::Table => 9,
            ElfRefusal::Interp => 10,
            ElfRefusal::Outside => 11,
            ElfRefusal::Sizes => 12,
            ElfRefusal::Address => 13,
            ElfRefusal::Offset => 14,
            ElfRefusal::Overlap => 15,
            ElfRefusal::NoLoad => 16,
            ElfRefusal::Pages => 17,
        }
    }
}

/// Why [`crate::parse`] gives no plan.
#[derive(Debug, Drop, Error)]
pub enum ElfError {
    /// The file breaks this rule, and none before it.
    #[error("the executable breaks rule {}", .0.number())]
    Refused(ElfRefusal),
    /// The plan, or what finds it, does not fit into memory.
    #[error("out of memory")]
    NoMemory,
}

impl From<AllocError> for ElfError {
    ghost from_gives = { λ _ e. e ≡ NoMemory };

    fn from(_error: AllocError) -> ElfError {
        ElfError::NoMemory
    }
}

impl<T: Drop> From<AllocFailed<T>> for ElfError {
    ghost from_gives = { λ _ e. e ≡ NoMemory };

    fn from(_error: AllocFailed<T>) -> ElfError {
        ElfError::NoMemory
    }
}
