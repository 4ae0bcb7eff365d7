//! An entry of the program header table.

/// The fields of a program header that a loader reads (System V gABI, Elf32_Phdr). `kind` is
/// p_type; the others have the names there without `p_`.
#[derive(Clone, Copy)]
pub struct ProgramHeader {
    /// What the header describes: 1 is a part to load, 3 the name of an interpreter.
    pub kind: u32,
    /// The place of its bytes in the file.
    pub offset: u32,
    /// Its address in memory.
    pub vaddr: u32,
    /// How many bytes it has in the file.
    pub filesz: u32,
    /// How many bytes it has in memory.
    pub memsz: u32,
    /// Bits for execute (1), write (2) and read (4).
    pub flags: u32,
}
