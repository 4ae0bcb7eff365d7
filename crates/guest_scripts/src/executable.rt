//! Executables of one segment, which begins at 0x00400000.
use std::alloc::{AllocError, Global};

/// The address of the segment.
pub(crate) const BASE: u32 = 0x40_0000;

/// Where the file has the segment.
const SEGMENT: usize = 0x1000;

/// What can be done with the bytes of the segment.
#[derive(Clone, Copy)]
pub(crate) enum Access {
    /// They can be loaded and executed.
    Execute,
    /// They can be stored to as well.
    Store,
}

/// The flags of a segment.
fn flags_of(access: Access) -> u32 {
    match access {
        Access::Execute => 5,
        Access::Store => 7,
    }
}

/// Puts words behind others, each of four bytes.
pub(crate) fn push_words(bytes: &mut Vec<u8>, words: &[u32]) -> Result<(), AllocError> {
    for word in words {
        bytes.extend_from_slice(&word.to_be_bytes())?;
    }
    Ok(())
}

/// The header of the file.
fn push_header(file: &mut Vec<u8>) -> Result<(), AllocError> {
    file.extend_from_slice(b"\x7fELF\x01\x02\x01")?;
    file.resize(16, 0)?;
    file.extend_from_slice(&[0, 2, 0, 8])?;
    push_words(file, &[1, BASE, 52, 0, 0x1000])?;
    file.extend_from_slice(&[0, 52, 0, 32, 0, 1, 0, 0, 0, 0, 0, 0])
}

/// The header, the table, which says where the segment lies, and the segment.
fn push_file(file: &mut Vec<u8>, segment: &[u8], access: Access) -> Result<(), AllocError> {
    let size = (segment.len() % 0x1_0000_0000) as u32;
    push_header(file)?;
    push_words(
        file,
        &[1, 0x1000, BASE, BASE, size, size, flags_of(access), 0x1000],
    )?;
    file.resize(SEGMENT, 0)?;
    file.extend_from_slice(segment)
}

/// An executable with this segment.
pub(crate) fn executable(
    alloc: Global,
    segment: &[u8],
    access: Access,
) -> Result<Vec<u8>, AllocError> {
    let mut file = Vec::new(alloc);
    push_file(&mut file, segment, access)?;
    Ok(file)
}
