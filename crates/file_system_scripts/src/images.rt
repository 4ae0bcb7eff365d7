//! The images of the trees that tests begin with.

use std::alloc::{AllocError, Global};

/// The image of a tree of one empty directory.
pub(crate) const EMPTY_TREE: &[u8] =
    b"O32IMG1\n\0\0\0\x01\0\0\0\0\0\0\0\x01\x02\x01\xED\0\0\0\0\0\0\0\0\0\0\0\0";

/// The image of a root directory whose entry `f` names an empty file: the cookie of the entry, the file's number and its
/// time of modification in seconds.
pub(crate) fn image_of_file(
    alloc: Global,
    cookie: u32,
    number: u64,
    mtime: i64,
) -> Result<Vec<u8>, AllocError> {
    // Two nodes; the root, of the mode 0755 and one entry; the file, of the mode 0644 and no byte.
    let mut image = Vec::from_slice(alloc, b"O32IMG1\n\0\0\0\x02".as_slice())?;
    image.extend_from_slice(b"\0\0\0\0\0\0\0\x01\x02\x01\xED\0\0\0\0\0\0\0\0\0\0\0\x01")?;
    image.extend_from_slice(&cookie.to_be_bytes())?;
    image.extend_from_slice(b"\x01f")?;
    image.extend_from_slice(&number.to_be_bytes())?;
    image.extend_from_slice(&number.to_be_bytes())?;
    image.extend_from_slice(b"\x01\x01\xA4")?;
    image.extend_from_slice(&mtime.to_be_bytes())?;
    image.extend_from_slice(&[0; 12])?;
    Ok(image)
}
