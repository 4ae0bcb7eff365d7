//! What an entry of a directory has.

/// The node that a name stands for. A directory carries both numbers and reads neither.
#[derive(Clone, Copy)]
pub struct NodeRef {
    /// The node's number (the `d_ino` of getdents(2)).
    pub number: u64,
    /// The key by which whoever keeps the nodes finds it. (This project's own.)
    pub key: usize,
}

/// An entry as it is shown (getdents(2)).
#[derive(Clone, Copy)]
pub struct EntryView<'a> {
    /// Where the entry stands in the directory, from 3 to 2^31 - 1 (the `d_off` of getdents(2)).
    pub cookie: u32,
    /// Its 1 to 255 bytes, without `/` and NUL, and neither `.` nor `..`.
    pub name: &'a [u8],
    /// The node that it names.
    pub node: NodeRef,
}

/// What stands at a name.
#[derive(Clone, Copy)]
pub(crate) struct Place {
    pub(crate) cookie: u32,
    pub(crate) node: NodeRef,
}
