//! How many bytes of a write count, for a program whose files end at 2^31 - 1 bytes where they were not
//! opened with O_LARGEFILE (open(2)).

/// What the flags of an open descriptor say about a write (open(2)).
#[derive(Clone, Copy)]
pub(crate) struct WriteFlags {
    /// Whether it is open for writing.
    pub(crate) writable: bool,
    /// Whether each write goes to the file's end (O_APPEND).
    pub(crate) append: bool,
    /// Whether the file may be of any size (O_LARGEFILE).
    pub(crate) largefile: bool,
}

/// How many bytes of a write count. (The form is this project's own.)
#[derive(Clone, Copy)]
pub(crate) enum Room {
    /// At most so many, of which there is at least one.
    Most(u64),
    /// None: it would begin at the limit or past it. `file` says whether a regular file is open.
    Past { writable: bool, file: bool },
}

/// How bytes are written at a place. (The form is this project's own.)
#[derive(Clone, Copy)]
pub(crate) enum Plan {
    /// At most so many, of which there is at least one, at this place.
    Write { most: u64, place: u64 },
    /// None: it would begin at the limit or past it. `file` says whether a regular file is open.
    Past { writable: bool, file: bool },
}
