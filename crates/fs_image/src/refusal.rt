//! Why bytes are no image.
ghost use Rattle.std.specs.Prelude.{◌≡◌};
ghost use Rattle.fs_image.specs.declared.refusal.ImageError.TheVariants.{NoMemory};

use std::alloc::{AllocError, AllocFailed};
use thiserror::Error;

/// The rules of an image, by the numbers that a refusal shows. They are looked at in reading order;
/// `Target` and then `Tree` come after all others, over the whole tree. (The rules are this
/// project's own.)
#[derive(Clone, Copy)]
pub enum ImageRule {
    /// The bytes end inside a field.
    Short = 1,
    /// The first eight bytes are not those of this format.
    Magic = 2,
    /// The count of nodes is 0 or above 65,536.
    Count = 3,
    /// A node's number does not rise, the first is not 1, or one is above 2^63 - 1.
    Number = 4,
    /// A node's kind is unknown, or node 1 is no directory.
    Kind = 5,
    /// A mode is above 07777.
    Mode = 6,
    /// A file's size is above 2^44, or the index of a block does not rise or is not below the size.
    Size = 7,
    /// A byte past the file's size is not 0.
    Tail = 8,
    /// A cookie is below 3, above 2^31 - 1, or does not rise.
    Cookie = 9,
    /// A name is empty, `.` or `..`, has `/` or NUL, or stands twice in its directory; or a link's
    /// target is empty, longer than 4095 bytes, or has NUL.
    Name = 10,
    /// The node that an entry names is not there.
    Target = 11,
    /// A directory other than node 1 is not named exactly once, node 1 is named, a file or a link is
    /// not named, or a node is not reached from node 1.
    Tree = 12,
    /// The files have more than 65,536 blocks, or the directories more than 131,072 entries, in all.
    Limit = 13,
    /// Bytes follow the last node.
    Rest = 14,
}

impl ImageRule {
    ghost use Rattle.fs_image.specs.Refusal.{image_rule_number};

    /// The number that a refusal shows, 1 to 14.
    pub fn number(self) -> u8
        ensures { result ≡ image_rule_number self }
    {
        self as u8
    }
}

/// The first rule that fails, by its number ([`ImageRule`]), and the offset in bytes of the field that
/// breaks it: for `Short` the file's length, for `Tail` the block's 4096 bytes, for `Name` the
/// length where that is 0 or too great, else the name or the target, for `Target` the entry, for
/// `Tree` the node, for `Rest` the first byte that follows.
#[derive(Clone, Copy, Debug, PartialEq, Eq)]
pub struct ImageRefusal {
    pub rule: u8,
    pub at: u64,
}

impl ImageRefusal {
    ghost use Rattle.fs_image.specs.Refusal.{refused};

    /// The refusal by a rule that fails at an offset.
    pub(crate) fn new(rule: ImageRule, at: u64) -> ImageRefusal
        ensures { result ≡ refused rule at }
    {
        ImageRefusal {
            rule: rule.number(),
            at,
        }
    }
}

/// Why bytes give no tree.
#[derive(Debug, Drop, Error)]
pub enum ImageError {
    /// A rule of the format fails.
    #[error("rule {} of an image fails at byte {}", .0.rule, .0.at)]
    Refused(ImageRefusal),
    /// The tree, or what is kept while it is read, does not fit into memory.
    #[error("out of memory")]
    NoMemory,
}

impl From<AllocError> for ImageError {
    ghost from_gives = { λ _ e. e ≡ NoMemory };

    fn from(_error: AllocError) -> ImageError {
        ImageError::NoMemory
    }
}

impl<T: Drop> From<AllocFailed<T>> for ImageError {
    ghost from_gives = { λ _ e. e ≡ NoMemory };

    fn from(_error: AllocFailed<T>) -> ImageError {
        ImageError::NoMemory
    }
}
