//! The kinds of nodes by their numbers.
ghost use Rattle.std.specs.Prelude.{◌≡◌, ◌||◌, IfSome, is_none, nat_lt};
ghost use Rattle.fs_image.specs.Text.{kind_number};

use kernel_core::Kind;

/// A node's kind without what it holds, by the number in its front. (The numbers are this project's
/// own.)
#[derive(Clone, Copy)]
pub(crate) enum KindCode {
    File = 1,
    Dir = 2,
    Link = 3,
}

impl KindCode {
    ghost use Rattle.fs_image.specs.inside.Kinds.{code_number};

    /// The kind of a number; none for one that is unknown.
    pub(crate) fn of_number(number: u8) -> Option<KindCode>
        ensures known { is_none result ≡ (nat_lt number 1 || nat_lt 3 number) }
        ensures number { IfSome result (λ code. code_number code ≡ number) }
    {
        [KindCode::File, KindCode::Dir, KindCode::Link]
            .into_iter()
            .find(|code| code.number() == number)
    }

    /// The kind of a node.
    pub(crate) fn of(kind: &Kind) -> KindCode
        ensures { code_number result ≡ kind_number kind.now }
    {
        match kind {
            Kind::File { .. } => KindCode::File,
            Kind::Dir { .. } => KindCode::Dir,
            Kind::Link { .. } => KindCode::Link,
        }
    }

    /// The number in a node's front.
    pub(crate) fn number(self) -> u8
        ensures { result ≡ code_number self }
    {
        self as u8
    }
}
