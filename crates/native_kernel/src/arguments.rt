//! What the six numbers of a call stand for.
ghost use Rattle.std.specs.Prelude.{◌≡◌};
ghost use Rattle.native_calls.specs.Arguments.{low_word};

/// The low 32 bits of an argument, which are all that counts of one of a shorter type.
pub(crate) fn low_word(argument: u64) -> u32
    ensures { result ≡ low_word argument }
{
    (argument % (1 << 32)) as u32
}
