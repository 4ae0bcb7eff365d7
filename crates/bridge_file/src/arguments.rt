//! Arguments of calls: those on the stack, and numbers of 64 bits.
ghost use Rattle.std.specs.Prelude.{◌≡◌};
ghost use Rattle.std.specs.Int.{cast_signed, w32, w64};
ghost use Rattle.o32_model.specs.Words.{pair, stack_word};

use o32_model::CallWords;

/// The fifth argument, which is None where it can't be read.
pub(crate) fn fifth(words: &CallWords) -> Option<u32>
    ensures { result ≡ stack_word words.now 0 }
{
    words.stack[0]
}

/// The bits of a signed number of 32 bits as one of 64.
pub(crate) fn widened(number: u32) -> u64
    ensures { cast_signed w64 result ≡ cast_signed w32 number }
{
    if number < 0x8000_0000 {
        u64::from(number)
    } else {
        u64::from(number) + 0xFFFF_FFFF_0000_0000
    }
}

/// The number that two words are, the high one first.
pub(crate) fn pair(high: u32, low: u32) -> u64
    ensures { result ≡ pair high low }
{
    u64::from(high) * 0x1_0000_0000 + u64::from(low)
}
