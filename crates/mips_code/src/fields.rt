//! The fields of a word.

ghost use Rattle.std.specs.Prelude.{◌≡◌};
ghost use Rattle.mips_code.specs.Instructions.{opcode, rs, rt, rd, sa, function, target, immediate, signed_immediate, long_code, short_code};

/// Bits 31 to 26.
#[inline(always)]
pub fn opcode_of(word: u32) -> u8
    ensures { result ≡ opcode word }
{
    (word >> 26) as u8
}

/// Bits 25 to 21.
#[inline(always)]
pub fn rs_of(word: u32) -> u8
    ensures { result ≡ rs word }
{
    ((word >> 21) % 32) as u8
}

/// Bits 20 to 16.
#[inline(always)]
pub fn rt_of(word: u32) -> u8
    ensures { result ≡ rt word }
{
    ((word >> 16) % 32) as u8
}

/// Bits 15 to 11.
#[inline(always)]
pub fn rd_of(word: u32) -> u8
    ensures { result ≡ rd word }
{
    ((word >> 11) % 32) as u8
}

/// Bits 10 to 6.
#[inline(always)]
pub fn sa_of(word: u32) -> u8
    ensures { result ≡ sa word }
{
    ((word >> 6) % 32) as u8
}

/// Bits 5 to 0.
#[inline(always)]
pub fn function_of(word: u32) -> u8
    ensures { result ≡ function word }
{
    (word % 64) as u8
}

/// Bits 25 to 0.
#[inline(always)]
pub fn target_of(word: u32) -> u32
    ensures { result ≡ target word }
{
    word % (1 << 26)
}

/// Bits 15 to 0.
#[inline(always)]
pub fn immediate_of(word: u32) -> u16
    ensures { result ≡ immediate word }
{
    (word % (1 << 16)) as u16
}

#[tactic(auto, unfolding(crate::specs::Instructions::signed_immediate))]
/// Bits 15 to 0, in two's complement.
#[inline(always)]
pub fn signed_immediate_of(word: u32) -> i16
    ensures { result ≡ signed_immediate word }
{
    immediate_of(word).cast_signed()
}

/// Bits 25 to 6.
#[inline(always)]
pub fn long_code_of(word: u32) -> u32
    ensures { result ≡ long_code word }
{
    (word >> 6) % (1 << 20)
}

/// Bits 15 to 6.
#[inline(always)]
pub fn short_code_of(word: u32) -> u16
    ensures { result ≡ short_code word }
{
    ((word >> 6) % (1 << 10)) as u16
}
