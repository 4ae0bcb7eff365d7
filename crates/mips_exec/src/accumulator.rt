//! HI and LO: products and quotients.
ghost use Rattle.std.specs.Prelude.{◌≡◌, ◌==◌, ◌*◌, ◌/◌, ◌%◌, if◌then◌else◌};
ghost use Rattle.mips_exec.specs.Accumulator.{accumulator, to_accumulator, signed_product};
ghost use Rattle.mips_exec.specs.Arithmetic.{signed_quotient, signed_remainder};

use crate::arithmetic::{divide_signed, extend_word, remainder_signed};
use crate::cpu::Cpu;
use crate::effect::Effect;

/// HI and LO get values.
#[inline]
pub fn set_accumulator(high: u32, low: u32) -> Effect
    ensures { result ≡ Effect.HighLow high low }
{
    Effect::HighLow { high, low }
}

/// HI and LO get the halves of a number.
#[inline]
pub fn accumulate(value: u64) -> Effect
    ensures { result ≡ to_accumulator value }
{
    set_accumulator((value >> 32) as u32, (value % 0x1_0000_0000) as u32)
}

/// HI and LO as one number.
#[inline]
pub fn accumulator_of(cpu: &Cpu) -> u64
    ensures { result ≡ accumulator cpu.now }
{
    u64::from(cpu.hi) * 0x1_0000_0000 + u64::from(cpu.lo)
}

/// The product of two words.
#[inline]
pub fn product(a: u32, b: u32) -> u64
    ensures { result ≡ a * b }
{
    u64::from(a) * u64::from(b)
}

/// The product of two words as signed numbers.
#[inline]
pub fn signed_product(a: u32, b: u32) -> u64
    ensures { result ≡ signed_product a b }
{
    extend_word(a).wrapping_mul(extend_word(b))
}

/// DIV
#[inline]
pub fn divide(a: u32, b: u32) -> Effect
    ensures { result ≡ (if b == 0 then Effect.Proceed else Effect.HighLow (signed_remainder a b) (signed_quotient a b)) }
{
    if b == 0 {
        return Effect::Proceed;
    }
    set_accumulator(remainder_signed(a, b), divide_signed(a, b))
}

/// DIVU
#[inline]
pub fn divide_unsigned(a: u32, b: u32) -> Effect
    ensures { result ≡ (if b == 0 then Effect.Proceed else Effect.HighLow (a % b) (a / b)) }
{
    if b == 0 {
        return Effect::Proceed;
    }
    set_accumulator(a % b, a / b)
}
