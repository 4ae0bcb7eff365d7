//! Additions that may overflow, conditional moves and the hardware registers.
ghost use Rattle.std.specs.Prelude.{◌≡◌, ◌+ℤ◌, ◌-ℤ◌, if◌then◌else◌};
ghost use Rattle.mips_exec.specs.Arithmetic.{signed, fits_word, sum, difference};
ghost use Rattle.mips_exec.specs.Computing.{unless_overflow, hardware_register};
ghost use Rattle.mips_exec.specs.Operands.{word_of};

use crate::arithmetic::{fits_difference, fits_sum, word_of};
use crate::codes::INTEGER_OVERFLOW;
use crate::cpu::Cpu;
use crate::effect::Effect;

/// A register gets a value.
#[inline]
pub fn set(register: u8, value: u32) -> Effect
    ensures { result ≡ Effect.Register register value }
{
    Effect::Register { register, value }
}

/// A register gets a value where the test holds.
#[inline]
pub fn set_if(holds: bool, register: u8, value: u32) -> Effect
    ensures { result ≡ (if holds then Effect.Register register value else Effect.Proceed) }
{
    if holds {
        set(register, value)
    } else {
        Effect::Proceed
    }
}

/// A register gets a value, or there is an integer overflow.
#[inline]
fn set_unless_overflow(fits: bool, register: u8, value: u32) -> Effect
    ensures { result ≡ unless_overflow fits register value }
{
    if fits {
        set(register, value)
    } else {
        Effect::ArithmeticError {
            code: INTEGER_OVERFLOW,
        }
    }
}

/// The sum, or an integer overflow.
#[inline]
pub fn add(a: u32, b: u32, to: u8) -> Effect
    ensures { result ≡ unless_overflow (fits_word (signed a +ℤ signed b)) to (sum a b) }
{
    set_unless_overflow(fits_sum(a, b), to, a.wrapping_add(b))
}

/// The sum with an immediate, or an integer overflow.
#[inline]
pub fn add_immediate(a: u32, imm: i16, to: u8) -> Effect
    ensures { result ≡ unless_overflow (fits_word (signed a +ℤ imm)) to (sum a (word_of imm)) }
{
    add(a, word_of(imm), to)
}

/// The difference, or an integer overflow.
#[inline]
pub fn subtract(a: u32, b: u32, to: u8) -> Effect
    ensures { result ≡ unless_overflow (fits_word (signed a -ℤ signed b)) to (difference a b) }
{
    set_unless_overflow(fits_difference(a, b), to, a.wrapping_sub(b))
}

/// A hardware register goes to a register.
#[inline]
pub fn hardware_register(number: u8, to: u8, cpu: &Cpu) -> Effect
    ensures { result ≡ hardware_register cpu.now number to }
{
    match number {
        29 => set(to, cpu.tls),
        1 => set(to, 0),
        _ => Effect::Reserved,
    }
}
