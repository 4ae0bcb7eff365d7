//! The effects of loads and stores.
ghost use Rattle.std.specs.Prelude.{◌≡◌};
ghost use Rattle.mips_exec.specs.Operands.{address};

use crate::arithmetic::word_of;
use crate::cpu::Cpu;
use crate::effect::{Effect, Span};

/// The address of a load or a store.
#[inline]
pub fn address(cpu: &Cpu, base: u8, imm: i16) -> u32
    ensures { result ≡ address cpu.now base imm }
{
    cpu.operand(base).wrapping_add(word_of(imm))
}

/// A register is loaded.
#[inline]
pub fn load(span: Span, signed: bool, address: u32, register: u8) -> Effect
    ensures { result ≡ Effect.Load span signed address register }
{
    Effect::Load {
        span,
        signed,
        address,
        register,
    }
}

/// A value is stored.
#[inline]
pub fn store(span: Span, address: u32, value: u32) -> Effect
    ensures { result ≡ Effect.Store span address value }
{
    Effect::Store {
        span,
        address,
        value,
    }
}
