//! The instructions that raise an exception.
ghost use Rattle.std.specs.Prelude.{◌≡◌};
ghost use Rattle.mips_exec.specs.Traps.{trap, trap_if, break_number};

use crate::codes::{DIVISION_BY_ZERO, INTEGER_OVERFLOW, TRAP};
use crate::effect::Effect;

/// The exception of a number, or a trap with this code.
#[inline]
pub fn trap_by(number: u32, code: u32) -> Effect
    ensures { result ≡ trap number code }
{
    match number {
        6 => Effect::ArithmeticError {
            code: INTEGER_OVERFLOW,
        },
        7 => Effect::ArithmeticError {
            code: DIVISION_BY_ZERO,
        },
        _ => Effect::Breakpoint { code },
    }
}

/// A trap instruction whose test was made.
#[inline]
pub fn trap_if(holds: bool, number: u16) -> Effect
    ensures { result ≡ trap_if holds number }
{
    if holds {
        trap_by(u32::from(number), TRAP)
    } else {
        Effect::Proceed
    }
}

/// What a code of BREAK counts as.
#[inline]
pub fn break_number(code: u32) -> u32
    ensures { result ≡ break_number code }
{
    if code < 1024 {
        code
    } else {
        code % 1024 * 1024 + code / 1024
    }
}
