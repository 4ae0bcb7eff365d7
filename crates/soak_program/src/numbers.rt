//! The numbers that the program writes.
ghost use Rattle.std.specs.Prelude.{◌≡◌};
ghost use Rattle.soak_program.specs.Numbers.{successor};

/// The number behind another: a linear congruential generator modulo 2^32, with the constants of Numerical
/// Recipes.
pub(crate) fn successor(number: u32) -> u32
    ensures { result ≡ successor number }
{
    number.wrapping_mul(1_664_525).wrapping_add(1_013_904_223)
}
