//! Single flags in a number.
ghost use Rattle.std.specs.Prelude.{◌≡◌, ◌<◌, ◌≤◌};
ghost use Rattle.kernel_core.specs.Bits as spec;

/// 1 where a flag is set, and else 0.
pub(crate) fn one_if(set: bool) -> u32
    ensures value { result ≡ spec.one_if set }
    ensures at_most { result ≤ 1 }
{
    u32::from(set)
}

/// Whether the number has this bit, a power of two.
pub(crate) fn has(number: u64, bit: u64) -> bool
    requires { 0 < bit }
    ensures { result ≡ spec.has number bit }
{
    number / bit % 2 == 1
}
