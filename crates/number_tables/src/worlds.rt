//! The two worlds in which a name has a number.
ghost use Rattle.std.specs.Prelude.{◌≡◌, ℕ, Option, Some, option_map};

/// What has a number for a big-endian o32 program (Linux `arch/mips/include/uapi/asm`).
///
/// The two calls are inverse: a number that names a value is that value's number, and the number
/// of a value names it again, for each value that `listed_in_o32` admits.
pub trait O32Number: Copy {
    /// The values that a number of their own stands for.
    ghost listed_in_o32: { Self → Type 0 };

    ghost o32: { Self → ℕ };

    ghost named_by_o32: { ℕ → Option Self };

    /// The number of this value for an o32 program.
    fn to_o32(self) -> u32
        ensures { result ≡ o32 self };

    /// The value that this number stands for; None exactly where the number, or a bit of it, is in
    /// no row of the table.
    fn of_o32(number: u32) -> Option<Self>
        ensures { result ≡ named_by_o32 number };

    ghost number_again: { (number : ℕ) (value : Self) → named_by_o32 number ≡ Some value → o32 value ≡ number };

    ghost value_again: { (value : Self) → listed_in_o32 value → named_by_o32 (o32 value) ≡ Some value };

    ghost named_listed: { (number : ℕ) (value : Self) → named_by_o32 number ≡ Some value → listed_in_o32 value };
}

/// What has a number for the native kernel (Linux `include/uapi/asm-generic`, 64 bits).
///
/// The two calls are inverse as those of [`O32Number`] are.
pub trait NativeNumber: Copy {
    /// The values that a number of their own stands for.
    ghost listed_natively: { Self → Type 0 };

    ghost native: { Self → ℕ };

    ghost named_natively: { ℕ → Option Self };

    /// The number of this value for the native kernel.
    fn to_native(self) -> u64
        ensures { result ≡ native self };

    /// The value that this number stands for; None exactly where the number, or a bit of it, is in
    /// no row of the table.
    fn of_native(number: u64) -> Option<Self>
        ensures { result ≡ named_natively number };

    ghost number_again: { (number : ℕ) (value : Self) → named_natively number ≡ Some value → native value ≡ number };

    ghost value_again: { (value : Self) → listed_natively value → named_natively (native value) ≡ Some value };

    ghost named_listed: { (number : ℕ) (value : Self) → named_natively number ≡ Some value → listed_natively value };
}

/// The native number of what this number stands for in an o32 program; None exactly where it
/// stands for nothing there.
pub fn native_from_o32<T: O32Number + NativeNumber>(number: u32) -> Option<u64>
    ensures { result ≡ option_map T.native (T.named_by_o32 number) }
{
    let value = T::of_o32(number)?;
    Some(value.to_native())
}

/// The number for an o32 program of what this native number stands for; None exactly where it
/// stands for nothing.
pub fn o32_from_native<T: O32Number + NativeNumber>(number: u64) -> Option<u32>
    ensures { result ≡ option_map T.o32 (T.named_natively number) }
{
    let value = T::of_native(number)?;
    Some(value.to_o32())
}
