//! What the computing instructions compute, on words.
ghost use Rattle.std.specs.Prelude.{◌≡◌, ◌<◌, ◌≤◌, ◌+◌, ◌-◌, ◌*◌, ◌%◌, ◌^◌, ◌+ℤ◌, ◌-ℤ◌, not};
ghost use Rattle.mips_exec.specs.Operands.{word_of};
ghost use Rattle.mips_exec.specs.Arithmetic.{signed, fits_word, sum, difference, signed_less, sign_extended_byte, sign_extended_half, sign_extended_word, shifted_arithmetically, rotated, signed_quotient, signed_remainder, halves_swapped, extracted, inserted};

#[inline]
pub fn fits_sum(a: u32, b: u32) -> bool
    ensures { result ≡ fits_word (signed a +ℤ signed b) }
{
    a.cast_signed().checked_add(b.cast_signed()).is_some()
}

#[inline]
pub fn fits_difference(a: u32, b: u32) -> bool
    ensures { result ≡ fits_word (signed a -ℤ signed b) }
{
    a.cast_signed().checked_sub(b.cast_signed()).is_some()
}

#[inline]
pub fn is_signed_less(a: u32, b: u32) -> bool
    ensures { result ≡ signed_less a b }
{
    a.wrapping_add(1 << 31) < b.wrapping_add(1 << 31)
}

#[inline]
pub fn extend_byte(a: u32) -> u32
    ensures { result ≡ sign_extended_byte a }
{
    let low = a % 0x100;
    if low < 0x80 { low } else { low + 0xFFFF_FF00 }
}

#[inline]
pub fn extend_half(a: u32) -> u32
    ensures { result ≡ sign_extended_half a }
{
    let low = a % 0x1_0000;
    if low < 0x8000 { low } else { low + 0xFFFF_0000 }
}

#[inline]
pub fn extend_word(a: u32) -> u64
    ensures { result ≡ sign_extended_word a }
{
    if a < 0x8000_0000 {
        u64::from(a)
    } else {
        u64::from(a) + 0xFFFF_FFFF_0000_0000
    }
}

#[inline]
pub fn shift_arithmetically(a: u32, amount: u32) -> u32
    requires { amount < 32 }
    ensures { result ≡ shifted_arithmetically a amount }
{
    if a < 0x8000_0000 {
        a >> amount
    } else {
        !(!a >> amount)
    }
}

#[inline]
pub fn rotate(a: u32, amount: u32) -> u32
    requires { amount < 32 }
    ensures { result ≡ rotated a amount }
{
    let twice = u64::from(a) * 0x1_0000_0000 + u64::from(a);
    ((twice >> amount) % 0x1_0000_0000) as u32
}

#[inline]
pub fn divide_signed(a: u32, b: u32) -> u32
    requires { 0 < b }
    ensures { result ≡ signed_quotient a b }
{
    a.cast_signed()
        .wrapping_div(b.cast_signed())
        .cast_unsigned()
}

#[inline]
pub fn remainder_signed(a: u32, b: u32) -> u32
    requires { 0 < b }
    ensures { result ≡ signed_remainder a b }
{
    a.cast_signed()
        .wrapping_rem(b.cast_signed())
        .cast_unsigned()
}

#[inline]
pub fn swap_halves(a: u32) -> u32
    ensures { result ≡ halves_swapped a }
{
    (a >> 16) % 0x100 * 0x100_0000 + (a >> 24) * 0x1_0000 + a % 0x100 * 0x100 + (a >> 8) % 0x100
}

#[inline]
pub fn extract(a: u32, low: u8, size: u8) -> u32
    requires low { low < 32 }
    requires size { size ≤ 32 }
    ensures { result ≡ extracted a low size }
{
    (u64::from(a >> low) % (1 << size)) as u32
}

#[inline]
pub fn insert(a: u32, low: u8, high: u8, word: u32) -> u32
    requires low { low < 32 }
    requires high { high < 32 }
    ensures { result ≡ inserted a low (high - low + 1) word }
{
    let size = high.saturating_sub(low) + 1;
    let above = (u64::from(word) >> (low + size)) << (low + size);
    let inside = (u64::from(a) % (1 << size)) << low;
    (above + inside + u64::from(word) % (1 << low)) as u32
}

/// A signed immediate as a word.
#[inline]
pub fn word_of(imm: i16) -> u32
    ensures { result ≡ word_of imm }
{
    i32::from(imm).cast_unsigned()
}
