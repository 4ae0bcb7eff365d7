//! Numbers in words, and names of numbers.

/// What a digit stands for, up to 15.
pub fn digit(byte: u8) -> Option<u8> {
    match byte {
        b'0'..=b'9' => Some(byte - b'0'),
        b'a'..=b'f' => Some(byte - b'a' + 10),
        b'A'..=b'F' => Some(byte - b'A' + 10),
        _ => None,
    }
}

/// A number in digits of a radix.
fn of_digits(digits: &str, radix: u64) -> Option<u64> {
    if digits.is_empty() {
        return None;
    }
    let mut number: u64 = 0;
    for byte in digits.as_bytes() {
        let next = u64::from(digit(*byte)?);
        if next >= radix {
            return None;
        }
        number = number.checked_mul(radix)?.checked_add(next)?;
    }
    Some(number)
}

/// A number in decimal digits, in hexadecimal ones behind `0x`, or in octal ones behind `0o`. One behind `-` is below 0, and has
/// 64 bits as a program has it in a register.
pub fn number_of(word: &str) -> Option<u64> {
    if let Some(digits) = word.strip_prefix("-") {
        return Some(0u64.wrapping_sub(of_digits(digits, 10)?));
    }
    if let Some(digits) = word.strip_prefix("0x") {
        return of_digits(digits, 16);
    }
    if let Some(digits) = word.strip_prefix("0o") {
        return of_digits(digits, 8);
    }
    of_digits(word, 10)
}

/// The number of a name in a table of words, where it stands behind it.
pub fn named(table: &str, word: &str) -> Option<u64> {
    let mut is_next = false;
    for item in table.split_whitespace() {
        if is_next {
            return number_of(item);
        }
        is_next = item == word;
    }
    None
}
