//! The lines of a script, their words and their texts.
pub use script_words::Words;
use script_words::digit;
use std::alloc::Global;
use std::test::Fail;

/// The first word of a line, and what stands behind it.
pub fn parts(line: &str) -> (&str, &str) {
    match line.split_once(' ') {
        Some((word, rest)) => (word, rest.trim()),
        None => (line, ""),
    }
}

/// What the next byte of a text is.
#[derive(Clone, Copy)]
enum Next {
    Plain,
    /// What stands behind `\`.
    Escaped,
    /// The first digit behind `\x`.
    High,
    /// The second one, and what the first one stands for.
    Low(u8),
}

/// Puts a byte behind others.
fn push(bytes: &mut Vec<u8>, byte: u8) -> Result<Next, Fail> {
    bytes.push(byte)?;
    Ok(Next::Plain)
}

/// Takes the byte behind `\`.
fn push_escaped(bytes: &mut Vec<u8>, byte: u8) -> Result<Next, Fail> {
    match byte {
        b'n' => push(bytes, b'\n'),
        b't' => push(bytes, b'\t'),
        b'0' => push(bytes, 0),
        b'x' => Ok(Next::High),
        _ => Err(Fail::from("no escape")),
    }
}

/// Takes the next byte of a text, and tells what the one behind it is.
fn push_next(bytes: &mut Vec<u8>, next: Next, byte: u8) -> Result<Next, Fail> {
    match next {
        Next::Plain if byte == b'\\' => Ok(Next::Escaped),
        Next::Plain => push(bytes, byte),
        Next::Escaped => push_escaped(bytes, byte),
        Next::High => Ok(Next::Low(digit(byte).ok_or("no digit")?)),
        Next::Low(high) => {
            let low = digit(byte).ok_or("no digit")?;
            push(bytes, high.wrapping_mul(16).wrapping_add(low))
        }
    }
}

/// Puts the bytes of a text behind others. In a text `\n`, `\t`, `\0` and `\x` with two digits are one byte each.
pub fn push_text(bytes: &mut Vec<u8>, text: &str) -> Result<(), Fail> {
    let mut next = Next::Plain;
    for byte in text.as_bytes() {
        next = push_next(bytes, next, *byte)?;
    }
    match next {
        Next::Plain => Ok(()),
        _ => Err(Fail::from("a text is cut off")),
    }
}

/// The bytes of a text.
pub fn bytes_of(alloc: Global, text: &str) -> Result<Vec<u8>, Fail> {
    let mut bytes = Vec::new(alloc);
    push_text(&mut bytes, text)?;
    Ok(bytes)
}

/// Puts the bytes of a word behind others, two digits for each.
pub fn push_bytes(bytes: &mut Vec<u8>, word: &str) -> Result<(), Fail> {
    let mut high = None;
    for byte in word.as_bytes() {
        let low = digit(*byte).ok_or("no digit")?;
        match high {
            None => high = Some(low),
            Some(digit) => {
                bytes.push(u8::wrapping_mul(digit, 16).wrapping_add(low))?;
                high = None;
            }
        }
    }
    match high {
        None => Ok(()),
        Some(_) => Err(Fail::from("half a byte")),
    }
}
