//! Instructions as scripts in words, as an assembler takes them, but without commas and brackets (MIPS32 Architecture for Programmers,
//! Volume II): `addiu $a0 $zero 7`, and `lbu $a0 1 $t0` for `lbu $a0, 1($t0)`. A number behind `.word` stands for itself.
use crate::script::Words;
use std::alloc::Global;
use std::test::Fail;

fn register(words: &mut Words) -> Result<u32, Fail> {
    let number = words.value()?;
    if number < 32 {
        Ok(number)
    } else {
        Err(Fail::from("no register"))
    }
}

/// The register `rt`, in its field.
fn target(words: &mut Words) -> Result<u32, Fail> {
    Ok(register(words)?.wrapping_mul(1 << 16))
}

/// The register `rs`, in its field.
fn source(words: &mut Words) -> Result<u32, Fail> {
    Ok(register(words)?.wrapping_mul(1 << 21))
}

/// The register `rd`, in its field.
fn destination(words: &mut Words) -> Result<u32, Fail> {
    Ok(register(words)?.wrapping_mul(1 << 11))
}

/// A number of 16 bits, as it stands in an instruction.
fn immediate(words: &mut Words) -> Result<u32, Fail> {
    let number = words.value()?;
    if number < 0x1_0000 {
        Ok(number)
    } else {
        Err(Fail::from("more than 16 bits"))
    }
}

/// The operands of arithmetic with a number.
fn with_number(words: &mut Words) -> Result<u32, Fail> {
    Ok(target(words)? | source(words)? | immediate(words)?)
}

/// The operands of a load or a store.
fn in_memory(words: &mut Words) -> Result<u32, Fail> {
    Ok(target(words)? | immediate(words)? | source(words)?)
}

/// An instruction whose mnemonic is read.
pub(crate) fn instruction(mnemonic: &str, words: &mut Words) -> Result<u32, Fail> {
    match mnemonic {
        "addiu" => Ok(0x2400_0000 | with_number(words)?),
        "ori" => Ok(0x3400_0000 | with_number(words)?),
        "lui" => Ok(0x3C00_0000 | target(words)? | immediate(words)?),
        "lbu" => Ok(0x9000_0000 | in_memory(words)?),
        "lw" => Ok(0x8C00_0000 | in_memory(words)?),
        "sb" => Ok(0xA000_0000 | in_memory(words)?),
        "rdhwr" => Ok(0x7C00_003B | target(words)? | destination(words)?),
        "syscall" => Ok(0x0000_000C),
        ".word" => words.value(),
        _ => Err(Fail::from("no instruction")),
    }
}

/// The words of a program of instructions alone.
pub(crate) fn code_of(alloc: Global, text: &str) -> Result<Vec<u32>, Fail> {
    let items: Vec<&str> = text.split_whitespace().collect(alloc)?;
    let mut words = Words::new(items.as_slice());
    let mut code = Vec::new(alloc);
    for _ in 0..words.count() {
        if words.is_over() {
            break;
        }
        let mnemonic = words.next()?;
        code.push(instruction(mnemonic, &mut words)?)?;
    }
    Ok(code)
}
