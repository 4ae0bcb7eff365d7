//! Programs that are built here from instructions.
//!
//! Instructions stand one behind the other, with `;` between them. Each is its mnemonic and its operands, as an assembler has them,
//! without commas and brackets: `lw $v0 0 $sp`.
use crate::executable::{Access, executable, push_words};
use crate::numbers::{number_of, value};
use crate::reading::Words;
use std::alloc::{AllocError, Global};
use std::test::Fail;

/// The instructions (MIPS32 Architecture for Programmers, Volume II): the mnemonic of each, its word with no operand, and the
/// fields that its operands go to. A compiler writes `break 7` or `teq $zero $zero 7` for a division by zero, `rdhwr $v0 $29` reads
/// the thread pointer, and `movf` is an instruction of the floating point unit.
const INSTRUCTIONS: &str = "
    addiu 0x24000000 rt rs immediate
    lui 0x3C000000 rt immediate
    ori 0x34000000 rt rs immediate
    lw 0x8C000000 rt immediate rs
    lbu 0x90000000 rt immediate rs
    ll 0xC0000000 rt immediate rs
    sc 0xE0000000 rt immediate rs
    sw 0xAC000000 rt immediate rs
    beq 0x10000000 rs rt immediate
    bne 0x14000000 rs rt immediate
    jr 0x00000008 rs
    syscall 0x0000000C
    nop 0x00000000
    break 0x0000000D code
    teq 0x00000034 rs rt trap
    rdhwr 0x7C00003B rt rd
    movf 0x00000001 rd rs condition
";

/// Where a text stands in a program's segment.
const TEXT: usize = 0x100;

/// The length of a page.
const PAGE: usize = 0x1000;

/// `Hi` and a newline from 0x00400100, then exit with 7.
const HELLO: &str = "
    addiu $v0 $zero write; addiu $a0 $zero 1; lui $a1 0x40; ori $a1 $a1 0x100; addiu $a2 $zero 3; syscall;
    addiu $v0 $zero exit; addiu $a0 $zero 7; syscall
";

/// The word and the fields of an instruction.
fn form_of(mnemonic: &str) -> Option<&'static str> {
    for line in INSTRUCTIONS.lines() {
        if let Some((name, form)) = line.trim().split_once(' ')
            && name == mnemonic
        {
            return Some(form);
        }
    }
    None
}

/// An operand in its field, None where it has more bits than this.
fn in_field(field: &str, operand: u32) -> Option<u32> {
    match field {
        "rs" if operand < 0x20 => Some(operand << 21),
        "rt" if operand < 0x20 => Some(operand << 16),
        "rd" if operand < 0x20 => Some(operand << 11),
        "immediate" if operand < 0x1_0000 => Some(operand),
        "code" if operand < 0x400 => Some(operand << 16),
        "trap" if operand < 0x400 => Some(operand << 6),
        "condition" if operand < 8 => Some(operand << 18),
        _ => None,
    }
}

/// A word of a form: the instruction's own, or the next operand in its field.
fn part_of(form: &str, words: &mut Words) -> Result<u32, Fail> {
    if let Some(number) = number_of(form) {
        return Ok(u32::try_from(number).ok().ok_or("no word")?);
    }
    let operand = value(words.next()?).ok_or("no operand")?;
    Ok(in_field(form, operand).ok_or("no such operand")?)
}

/// The word of an instruction in words.
fn next_word(words: &mut Words) -> Result<u32, Fail> {
    let form = form_of(words.next()?).ok_or("no instruction")?;
    let mut word = 0;
    for part in form.split_whitespace() {
        word |= part_of(part, words)?;
    }
    words.end()?;
    Ok(word)
}

/// The word of an instruction.
fn word_of(alloc: Global, instruction: &str) -> Result<u32, Fail> {
    let items: Vec<&str> = instruction.split_whitespace().collect(alloc)?;
    next_word(&mut Words::new(items.as_slice()))
}

/// Puts instructions behind those of a program.
pub fn push_code(alloc: Global, code: &mut Vec<u32>, text: &str) -> Result<(), Fail> {
    for instruction in text.split(';') {
        code.push(word_of(alloc, instruction)?)?;
    }
    Ok(())
}

/// The bytes of these words, with `Hi` and a newline at 0x100, where they end before.
fn push_segment(segment: &mut Vec<u8>, code: &[u32]) -> Result<(), AllocError> {
    push_words(segment, code)?;
    if segment.len() <= TEXT {
        segment.resize(TEXT, 0)?;
        segment.extend_from_slice(b"Hi\n")?;
    }
    Ok(())
}

/// The same in one page, with `abc` at its end.
fn push_page(page: &mut Vec<u8>, code: &[u32]) -> Result<(), AllocError> {
    push_segment(page, code)?;
    page.resize(PAGE - 3, 0)?;
    page.extend_from_slice(b"abc")
}

/// An executable of one page: these words, `Hi` and a newline at 0x00400100 where the words end before, and `abc` at the end of the page, behind
/// which there is none.
pub fn one_page(alloc: Global, code: &[u32]) -> Result<Vec<u8>, AllocError> {
    let mut page = Vec::new(alloc);
    push_page(&mut page, code)?;
    executable(alloc, &page, Access::Execute)
}

/// An executable that is no longer than these words, or `Hi` and a newline at 0x00400100 where they end before.
fn no_longer(alloc: Global, code: &[u32]) -> Result<Vec<u8>, AllocError> {
    let mut segment = Vec::new(alloc);
    push_segment(&mut segment, code)?;
    executable(alloc, &segment, Access::Execute)
}

/// The program that writes `Hi` and a newline and exits with 7, in nine turns.
pub fn hello(alloc: Global) -> Result<Vec<u8>, Fail> {
    let mut code = Vec::new(alloc);
    push_code(alloc, &mut code, HELLO)?;
    Ok(no_longer(alloc, &code)?)
}
