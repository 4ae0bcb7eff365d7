//! Programs that make calls, one after the other, and look at what each gives.
use crate::calls::{Call, Gives};
use crate::executable::{Access, push_words};
use crate::numbers::{PATHS, value};
use std::alloc::{AllocError, Global};
use std::test::Fail;

/// How many bytes of code there can be.
const CODE_SIZE: usize = 0x1_0000;

// Instruction words (MIPS32 Architecture for Programmers, Volume II). Where an instruction takes a number, `|` puts it in.

/// `addiu $v0, $zero, 0`.
const SET_V0: u32 = 0x2402_0000;

/// `addiu $a0, $zero, 0`.
const SET_A0: u32 = 0x2404_0000;

/// `addiu $sp, $sp, -32`.
pub(crate) const ROOM_ON_THE_STACK: u32 = 0x27BD_FFE0;

/// `nop`.
const NOTHING: u32 = 0;

/// `beq $v0, $t0, 3`: over the three words behind its delay slot.
const NEXT_IF_V0_IS_T0: u32 = 0x1048_0003;

/// `beq $a3, $t0, 3`.
const NEXT_IF_A3_IS_T0: u32 = 0x10E8_0003;

/// `beq $a3, $zero, -4`: back over the three words before it.
const AGAIN_IF_NO_ERROR: u32 = 0x10E0_FFFC;

/// `sw $t0, 16($sp)`, where a call's fifth argument stands.
pub(crate) const STORE_T0_FIFTH: u32 = 0xAFA8_0010;

/// `sw $t0, 20($sp)`, where its sixth argument stands.
const STORE_T0_SIXTH: u32 = 0xAFA8_0014;

/// `syscall`.
const SYSCALL: u32 = 0x0000_000C;

/// The times in a program's data, each of two words of 32 bits.
const TIMES: [u32; 12] = [
    5,
    6,
    7,
    8,
    1,
    0x3FFF_FFFF,
    1,
    0x3FFF_FFFE,
    5,
    1_000_000_000,
    1,
    0,
];

/// exit(2) and dup(2).
const EXIT: u32 = 4001;

const DUP: u32 = 4041;

/// The two instructions that put a number into a register: `lui` for the high half, and `ori` for the low one.
#[derive(Clone, Copy)]
struct ToRegister {
    high: u32,
    low: u32,
}

const TO_A0: ToRegister = ToRegister {
    high: 0x3C04_0000,
    low: 0x3484_0000,
};

const TO_A1: ToRegister = ToRegister {
    high: 0x3C05_0000,
    low: 0x34A5_0000,
};

const TO_A2: ToRegister = ToRegister {
    high: 0x3C06_0000,
    low: 0x34C6_0000,
};

const TO_A3: ToRegister = ToRegister {
    high: 0x3C07_0000,
    low: 0x34E7_0000,
};

const TO_T0: ToRegister = ToRegister {
    high: 0x3C08_0000,
    low: 0x3508_0000,
};

/// Opens copies of standard input until a descriptor can't be had.
pub const TAKE_ALL_DESCRIPTORS: [u32; 5] = [
    SET_A0,
    SET_V0 | DUP,
    SYSCALL,
    AGAIN_IF_NO_ERROR,
    NOTHING,
];

/// The instructions that put a number into a register.
fn set(register: ToRegister, number: u32) -> [u32; 2] {
    [register.high | number >> 16, register.low | number & 0xFFFF]
}

/// Goes on where the branch is taken, and else exits.
fn go_on(register: ToRegister, number: u32, branch: u32) -> [u32; 6] {
    let [high, low] = set(register, number);
    [high, low, branch, NOTHING, SET_V0 | EXIT, SYSCALL]
}

/// Puts the fifth and the sixth argument on the stack.
fn stack(call: &Call) -> [u32; 6] {
    let [high, low] = set(TO_T0, call.words[4]);
    let [next_high, next_low] = set(TO_T0, call.words[5]);
    [
        high,
        low,
        STORE_T0_FIFTH,
        next_high,
        next_low,
        STORE_T0_SIXTH,
    ]
}

/// Makes a call, and exits with its place where it gives anything else.
fn push_call(code: &mut Vec<u32>, place: u32, call: &Call) -> Result<(), AllocError> {
    let (value, failed) = match call.gives {
        Gives::Value(value) => (value, 0),
        Gives::Error(error) => (error, 1),
    };
    let arguments = [
        set(TO_A0, call.words[0]),
        set(TO_A1, call.words[1]),
        set(TO_A2, call.words[2]),
        set(TO_A3, call.words[3]),
    ];
    code.extend_from_slice(&stack(call))?;
    for argument in &arguments {
        code.extend_from_slice(argument)?;
    }
    code.extend_from_slice(&[SET_V0 | call.number, SYSCALL, SET_A0 | place])?;
    code.extend_from_slice(&go_on(TO_T0, value, NEXT_IF_V0_IS_T0))?;
    code.extend_from_slice(&go_on(TO_T0, failed, NEXT_IF_A3_IS_T0))
}

/// Makes calls, and exits with the place of the first that gives anything else, counted from 1, or with 0.
fn push_calls(code: &mut Vec<u32>, calls: &[Call]) -> Result<(), AllocError> {
    code.push(ROOM_ON_THE_STACK)?;
    let mut place: u32 = 0;
    for call in calls {
        place = place.saturating_add(1);
        push_call(code, place, call)?;
    }
    code.extend_from_slice(&[SET_A0, SET_V0 | EXIT, SYSCALL])
}

/// The words of a program that makes these calls behind the first words, and exits with the place of the first that gives anything
/// else, counted from 1, or with 0.
pub fn code_of(alloc: Global, first: &[u32], calls: &[Call]) -> Result<Vec<u32>, AllocError> {
    let mut code = Vec::from_slice(alloc, first)?;
    push_calls(&mut code, calls)?;
    Ok(code)
}

/// The register of an argument, counted from 1.
fn register(place: usize) -> ToRegister {
    match place {
        1 => TO_A0,
        2 => TO_A1,
        3 => TO_A2,
        _ => TO_A3,
    }
}

/// Makes calls of four arguments, in ten instructions each.
fn push_straight(code: &mut Vec<u32>, calls: &str) -> Result<(), Fail> {
    let mut number = 0;
    let mut place: usize = 0;
    for word in calls.split_whitespace() {
        let word = value(word).ok_or("no number")?;
        if place == 0 {
            number = word;
        } else {
            code.extend_from_slice(&set(register(place), word))?;
        }
        place = place.saturating_add(1) % 5;
        if place == 0 {
            code.extend_from_slice(&[SET_V0 | number, SYSCALL])?;
        }
    }
    Ok(())
}

/// The words of a program that makes calls of four arguments behind the first words, in ten instructions each, and looks at nothing.
pub fn straight_code(alloc: Global, first: &[u32], calls: &str) -> Result<Vec<u32>, Fail> {
    let mut code = Vec::from_slice(alloc, first)?;
    push_straight(&mut code, calls)?;
    Ok(code)
}

/// The paths of a program's data, each in its place, and a name of 256 bytes.
fn push_paths(data: &mut Vec<u8>) -> Result<(), AllocError> {
    data.resize(0x20, 0)?;
    for path in PATHS.split_whitespace() {
        let next = data.len().saturating_add(0x20);
        data.extend_from_slice(path.as_bytes())?;
        data.resize(next, 0)?;
    }
    data.resize(0x800, 0)?;
    data.push(b'/')?;
    data.resize(0x901, b'x')?;
    data.resize(0xC00, 0)
}

/// The paths, the name, the times, and both pages.
fn push_data(data: &mut Vec<u8>) -> Result<(), AllocError> {
    push_paths(data)?;
    push_words(data, &TIMES)?;
    data.resize(0x2000, 0)?;
    data.resize(0x3000, b'y')
}

/// The data of most programs: the paths, each in its place; a name of 256 bytes, of which a directory takes 255; times; a page of
/// zeros, and one without a NUL. Each time is its seconds and its nanoseconds: 5 and 6, 7 and 8; then `now` (UTIME_NOW) and `leave`
/// (UTIME_OMIT); 5 and 10^9 nanoseconds, which are too many; and one second.
pub fn data(alloc: Global) -> Result<Vec<u8>, AllocError> {
    let mut data = Vec::new(alloc);
    push_data(&mut data)?;
    Ok(data)
}

/// The words at the beginning of a program's code, and the data behind the code.
fn push_segment(segment: &mut Vec<u8>, code: &[u32], data: &[u8]) -> Result<(), AllocError> {
    push_words(segment, code)?;
    segment.resize(CODE_SIZE, 0)?;
    segment.extend_from_slice(data)
}

/// An executable of one segment, which can be loaded from, stored to and executed: these words at 0x00400000, and the data at
/// 0x00410000.
pub fn executable(alloc: Global, code: &[u32], data: &[u8]) -> Result<Vec<u8>, AllocError> {
    let mut segment = Vec::new(alloc);
    push_segment(&mut segment, code, data)?;
    crate::executable::executable(alloc, &segment, Access::Store)
}
