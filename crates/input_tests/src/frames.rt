//! Frames that a program made itself, and frames that can't be written: where they lie, and what their program counter, mask and alternate
//! stack are.
//!
//! A plain frame has 632 bytes, with the program counter's low word at 36, that of register 29 at 276 and the mask at 616; one with siginfo has
//! 784, with these at 188, 428 and 768, and the alternate stack at 160. sigreturn(2) is call 4119.
use session_scripts::first_wrong;
use std::alloc::{AllocError, Global};
use std::test::Fail;

/// The last page of user space is mapped, at its address.
const LAST_PAGE: &str = r"
    lui $a0 0x7FFF; ori $a0 $a0 0x7000; addiu $a1 $zero 0x1000; addiu $a2 $zero 3; addiu $a3 $zero 0x812; addiu $v0 $zero mmap2; syscall
    trace 7 call 4210 7fff7000 00001000 00000003 00000812 = 7fff7000 0
";

/// A frame that is read: its program counter is 0, from which the next turn takes no instruction.
const IS_READ: &str = r"
    trace 11 return
    trace 12 fault 11 1 00000000
    trace 13 killed 11
    o32run run --trace trace p = killed 11 139 13
";

/// A frame that can't be read: a fault of code 0x80 in the turn of the call.
const IS_NOT_READ: &str = r"
    trace 11 fault 11 128 00000000
    trace 12 killed 11
    o32run run --trace trace p = killed 11 139 12
";

/// The stack pointer for sigreturn(2) and for rt_sigreturn(2), and what comes: the frame at the stack's first byte; at its end, at 0x7FFF0000; with the last byte
/// past that; where no page is; in the code, which can't be written; at the end of user space, at 0x7FFF8000; with its last byte past that;
/// and past it whole, twice.
const RETURNS: [(&str, &str, &str); 9] = [
    ("0x7F7F 0x0000", "0x7F7F 0x0000", IS_READ),
    ("0x7FFE 0xFD88", "0x7FFE 0xFCF0", IS_READ),
    ("0x7FFE 0xFD89", "0x7FFE 0xFCF1", IS_NOT_READ),
    ("0x2000 0x0000", "0x2000 0x0000", IS_NOT_READ),
    ("0x0040 0x0800", "0x0040 0x0800", IS_READ),
    ("0x7FFF 0x7D88", "0x7FFF 0x7CF0", IS_READ),
    ("0x7FFF 0x7D89", "0x7FFF 0x7CF1", IS_NOT_READ),
    ("0x8000 0x0000", "0x8000 0x0000", IS_NOT_READ),
    ("0xFFFF 0xFFFF", "0xFFFF 0xFFFF", IS_NOT_READ),
];

/// The same page; the handler stands behind a branch, and leaves with 9. Its address stands at -60 from the stack pointer, and the flags of its action
/// go to -64.
const HANDLER: &str = r"
    beq $zero $zero 4; nop
    addiu $a0 $zero 9; addiu $v0 $zero exit; syscall
    lui $a0 0x7FFF; ori $a0 $a0 0x7000; addiu $a1 $zero 0x1000; addiu $a2 $zero 3; addiu $a3 $zero 0x812; addiu $v0 $zero mmap2; syscall
    lui $t0 0x40; ori $t0 $t0 8; sw $t0 0xFFC4 $sp
    trace 9 call 4210 7fff7000 00001000 00000003 00000812 = 7fff7000 0
";

/// The handler of a signal, before the stack pointer moves, and the signal, behind that.
const SETS_16: &str = r"
    sw $t0 0xFFC0 $sp
    addiu $a0 $zero 16; addiu $a1 $sp 0xFFC0; addiu $a2 $zero 0; addiu $a3 $zero 16; addiu $v0 $zero rt_sigaction; syscall
    trace 20 call 4194 00000010 7ffeff00 00000000 00000010 = 00000000 0
";

const SETS_11: &str = r"
    sw $t0 0xFFC0 $sp
    addiu $a0 $zero 11; addiu $a1 $sp 0xFFC0; addiu $a2 $zero 0; addiu $a3 $zero 16; addiu $v0 $zero rt_sigaction; syscall
    trace 20 call 4194 0000000b 7ffeff00 00000000 00000010 = 00000000 0
";

const SENDS_16: &str = r"
    addiu $a0 $zero 100; addiu $a1 $zero 16; addiu $v0 $zero kill; syscall
    trace 26 call 4037 00000064 00000010 00000000 00000000 = 00000000 0
    trace 27 signal 16 handler
";

const SENDS_11: &str = r"
    addiu $a0 $zero 100; addiu $a1 $zero 11; addiu $v0 $zero kill; syscall
    trace 26 call 4037 00000064 0000000b 00000000 00000000 = 00000000 0
    trace 27 signal 11 handler
";

/// What comes of a frame that is written; of one that can't be, of a signal other than SIGSEGV; and of that signal.
const IS_WRITTEN: &str = r"
    trace 29 exit 9
    o32run run --trace trace p = exited 9 9 29
";

const IS_A_FAULT: &str = r"
    trace 27 fault 11 128 00000000
    trace 27 killed 11
    o32run run --trace trace p = killed 11 139 27
";

const KILLS: &str = r"
    trace 27 killed 11
    o32run run --trace trace p = killed 11 139 27
";

/// The stack pointer, and whether a frame 32 bytes below it can be written: at the stack's end; with its last bytes past that; where no
/// page is; in the code, which can't be written; at the end of user space; and past that.
const DELIVERIES: [(&str, bool); 7] = [
    ("0x7FFF 0x0020", true),
    ("0x7FFF 0x0028", false),
    ("0x2000 0x0000", false),
    ("0x0040 0x0F00", false),
    ("0x7FFF 0x8020", true),
    ("0x7FFF 0x8028", false),
    ("0x0000 0x0000", false),
];

/// A signal whose frame can't be written, where SIGSEGV has a handler on an alternate stack: it is entered in its place, with the
/// code 0x80 in its siginfo.
const ANOTHER_HANDLER: &str = r"
    beq $zero $zero 4; nop
    lw $a0 4 $a1; addiu $v0 $zero exit; syscall
    lui $t0 0x7FFD; sw $t0 0xFFE0 $sp; addiu $t0 $zero 0x2000; sw $t0 0xFFE4 $sp
    addiu $a0 $sp 0xFFE0; addiu $a1 $zero 0; addiu $v0 $zero sigaltstack; syscall
    lui $t0 0x40; ori $t0 $t0 8; sw $t0 0xFFC4 $sp
    addiu $a0 $zero 16; addiu $a1 $sp 0xFFC0; addiu $a2 $zero 0; addiu $a3 $zero 16; addiu $v0 $zero rt_sigaction; syscall
    lui $t0 0x800; ori $t0 $t0 8; sw $t0 0xFFC0 $sp
    addiu $a0 $zero 11; addiu $a3 $zero 16; addiu $v0 $zero rt_sigaction; syscall
    lui $sp 0x2000
    addiu $a0 $zero 100; addiu $a1 $zero 16; addiu $v0 $zero kill; syscall
    trace 10 call 4206 7ffeff20 00000000 00000000 00000000 = 00000000 0
    trace 19 call 4194 00000010 7ffeff00 00000000 00000010 = 00000000 0
    trace 26 call 4194 0000000b 7ffeff00 00000000 00000010 = 00000000 0
    trace 31 call 4037 00000064 00000010 00000000 00000000 = 00000000 0
    trace 32 signal 16 handler
    trace 32 fault 11 128 00000000
    trace 32 signal 11 handler
    trace 34 exit 128
    o32run run --trace trace p = exited 128 128 34
";

/// Returns to 0x00400002, which is no multiple of 4: SIGBUS, of code 1, at that address.
const UNALIGNED: &str = r"
    addiu $sp $sp 0xFC00; lui $t0 0x40; ori $t0 $t0 2; sw $t0 36 $sp; addiu $v0 $zero 4119; syscall
    trace 6 return
    trace 7 fault 10 1 00400002
    trace 8 killed 10
    o32run run --trace trace p = killed 10 138 8

    addiu $sp $sp 0xFC00; lui $t0 0x40; ori $t0 $t0 2; sw $t0 188 $sp; addiu $v0 $zero rt_sigreturn; syscall
    trace 6 return
    trace 7 fault 10 1 00400002
    trace 8 killed 10
    o32run run --trace trace p = killed 10 138 8
";

/// A plain frame of zeros, but for the mask, which is all ones, the stack pointer, and the program counter, past the break. The mask then
/// has every signal but 9 and 23.
const A_MASK_OF_ONES: &str = r"
    addiu $sp $sp 0xFC00; addiu $t0 $zero 0xFFFF
    sw $t0 616 $sp; sw $t0 620 $sp; sw $t0 624 $sp; sw $t0 628 $sp
    lui $t0 0x40; ori $t0 $t0 0x34; sw $t0 36 $sp; sw $sp 276 $sp; addiu $v0 $zero 4119; syscall
    break 0
    addiu $a0 $zero 1; addiu $a1 $zero 0; addiu $a2 $sp 0xFFC0; addiu $a3 $zero 16; addiu $v0 $zero rt_sigprocmask; syscall
    addiu $a0 $zero 1; addiu $a1 $sp 0xFFC0; addiu $a2 $zero 16; addiu $v0 $zero write; syscall
    addiu $a0 $zero 0; addiu $v0 $zero exit; syscall
    out \xFF\xBF\xFE\xFF\xFF\xFF\xFF\xFF\xFF\xFF\xFF\xFF\xFF\xFF\xFF\xFF
    o32run run p = exited 0 0 26
";

/// An alternate stack from 0x7F800000 on, of 0x2000 bytes; then a return past the break from a frame with another, whose words are set
/// between these two texts; and what sigaltstack(2) shows then.
const AN_ALTERNATE_STACK: &str = r"
    lui $t0 0x7F80; sw $t0 0xFFE0 $sp; addiu $t0 $zero 0x2000; sw $t0 0xFFE4 $sp
    addiu $a0 $sp 0xFFE0; addiu $a1 $zero 0; addiu $v0 $zero sigaltstack; syscall
    addiu $sp $sp 0xFC00; lui $t0 0x7F90; sw $t0 160 $sp
";

const A_RETURN_AND_THE_STACK: &str = r"
    sw $t0 168 $sp
    lui $t0 0x40; ori $t0 $t0 0x58; sw $t0 188 $sp; sw $sp 428 $sp; addiu $v0 $zero rt_sigreturn; syscall
    break 0
    addiu $a0 $zero 0; addiu $a1 $sp 0xFFC0; addiu $v0 $zero sigaltstack; syscall
    addiu $a0 $zero 1; addiu $a1 $sp 0xFFC0; addiu $a2 $zero 12; addiu $v0 $zero write; syscall
    addiu $a0 $zero 0; addiu $v0 $zero exit; syscall
";

/// The size and the flags of that stack, and the three words that are shown. Flags 3 and 4 are refused, and so is a size below 2048 but under
/// flags 2, which disables: the errors are ignored, and the first stack stays. Flags 1 and 0 are the same.
const ALTERNATE_STACKS: [(&str, &str); 6] = [
    (
        "addiu $t0 $zero 0x1000; sw $t0 164 $sp; addiu $t0 $zero 3",
        r"\x7F\x80\0\0\0\0\x20\0\0\0\0\0",
    ),
    (
        "addiu $t0 $zero 0x1000; sw $t0 164 $sp; addiu $t0 $zero 4",
        r"\x7F\x80\0\0\0\0\x20\0\0\0\0\0",
    ),
    (
        "addiu $t0 $zero 0x7FF; sw $t0 164 $sp; addiu $t0 $zero 0",
        r"\x7F\x80\0\0\0\0\x20\0\0\0\0\0",
    ),
    (
        "addiu $t0 $zero 0x7FF; sw $t0 164 $sp; addiu $t0 $zero 2",
        r"\0\0\0\0\0\0\0\0\0\0\0\x02",
    ),
    (
        "addiu $t0 $zero 0x800; sw $t0 164 $sp; addiu $t0 $zero 0",
        r"\x7F\x90\0\0\0\0\x08\0\0\0\0\0",
    ),
    (
        "addiu $t0 $zero 0x800; sw $t0 164 $sp; addiu $t0 $zero 1",
        r"\x7F\x90\0\0\0\0\x08\0\0\0\0\0",
    ),
];

/// The texts of a script, one behind the other.
fn script_of(alloc: Global, texts: &[&str]) -> Result<String, AllocError> {
    let mut script = String::new(alloc);
    for text in texts {
        script.push_str(text)?;
    }
    Ok(script)
}

/// Whether a script comes out, in sessions that have these lines in common.
fn comes_out(alloc: Global, common: &str, texts: &[&str]) -> Result<bool, Fail> {
    let script = script_of(alloc, texts)?;
    Ok(first_wrong(alloc, common, script.as_str())?.is_none())
}

/// Whether a return by a call comes to this, with the stack pointer at an address of two halves.
fn is_return(alloc: Global, address: &str, call: &str, comes: &str) -> Result<bool, Fail> {
    let (high, low) = address.split_once(' ').ok_or("no address")?;
    comes_out(
        alloc,
        LAST_PAGE,
        &[
            "lui $sp ",
            high,
            "; ori $sp $sp ",
            low,
            "; addiu $v0 $zero ",
            call,
            "; syscall\n",
            comes,
        ],
    )
}

/// The first returns that come to something else.
fn first_wrong_return(alloc: Global) -> Result<Option<&'static str>, Fail> {
    for (plain, other, comes) in RETURNS {
        if !is_return(alloc, plain, "4119", comes)?
            || !is_return(alloc, other, "rt_sigreturn", comes)?
        {
            return Ok(Some(plain));
        }
    }
    Ok(None)
}

/// A signal: what sets its handler, what sends it, and what comes of a frame that can't be written.
type Signal<'a> = (&'a str, &'a str, &'a str);

const SIGNALS: [Signal<'static>; 2] = [(SETS_16, SENDS_16, IS_A_FAULT), (SETS_11, SENDS_11, KILLS)];

/// Whether a signal whose action has these flags comes to a frame that is written, or not, with the stack pointer at an address.
fn is_delivery(
    alloc: Global,
    address: &str,
    is_written: bool,
    flags: &str,
    signal: &Signal<'_>,
) -> Result<bool, Fail> {
    let (sets, sends, comes) = *signal;
    let (high, low) = address.split_once(' ').ok_or("no address")?;
    comes_out(
        alloc,
        HANDLER,
        &[
            "addiu $t0 $zero ",
            flags,
            "\n",
            sets,
            "\nlui $sp ",
            high,
            "; ori $sp $sp ",
            low,
            "\n",
            sends,
            if is_written { IS_WRITTEN } else { comes },
        ],
    )
}

/// Whether both signals, without and with siginfo, come so.
fn are_deliveries(alloc: Global, address: &str, is_written: bool) -> Result<bool, Fail> {
    for signal in &SIGNALS {
        if !is_delivery(alloc, address, is_written, "0", signal)?
            || !is_delivery(alloc, address, is_written, "8", signal)?
        {
            return Ok(false);
        }
    }
    Ok(true)
}

/// The first place at which a signal comes to something else.
fn first_wrong_delivery(alloc: Global) -> Result<Option<&'static str>, Fail> {
    for (address, is_written) in DELIVERIES {
        if !are_deliveries(alloc, address, is_written)? {
            return Ok(Some(address));
        }
    }
    Ok(None)
}

/// The first alternate stack in a frame that comes to something else.
fn first_wrong_stack(alloc: Global) -> Result<Option<&'static str>, Fail> {
    let end = "\no32run run p = exited 0 0 33\n";
    for (words, shown) in ALTERNATE_STACKS {
        let texts = [words, A_RETURN_AND_THE_STACK, "\nout ", shown, end];
        if !comes_out(alloc, AN_ALTERNATE_STACK, &texts)? {
            return Ok(Some(words));
        }
    }
    Ok(None)
}

#[test]
fn places_of_frames_that_are_read(rt: HostRuntime) -> Result<(), Fail> {
    assert_eq!(rt; first_wrong_return(rt.alloc())?, None);
    Ok(())
}

#[test]
fn places_of_frames_that_are_written(rt: HostRuntime) -> Result<(), Fail> {
    assert_eq!(rt; first_wrong_delivery(rt.alloc())?, None);
    Ok(())
}

#[test]
fn a_handler_in_place_of_another(rt: HostRuntime) -> Result<(), Fail> {
    assert_eq!(rt; first_wrong(rt.alloc(), "", ANOTHER_HANDLER)?, None);
    Ok(())
}

#[test]
fn program_counters_and_masks(rt: HostRuntime) -> Result<(), Fail> {
    assert_eq!(rt; first_wrong(rt.alloc(), "", UNALIGNED)?, None);
    assert_eq!(rt; first_wrong(rt.alloc(), "", A_MASK_OF_ONES)?, None);
    Ok(())
}

#[test]
fn alternate_stacks(rt: HostRuntime) -> Result<(), Fail> {
    assert_eq!(rt; first_wrong_stack(rt.alloc())?, None);
    Ok(())
}
