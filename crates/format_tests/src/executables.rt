//! Small files: what each rule refuses, and what is loaded.

use elf_image::{ElfError, Plan, Segment, parse};
use std::alloc::{AllocError, Global};
use std::process::Abort;
use std::test::Fail;

/// A file's header and two load headers, in words: 256 bytes at 0x400000, and from the place 0x74
/// on 32 bytes at 0x410074, in 256 bytes of memory.
const WORDS: [u32; 29] = [
    0x7F45_4C46,
    0x0102_0100,
    0,
    0,
    0x0002_0008,
    1,
    0x0040_0074,
    52,
    0,
    0x5000_1000,
    0x0034_0020,
    0x0002_0028,
    0,
    1,
    0,
    0x0040_0000,
    0x0040_0000,
    256,
    256,
    5,
    0x1_0000,
    1,
    0x74,
    0x0041_0074,
    0x0041_0074,
    32,
    256,
    6,
    0x1_0000,
];

/// The file of 256 bytes, with some of its words changed.
fn file(alloc: Global, changes: &[(usize, u32)]) -> Result<Vec<u8>, AllocError> {
    let mut words = WORDS;
    for (place, word) in changes {
        if *place < words.len() {
            words[*place] = *word;
        }
    }
    let mut bytes = Vec::new(alloc);
    for word in words {
        bytes.extend_from_slice(&word.to_be_bytes())?;
    }
    bytes.resize(256, 0xAA)?;
    Ok(bytes)
}

/// The number of the rule that is broken, 0 for a plan and 255 for want of memory.
fn verdict(answer: &Result<Plan, ElfError>) -> u8 {
    match answer {
        Ok(_) => 0,
        Err(ElfError::Refused(rule)) => rule.number(),
        Err(ElfError::NoMemory) => 255,
    }
}

#[test]
fn each_rule_refuses(rt: HostRuntime) -> Result<(), Fail> {
    let alloc = rt.alloc();
    let rows = [
        ((0, 0x7F45_4C47), (8, 0), 2),
        ((1, 0x0202_0100), (8, 0), 3),
        ((1, 0x0101_0100), (8, 0), 4),
        ((1, 0x0102_0200), (8, 0), 5),
        ((5, 2), (8, 0), 5),
        ((4, 0x0003_0008), (8, 0), 6),
        ((4, 0x0002_0009), (8, 0), 7),
        ((9, 0x20), (8, 0), 8),
        ((9, 0x0200_0000), (8, 0), 8),
        ((9, 0x0400_0000), (8, 0), 8),
        ((10, 0x0034_001F), (8, 0), 9),
        ((7, 193), (8, 0), 9),
        ((21, 3), (8, 0), 10),
        // The bytes end one past the file's end, and exactly there; none, wherever they are.
        ((17, 257), (18, 300), 11),
        ((17, 256), (18, 300), 0),
        ((22, 0x1_0074), (25, 0), 0),
        ((18, 255), (8, 0), 12),
        // The lowest address, and the end at the stack, each kept and passed by one.
        ((15, 0x0FFF), (8, 0), 13),
        ((15, 0x1000), (8, 0), 0),
        ((15, 0x7F7E_F000), (18, 0x1001), 13),
        ((15, 0x7F7E_F000), (18, 0x1000), 0),
        ((15, 0x0040_0001), (8, 0), 14),
        // The first part ends one past the start of the second, and exactly there.
        ((18, 0x1_0075), (8, 0), 15),
        ((18, 0x1_0074), (8, 0), 0),
        // An overlap, and places that differ modulo the page.
        ((23, 0x0040_0010), (8, 0), 14),
        ((13, 0), (21, 4), 16),
        ((13, 0), (26, 0), 16),
        // No headers, with a size that nothing looks at.
        ((11, 0), (10, 0), 16),
        // One page and 120,000 pages, and one page less.
        ((26, 0x1D4B_FF8C), (8, 0), 17),
        ((26, 0x1D4B_EF8C), (8, 0), 0),
    ];
    for (first, second, rule) in rows {
        let bytes = file(alloc, &[first, second])?;
        let answer = parse(alloc, bytes.as_slice());
        assert_eq!(rt; verdict(&answer), rule, "rule {rule}, word {}", first.0);
    }
    Ok(())
}

#[test]
fn short_files(rt: HostRuntime) -> Result<(), Fail> {
    let alloc = rt.alloc();
    let bytes = file(alloc, &[(11, 0)])?;
    for (length, rule) in [(0, 1), (51, 1), (52, 16)] {
        let answer = parse(alloc, bytes.get(..length).ok_or("length")?);
        assert_eq!(rt; verdict(&answer), rule, "{length} bytes");
    }
    Ok(())
}

/// The plan of the file, with some of its words changed.
fn plan_of(alloc: Global, changes: &[(usize, u32)]) -> Result<Plan, Fail> {
    let bytes = file(alloc, changes)?;
    Ok(parse(alloc, bytes.as_slice()).map_err(|_| "refused")?)
}

#[test]
fn plan_of_a_file(rt: HostRuntime) -> Result<(), Fail> {
    let alloc = rt.alloc();
    let plan = plan_of(alloc, &[])?;
    assert_eq!(rt;
        (plan.entry, plan.phdr, plan.phnum),
        (0x0040_0074, 0x0040_0034, 2)
    );
    let segments = plan.segments.into_vec();
    let bytes = file(alloc, &[])?;
    are_the_segments(&rt, segments.as_slice(), bytes.as_slice());
    Ok(())
}

fn are_the_segments(rt: &impl Abort, segments: &[Segment], bytes: &[u8]) {
    let [first, second] = segments else {
        panic!(rt; "{} segments", segments.len());
    };
    assert_eq!(rt;
        (first.vaddr, first.memsz, first.prot),
        (0x0040_0000, 256, 5)
    );
    assert_eq!(rt; first.bytes.as_slice(), bytes);
    assert_eq!(rt;
        (second.vaddr, second.memsz, second.prot),
        (0x0041_0074, 256, 3)
    );
    assert_eq!(rt; second.bytes.as_slice(), [0xAA; 32].as_slice());
}

#[test]
fn a_table_that_is_not_wholly_inside_one_segment(rt: HostRuntime) -> Result<(), Fail> {
    let plan = plan_of(rt.alloc(), &[(17, 115)])?;
    assert_eq!(rt; (plan.phdr, plan.segments.as_slice().len()), (0, 2));
    Ok(())
}
