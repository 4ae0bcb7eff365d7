//! The effects of jumps and branches.
ghost use Rattle.std.specs.Prelude.{◌≡◌, Some};
ghost use Rattle.mips_exec.specs.Jumps.{branch_target, jump_target, branch, branch_likely, is_negative, is_positive};

use crate::arithmetic::word_of;
use crate::cpu::Cpu;
use crate::effect::Effect;

/// The register that JAL and the branches that link write.
pub const RETURN_ADDRESS: Option<u8> = Some(31);

/// A jump, whose slot comes next.
#[inline]
pub fn branch_to(link: Option<u8>, target: u32) -> Effect
    ensures { result ≡ Effect.Branch link (Some target) }
{
    Effect::Branch {
        link,
        target: Some(target),
    }
}

/// A branch, which has a slot whether it is taken or not.
#[inline]
pub fn branch_if(link: Option<u8>, cpu: &Cpu, imm: i16, taken: bool) -> Effect
    ensures { result ≡ branch link cpu.now imm taken }
{
    let target = if taken {
        branch_target(cpu, imm)
    } else {
        cpu.pc.wrapping_add(8)
    };
    branch_to(link, target)
}

/// A likely branch, which leaves its slot out where it is not taken.
#[inline]
pub fn likely_if(link: Option<u8>, cpu: &Cpu, imm: i16, taken: bool) -> Effect
    ensures { result ≡ branch_likely link cpu.now imm taken }
{
    let target = if taken {
        Some(branch_target(cpu, imm))
    } else {
        None
    };
    Effect::Branch { link, target }
}

/// Where a branch goes: a count of words from its slot.
#[inline]
fn branch_target(cpu: &Cpu, imm: i16) -> u32
    ensures { result ≡ branch_target cpu.now imm }
{
    cpu.pc
        .wrapping_add(4)
        .wrapping_add(word_of(imm).wrapping_mul(4))
}

/// Where a jump goes: within the 256 MiB of its slot.
#[inline]
pub fn jump_target(cpu: &Cpu, index: u32) -> u32
    ensures { result ≡ jump_target cpu.now index }
{
    let slot = cpu.pc.wrapping_add(4);
    slot / 0x1000_0000 * 0x1000_0000 + index % 0x400_0000 * 4
}

/// Whether a word is below 0 as a signed number.
#[inline]
pub fn is_negative(a: u32) -> bool
    ensures { result ≡ is_negative a }
{
    a >= 0x8000_0000
}

/// Whether a word is above 0 as a signed number.
#[inline]
pub fn is_positive(a: u32) -> bool
    ensures { result ≡ is_positive a }
{
    0 < a && a < 0x8000_0000
}
