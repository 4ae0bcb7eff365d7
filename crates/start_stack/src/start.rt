//! The state in which a program starts.
ghost use Rattle.std.specs.Prelude.{◌≡◌, ◌<◌, ◌↔◌, length, map, string_bytes, IsErrOf, IfOk};
ghost use Rattle.elf_image.specs.Loading.{IsValidPlan};
ghost use Rattle.start_stack.specs.Stack.{start_size, start_limit};
ghost use Rattle.start_stack.specs.Start.{start_memory, start_processor};

use crate::error::StartError;
use crate::segments::{load_segments, top_page};
use crate::stack::{map_stack, map_trampolines};
use crate::stack_text::StackText;
use elf_image::Plan;
use guest_space::Space;
use kernel_core::address_space::PAGE_SIZE;
use mips_exec::Cpu;
use std::alloc::Global;

/// The register that holds the stack pointer (MIPS RISC Processor Supplement, 3rd edition).
const STACK_POINTER: u8 = 29;

/// The memory and the processor of a program that has not run yet.
#[derive(Drop)]
pub struct Start {
    /// The memory: segments, stack, trampolines and break.
    pub space: Space,
    /// The processor, with pc at the entry.
    pub cpu: Cpu,
}

/// Makes the first memory and processor of the program of `plan` with these arguments, the first of
/// which names the program, this environment and these random bytes.
///
/// The strings and words of the stack may take 131,072 bytes together (this project's own); where
/// they take more the answer is [`StartError::TooLong`]. [`StartError::NoMemory`] comes for want of
/// memory alone.
pub fn build(
    alloc: Global,
    plan: &Plan,
    args: &[String],
    env: &[String],
    random: [u8; 16],
) -> Result<Start, StartError>
    requires valid { IsValidPlan plan.now }
    requires named { 0 < length args.now }
    ensures too_long { IsErrOf result StartError.TooLong ↔ (start_limit < start_size (map string_bytes args.now) (map string_bytes env.now)) }
    ensures space { IfOk result (λ start. start.space ≡ start_memory plan.now (map string_bytes args.now) (map string_bytes env.now) random) }
    ensures cpu { IfOk result (λ start. start.cpu ≡ start_processor plan.now (map string_bytes args.now) (map string_bytes env.now)) }
{
    let text = StackText::new(alloc, plan, args, env, &random)?;
    let segments = plan.segments.as_slice();
    let mut space = Space::new(alloc)?;
    load_segments(alloc, &mut space, segments)?;
    map_stack(&mut space, &text)?;
    map_trampolines(&mut space)?;
    space.set_break(top_page(segments) * PAGE_SIZE);
    let mut cpu = Cpu::new(plan.entry);
    cpu.set_register(STACK_POINTER, text.stack_pointer);
    Ok(Start { space, cpu })
}
