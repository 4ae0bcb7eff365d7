//! What the end of a wait does to the registers.
ghost use Rattle.std.specs.Prelude.{◌≡◌, OnOk, ℕ, List};
ghost use Rattle.bridge_ends.specs.inside.Endings.{done, put_over, restarted, returning};
ghost use Rattle.guest_space.specs.Memory.{Memory};
ghost use Rattle.kernel_model.specs.State.{Kernel};
ghost use Rattle.o32_model.specs.WaitEnds.{ends_with};
ghost use Rattle.o32_model.specs.Words.{with_result};
ghost use Rattle.o32_turns.specs.Closing.{put_back};
ghost use Rattle.o32_turns.specs.Going.{within_of};
ghost use Rattle.o32_turns.specs.Machine.{with_change};
ghost use Rattle.schedule.specs.declared.events.Due.{Due};

use kernel_core::{Event, NoMemory};
use mips_exec::Cpu;
use number_tables::O32Number;
use o32_calls::RESTART_SYSCALL;
use o32_model::{Close, Wait};
use o32_turns::Going;

// The registers of a call's results (System V ABI, MIPS supplement; syscall(2)).

/// The result of a call, or its error's number.
const V0: u8 = 2;

/// Whether a call failed: 0, or 1 where it did.
const A3: u8 = 7;

/// The bytes of a SYSCALL, past which the program counter stands while its call waits.
const SYSCALL_SIZE: u32 = 4;

/// Ends the wait of a call so: the call returns, or is carried out again, or goes on by restart_syscall(2).
pub(crate) fn close(
    wait: &Wait,
    close: Close,
    going: &mut Going,
    cpu: &mut Cpu,
) -> Result<(), NoMemory>
    ensures { OnOk result ((memory : Memory) (kernel : Kernel) (coming : List Due) (idle : ℕ)
        → within_of going.new cpu.new memory kernel coming idle
        ≡ put_over wait.now (ends_with close kernel memory) (within_of going.old cpu.old memory kernel coming idle)) }
{
    going.wait = None;
    going.interrupted = false;
    match close {
        Close::Value(value) => returns(value, false, going, cpu),
        Close::Error(error) => returns(error.to_o32(), true, going, cpu),
        Close::Again => comes_again(wait.nr, wait, going, cpu),
        Close::Restart => {
            going.restart = Some(*wait);
            comes_again(RESTART_SYSCALL, wait, going, cpu)
        }
    }
}

/// The call returns a result, or its error's number.
fn returns(value: u32, failed: bool, going: &mut Going, cpu: &mut Cpu) -> Result<(), NoMemory>
    ensures registers { OnOk result (cpu.new ≡ returning cpu.old value failed) }
    ensures told { OnOk result (going.new ≡ done going.old cpu.new) }
{
    cpu.set_register(V0, value);
    cpu.set_register(A3, u32::from(failed));
    going.events.push(Event::Done {
        v0: cpu.register(V0),
        a3: cpu.register(A3),
    })?;
    Ok(())
}

/// The SYSCALL of a wait comes again, with this number in $v0, and with the argument in $a3 that was there.
fn comes_again(number: u32, wait: &Wait, going: &mut Going, cpu: &mut Cpu) -> Result<(), NoMemory>
    ensures registers { OnOk result (cpu.new ≡ put_back number wait.now cpu.old) }
    ensures told { OnOk result (going.new ≡ restarted going.old number) }
{
    let syscall = cpu.pc.wrapping_sub(SYSCALL_SIZE);
    cpu.set_register(V0, number);
    cpu.set_register(A3, wait.words[3]);
    cpu.pc = syscall;
    going.events.push(Event::Restart { nr: number })?;
    Ok(())
}
