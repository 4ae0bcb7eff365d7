//! The small calls that ask the kernel for nothing.
ghost use Rattle.std.specs.Prelude.{◌≡◌};
ghost use Rattle.bridge_system.specs.Found.{found};
ghost use Rattle.bridge_system.specs.System.{small_call};
ghost use Rattle.bridge_system.specs.Plain.{IsPlain};
ghost use Rattle.guest_space.specs.Memory.{Memory};
ghost use Rattle.kernel_model.specs.SignalRows as signals;
ghost use Rattle.kernel_model.specs.System as system;
ghost use Rattle.mips_exec.specs.Processor.{Processor};
ghost use Rattle.o32_calls.specs.Numbers.{plain_number};
ghost use Rattle.o32_model.specs.Small.{exit_row, number_row, set_robust_list_row, set_thread_area_row};
ghost use Rattle.o32_model.specs.declared.call_words.CallWords.{CallWords};

use kernel_core::Errno;
use mips_exec::Cpu;
use o32_calls::PlainCall;
use o32_model::{CallWords, Outcome};

/// The process's own id, which is its thread's too. (The number is this project's own.)
const OWN_ID: u32 = 100;

/// The id of its parent. (This project's own.)
const PARENT_ID: u32 = 1;

/// The id of its user and group: it runs as root. (This project's own.)
const USER_ID: u32 = 0;

/// The size of the head of a robust list, in bytes (struct robust_list_head of Linux
/// `include/uapi/linux/futex.h`).
const ROBUST_LIST_SIZE: u32 = 12;

/// Makes a small call that asks the kernel for nothing, by its words: exit(2), exit_group(2), the ids, cacheflush(2),
/// sched_yield(2), set_tid_address(2), set_thread_area(2), set_robust_list(2). It takes no memory.
#[inline(always)]
pub fn plain_call(call: PlainCall, args: &CallWords, cpu: &mut Cpu) -> Outcome
    requires { args.now.nr ≡ plain_number call }
    ensures { (memory : Memory) → IsPlain (small_call (found args.now cpu.old memory)) result memory cpu.new }
{
    let [a0, a1, _, _] = args.reg;
    match call {
        PlainCall::Exit => exit(a0),
        PlainCall::Getpid => own_id(),
        PlainCall::Getuid => user_id(),
        PlainCall::Getgid => user_id(),
        PlainCall::Geteuid => user_id(),
        PlainCall::Getegid => user_id(),
        PlainCall::Getppid => parent_id(),
        PlainCall::Cacheflush => nothing_to_do(),
        PlainCall::SchedYield => nothing_to_do(),
        PlainCall::Gettid => own_id(),
        PlainCall::ExitGroup => exit(a0),
        PlainCall::SetTidAddress => own_id(),
        PlainCall::SetThreadArea => set_thread_area(a0, cpu),
        PlainCall::SetRobustList => set_robust_list(a1),
    }
}

/// exit(2), exit_group(2): the process ends with the low 8 bits of the status.
#[tactic(auto, unfolding(o32_model::specs::Small::exit_row))]
fn exit(status: u32) -> Outcome
    ensures { (words : CallWords) (processor : Processor) (memory : Memory)
        → IsPlain (λ kernel left. exit_row kernel (found words processor memory) status left) result memory processor }
{
    Outcome::Exit((status % 256) as u8)
}

/// getpid(2), gettid(2), set_tid_address(2): there is one thread, and nothing is kept of the address.
fn own_id() -> Outcome
    ensures { (words : CallWords) (processor : Processor) (memory : Memory)
        → IsPlain (λ kernel left. number_row signals.own_id kernel (found words processor memory) left) result memory processor }
{
    Outcome::Value(OWN_ID)
}

/// getppid(2).
fn parent_id() -> Outcome
    ensures { (words : CallWords) (processor : Processor) (memory : Memory)
        → IsPlain (λ kernel left. number_row signals.parent_id kernel (found words processor memory) left) result memory processor }
{
    Outcome::Value(PARENT_ID)
}

/// getuid(2), geteuid(2), getgid(2), getegid(2).
fn user_id() -> Outcome
    ensures { (words : CallWords) (processor : Processor) (memory : Memory)
        → IsPlain (λ kernel left. number_row system.user_id kernel (found words processor memory) left) result memory processor }
{
    Outcome::Value(USER_ID)
}

/// cacheflush(2) and sched_yield(2): instructions are fetched from memory, and there is nobody to yield to.
fn nothing_to_do() -> Outcome
    ensures { (words : CallWords) (processor : Processor) (memory : Memory)
        → IsPlain (λ kernel left. number_row 0 kernel (found words processor memory) left) result memory processor }
{
    Outcome::Value(0)
}

/// set_thread_area(2): the thread pointer, which RDHWR reads.
#[tactic(auto, unfolding(o32_model::specs::Small::set_thread_area_row))]
fn set_thread_area(address: u32, cpu: &mut Cpu) -> Outcome
    ensures { (words : CallWords) (memory : Memory)
        → IsPlain (λ kernel left. set_thread_area_row kernel (found words cpu.old memory) address left) result memory cpu.new }
{
    cpu.tls = address;
    Outcome::Value(0)
}

/// set_robust_list(2), of a head of this size: nothing is kept of it, since there is one thread.
#[tactic(auto, unfolding(o32_model::specs::Small::set_robust_list_row))]
fn set_robust_list(size: u32) -> Outcome
    ensures { (words : CallWords) (processor : Processor) (memory : Memory)
        → IsPlain (λ kernel left. set_robust_list_row kernel (found words processor memory) size left) result memory processor }
{
    if size == ROBUST_LIST_SIZE {
        Outcome::Value(0)
    } else {
        Outcome::Error(Errno::EINVAL)
    }
}
