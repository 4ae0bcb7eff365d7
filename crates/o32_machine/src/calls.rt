//! A call of the program that a bridge makes.
ghost use Rattle.std.specs.Prelude.{◌≡◌};
ghost use Rattle.bridge_log.specs.Keeping.{KeepsCall};
ghost use Rattle.bridge_system.specs.Found.{found};
ghost use Rattle.kernel_model.specs.Stops.{StopsOnlyIfRose};
ghost use Rattle.o32_calls.specs.Numbers.{bridged_number};
ghost use Rattle.o32_model.specs.Answered.{IsCall};
ghost use Rattle.o32_model.specs.Table.{machine_call};
ghost use Rattle.outside.specs.Streams.{NoCountFell, contents};

use crate::process_core::Core;
use bridge_delivery::{acceptance_call, poll_call, select_call, wait_call};
use bridge_entries::entries_call;
use bridge_file::file_call;
use bridge_map::map_call;
use bridge_open::open_call;
use bridge_signal::signal_call;
use bridge_status::status_call;
use bridge_system::{io_call, system_call};
use bridge_timer::timer_call;
use kernel_core::Stop;
use o32_calls::BridgedCall;
use o32_model::{CallWords, Log, Outcome, Seen};
use outside::{Devices, Sink, Source};

/// Makes a call of the program, by its words. The native clock stands at the machine's.
#[inline(always)]
pub(crate) fn make_call<I: Source, O: Sink, E: Sink>(
    call: BridgedCall,
    words: &CallWords,
    seen: &Seen,
    core: &mut Core,
    dev: &mut Devices<I, O, E>,
    log: &mut Log,
) -> Result<Outcome, Stop>
    requires { words.now.nr ≡ bridged_number call }
    ensures row { IsCall (machine_call seen.now core.old.kernel (found words.now core.old.cpu core.old.space)) result core.new.kernel core.new.space core.new.cpu
        (contents I.left O.written E.written dev.old) (contents I.left O.written E.written dev.new) }
    ensures kept { KeepsCall (machine_call seen.now core.old.kernel (found words.now core.old.cpu core.old.space)) result core.old.kernel
        (found words.now core.old.cpu core.old.space) (I.left dev.old.input) log.old log.new }
    ensures clock { core.new.kernel.clock ≡ core.old.kernel.clock }
    ensures cause { StopsOnlyIfRose I.faults O.faults E.faults result dev.old dev.new }
    ensures counts { NoCountFell I.faults O.faults E.faults dev.old dev.new }
{
    let Core {
        cpu,
        space,
        kernel,
        memory,
        alloc,
    } = core;
    let alloc = *alloc;
    match call {
        BridgedCall::Io(call) => io_call(call, words, cpu, space, kernel, memory, dev, log, seen),
        BridgedCall::Open(call) => open_call(
            call, alloc, words, cpu, space, kernel, memory, dev, log, seen,
        ),
        BridgedCall::Status(call) => status_call(
            call, alloc, words, cpu, space, kernel, memory, dev, log, seen,
        ),
        BridgedCall::Entries(call) => entries_call(
            call, alloc, words, cpu, space, kernel, memory, dev, log, seen,
        ),
        BridgedCall::File(call) => file_call(
            call, alloc, words, cpu, space, kernel, memory, dev, log, seen,
        ),
        BridgedCall::Map(call) => map_call(call, words, cpu, space, kernel, memory, dev, log, seen),
        BridgedCall::Time(call) => wait_call(
            call, words, cpu, space, kernel, memory, dev, log, seen,
        ),
        BridgedCall::Timer(call) => timer_call(
            call, words, cpu, space, kernel, memory, dev, log, seen,
        ),
        BridgedCall::Poll(call) => poll_call(
            call, words, cpu, space, kernel, memory, dev, log, seen,
        ),
        BridgedCall::Select(call) => select_call(
            call, words, cpu, space, kernel, memory, dev, log, seen,
        ),
        BridgedCall::RtSigtimedwait => acceptance_call(
            words, cpu, space, kernel, memory, dev, log, seen,
        ),
        BridgedCall::Signal(call) => signal_call(
            call, words, cpu, space, kernel, memory, dev, log, seen,
        ),
        BridgedCall::System(call) => system_call(call, words, cpu, space, kernel, memory, dev, log),
    }
}
