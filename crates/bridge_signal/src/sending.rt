//! Sending signals: kill(2), tkill(2), tgkill(2), rt_sigqueueinfo(2).
ghost use Rattle.std.specs.Prelude.{◌≡◌};
ghost use Rattle.std.specs.Int.{w32, cast_signed};
ghost use Rattle.bridge_signal_state.specs.Passed.{KeepsCall, Proceeds};
ghost use Rattle.o32_model.specs.Answered.{IsCall};
ghost use Rattle.o32_model.specs.Sending.{kill_row, rt_sigqueueinfo_row, tgkill_row, tkill_row};
ghost use Rattle.o32_model.specs.Step.{Guest};
ghost use Rattle.o32_model.specs.Words.{argument};
ghost use Rattle.outside.specs.Streams.{contents};

use crate::infos::take_info;
use crate::named::native_number;
use bridge_signal_state::Below;
use guest_space::Space;
use kernel_core::Stop;
use native_numbers::{KILL, RT_SIGQUEUEINFO, TGKILL, TKILL};
use o32_model::{CallWords, Outcome};
use outside::{Devices, Sink, Source};

/// kill(2): ESRCH for another process than this one and its group, EINVAL for a number above 128, EAGAIN where as
/// many signals as may be queued are. The number 0 sends nothing.
pub(crate) fn kill<I: Source, O: Sink, E: Sink>(
    words: &CallWords,
    pid: u32,
    number: u32,
    dev: &mut Devices<I, O, E>,
    below: &mut Below,
) -> Result<Outcome, Stop>
    ensures row { (guest : Guest) → guest.words ≡ words.now
        → IsCall (kill_row below.old.kernel.now guest (cast_signed w32 pid) number) result below.new.kernel.now guest.memory guest.processor
        (contents I.left O.written E.written dev.old) (contents I.left O.written E.written dev.new) }
    ensures kept { (guest : Guest) → guest.words ≡ words.now
        → KeepsCall (kill_row below.old.kernel.now guest (cast_signed w32 pid) number) result below.old.kernel.now guest (I.left dev.old.input) below.old.log.now below.new.log.now }
    ensures proceeds { Proceeds I.faults O.faults E.faults result below.old below.new dev.old dev.new }
{
    below.memory.clear();
    let args = [u64::from(pid), native_number(number), 0, 0, 0, 0];
    below.number_call(words, KILL, args, dev)
}

/// tkill(2): EINVAL for a thread below 1, ESRCH for another than the one of this process; then as [`kill`].
pub(crate) fn tkill<I: Source, O: Sink, E: Sink>(
    words: &CallWords,
    tid: u32,
    number: u32,
    dev: &mut Devices<I, O, E>,
    below: &mut Below,
) -> Result<Outcome, Stop>
    ensures row { (guest : Guest) → guest.words ≡ words.now
        → IsCall (tkill_row below.old.kernel.now guest (cast_signed w32 tid) number) result below.new.kernel.now guest.memory guest.processor
        (contents I.left O.written E.written dev.old) (contents I.left O.written E.written dev.new) }
    ensures kept { (guest : Guest) → guest.words ≡ words.now
        → KeepsCall (tkill_row below.old.kernel.now guest (cast_signed w32 tid) number) result below.old.kernel.now guest (I.left dev.old.input) below.old.log.now below.new.log.now }
    ensures proceeds { Proceeds I.faults O.faults E.faults result below.old below.new dev.old dev.new }
{
    below.memory.clear();
    let args = [u64::from(tid), native_number(number), 0, 0, 0, 0];
    below.number_call(words, TKILL, args, dev)
}

/// tgkill(2): EINVAL for a process or a thread below 1, ESRCH for another than this one; then as [`kill`].
pub(crate) fn tgkill<I: Source, O: Sink, E: Sink>(
    words: &CallWords,
    pid: u32,
    tid: u32,
    number: u32,
    dev: &mut Devices<I, O, E>,
    below: &mut Below,
) -> Result<Outcome, Stop>
    ensures row { (guest : Guest) → guest.words ≡ words.now
        → IsCall (tgkill_row below.old.kernel.now guest (cast_signed w32 pid) (cast_signed w32 tid) number) result below.new.kernel.now guest.memory guest.processor
        (contents I.left O.written E.written dev.old) (contents I.left O.written E.written dev.new) }
    ensures kept { (guest : Guest) → guest.words ≡ words.now
        → KeepsCall (tgkill_row below.old.kernel.now guest (cast_signed w32 pid) (cast_signed w32 tid) number) result below.old.kernel.now guest
        (I.left dev.old.input) below.old.log.now below.new.log.now }
    ensures proceeds { Proceeds I.faults O.faults E.faults result below.old below.new dev.old dev.new }
{
    below.memory.clear();
    let args = [
        u64::from(pid),
        u64::from(tid),
        native_number(number),
        0,
        0,
        0,
    ];
    below.number_call(words, TGKILL, args, dev)
}

/// rt_sigqueueinfo(2): ESRCH for another process, EINVAL for a number above 128, EFAULT, EAGAIN. The code, errno, pid,
/// uid and value of the structure are those of the signal.
pub(crate) fn rt_sigqueueinfo<I: Source, O: Sink, E: Sink>(
    words: &CallWords,
    space: &Space,
    dev: &mut Devices<I, O, E>,
    below: &mut Below,
) -> Result<Outcome, Stop>
    ensures row { (guest : Guest) → guest.words ≡ words.now → guest.memory ≡ space.now
        → IsCall (rt_sigqueueinfo_row below.old.kernel.now guest (cast_signed w32 (argument words.now 0)) (argument words.now 1) (argument words.now 2)) result below.new.kernel.now space.now guest.processor
        (contents I.left O.written E.written dev.old) (contents I.left O.written E.written dev.new) }
    ensures kept { (guest : Guest) → guest.words ≡ words.now → guest.memory ≡ space.now
        → KeepsCall (rt_sigqueueinfo_row below.old.kernel.now guest (cast_signed w32 (argument words.now 0)) (argument words.now 1) (argument words.now 2)) result below.old.kernel.now guest
        (I.left dev.old.input) below.old.log.now below.new.log.now }
    ensures proceeds { Proceeds I.faults O.faults E.faults result below.old below.new dev.old dev.new }
{
    let [pid, number, address, _] = words.reg;
    let place = take_info(space, address, below.memory)?;
    let args = [u64::from(pid), native_number(number), place, 0, 0, 0];
    below.number_call(words, RT_SIGQUEUEINFO, args, dev)
}
