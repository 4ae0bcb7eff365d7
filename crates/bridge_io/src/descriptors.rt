//! Closing and duplicating descriptors: close(2), dup(2).
ghost use Rattle.std.specs.Prelude.{◌≡◌, ◌==◌, true, false, ℕ, List};
ghost use Rattle.bridge_log.specs.Proceeding.{Proceeds};
ghost use Rattle.bridge_io.specs.inside.Outcomes.{outcome_with, told_value};
ghost use Rattle.bridge_log.specs.Arguments.{AreUnusedZero, IsPlaced};
ghost use Rattle.bridge_log.specs.Keeping.{KeepsCall};
ghost use Rattle.bridge_log.specs.Mirrors.{Mirrors};
ghost use Rattle.native_calls.specs.Table.{native_call};
ghost use Rattle.bridge_log.specs.Built.{built_call};
ghost use Rattle.o32_model.specs.Answered.{IsCall};
ghost use Rattle.o32_model.specs.Descriptors.{close_row, dup_row, dup2_row, dup3_row};
ghost use Rattle.o32_model.specs.Step.{Guest, O32Step};
ghost use Rattle.outside.specs.Streams.{contents};

use crate::numbers::F_GETFD;
use bridge_log::{Below, outcome_of};
use kernel_core::{Reply, Stop};
use native_numbers::{CLOSE, DUP, DUP3, FCNTL};
use o32_model::{CallWords, Outcome};
use outside::{Devices, Sink, Source};

/// close(2): EBADF.
pub(crate) fn close<I: Source, O: Sink, E: Sink>(
    words: &CallWords,
    fd: u32,
    dev: &mut Devices<I, O, E>,
    below: &mut Below,
) -> Result<Outcome, Stop>
    ensures row { (guest : Guest) → guest.words ≡ words.now
        → IsCall (close_row below.old.kernel.now guest fd) result below.new.kernel.now guest.memory guest.processor
        (contents I.left O.written E.written dev.old) (contents I.left O.written E.written dev.new) }
    ensures kept { (guest : Guest) → guest.words ≡ words.now
        → KeepsCall (close_row below.old.kernel.now guest fd) result below.old.kernel.now guest (I.left dev.old.input) below.old.log.now below.new.log.now }
    ensures proceeds { Proceeds I.faults O.faults E.faults result below.old below.new dev.old dev.new }
{
    below.memory.clear();
    below.number_call(words, CLOSE, [u64::from(fd), 0, 0, 0, 0, 0], dev)
}

/// dup(2): EBADF, EMFILE.
pub(crate) fn dup<I: Source, O: Sink, E: Sink>(
    words: &CallWords,
    fd: u32,
    dev: &mut Devices<I, O, E>,
    below: &mut Below,
) -> Result<Outcome, Stop>
    ensures row { (guest : Guest) → guest.words ≡ words.now
        → IsCall (dup_row below.old.kernel.now guest fd) result below.new.kernel.now guest.memory guest.processor
        (contents I.left O.written E.written dev.old) (contents I.left O.written E.written dev.new) }
    ensures kept { (guest : Guest) → guest.words ≡ words.now
        → KeepsCall (dup_row below.old.kernel.now guest fd) result below.old.kernel.now guest (I.left dev.old.input) below.old.log.now below.new.log.now }
    ensures proceeds { Proceeds I.faults O.faults E.faults result below.old below.new dev.old dev.new }
{
    below.kernel.whole();
    below.memory.clear();
    below.number_call(words, DUP, [u64::from(fd), 0, 0, 0, 0, 0], dev)
}

/// dup3(2): EBADF, EINVAL onto itself, EBADF past the last descriptor, EINVAL for flags other than O_CLOEXEC.
pub(crate) fn dup3<I: Source, O: Sink, E: Sink>(
    words: &CallWords,
    fd: u32,
    onto: u32,
    flags: u32,
    dev: &mut Devices<I, O, E>,
    below: &mut Below,
) -> Result<Outcome, Stop>
    ensures row { (guest : Guest) → guest.words ≡ words.now
        → IsCall (dup3_row below.old.kernel.now guest fd onto flags) result below.new.kernel.now guest.memory guest.processor
        (contents I.left O.written E.written dev.old) (contents I.left O.written E.written dev.new) }
    ensures kept { (guest : Guest) → guest.words ≡ words.now
        → KeepsCall (dup3_row below.old.kernel.now guest fd onto flags) result below.old.kernel.now guest (I.left dev.old.input) below.old.log.now below.new.log.now }
    ensures proceeds { Proceeds I.faults O.faults E.faults result below.old below.new dev.old dev.new }
{
    below.memory.clear();
    let args = [u64::from(fd), u64::from(onto), u64::from(flags), 0, 0, 0];
    below.number_call(words, DUP3, args, dev)
}

/// dup2(2): EBADF, and onto itself nothing is done.
pub(crate) fn dup2<I: Source, O: Sink, E: Sink>(
    words: &CallWords,
    fd: u32,
    onto: u32,
    dev: &mut Devices<I, O, E>,
    below: &mut Below,
) -> Result<Outcome, Stop>
    ensures row { (guest : Guest) → guest.words ≡ words.now
        → IsCall (dup2_row below.old.kernel.now guest fd onto) result below.new.kernel.now guest.memory guest.processor
        (contents I.left O.written E.written dev.old) (contents I.left O.written E.written dev.new) }
    ensures kept { (guest : Guest) → guest.words ≡ words.now
        → KeepsCall (dup2_row below.old.kernel.now guest fd onto) result below.old.kernel.now guest (I.left dev.old.input) below.old.log.now below.new.log.now }
    ensures proceeds { Proceeds I.faults O.faults E.faults result below.old below.new dev.old dev.new }
{
    below.memory.clear();
    if fd == onto {
        let args = [u64::from(fd), F_GETFD, 0, 0, 0, 0];
        return told_call(words, onto, FCNTL, args, dev, below);
    }
    let args = [u64::from(fd), u64::from(onto), 0, 0, 0, 0];
    below.number_call(words, DUP3, args, dev)
}

/// Makes a native call whose number, where it is no error, stands for another one.
fn told_call<I: Source, O: Sink, E: Sink>(
    words: &CallWords,
    value: u32,
    nr: u64,
    args: [u64; 6],
    dev: &mut Devices<I, O, E>,
    below: &mut Below,
) -> Result<Outcome, Stop>
    requires built { built_call nr ≡ native_call nr }
    requires unused { AreUnusedZero nr args }
    requires placed { IsPlaced nr below.old.memory.now }
    ensures row { (guest : Guest) (step : List ℕ → O32Step) → guest.words ≡ words.now
        → ((left : List ℕ) → Mirrors guest (told_value guest.words value) (native_call nr args below.old.kernel.now below.old.memory.now left) (step left))
        → IsCall step result below.new.kernel.now guest.memory guest.processor
        (contents I.left O.written E.written dev.old) (contents I.left O.written E.written dev.new) }
    ensures kept { (guest : Guest) (step : List ℕ → O32Step) → guest.words ≡ words.now
        → ((left : List ℕ) → Mirrors guest (told_value guest.words value) (native_call nr args below.old.kernel.now below.old.memory.now left) (step left))
        → KeepsCall step result below.old.kernel.now guest (I.left dev.old.input) below.old.log.now below.new.log.now }
    ensures proceeds { Proceeds I.faults O.faults E.faults result below.old below.new dev.old dev.new }
{
    let reply = below.native(nr, args, dev)?;
    Ok(outcome_with(words, value, reply))
}

/// What a reply comes to whose number stands for another one.
fn outcome_with(words: &CallWords, value: u32, reply: Reply) -> Outcome
    ensures { result ≡ outcome_with words.now value reply }
{
    match reply {
        Reply::Done(number) if number >= 0 => Outcome::Value(value),
        _ => outcome_of(words, reply),
    }
}
