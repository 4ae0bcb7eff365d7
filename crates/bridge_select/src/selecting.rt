//! The calls by what they ask for: one native call, whose answer is told, or a wait.
ghost use Rattle.std.specs.Prelude.{◌≡◌, ◌%◌, ◌^◌};
ghost use Rattle.std.specs.Int.{cast_signed, w32};
ghost use Rattle.bridge_limits.specs.Passed.{KeepsCall, LooksFor, Proceeds};
ghost use Rattle.bridge_select.specs.Found.{found};
ghost use Rattle.bridge_select.specs.inside.Requests.{requested, selects};
ghost use Rattle.bridge_select.specs.inside.Telling.{Answered};
ghost use Rattle.mips_exec.specs.Processor.{Processor};
ghost use Rattle.o32_model.specs.Answered.{IsCall};
ghost use Rattle.outside.specs.Streams.{contents};

use crate::requests::Request;
use crate::rooms::put_request;
use crate::telling::{Answer, tell};
use bridge_limits::{Below, sleep};
use guest_space::Space;
use kernel_core::{Reply, Stop};
use native_numbers::PSELECT6;
use o32_model::{CallWords, Outcome};
use outside::{Devices, Sink, Source};

/// Makes a call by what it asks for: which descriptors are ready is found by the native kernel and stored, with the time
/// that is left; or it waits, with its own mask where it has one.
pub(crate) fn select<I: Source, O: Sink, E: Sink>(
    words: &CallWords,
    request: &Request,
    space: &mut Space,
    dev: &mut Devices<I, O, E>,
    below: &mut Below,
) -> Result<Outcome, Stop>
    ensures row { (processor : Processor) → IsCall (selects below.old.kernel.now (found words.now processor space.old) (requested request.now)) result below.new.kernel.now space.new processor
        (contents I.left O.written E.written dev.old) (contents I.left O.written E.written dev.new) }
    ensures kept { (processor : Processor) → KeepsCall (selects below.old.kernel.now (found words.now processor space.old) (requested request.now)) result below.old.kernel.now
        (found words.now processor space.old) (I.left dev.old.input) below.old.log.now below.new.log.now }
    ensures proceeds { Proceeds I.faults O.faults E.faults result below.old below.new dev.old dev.new }
{
    let answer = ask(request, space, dev, below)?;
    match answer.reply {
        Reply::Sleep(wake) => sleep(words, wake.until, request.mask.mask, dev, below),
        Reply::Done(_) => {
            let outcome = tell(words, request, answer, below.memory, space, below.log)?;
            Ok(outcome)
        }
    }
}

/// Makes the native call, which changes nothing but host memory.
fn ask<I: Source, O: Sink, E: Sink>(
    request: &Request,
    space: &Space,
    dev: &mut Devices<I, O, E>,
    below: &mut Below,
) -> Result<Answer, Stop>
    ensures looks { LooksFor (λ answer. Answered below.old.kernel.now space.now (requested request.now) answer below.new.memory.now) result below.old.kernel.now below.new.kernel.now
        (contents I.left O.written E.written dev.old) (contents I.left O.written E.written dev.new) below.old.log.now below.new.log.now }
    ensures proceeds { Proceeds I.faults O.faults E.faults result below.old below.new dev.old dev.new }
{
    let places = put_request(request, space, below.memory)?;
    let args = [
        extended(request.asked.count),
        places.read,
        places.write,
        places.except,
        places.time,
        places.pair,
    ];
    let reply = below.look(PSELECT6, args, dev)?;
    Ok(Answer { reply, places })
}

/// The count as the native call takes it: its 32 bits with its sign before them.
fn extended(count: i32) -> u64
    ensures { cast_signed w32 (result % 2 ^ 32) ≡ count }
{
    i64::from(count).cast_unsigned()
}
