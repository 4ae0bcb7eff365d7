//! How the waits of sleeps end.
ghost use Rattle.std.specs.Prelude.{◌≡◌, ◌⊎◌, IfErr, IfOk, OnOk};
ghost use Rattle.bridge_log.specs.Leading.{LeadsOn};
ghost use Rattle.bridge_log.specs.Keeping.{EffectsLead};
ghost use Rattle.bridge_wait.specs.inside.Endings.{interrupted_if};
ghost use Rattle.kernel_model.specs.Clock.{left_until};
ghost use Rattle.kernel_model.specs.State.{Kernel};
ghost use Rattle.o32_calls.specs.Numbers.{time_number};
ghost use Rattle.o32_calls.specs.declared.times.TimeCall.TheVariants.{ClockNanosleep, Nanosleep};
ghost use Rattle.o32_model.specs.WaitEnds.{ends_with, sleep_ended, sleep_interrupted, wait_ended};

use crate::clock_times::ClockTime;
use bridge_log::{Below, put};
use guest_space::Space;
use kernel_core::{Errno, NoMemory, Stop};
use o32_calls::NANOSLEEP;
use o32_model::{Cause, Close, Log, Wait};

/// What a call that sleeps asked for.
#[derive(Clone, Copy)]
struct Sleeping {
    /// Whether it sleeps for a length of time, and not until a time of the clock.
    relative: bool,
    /// Where what is left of that length is stored; nowhere where it is 0.
    address: u32,
}

/// Ends the wait of a sleep for a cause, at a time of the clock in nanoseconds: nanosleep(2) and
/// clock_nanosleep(2). A handler ends one with EINTR, and of a length of time it stores what is left until the
/// wait's own deadline, or ends it with EFAULT where that can't be stored. No native call is made: the kernel
/// and host memory stay as they are. What is written is kept where effects are kept. It stops early only for
/// want of memory.
pub fn wait_end(
    wait: &Wait,
    cause: Cause,
    clock: u64,
    space: &mut Space,
    below: &mut Below,
) -> Result<Close, Stop>
    requires { (wait.now.nr ≡ time_number Nanosleep) ⊎ (wait.now.nr ≡ time_number ClockNanosleep) }
    ensures ends { IfOk result (λ close. wait_ended wait.now cause clock below.old.kernel.now space.old ≡ ends_with close below.new.kernel.now space.new) }
    ensures host { below.new.memory.now ≡ below.old.memory.now }
    ensures effects { OnOk result (EffectsLead below.old.log.now below.new.log.now space.old space.new) }
    ensures native { below.new.log.now.native ≡ below.old.log.now.native }
    ensures cause { IfErr result (λ stop. stop ≡ Stop.NoMemory) }
    ensures clock { below.new.kernel.now.clock ≡ below.old.kernel.now.clock }
    ensures same { LeadsOn below.old below.new }
{
    let close = closed(wait, cause, clock, space, below.log)?;
    Ok(close)
}

/// How the wait of a sleep ends, by the number of its call.
fn closed(
    wait: &Wait,
    cause: Cause,
    clock: u64,
    space: &mut Space,
    log: &mut Log,
) -> Result<Close, NoMemory>
    requires { (wait.now.nr ≡ time_number Nanosleep) ⊎ (wait.now.nr ≡ time_number ClockNanosleep) }
    ensures ends { IfOk result (λ close. (kernel : Kernel) → wait_ended wait.now cause clock kernel space.old ≡ ends_with close kernel space.new) }
    ensures effects { OnOk result (EffectsLead log.old log.new space.old space.new) }
    ensures native { log.new.native ≡ log.old.native }
{
    match wait.nr {
        NANOSLEEP => {
            let sleeping = Sleeping {
                relative: true,
                address: wait.words[1],
            };
            sleep_end(sleeping, wait, cause, clock, space, log)
        }
        _ => {
            let sleeping = Sleeping {
                relative: wait.words[1] == 0,
                address: wait.words[3],
            };
            sleep_end(sleeping, wait, cause, clock, space, log)
        }
    }
}

/// The same, by what its call asked for.
fn sleep_end(
    sleeping: Sleeping,
    wait: &Wait,
    cause: Cause,
    clock: u64,
    space: &mut Space,
    log: &mut Log,
) -> Result<Close, NoMemory>
    ensures ends { IfOk result (λ close. (kernel : Kernel)
        → sleep_ended (record { relative = sleeping.relative; address = sleeping.address }) wait.now cause clock kernel space.old ≡ ends_with close kernel space.new) }
    ensures effects { OnOk result (EffectsLead log.old log.new space.old space.new) }
    ensures native { log.new.native ≡ log.old.native }
{
    match cause {
        Cause::Due => Ok(Close::Value(0)),
        Cause::Accepted => Ok(Close::Value(0)),
        Cause::Handler => interrupted(sleeping, wait, clock, space, log),
        Cause::Stopped => Ok(if sleeping.relative {
            Close::Restart
        } else {
            Close::Again
        }),
    }
}

/// The end by a handler.
fn interrupted(
    sleeping: Sleeping,
    wait: &Wait,
    clock: u64,
    space: &mut Space,
    log: &mut Log,
) -> Result<Close, NoMemory>
    ensures ends { IfOk result (λ close. (kernel : Kernel)
        → sleep_interrupted (record { relative = sleeping.relative; address = sleeping.address }) wait.now clock kernel space.old ≡ ends_with close kernel space.new) }
    ensures effects { OnOk result (EffectsLead log.old log.new space.old space.new) }
    ensures native { log.new.native ≡ log.old.native }
{
    if !sleeping.relative || sleeping.address == 0 {
        return Ok(Close::Error(Errno::EINTR));
    }
    let left = ClockTime::of(left_until(clock, wait.deadline));
    let stored = put(space, sleeping.address, &left.spec_bytes(), log)?;
    Ok(interrupted_if(stored))
}

/// EINTR where what is left was stored, and else EFAULT.
fn interrupted_if(stored: bool) -> Close
    ensures { result ≡ interrupted_if stored }
{
    Close::Error(if stored { Errno::EINTR } else { Errno::EFAULT })
}

/// How long it is to a deadline, in nanoseconds, at least 0; 0 where there is none.
fn left_until(clock: u64, deadline: Option<u64>) -> u64
    ensures { result ≡ left_until clock deadline }
{
    match deadline {
        None => 0,
        Some(deadline) => deadline.saturating_sub(clock),
    }
}
