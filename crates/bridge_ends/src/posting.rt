//! Signals that come from outside, and the timer's.
ghost use Rattle.std.specs.Prelude.{◌≡◌, ◌≤◌, ◌==◌, ℕ, List, None, OnOk};
ghost use Rattle.std.specs.List.{list_any};
ghost use Rattle.bridge_ends.specs.inside.Endings.{happened, has_come, names, timer_told};
ghost use Rattle.guest_space.specs.Memory.{Memory};
ghost use Rattle.kernel_model.specs.Clock.{gone_off};
ghost use Rattle.kernel_model.specs.Pending.{CanPend};
ghost use Rattle.kernel_model.specs.SignalRows.{info_of, parent_id};
ghost use Rattle.kernel_model.specs.SignalSets.{place};
ghost use Rattle.kernel_model.specs.State.{Kernel};
ghost use Rattle.mips_exec.specs.Processor.{Processor};
ghost use Rattle.o32_turns.specs.Turn.{whole};
ghost use Rattle.o32_turns.specs.Going.{within_of};
ghost use Rattle.o32_turns.specs.Posting.{event_info, let_go, post_event, sent_to, timer_posted};
ghost use Rattle.schedule.specs.declared.events.Due.{Due};

use bridge_acceptance::awaits;
use bridge_poll::NativeKernel;
use guest_space::Space;
use kernel_core::{Event, Info, NoMemory, Sig};
use kernel_model::Post;
use number_tables::{O32Number, SI_QUEUE, SI_USER};
use o32_turns::Going;
use schedule::Due;

/// The process that sends what comes from outside: the parent of the program's.
const PARENT_ID: u32 = 1;

/// Posts the signal of an event of the schedule, whatever its time, and tells what became of it; a stopped process goes
/// on by SIGCONT and by SIGKILL (signal(7)). The signal's number is an o32 one, 1 to 128, and any other is SIGHUP's. One
/// that is ignored is kept where a call waits for it by name (sigtimedwait(2)), by the set in `space`. After NoMemory
/// process and kernel are not used again.
pub fn post_event(
    due: Due,
    going: &mut Going,
    space: &Space,
    k: &mut NativeKernel,
) -> Result<(), NoMemory>
    ensures posts { OnOk result ((processor : Processor) (coming : List Due) (idle : ℕ)
        → within_of going.new processor space.now k.new coming idle
        ≡ sent_to whole (within_of going.old processor space.now k.old coming idle) (event_info due)) }
    ensures clock { k.new.clock ≡ k.old.clock }
{
    let info = event_info(due);
    let awaited = waits_for(info.sig, going, space);
    let post = k.post(info, awaited)?;
    tell_post(info.sig, post, going)?;
    let_go(info.sig, going)?;
    Ok(())
}

/// Moves the kernel's clock to a time, in nanoseconds, which is not before its own, and tells of the timer's signal,
/// where the timer was due by then (setitimer(2)), and is not then. Where it is ignored it is kept as in [`post_event`]. After NoMemory
/// process and kernel are not used again.
pub fn post_timer(
    clock: u64,
    going: &mut Going,
    space: &Space,
    k: &mut NativeKernel,
) -> Result<(), NoMemory>
    requires later { k.old.clock ≤ clock }
    ensures posts { OnOk result ((processor : Processor) (coming : List Due) (idle : ℕ)
        → within_of going.new processor space.now k.new coming idle
        ≡ timer_posted whole (within_of going.old processor space.now (record k.old { clock = clock }) coming idle)) }
    ensures clock { k.new.clock ≡ clock }
    ensures waits { OnOk result (gone_off clock k.new.timer ≡ None) }
{
    let next = k.next_time();
    let awaited = waits_for(Sig::Alrm, going, space);
    k.advance(clock, awaited)?;
    tell_timer(next, clock, going)?;
    Ok(())
}

/// Whether the call that waits waits for a signal by name. One that a stop interrupted waits for none.
fn waits_for(sig: Sig, going: &Going, space: &Space) -> bool
    ensures { result ≡ list_any (λ other. place other == place sig) (names going.now.interrupted space.now going.now.wait) }
{
    match going.wait {
        Some(wait) if !going.interrupted => awaits(&wait, space, sig),
        _ => false,
    }
}

/// What is known of the signal of an event of the schedule: sent by kill(2) with the code SI_USER and the value 0, or,
/// where the event has a value, queued with it by sigqueue(3) with the code SI_QUEUE; the sender is the process 1 of the
/// user 0. The signal's number is an o32 one, 1 to 128, and any other is SIGHUP's.
pub fn event_info(due: Due) -> Info
    ensures info { result ≡ event_info due }
    ensures can_pend { CanPend result }
{
    let sig = Sig::of_o32(u32::from(due.sig)).unwrap_or(Sig::Hup);
    match due.value {
        None => outside_info(sig, SI_USER, 0),
        Some(value) => outside_info(sig, SI_QUEUE, value),
    }
}

/// A signal that comes from outside.
fn outside_info(sig: Sig, code: i32, value: u32) -> Info
    ensures info { result ≡ info_of sig code parent_id value }
    ensures can_pend { CanPend result }
{
    Info {
        sig,
        code,
        errno: 0,
        pid: PARENT_ID,
        uid: 0,
        value,
        addr: 0,
    }
}

/// Tells what became of a signal that was posted.
fn tell_post(sig: Sig, post: Post, going: &mut Going) -> Result<(), NoMemory>
    ensures { OnOk result (going.new ≡ happened going.old (post_event sig post)) }
{
    going.events.push(match post {
        Post::Queued | Post::Dropped => Event::Post { sig },
        Post::Full => Event::Dropped { sig },
    })?;
    Ok(())
}

/// A stopped process goes on by SIGCONT and by SIGKILL.
fn let_go(sig: Sig, going: &mut Going) -> Result<(), NoMemory>
    ensures { OnOk result ((processor : Processor) (memory : Memory) (kernel : Kernel) (coming : List Due) (idle : ℕ)
        → within_of going.new processor memory kernel coming idle
        ≡ let_go sig (within_of going.old processor memory kernel coming idle)) }
{
    if going.stopped && matches!(sig, Sig::Kill | Sig::Cont) {
        going.stopped = false;
        going.events.push(Event::Cont)?;
    }
    Ok(())
}

/// Tells of the timer's signal, where the time at which it is due next has come by a time of the clock.
fn tell_timer(next: Option<u64>, clock: u64, going: &mut Going) -> Result<(), NoMemory>
    ensures { OnOk result (going.new ≡ timer_told going.old clock next) }
{
    if !has_come(next, clock) {
        return Ok(());
    }
    going.events.push(Event::Post { sig: Sig::Alrm })?;
    Ok(())
}

/// Whether a time that may not be there has come by a time of the clock.
fn has_come(time: Option<u64>, clock: u64) -> bool
    ensures { result ≡ has_come clock time }
{
    match time {
        None => false,
        Some(time) => time <= clock,
    }
}
