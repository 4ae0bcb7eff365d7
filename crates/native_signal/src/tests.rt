//! Each call with ample memory, by lists of calls with what they answer: what pends and is taken, what is
//! dropped and removed, how many are queued, actions, the mask and the stack.
ghost use Rattle.kernel_model.specs.Pending.{CanPend};

use super::Signals;
use bitflags::Flags;
use kernel_core::{Info, RealTime, SaBits, SaFlags, Sig};
use kernel_model::{Action, Post, SigStack};
use std::alloc::Global;
use std::test::Fail;

/// A call, and what it answers.
#[derive(Drop)]
enum Step {
    /// A post of a signal with a value, which ends so.
    Post(Sig, u32, Post),
    /// The same, while a sigtimedwait waits for it.
    PostKept(Sig, u32, Post),
    /// The value of the first that pends.
    Take(Sig, Option<u32>),
    Pending([u32; 4]),
    /// Sets the handler of a signal.
    SetHandler(Sig, u64),
    Handler(Sig, u64),
    /// Sets a mask, and reads it.
    Mask([u32; 4], [u32; 4]),
    /// Sets a stack, and reads it.
    Stack((u64, u64, u32), (u64, u64, u32)),
}

fn info(sig: Sig, value: u32) -> Info
    ensures { CanPend result }
{
    Info {
        sig,
        code: -1,
        errno: 0,
        pid: 1,
        uid: 0,
        value,
        addr: 0,
    }
}

fn ends_so(came: Post, meant: Post) -> bool {
    match came {
        Post::Queued => matches!(meant, Post::Queued),
        Post::Dropped => matches!(meant, Post::Dropped),
        Post::Full => matches!(meant, Post::Full),
    }
}

fn action(handler: u64) -> Action {
    Action {
        handler,
        flags: SaFlags::new(SaBits::empty()),
        mask: [0; 4],
    }
}

fn stack_is_kept(signals: &mut Signals, set: (u64, u64, u32), kept: (u64, u64, u32)) -> bool {
    signals.set_stack(SigStack {
        sp: set.0,
        size: set.1,
        flags: set.2,
    });
    let stack = signals.stack();
    stack.sp == kept.0 && stack.size == kept.1 && stack.flags == kept.2
}

fn is_right(signals: &mut Signals, step: &Step) -> bool {
    match step {
        Step::Post(sig, value, post) => match signals.post(info(*sig, *value), false) {
            Ok(came) => ends_so(came, *post),
            Err(_) => false,
        },
        Step::PostKept(sig, value, post) => match signals.post(info(*sig, *value), true) {
            Ok(came) => ends_so(came, *post),
            Err(_) => false,
        },
        Step::Take(sig, value) => signals.take(*sig).map(|info| info.value) == *value,
        Step::Pending(set) => signals.pending() == *set,
        Step::SetHandler(sig, handler) => {
            if !matches!(*sig, Sig::Kill | Sig::Stop) {
                signals.set_action(*sig, action(*handler));
            }
            true
        }
        Step::Handler(sig, handler) => signals.action(*sig).handler == *handler,
        Step::Mask(set, kept) => {
            signals.set_mask(*set);
            signals.mask() == *kept
        }
        Step::Stack(set, kept) => stack_is_kept(signals, *set, *kept),
    }
}

/// The number of the first wrong step.
fn first_wrong(signals: &mut Signals, steps: &[Step]) -> Option<usize> {
    for (number, step) in steps.iter().enumerate() {
        if !is_right(signals, step) {
            return Some(number);
        }
    }
    None
}

fn new_signals(alloc: Global) -> Result<Signals, Fail> {
    Ok(Signals::new(alloc).ok().ok_or("no memory")?)
}

fn real_time(number: u8) -> Result<Sig, Fail> {
    Ok(Sig::RealTime(RealTime::new(number).ok_or("no number")?))
}

#[test]
fn what_pends_is_taken(rt: HostRuntime) -> Result<(), Fail> {
    let mut signals = new_signals(rt.alloc())?;
    let queues = real_time(34)?;
    let last = real_time(128)?;
    let steps = [
        Step::Pending([0, 0, 0, 0]),
        Step::Post(Sig::Usr1, 1, Post::Queued),
        Step::Pending([0x8000, 0, 0, 0]),
        Step::Post(Sig::Usr1, 2, Post::Dropped),
        Step::Post(queues, 3, Post::Queued),
        Step::Post(queues, 4, Post::Queued),
        Step::Post(last, 5, Post::Queued),
        Step::Pending([0x8000, 2, 0, 0x8000_0000]),
        Step::Take(Sig::Usr1, Some(1)),
        Step::Take(Sig::Usr1, None),
        Step::Take(queues, Some(3)),
        Step::Post(queues, 6, Post::Queued),
        Step::Take(queues, Some(4)),
        Step::Pending([0, 2, 0, 0x8000_0000]),
        Step::Take(queues, Some(6)),
        Step::Take(queues, None),
        Step::Take(last, Some(5)),
        Step::Pending([0, 0, 0, 0]),
    ];
    assert_eq!(rt; first_wrong(&mut signals, &steps), None);
    Ok(())
}

#[test]
fn what_is_ignored_and_opposed(rt: HostRuntime) -> Result<(), Fail> {
    let mut signals = new_signals(rt.alloc())?;
    let steps = [
        Step::Post(Sig::Tstp, 1, Post::Queued),
        Step::Post(Sig::Ttou, 1, Post::Queued),
        Step::Post(Sig::Cont, 2, Post::Dropped),
        Step::Pending([0, 0, 0, 0]),
        Step::PostKept(Sig::Cont, 3, Post::Queued),
        Step::Pending([0x0100_0000, 0, 0, 0]),
        Step::Post(Sig::Stop, 4, Post::Queued),
        Step::Pending([0x0040_0000, 0, 0, 0]),
        Step::Take(Sig::Stop, Some(4)),
        Step::Post(Sig::Chld, 5, Post::Dropped),
        Step::Mask([0x0002_0000, 0, 0, 0], [0x0002_0000, 0, 0, 0]),
        Step::Post(Sig::Chld, 6, Post::Queued),
        Step::Take(Sig::Chld, Some(6)),
        Step::Post(Sig::Usr2, 7, Post::Queued),
        Step::SetHandler(Sig::Usr2, 1),
        Step::Pending([0, 0, 0, 0]),
        Step::Post(Sig::Usr2, 8, Post::Dropped),
        Step::SetHandler(Sig::Chld, 0x0040_0200),
        Step::Mask([0, 0, 0, 0], [0, 0, 0, 0]),
        Step::Post(Sig::Chld, 9, Post::Queued),
        Step::SetHandler(Sig::Chld, 0),
        Step::Take(Sig::Chld, None),
    ];
    assert_eq!(rt; first_wrong(&mut signals, &steps), None);
    Ok(())
}

#[test]
fn actions_the_mask_and_the_stack(rt: HostRuntime) -> Result<(), Fail> {
    let mut signals = new_signals(rt.alloc())?;
    let last = real_time(128)?;
    let steps = [
        Step::Handler(Sig::Hup, 0),
        Step::SetHandler(Sig::Hup, 0x0040_0200),
        Step::SetHandler(last, 1),
        Step::Handler(Sig::Hup, 0x0040_0200),
        Step::Handler(last, 1),
        Step::Handler(Sig::Int, 0),
        Step::Mask([u32::MAX, u32::MAX, 0, 5], [0xFFBF_FEFF, u32::MAX, 0, 5]),
        Step::Stack((0x1000, 0x2000, 1), (0x1000, 0x2000, 0)),
        Step::Stack((0x1000, 0x2000, 2), (0, 0, 2)),
    ];
    let stack = signals.stack();
    assert_eq!(rt; (stack.sp, stack.size, stack.flags), (0, 0, 2));
    assert_eq!(rt; first_wrong(&mut signals, &steps), None);
    Ok(())
}

#[test]
fn no_more_than_may_be_queued(rt: HostRuntime) -> Result<(), Fail> {
    let mut signals = new_signals(rt.alloc())?;
    let first = real_time(32)?;
    let last = real_time(128)?;
    for value in 0..512 {
        let both = [
            Step::Post(first, value, Post::Queued),
            Step::Post(last, value, Post::Queued),
        ];
        assert_eq!(rt; first_wrong(&mut signals, &both), None);
    }
    let steps = [
        Step::Post(first, 512, Post::Full),
        Step::Post(Sig::Usr1, 1, Post::Queued),
        Step::Take(last, Some(0)),
        Step::Post(first, 513, Post::Queued),
        Step::Post(last, 514, Post::Full),
        Step::SetHandler(last, 1),
        Step::Take(last, None),
        Step::Post(first, 515, Post::Queued),
        Step::Pending([0x8000_8000, 0, 0, 0]),
    ];
    assert_eq!(rt; first_wrong(&mut signals, &steps), None);
    Ok(())
}
