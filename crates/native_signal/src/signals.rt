//! Signals as callers see them.
ghost use Rattle.std.specs.Prelude.{◌≡◌, ◌<◌, ◌^◌, [], All, false, drop, replicate, slice_get, IfNone, IfOk, OnErr};
ghost use Rattle.kernel_model.specs.Begin.{first_signals};
ghost use Rattle.kernel_model.specs.Pending.{AreSound, CanPend};
ghost use Rattle.kernel_model.specs.SignalRows as rows;
ghost use Rattle.kernel_model.specs.SignalRows.{action_at, after_action, after_removal, enqueued, is_dropped, is_unblockable, kept_stack, no_action, pending_at, pending_set, posted, with_pending};
ghost use Rattle.kernel_model.specs.SignalSets.{blockable};
ghost use Rattle.kernel_model.specs.declared.signal.Action.{Action as Kept};
ghost use Rattle.native_signal.specs.Fitting.{IsNumberedStack};

use crate::pending::Pending;
use crate::places::{DEFAULT_HANDLER, SIGNALS, STANDARD_SIGNALS, ignores, place_of};
use crate::sets::{blockable, has};
use bitflags::Flags;
use kernel_core::{Info, NoMemory, SaBits, SaFlags, Sig};
use kernel_model::{Action, Post, SigStack};
use std::alloc::Global;
use std::marker::Model;

/// How many real-time signals may be queued (this project's own limit).
const QUEUE_LIMIT: usize = 1024;

/// A stack that is disabled, SS_DISABLE (sigaltstack(2)).
const DISABLED: u32 = 2;

const NO_STACK: SigStack = SigStack {
    sp: 0,
    size: 0,
    flags: DISABLED,
};

/// The action of each signal, the blocked signals, what pends, and the alternate stack.
#[derive(Drop)]
pub struct Signals {
    actions: Vec<Action>,
    pending: Pending,
    mask: [u32; 4],
    stack: SigStack,
}

impl Model for Signals {
    ghost use Rattle.std.specs.Prelude.{◌≡◌, length};
    ghost use Rattle.kernel_model.specs.Pending.{AreSound};
    ghost use Rattle.kernel_model.specs.SignalSets.{signal_count};
    ghost use Rattle.kernel_model.specs.State.{Signals};

    ghost Value = { Signals };

    ghost view = { λ s. record { actions = s.actions.items; pending = s.pending; mask = s.mask; stack = s.stack } };

    ghost invariant = { λ s. (length s.actions.items ≡ signal_count)
        × AreSound (record { actions = s.actions.items; pending = s.pending; mask = s.mask; stack = s.stack }) };
}

/// The action of a signal for which none was set.
fn no_action() -> Action
    ensures { result ≡ no_action }
{
    Action {
        handler: DEFAULT_HANDLER,
        flags: SaFlags::new(SaBits::empty()),
        mask: [0; 4],
    }
}

/// Each of the handlers fits 64 bits.
fn all_fit(actions: &[Action])
    ensures { All (λ (action : Kept). action.handler < 2 ^ 64) actions.now }
{
    for action in actions {
        handler_fits(*action);
    }
}

fn handler_fits(action: Action)
    ensures { action.handler < 2 ^ 64 }
{}

fn stack_fits(stack: SigStack)
    ensures { IsNumberedStack stack }
{}

/// As many default actions.
fn default_actions(alloc: Global, count: usize) -> Result<Vec<Action>, NoMemory>
    ensures { IfOk result (λ actions. actions.items ≡ replicate count no_action) }
{
    let mut actions = Vec::new(alloc);
    for _place in 0..count {
        actions.push(no_action())?;
    }
    Ok(actions)
}

impl Signals {
    /// No signal has an action of its own, none is blocked and none pends; there is no alternate stack.
    #[tactic(auto, using(crate::proofs::Soundness::sound))]
    pub fn new(alloc: Global) -> Result<Signals, NoMemory>
        ensures { IfOk result (λ signals. signals ≡ first_signals) }
    {
        Ok(Signals {
            actions: default_actions(alloc, SIGNALS)?,
            pending: Pending::new(alloc)?,
            mask: [0; 4],
            stack: NO_STACK,
        })
    }

    /// Posts a signal (signal(7)). A stop signal removes a pending CONT, and CONT removes pending stop
    /// signals. A signal that is ignored and not blocked is dropped, unless `kept` says that a
    /// sigtimedwait waits for it. A standard signal that pends is dropped. A real-time signal is queued,
    /// and is dropped where 1,024 are queued. Where there is no memory nothing changes. The info has no
    /// address, which only a fault has.
    pub fn post(&mut self, info: Info, kept: bool) -> Result<Post, NoMemory>
        requires can_pend { CanPend info }
        ensures row { IfOk result (λ post. posted self.new post ≡ rows.post self.old info kept) }
        ensures no_memory { OnErr result (self.new ≡ self.old) }
    {
        let post = self.put(info, kept)?;
        self.remove_opposed(info.sig);
        Ok(post)
    }

    /// The set of the signals that pend. It takes no memory.
    pub fn pending(&self) -> [u32; 4]
        ensures { result ≡ pending_set self.now }
    {
        self.pending.set()
    }

    /// Takes the first that pends of a signal; None exactly where none does. It takes no memory.
    #[tactic(auto, using(crate::proofs::Soundness::sound))]
    pub fn take(&mut self, sig: Sig) -> Option<Info>
        ensures first { result ≡ slice_get (pending_at self.old sig) 0 }
        ensures rest { self.new ≡ with_pending self.old sig (drop 1 (pending_at self.old sig)) }
        ensures none { IfNone result (self.new ≡ self.old) }
    {
        self.pending.pop(place_of(sig))
    }

    /// The action of a signal. It takes no memory.
    pub fn action(&self, sig: Sig) -> Action
        ensures { result ≡ action_at self.now sig }
    {
        self.actions[place_of(sig)]
    }

    /// Sets the action of a signal, which is neither KILL nor STOP (sigaction(2)). Its mask loses KILL
    /// and STOP. Where it ignores the signal, what pends of it goes. It takes no memory.
    #[tactic(auto, using(crate::proofs::Soundness::sound))]
    pub fn set_action(&mut self, sig: Sig, to: Action)
        requires { is_unblockable sig ≡ false }
        ensures { self.new ≡ after_action self.old sig to }
    {
        let place = place_of(sig);
        self.actions[place] = Action {
            handler: to.handler,
            flags: to.flags,
            mask: blockable(to.mask),
        };
        if ignores(sig, &to) {
            self.pending.clear(place);
        }
    }

    /// The blocked signals. It takes no memory.
    pub fn mask(&self) -> [u32; 4]
        ensures { result ≡ self.now.mask }
    {
        self.mask
    }

    /// Sets the blocked signals, without KILL and STOP. It takes no memory.
    #[tactic(auto, using(crate::proofs::Soundness::sound))]
    pub fn set_mask(&mut self, to: [u32; 4])
        ensures { self.new ≡ record self.old { mask = blockable to } }
    {
        self.mask = blockable(to);
    }

    /// The alternate stack. It takes no memory.
    pub fn stack(&self) -> SigStack
        ensures { result ≡ self.now.stack }
    {
        self.stack
    }

    /// Sets the alternate stack (sigaltstack(2)): a disabled one has no place and no size, and an
    /// enabled one no flags. It takes no memory.
    #[tactic(auto, using(crate::proofs::Soundness::sound))]
    pub fn set_stack(&mut self, to: SigStack)
        ensures { self.new ≡ record self.old { stack = kept_stack to } }
    {
        self.stack = if to.flags == DISABLED {
            NO_STACK
        } else {
            SigStack {
                sp: to.sp,
                size: to.size,
                flags: 0,
            }
        };
    }

    /// What pends can, and neither the mask nor that of an action has KILL or STOP: it changes nothing,
    /// and tells its caller this.
    pub fn sound(&self)
        ensures { AreSound self.now }
    {
        let _mask = self.mask;
    }

    /// Each handler fits 64 bits, and so do the numbers of the alternate stack: it changes nothing, and tells
    /// its caller this.
    pub fn numbers_fit(&self)
        ensures handlers { All (λ (action : Kept). action.handler < 2 ^ 64) self.now.actions }
        ensures stack { IsNumberedStack self.now.stack }
    {
        all_fit(&self.actions);
        stack_fits(self.stack);
    }

    /// Whether a posted signal is dropped as ignored.
    fn drops(&self, sig: Sig, kept: bool) -> bool
        ensures { result ≡ is_dropped self.now sig kept }
    {
        let action = self.action(sig);
        ignores(sig, &action) && !has(&self.mask, sig) && !kept
    }

    /// Puts a signal that is not dropped as ignored to those that pend.
    #[tactic(auto, using(crate::proofs::Soundness::sound))]
    fn enqueue(&mut self, info: Info) -> Result<Post, NoMemory>
        requires can_pend { CanPend info }
        ensures row { IfOk result (λ post. posted self.new post ≡ enqueued self.old info) }
        ensures no_memory { OnErr result (self.new ≡ self.old) }
    {
        let place = place_of(info.sig);
        if place < STANDARD_SIGNALS {
            if self.pending.pends(place) {
                return Ok(Post::Dropped);
            }
        } else if self.pending.queued() >= QUEUE_LIMIT {
            return Ok(Post::Full);
        }
        self.pending.push(place, info)?;
        Ok(Post::Queued)
    }

    /// Posts a signal, and removes nothing.
    fn put(&mut self, info: Info, kept: bool) -> Result<Post, NoMemory>
        requires can_pend { CanPend info }
        ensures row { IfOk result (λ post. posted self.new post ≡ rows.posted_after self.old info kept) }
        ensures no_memory { OnErr result (self.new ≡ self.old) }
    {
        if self.drops(info.sig, kept) {
            return Ok(Post::Dropped);
        }
        let post = self.enqueue(info)?;
        Ok(post)
    }

    /// Removes what a posted signal is opposed to: a stop signal to CONT, and CONT to stop signals.
    fn remove_opposed(&mut self, sig: Sig)
        ensures { self.new ≡ after_removal self.old sig }
    {
        match sig {
            Sig::Stop | Sig::Tstp | Sig::Ttin | Sig::Ttou => self.discard(Sig::Cont),
            Sig::Cont => {
                self.discard(Sig::Stop);
                self.discard(Sig::Tstp);
                self.discard(Sig::Ttin);
                self.discard(Sig::Ttou);
            }
            _ => {}
        }
    }

    /// Removes what pends of a signal.
    #[tactic(auto, using(crate::proofs::Soundness::sound))]
    fn discard(&mut self, sig: Sig)
        ensures { self.new ≡ with_pending self.old sig [] }
    {
        self.pending.clear(place_of(sig));
    }
}
