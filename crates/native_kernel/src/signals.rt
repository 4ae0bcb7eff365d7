//! The calls on the actions of signals, the mask, what pends and the alternate stack: sigaction(2),
//! sigprocmask(2), sigpending(2), sigaltstack(2).
ghost use Rattle.std.specs.Prelude.{◌≡◌, ◌&&◌, None, Some, is_some};
ghost use Rattle.kernel_core.specs.declared.error.Errno.TheVariants.{EINVAL};
ghost use Rattle.kernel_model.specs.Came.{done, given_or_none, refused_if, told_as, with_given, with_some};
ghost use Rattle.kernel_model.specs.SignalRows.{change_mask, changed_mask, is_unblockable, pending, set_action, set_action_to, set_stack, set_stack_to, with_mask};
ghost use Rattle.native_calls.specs.HostBytes.{unless_null};
ghost use Rattle.native_calls.specs.SignalBytes.{action_at, action_bytes, set_at, set_bytes, stack_at, stack_bytes};
ghost use Rattle.native_kernel.specs.inside.Quiet.{Stores};
ghost use Rattle.native_kernel.specs.inside.Signals.{Comes, StoresUnlessNull};
ghost use Rattle.number_tables.specs.MaskChanges.{mask_change_of_native};
ghost use Rattle.number_tables.specs.Signals.{signal_of_native};

use crate::kernel::NativeKernel;
use crate::masks::{UNBLOCKABLE, changed_mask, has};
use crate::replies::failure;
use crate::signal_bytes::{
    SET_SIZE, action_at, action_bytes, set_at, set_bytes, stack_at, stack_bytes,
};
use crate::structures::{store, store_unless_null};
use host_mem::HostMem;
use kernel_core::{Errno, MaskChange, Reply, Sig};
use kernel_model::{Action, SigStack};
use number_tables::NativeNumber;

/// A stack that is disabled (SS_DISABLE of sigaltstack(2)), which is the greatest of its flags.
const DISABLED: u32 = 2;

/// The size of the smallest alternate stack, in bytes (MINSIGSTKSZ).
const LEAST_STACK: u64 = 2048;

impl NativeKernel {
    /// rt_sigaction(2): EINVAL for another size of a set than 16, for a number that is not listed, and for a new
    /// action of KILL or STOP; EFAULT. The old action is stored, where its address is not null; the new one
    /// stands also where that is EFAULT.
    pub(crate) fn set_action(
        &mut self,
        number: u32,
        action: u64,
        old: u64,
        size: u64,
        mem: &mut HostMem,
    ) -> Reply
        ensures row { StoresUnlessNull (told_as action_bytes (set_action self.old size (signal_of_native number)
            (unless_null action (action_at mem.old action)))) old result self.new mem.old mem.new }
        ensures clock { self.new.clock ≡ self.old.clock }
    {
        let signal = Sig::of_native(u64::from(number));
        match self.change_action(size, signal, action_unless_null(mem, action)) {
            Err(error) => failure(error),
            Ok(before) => store_unless_null(mem, old, &action_bytes(before)),
        }
    }

    /// Gives the old action of a signal, and sets a new one where there is one.
    #[tactic(auto, unfolding(kernel_model::specs::SignalRows::set_action))]
    fn change_action(
        &mut self,
        size: u64,
        signal: Option<Sig>,
        action: Option<Result<Action, Errno>>,
    ) -> Result<Action, Errno>
        ensures row { Comes (set_action self.old size signal action) result self.new }
        ensures clock { self.new.clock ≡ self.old.clock }
    {
        if size != SET_SIZE {
            return Err(Errno::EINVAL);
        }
        match signal {
            None => Err(Errno::EINVAL),
            Some(sig) => self.replace_action(sig, action),
        }
    }

    /// The same of a signal that is listed.
    fn replace_action(
        &mut self,
        sig: Sig,
        action: Option<Result<Action, Errno>>,
    ) -> Result<Action, Errno>
        ensures row { Comes (refused_if (is_some action && is_unblockable sig) EINVAL self.old
            (with_given self.old (given_or_none action) (λ action. set_action_to self.old sig action))) result self.new }
        ensures clock { self.new.clock ≡ self.old.clock }
    {
        let before = self.signals.action(sig);
        match action {
            None => Ok(before),
            Some(_) if has(&UNBLOCKABLE, sig) => Err(Errno::EINVAL),
            Some(Err(error)) => Err(error),
            Some(Ok(action)) => {
                self.signals.set_action(sig, action);
                Ok(before)
            }
        }
    }

    /// rt_sigprocmask(2): EINVAL for another size of a set than 16, and, where there is a set, for a change that
    /// is not listed; EFAULT. The old mask is stored, where its address is not null; the new one stands also
    /// where that is EFAULT.
    pub(crate) fn set_mask(
        &mut self,
        how: u32,
        set: u64,
        old: u64,
        size: u64,
        mem: &mut HostMem,
    ) -> Reply
        ensures row { StoresUnlessNull (told_as set_bytes (change_mask self.old size (mask_change_of_native how)
            (unless_null set (set_at mem.old set)))) old result self.new mem.old mem.new }
        ensures clock { self.new.clock ≡ self.old.clock }
    {
        let how = MaskChange::of_native(u64::from(how));
        match self.change_mask(size, how, set_unless_null(mem, set)) {
            Err(error) => failure(error),
            Ok(before) => store_unless_null(mem, old, &set_bytes(before)),
        }
    }

    /// Gives the old mask, and changes it where there is a set.
    #[tactic(auto, unfolding(kernel_model::specs::SignalRows::change_mask))]
    fn change_mask(
        &mut self,
        size: u64,
        how: Option<MaskChange>,
        set: Option<Result<[u32; 4], Errno>>,
    ) -> Result<[u32; 4], Errno>
        ensures row { Comes (change_mask self.old size how set) result self.new }
        ensures clock { self.new.clock ≡ self.old.clock }
    {
        if size != SET_SIZE {
            return Err(Errno::EINVAL);
        }
        match set {
            None => Ok(self.signals.mask()),
            Some(set) => self.replace_mask(how, set),
        }
    }

    /// The same where there is a set.
    fn replace_mask(
        &mut self,
        how: Option<MaskChange>,
        set: Result<[u32; 4], Errno>,
    ) -> Result<[u32; 4], Errno>
        ensures row { Comes (with_some self.old EINVAL how (λ how. with_given self.old set (λ set.
            done (with_mask self.old (changed_mask how self.old.signals.mask set)) self.old.signals.mask))) result self.new }
        ensures clock { self.new.clock ≡ self.old.clock }
    {
        let Some(how) = how else {
            return Err(Errno::EINVAL);
        };
        let set = set?;
        let before = self.signals.mask();
        self.signals.set_mask(changed_mask(how, before, set));
        Ok(before)
    }

    /// rt_sigpending(2): EINVAL for another size of a set than 16; EFAULT.
    #[tactic(auto, unfolding(kernel_model::specs::SignalRows::pending))]
    pub(crate) fn pending_signals(&self, address: u64, size: u64, mem: &mut HostMem) -> Reply
        ensures { Stores (told_as set_bytes (pending self.now size)) address result self.now mem.old mem.new }
    {
        if size != SET_SIZE {
            return failure(Errno::EINVAL);
        }
        store(mem, address, &set_bytes(self.signals.pending()))
    }

    /// sigaltstack(2): EFAULT, EINVAL for flags above SS_DISABLE, ENOMEM for a stack of fewer than 2048 bytes that
    /// is not disabled. The old stack is stored, where its address is not null; the new one stands also where
    /// that is EFAULT.
    pub(crate) fn set_signal_stack(&mut self, stack: u64, old: u64, mem: &mut HostMem) -> Reply
        ensures row { StoresUnlessNull (told_as stack_bytes (set_stack self.old None (unless_null stack (stack_at mem.old stack))))
            old result self.new mem.old mem.new }
        ensures clock { self.new.clock ≡ self.old.clock }
    {
        match self.change_stack(stack_unless_null(mem, stack)) {
            Err(error) => failure(error),
            Ok(before) => store_unless_null(mem, old, &stack_bytes(before)),
        }
    }

    /// Gives the old alternate stack, and sets a new one where there is one.
    #[tactic(auto, unfolding(kernel_model::specs::SignalRows::set_stack))]
    fn change_stack(&mut self, stack: Option<Result<SigStack, Errno>>) -> Result<SigStack, Errno>
        ensures row { Comes (set_stack self.old None stack) result self.new }
        ensures clock { self.new.clock ≡ self.old.clock }
    {
        match stack {
            None => Ok(self.signals.stack()),
            Some(Err(error)) => Err(error),
            Some(Ok(stack)) => self.replace_stack(stack),
        }
    }

    /// The same where there is a new one.
    fn replace_stack(&mut self, stack: SigStack) -> Result<SigStack, Errno>
        ensures row { Comes (set_stack_to self.old None (Some stack)) result self.new }
        ensures clock { self.new.clock ≡ self.old.clock }
    {
        if stack.flags > DISABLED {
            return Err(Errno::EINVAL);
        }
        if stack.flags != DISABLED && stack.size < LEAST_STACK {
            return Err(Errno::ENOMEM);
        }
        let before = self.signals.stack();
        self.signals.set_stack(stack);
        Ok(before)
    }
}

/// The action at an address that may be null: nothing is read there.
fn action_unless_null(mem: &HostMem, address: u64) -> Option<Result<Action, Errno>>
    ensures { result ≡ unless_null address (action_at mem.now address) }
{
    if address == 0 {
        None
    } else {
        Some(action_at(mem, address))
    }
}

/// The set at an address that may be null.
fn set_unless_null(mem: &HostMem, address: u64) -> Option<Result<[u32; 4], Errno>>
    ensures { result ≡ unless_null address (set_at mem.now address) }
{
    if address == 0 {
        None
    } else {
        Some(set_at(mem, address))
    }
}

/// The alternate stack at an address that may be null.
fn stack_unless_null(mem: &HostMem, address: u64) -> Option<Result<SigStack, Errno>>
    ensures { result ≡ unless_null address (stack_at mem.now address) }
{
    if address == 0 {
        None
    } else {
        Some(stack_at(mem, address))
    }
}
