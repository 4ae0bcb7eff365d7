//! What the kernel always is, kept by the rows that send a signal (kill(2), tkill(2), tgkill(2),
//! rt_sigqueueinfo(2)), and what becomes of the signal (signal(7)).

ghost use Rattle.std.specs.Prelude.{Bool, ◌≡◌, ◌⊎◌, false, true, ℤ};
ghost use Rattle.kernel_core.specs.declared.signal.Sig.{Sig};
ghost use Rattle.kernel_core.specs.declared.signal.Sig.TheVariants.{Cont};
ghost use Rattle.kernel_model.specs.Always.{AreSignals, IsKernel};
ghost use Rattle.kernel_model.specs.Came.{Given};
ghost use Rattle.kernel_model.specs.Shared.{Info};
ghost use Rattle.kernel_model.specs.SignalRows.{Named, SentInfo, is_continue, is_dropped, is_stop, kill, kill_thread, kill_thread_of, pends, post, queue};
ghost use Rattle.kernel_model.specs.State.{Kernel, Signals};
ghost use Rattle.kernel_model.specs.declared.signal.Post.TheVariants.{Dropped, Queued};

/// A signal is sent to the process or its thread, whatever becomes of it.
pub fn sending_keeps_the_kernel()
    ensures kill { (kernel : Kernel) (pid : ℤ) (signal : Named) → IsKernel kernel → IsKernel (kill kernel pid signal).state }
    ensures kill_thread { (kernel : Kernel) (tid : ℤ) (signal : Named) → IsKernel kernel → IsKernel (kill_thread kernel tid signal).state }
    ensures kill_thread_of { (kernel : Kernel) (pid tid : ℤ) (signal : Named) → IsKernel kernel → IsKernel (kill_thread_of kernel pid tid signal).state }
    ensures queue { (kernel : Kernel) (pid : ℤ) (signal : Named) (sent : Given SentInfo) → IsKernel kernel → IsKernel (queue kernel pid signal sent).state }
{}

/// A post tells what became of the signal: one that was queued pends, and one that was dropped is ignored (and
/// neither blocked nor waited for) or pends already.
pub fn a_post_tells_what_became_of_the_signal()
    ensures queued { (signals : Signals) (info : Info) (kept : Bool) → AreSignals signals → (post signals info kept).post ≡ Queued
        → pends (post signals info kept).signals info.sig ≡ true }
    ensures dropped { (signals : Signals) (info : Info) (kept : Bool) → AreSignals signals → (post signals info kept).post ≡ Dropped
        → (is_dropped signals info.sig kept ≡ true) ⊎ (pends (post signals info kept).signals info.sig ≡ true) }
{}

/// After a stop signal CONT pends no more, and after CONT no stop signal does, whatever becomes of the new one.
pub fn a_stop_signal_and_continue_do_not_pend_together()
    ensures stop { (signals : Signals) (info : Info) (kept : Bool) → AreSignals signals → is_stop info.sig ≡ true → pends (post signals info kept).signals Cont ≡ false }
    ensures continued { (signals : Signals) (info : Info) (kept : Bool) → AreSignals signals → is_continue info.sig ≡ true → (other : Sig) → is_stop other ≡ true
        → pends (post signals info kept).signals other ≡ false }
{}
