//! What the kernel always is, kept by signals and time (signal(7), setitimer(2)).

ghost use Rattle.std.specs.Prelude.{◌≡◌, ℕ, Bool};
ghost use Rattle.kernel_model.specs.Always.{AreSignals, IsKernel};
ghost use Rattle.kernel_model.specs.Shared.{Info};
ghost use Rattle.kernel_model.specs.SignalRows.{advance, post};
ghost use Rattle.kernel_model.specs.State.{Kernel, Signals};

/// A signal is posted, whatever becomes of it.
pub fn posting_keeps_signals()
    ensures { (signals : Signals) (info : Info) (kept : Bool) → AreSignals signals → AreSignals (post signals info kept).signals }
{}

/// The clock moves, and the interval timer goes off where it is due.
pub fn advancing_keeps_the_kernel()
    ensures { (kernel : Kernel) (to : ℕ) (kept : Bool) → IsKernel kernel → IsKernel (advance kernel to kept) }
{}
