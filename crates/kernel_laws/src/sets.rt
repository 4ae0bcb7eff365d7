//! Which signals are in the sets that rows make (sigsetops(3), sigprocmask(2), sigpending(2)).

ghost use Rattle.std.specs.Prelude.{length, not, ◌&&◌, ◌==◌, ◌||◌, ◌≡◌, ℕ, false};
ghost use Rattle.kernel_core.specs.declared.signal.Sig.{Sig};
ghost use Rattle.kernel_model.specs.SignalRows.{pending_set, pends};
ghost use Rattle.kernel_model.specs.SignalSets.{SignalSet, blockable, has, no_signals, only, place, unblockable, union, without};
ghost use Rattle.kernel_model.specs.State.{Signals};

/// Sets of as many words: the union has what either has, the difference what the first alone has, and a mask all
/// of a set but KILL and STOP.
pub fn sets_have_what_they_are_made_of()
    ensures union { (left right : SignalSet) (signal : Sig) → length left ≡ length right → has (union left right) signal ≡ (has left signal || has right signal) }
    ensures without { (left right : SignalSet) (signal : Sig) → length left ≡ length right
        → has (without left right) signal ≡ (has left signal && not (has right signal)) }
    ensures blockable { (set : SignalSet) (signal : Sig) → length set ≡ 4 → has (blockable set) signal ≡ (has set signal && not (has unblockable signal)) }
{}

/// The set of one signal has that signal, by its place in the order of the names, and the empty set none.
pub fn the_set_of_one_signal_has_no_other()
    ensures only { (one signal : Sig) → has (only one) signal ≡ (place signal == place one) }
    ensures none { (signal : Sig) → has no_signals signal ≡ false }
{}

/// The set of what pends has each signal that pends, and no other.
pub fn the_pending_set_has_what_pends()
    ensures { (signals : Signals) (signal : Sig) → has (pending_set signals) signal ≡ pends signals signal }
{}
