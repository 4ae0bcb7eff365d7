//! Laws of sets of signals, each the contract of a function that does nothing.
ghost use Rattle.std.specs.Prelude.{◌≡◌};
ghost use Rattle.kernel_core.specs.declared.signal.Sig.{Sig};
ghost use Rattle.kernel_model.specs.Always.{IsSet};
ghost use Rattle.kernel_model.specs.SignalSets.{SignalSet, has};
ghost use Rattle.signal_sets.specs.NativeSets.{NativeSet, IsNativeSet, has_in_o32, has_natively, native_of, set_of_native};

/// The words of a set are those of an o32 program's own.
pub fn a_set_is_that_of_an_o32_program()
    ensures { (set : SignalSet) (signal : Sig) → has set signal ≡ has_in_o32 set signal }
{}

/// Two sets with the same signals have the same words.
pub fn a_set_is_known_by_its_signals()
    ensures o32 { (left right : SignalSet) → IsSet left → IsSet right
        → ((signal : Sig) → has left signal ≡ has right signal) → left ≡ right }
    ensures native { (left right : NativeSet) → IsNativeSet left → IsNativeSet right
        → ((signal : Sig) → has_natively left signal ≡ has_natively right signal) → left ≡ right }
{}

/// A set turned into one of the other world and back is as it was.
pub fn a_set_turned_and_back_is_the_same()
    ensures o32 { (set : SignalSet) → IsSet set → set_of_native (native_of set) ≡ set }
    ensures native { (native : NativeSet) → IsNativeSet native → native_of (set_of_native native) ≡ native }
{}
