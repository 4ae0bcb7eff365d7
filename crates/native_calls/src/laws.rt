//! Laws over the definitions, each the contract of a function that does nothing. (The rules are this
//! project's own.)

ghost use Rattle.native_calls.specs.Laws.{IsFailure, LeftByFailure, MayLackMemory, MayWaitPartly, MovesNothing, KeepsStreams, StoresTimeLeft, TellsOld};
ghost use Rattle.native_calls.specs.Step.{failure};
ghost use Rattle.native_calls.specs.Table.{native_call};
ghost use Rattle.kernel_core.specs.declared.error.Errno.TheVariants.{ENOMEM};
ghost use Rattle.kernel_core.specs.declared.reply.Reply.TheVariants.{Sleep};
ghost use Rattle.kernel_model.specs.Shared.{Wake};
ghost use Rattle.kernel_model.specs.State.{Kernel};
ghost use Rattle.std.specs.Prelude.{◌≡◌, ◌⊎◌, ℕ, List, length, slice_set};

/// A call that fails moves nothing: no byte of memory is written, none of the input is taken, and none
/// is sent; but pselect(2) and ppoll(2) store the time left, and nothing else.
pub fn a_call_that_fails_moves_nothing()
    ensures moved { (number : ℕ) (args : List ℕ) (kernel : Kernel) (memory left : List ℕ)
        → IsFailure (native_call number args kernel memory left).reply
        → MovesNothing memory left (native_call number args kernel memory left)
        ⊎ StoresTimeLeft number memory (native_call number args kernel memory left) }
    ensures streams { (number : ℕ) (args : List ℕ) (kernel : Kernel) (memory left : List ℕ)
        → IsFailure (native_call number args kernel memory left).reply
        → KeepsStreams left (native_call number args kernel memory left) }
{}

/// No call makes host memory longer or shorter.
pub fn a_call_keeps_the_length_of_memory()
    ensures { (number : ℕ) (args : List ℕ) (kernel : Kernel) (memory left : List ℕ)
        → length (native_call number args kernel memory left).memory ≡ length memory }
{}

/// What a call that fails leaves of the kernel: all as it was, but for SIGPIPE's post with EPIPE, for a
/// pipe2(2) that can't store its pair, which made a pipe and closed both its ends again, and for a call
/// that did what it was asked and can't store what was there before.
pub fn a_call_that_fails_leaves_the_kernel()
    ensures { (number : ℕ) (args : List ℕ) (kernel : Kernel) (memory left : List ℕ)
        → IsFailure (native_call number args kernel memory left).reply
        → LeftByFailure number kernel (native_call number args kernel memory left) }
{}

/// A call that waits with nothing done leaves the kernel as it was, and only write(2) and writev(2) wait
/// with a part done.
pub fn a_call_that_waits_leaves_the_kernel()
    ensures stays { (number : ℕ) (args : List ℕ) (kernel : Kernel) (memory left : List ℕ) (wake : Wake)
        → (native_call number args kernel memory left).reply ≡ Sleep wake
        → wake.done ≡ 0
        → (native_call number args kernel memory left).kernel ≡ kernel }
    ensures partly { (number : ℕ) (args : List ℕ) (kernel : Kernel) (memory left : List ℕ) (wake : Wake)
        → (native_call number args kernel memory left).reply ≡ Sleep wake
        → (wake.done ≡ 0) ⊎ MayWaitPartly number }
{}

/// Where a call is to store what was there before, or what it took away, is nothing to the kernel: it
/// becomes what it becomes where that is told nowhere.
pub fn where_something_is_told_is_nothing_to_the_kernel()
    ensures { (number place : ℕ) (args : List ℕ) (kernel : Kernel) (memory left : List ℕ)
        → TellsOld number place
        → (native_call number args kernel memory left).kernel
        ≡ (native_call number (slice_set args place 0) kernel memory left).kernel }
{}

/// No call is refused with ENOMEM but sigaltstack(2), for a stack that is too small.
pub fn sigaltstack_alone_is_refused_for_want_of_memory()
    ensures { (number : ℕ) (args : List ℕ) (kernel : Kernel) (memory left : List ℕ)
        → (native_call number args kernel memory left).reply ≡ failure ENOMEM
        → MayLackMemory number }
{}
