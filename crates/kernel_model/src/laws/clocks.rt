//! The clock and the interval timer (clock_gettime(2), setitimer(2)).

ghost use Rattle.std.specs.Prelude.{◌≡◌, ◌≤◌, ◌^◌, ◌⊎◌, ℕ, Bool, None};
ghost use Rattle.kernel_model.specs.Clock.{gone_off};
ghost use Rattle.kernel_model.specs.SignalRows.{advance};
ghost use Rattle.kernel_model.specs.State.{Kernel};

/// The clock stands where it was advanced to, so it never goes back where it is not sent back.
pub fn the_clock_goes_where_it_is_sent()
    ensures { (kernel : Kernel) (to : ℕ) (kept : Bool) → (advance kernel to kept).clock ≡ to }
{}

/// Advancing to one time and then to a later one is advancing to the later one, where that is at most
/// 2^61 or no timer is due at the first.
pub fn advancing_twice_is_advancing_once()
    ensures { (kernel : Kernel) (first second : ℕ) (kept : Bool) → first ≤ second
        → (second ≤ 2 ^ 61) ⊎ (gone_off first kernel.timer ≡ None)
        → advance (advance kernel first kept) second kept ≡ advance kernel second kept }
{}
