//! Laws on the timer. Each is the contract of a function that does nothing.

ghost use Rattle.std.specs.Prelude.{◌≡◌, ◌≤◌, ◌<◌, ◌+◌, ◌-◌, ◌^◌, ◌⊎◌, ℕ, min, Some, None, IfSome};
ghost use Rattle.kernel_model.specs.Clock.{armed, capped, gone_off, left_until, next_time, unarmed};
ghost use Rattle.kernel_model.specs.State.{Timer};
ghost use Rattle.native_timer.specs.Timers.{IsFirstPast, after_firing, armed_at, first_time};

/// Setting the timer to a length is arming it to the time of the clock that is so far off, also where that
/// time and the period are held to 64 bits. It has its length left then, unless its time is capped.
pub fn setting_a_timer_arms_it()
    ensures armed { (clock length period : ℕ)
        → armed clock length period ≡ armed_at (first_time clock length) period }
    ensures saturated { (time period : ℕ)
        → armed_at (Some (min time (2 ^ 64 - 1))) (min period (2 ^ 64 - 1)) ≡ armed_at (Some time) period }
    ensures left { (clock length period : ℕ) → clock + length < 2 ^ 63
        → left_until clock (armed clock length period).due ≡ length }
{}

/// Once the timer was fired at a time of the clock, its next time is past that, so it is not due there again.
pub fn a_timer_goes_off_once_at_a_time()
    ensures past { (clock : ℕ) (timer : Timer)
        → IfSome (next_time (after_firing clock timer)) (λ time. clock < time) }
    ensures once { (clock : ℕ) (timer : Timer) → gone_off clock (after_firing clock timer) ≡ None }
{}

/// A timer that goes off is due next at the first of its time and whole periods after it that is past the
/// clock, whatever was missed. Without a period it is not armed any more.
pub fn the_next_time_is_the_first_past_the_clock()
    ensures period { (clock time period : ℕ) → time ≤ clock → time ≤ 2 ^ 61 → 0 < period
        → (next : ℕ) × IsFirstPast clock time period next
        × (gone_off clock (record { due = Some time; period = period })
        ≡ Some (record { due = Some (capped next); period = period })) }
    ensures without_period { (clock time : ℕ) → time ≤ clock → time ≤ 2 ^ 61
        → gone_off clock (record { due = Some time; period = 0 }) ≡ Some unarmed }
{}

/// Firing at one time of the clock and then at a later one is firing at the later one, where that is at most
/// 2^61 or the timer is not due at the first.
pub fn firing_twice_is_firing_once()
    ensures { (first second : ℕ) (timer : Timer) → first ≤ second
        → (second ≤ 2 ^ 61) ⊎ (gone_off first timer ≡ None)
        → after_firing second (after_firing first timer) ≡ after_firing second timer }
{}
