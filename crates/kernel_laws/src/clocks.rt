//! What the kernel always is, kept by the rows on time (clock_gettime(2), clock_nanosleep(2), setitimer(2),
//! alarm(2)) and those that wait for descriptors (poll(2), select(2)).

ghost use Rattle.std.specs.Prelude.{Bool, List, Option, ℕ, ℤ};
ghost use Rattle.kernel_model.specs.Always.{IsKernel};
ghost use Rattle.kernel_model.specs.Came.{Given};
ghost use Rattle.kernel_model.specs.Clock.{TimerSetting, alarm, arm_timer, read_clock, read_timer, resolution, sleep};
ghost use Rattle.kernel_model.specs.Readiness.{PollEntry, Sets, poll, select};
ghost use Rattle.kernel_model.specs.State.{Kernel};
ghost use Rattle.kernel_model.specs.declared.time.TimeSpec.{TimeSpec};

/// The interval timer is set, by a setting or by whole seconds.
pub fn setting_the_timer_keeps_the_kernel()
    ensures arm_timer { (kernel : Kernel) (which : ℕ) (setting : Option (Given TimerSetting)) → IsKernel kernel → IsKernel (arm_timer kernel which setting).state }
    ensures alarm { (kernel : Kernel) (seconds : ℕ) → IsKernel kernel → IsKernel (alarm kernel seconds).state }
{}

/// A clock or the timer is read, or a sleep begins.
pub fn asking_for_the_time_keeps_the_kernel()
    ensures read_clock { (kernel : Kernel) (quanta id : ℕ) → IsKernel kernel → IsKernel (read_clock kernel quanta id).state }
    ensures resolution { (kernel : Kernel) (id : ℕ) → IsKernel kernel → IsKernel (resolution kernel id).state }
    ensures read_timer { (kernel : Kernel) (which : ℕ) → IsKernel kernel → IsKernel (read_timer kernel which).state }
    ensures sleep { (kernel : Kernel) (id : ℕ) (absolute : Option Bool) (time : Given TimeSpec) → IsKernel kernel → IsKernel (sleep kernel id absolute time).state }
{}

/// Descriptors are looked at, or waited for.
pub fn asking_for_readiness_keeps_the_kernel()
    ensures poll { (kernel : Kernel) (wait : Given (Option ℕ)) (count : ℕ) (entries : Given (List PollEntry)) → IsKernel kernel
        → IsKernel (poll kernel wait count entries).state }
    ensures select { (kernel : Kernel) (wait : Given (Option ℕ)) (count : ℤ) (sets : Given Sets) → IsKernel kernel → IsKernel (select kernel wait count sets).state }
{}
