//! What the kernel always is, kept by the rows on limits and chance (getrlimit(2), getrandom(2)).

ghost use Rattle.std.specs.Prelude.{Option, ℕ, ℤ, ◌<◌, ◌^◌};
ghost use Rattle.kernel_core.specs.declared.resource.Resource.{Resource};
ghost use Rattle.kernel_laws.specs.Arguments.{WhereGiven};
ghost use Rattle.kernel_model.specs.Always.{IsKernel};
ghost use Rattle.kernel_model.specs.Came.{Given};
ghost use Rattle.kernel_model.specs.State.{Kernel};
ghost use Rattle.kernel_model.specs.System.{random_bytes, set_limit};
ghost use Rattle.kernel_model.specs.declared.limit.Limit.{Limit};

/// A resource gets another limit, of 64 bits.
pub fn setting_a_limit_keeps_the_kernel()
    ensures { (kernel : Kernel) (pid : ℤ) (resource : Option Resource) (limit : Option (Given Limit)) → IsKernel kernel → WhereGiven (λ l. l.hard < 2 ^ 64) limit
        → IsKernel (set_limit kernel pid resource limit).state }
{}

/// Bytes of chance are taken.
pub fn taking_random_bytes_keeps_the_kernel()
    ensures { (kernel : Kernel) (asked room flags : ℕ) → IsKernel kernel → IsKernel (random_bytes kernel asked room flags).state }
{}
