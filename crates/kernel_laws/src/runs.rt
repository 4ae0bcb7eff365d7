//! Whatever rows are made, one after another (this project's own).

ghost use Rattle.std.specs.Prelude.{All, length, ◌<◌, ◌≤◌};
ghost use Rattle.kernel_core.specs.ValidTree.{IsValidTree};
ghost use Rattle.kernel_core.specs.declared.tree.Tree.{Tree};
ghost use Rattle.kernel_laws.specs.Ends.{IsSoundKernel};
ghost use Rattle.kernel_laws.specs.Runs.{Reaches};
ghost use Rattle.kernel_model.specs.Begin.{Settings, first_state};
ghost use Rattle.kernel_model.specs.State.{Kernel};

/// A kernel is always what a kernel is, from its first state on or from any such state on, whatever rows are
/// made, however often the clock moves, and whatever signals come.
pub fn every_state_that_is_reached_is_sound()
    ensures begun { (tree : Tree) (settings : Settings) (kernel : Kernel) → IsValidTree tree → 1 ≤ length settings.random → All (λ byte. byte < 256) settings.random
        → Reaches (first_state tree settings) kernel → IsSoundKernel kernel }
    ensures from_there { (first kernel : Kernel) → IsSoundKernel first → Reaches first kernel → IsSoundKernel kernel }
{}
