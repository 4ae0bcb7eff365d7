//! The first state of a kernel (this project's own).

ghost use Rattle.std.specs.Prelude.{All, length, ◌<◌, ◌≤◌};
ghost use Rattle.kernel_core.specs.ValidTree.{IsValidTree};
ghost use Rattle.kernel_core.specs.declared.tree.Tree.{Tree};
ghost use Rattle.kernel_laws.specs.Ends.{IsSoundKernel};
ghost use Rattle.kernel_model.specs.Always.{IsKernel};
ghost use Rattle.kernel_model.specs.Begin.{Settings, first_state};

/// A kernel begins with a valid tree, and at least one byte of chance.
pub fn the_first_state_is_a_kernel()
    ensures kernel { (tree : Tree) (settings : Settings) → IsValidTree tree → 1 ≤ length settings.random → All (λ byte. byte < 256) settings.random
        → IsKernel (first_state tree settings) }
    ensures sound { (tree : Tree) (settings : Settings) → IsValidTree tree → 1 ≤ length settings.random → All (λ byte. byte < 256) settings.random
        → IsSoundKernel (first_state tree settings) }
{}
