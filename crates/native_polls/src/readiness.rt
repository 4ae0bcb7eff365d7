//! Which descriptors are ready, told by whatever has the files of a process.
ghost use Rattle.std.specs.Prelude.{◌≡◌};
ghost use Rattle.kernel_model.specs.Readiness.{ready};
ghost use Rattle.kernel_model.specs.State.{Files};

use kernel_core::PollBits;

/// What has the files of a process, as far as a call that waits for descriptors asks for them. (The form is this
/// project's own.)
pub trait Readiness {
    /// The files, in the names of the modelled kernel.
    ghost files: { Self → Files };

    /// What a descriptor is ready for (poll(2)); one that is not open is POLLNVAL.
    fn ready(&self, fd: u32) -> PollBits
        ensures { result ≡ ready (files self.now) fd };
}
