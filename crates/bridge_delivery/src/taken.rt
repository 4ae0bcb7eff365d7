//! A signal that is delivered.

use kernel_core::Info;
use kernel_model::Action;

/// A fault or a signal that pended, which was taken to be delivered.
#[derive(Clone, Copy)]
pub(crate) struct TakenSignal {
    /// What is known of it.
    pub(crate) info: Info,
    /// What is done with it.
    pub(crate) action: Action,
}
