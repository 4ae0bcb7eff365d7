//! A session, and what it comes to.
use crate::carrying::{Done, carry_out, is_hosted};
use o32_session::End;
use outside::MemStore;
use session_settings::{Left, Setting};
use std::alloc::Global;

/// What a session answers.
#[derive(Clone, Copy)]
pub(crate) struct Outcome {
    /// How it ends.
    pub(crate) end: End,
    /// The status of its answer.
    pub(crate) status: u8,
    /// The turns of its answer.
    pub(crate) turns: u64,
}

/// Whether this is left in a file of a store.
fn is_left(store: &MemStore, name: &str, left: &Option<Vec<u8>>) -> bool {
    match (store.file(name), left) {
        (Some(bytes), Some(wanted)) => bytes == wanted.as_slice(),
        (None, None) => true,
        _ => false,
    }
}

/// Whether a session answers so, and leaves this.
fn is_right(done: &Done, outcome: &Outcome, left: &Left) -> bool {
    done.answer.end == outcome.end
        && done.answer.status == outcome.status
        && done.answer.turns == outcome.turns
        && is_hosted(&done.answer)
        && done.dev.out.bytes() == left.out.as_slice()
        && done.dev.err.bytes() == left.err.as_slice()
        && is_left(&done.store, "s", &left.saved)
        && is_left(&done.store, "trace", &left.traced)
        && is_left(&done.store, "native", &left.logged)
}

/// Whether a session comes out so, and leaves what it has to.
pub(crate) fn comes_out(alloc: Global, setting: Setting, outcome: &Outcome) -> bool {
    let left = setting.left;
    is_right(&carry_out(alloc, setting.given), outcome, &left)
}
