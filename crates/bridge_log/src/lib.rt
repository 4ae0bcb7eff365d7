//! What every bridge call does beside its row: it makes native calls and keeps them, keeps effects, and
//! makes an o32 outcome of a native reply.
#![tactic(auto)]

mod below;
mod calls;
mod effects;
mod filled;
mod looks;
mod mirrored;
mod native_words;
mod outcomes;
mod storing;

pub use below::Below;
// Passed on: who makes native calls for a program names one crate for the kernel, for its host's rooms and for the program's memory.
pub use bridge_mem::{
    PathError, Vector, fresh_room, load_buffer, load_structure, path, signed_word_at, six_words,
    stack_pair, word_at,
};
pub use effects::{sent, wrote};
pub use native_kernel::NativeKernel;
pub use native_words::NativeWords;
pub use outcomes::outcome_of;
pub use storing::{bytes_back, put, put_some, sent_back, store, store_unless_null, value_if};
