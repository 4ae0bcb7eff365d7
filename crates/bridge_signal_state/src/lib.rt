//! What the native kernel keeps of signals, read and set by native calls, each of which is kept.
#![tactic(auto)]

mod acting;
mod filling;
mod numbers;
mod places;
mod program_sets;
mod reading;
mod setting;
mod showing;
mod taking;
mod words;

pub use acting::act;
pub use bridge_log::{
    Below, NativeKernel, load_structure, outcome_of, put, signed_word_at, six_words, store,
    store_unless_null, word_at, wrote,
};
pub use filling::put_set;
pub use program_sets::set_in_program;
pub use reading::{action, mask, pending, stack};
pub use setting::{set_default, set_mask, set_stack};
pub use taking::take;
pub use words::is_set;
