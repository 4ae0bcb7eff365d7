//! What the calls that wait for descriptors share for an o32 program: how long they wait, the mask that stands
//! meanwhile, the time that is left, and how their waits end.
#![tactic(auto)]

mod ends;
mod lefts;
mod masks;
mod rooms;
mod sleeping;
mod times;
mod words;

pub use bridge_signal_state::{
    Below, NativeKernel, action, load_structure, mask, outcome_of, pending, put, set_default,
    set_mask, stack, take, wrote,
};
pub use ends::{again_or_interrupted, end_limited};
pub use lefts::store_left;
pub use masks::{OwnMask, mask_at};
pub use rooms::{Placed, put_limits};
pub use sleeping::sleep;
pub use times::{TimeForm, TimePlace, wait_at};
