//! Scripts of sessions, for the tests of whole sessions: what each session is given, and what comes of it; and scripts of calls that a
//! program makes over an image.
#![tactic(auto)]

pub mod calls;
mod carrying;
mod ends;
mod script;
mod sessions;

// Passed on for the tests that stand on these scripts.
pub use carrying::{Done, Told, carry_out};
pub use guest_scripts::{calls as call_lines, guest, image, listing};
pub use o32_session::End;
pub use outside::MemStore;
pub use script::first_wrong;
pub use session_settings::Given;
