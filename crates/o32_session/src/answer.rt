//! What a session answers.
use o32_runner::Emulator;
use session_files::End;

/// What a session answers. (Its parts are this project's own.)
#[derive(Drop)]
pub struct Answer {
    /// The exit status of the emulator, that of [`End::status`].
    pub status: u8,
    /// How the session ended.
    pub end: End,
    /// The number of turns that were finished, at most the budget, and 0 where nothing ran.
    pub turns: u64,
    /// The emulator that made the run, in the run's last state: Some exactly where the run ended by itself, that of the soak program among them.
    pub host: Option<Emulator>,
}
