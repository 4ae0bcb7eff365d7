//! What is kept of the calls of a turn, where it was asked for. (The form is this project's own.)

use kernel_core::{Effect, LogEntry};
use std::marker::Model;

/// What is kept of calls, which a contract sees as two lists, whatever their capacity.
#[derive(Drop)]
pub struct Log {
    /// What the native kernel was asked and told, in order; None where no log of it is kept.
    pub native: Option<Vec<LogEntry>>,
    /// What calls did to pages and outputs, in order; None where no journal is kept.
    pub effects: Option<Vec<Effect>>,
}

impl Model for Log {
    ghost use Rattle.std.specs.Prelude.{option_map};
    ghost use Rattle.o32_model.specs.Logs.{Kept};

    ghost Value = { Kept };

    ghost view = { λ l. record { native = option_map (λ v. v.items) l.native; effects = option_map (λ v. v.items) l.effects } };
}
