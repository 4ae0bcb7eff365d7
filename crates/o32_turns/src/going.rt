//! What a process keeps within a turn beside its processor, its memory and its kernel. (The form is this project's own.)

use kernel_core::{Event, Finish, Info};
use o32_model::Wait;
use std::marker::Model;

/// What a process keeps within a turn, which a contract sees as `Standing`.
#[derive(Drop)]
pub struct Going {
    /// The call that waits.
    pub wait: Option<Wait>,
    /// Whether a stop interrupted it.
    pub interrupted: bool,
    /// The wait that restart_syscall(2) goes on with.
    pub restart: Option<Wait>,
    /// Whether a signal has stopped the process.
    pub stopped: bool,
    /// The fault that an instruction or a frame met and that is not yet delivered, with its code and its address.
    pub fault: Option<Info>,
    /// The mask that the next handler's frame keeps, where that is not the mask that stands: a bit for each signal, the
    /// lowest of the first word for signal 1.
    pub saved: Option<[u32; 4]>,
    /// How the process has ended.
    pub over: Option<Finish>,
    /// What happened in the turn, in order.
    pub events: Vec<Event>,
}

impl Model for Going {
    ghost use Rattle.o32_turns.specs.Going.{Standing};

    ghost Value = { Standing };

    ghost view = { λ g. record {
      wait = g.wait;
      interrupted = g.interrupted;
      restart = g.restart;
      stopped = g.stopped;
      fault = g.fault;
      saved = g.saved;
      over = g.over;
      events = g.events.items;
    } };
}
