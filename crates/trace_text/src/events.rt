//! What a trace tells of an event.
ghost use Rattle.std.specs.Prelude.{Some};
ghost use Rattle.trace_text.specs.Trace.{arguments_text, delivery_text, event_text, result_text};

use crate::digits::Word;
use kernel_core::{Delivery, Event};
use number_tables::O32Number;
use std::fmt;

/// An event as its line tells it, without the turn.
#[derive(Drop)]
pub(crate) struct Told<'a> {
    pub(crate) event: &'a Event,
}

#[tactic(auto, unfolding(crate::specs::Trace::event_text))]
impl fmt::Display for Told<'_> {
    ghost output = { λ told. Some (event_text told.event.now) };

    fn fmt<W: fmt::Write>(&self, f: &mut fmt::Formatter<W>) -> fmt::Result {
        match self.event {
            Event::Post { sig } => {
                let number = sig.to_o32();
                write!(f, "post {number}")
            }
            Event::Dropped { sig } => {
                let number = sig.to_o32();
                write!(f, "drop {number}")
            }
            Event::Cont => write!(f, "cont"),
            Event::Fault { sig, code, addr } => {
                let number = sig.to_o32();
                let address = Word { number: *addr };
                write!(f, "fault {number} {code} {address}")
            }
            Event::Signal { sig, delivery } => {
                let number = sig.to_o32();
                let became = Became {
                    delivery: *delivery,
                };
                write!(f, "signal {number} {became}")
            }
            Event::Wait { nr, args } => {
                let arguments = Arguments { words: *args };
                write!(f, "wait {nr} {arguments}")
            }
            Event::Done { v0, a3 } => {
                let result = Gave {
                    value: *v0,
                    failed: *a3,
                };
                write!(f, "done {result}")
            }
            Event::Restart { nr } => write!(f, "restart {nr}"),
            Event::Call { nr, args, v0, a3 } => {
                let arguments = Arguments { words: *args };
                let result = Gave {
                    value: *v0,
                    failed: *a3,
                };
                write!(f, "call {nr} {arguments} = {result}")
            }
            Event::Return => write!(f, "return"),
            Event::Exit { status } => write!(f, "exit {status}"),
            Event::Killed { sig } => {
                let number = sig.to_o32();
                write!(f, "killed {number}")
            }
            Event::Budget => write!(f, "budget"),
            Event::Blocked => write!(f, "blocked"),
        }
    }
}

/// What became of a signal.
#[derive(Clone, Copy)]
struct Became {
    delivery: Delivery,
}

#[tactic(auto, unfolding(crate::specs::Trace::delivery_text))]
impl fmt::Display for Became {
    ghost output = { λ became. Some (delivery_text became.delivery) };

    fn fmt<W: fmt::Write>(&self, f: &mut fmt::Formatter<W>) -> fmt::Result {
        match self.delivery {
            Delivery::Handler => write!(f, "handler"),
            Delivery::Ignored => write!(f, "ignored"),
            Delivery::Stop => write!(f, "stop"),
        }
    }
}

/// The four arguments of a call.
#[derive(Clone, Copy)]
struct Arguments {
    words: [u32; 4],
}

#[tactic(auto, unfolding(crate::specs::Trace::arguments_text))]
impl fmt::Display for Arguments {
    ghost output = { λ arguments. Some (arguments_text arguments.words) };

    fn fmt<W: fmt::Write>(&self, f: &mut fmt::Formatter<W>) -> fmt::Result {
        let first = Word {
            number: self.words[0],
        };
        let second = Word {
            number: self.words[1],
        };
        let third = Word {
            number: self.words[2],
        };
        let fourth = Word {
            number: self.words[3],
        };
        write!(f, "{first} {second} {third} {fourth}")
    }
}

/// What a call gave in its two registers.
#[derive(Clone, Copy)]
struct Gave {
    value: u32,
    failed: u32,
}

#[tactic(auto, unfolding(crate::specs::Trace::result_text))]
impl fmt::Display for Gave {
    ghost output = { λ gave. Some (result_text gave.value gave.failed) };

    fn fmt<W: fmt::Write>(&self, f: &mut fmt::Formatter<W>) -> fmt::Result {
        let value = Word { number: self.value };
        let failed = self.failed;
        write!(f, "{value} {failed}")
    }
}
