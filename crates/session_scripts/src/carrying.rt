//! A session that is carried out over devices in memory, and what it did.
use o32_session::{Answer, End, session};
use outside::{Devices, MemSink, MemSource, MemStore};
use session_settings::Given;
use std::alloc::Global;

/// What a session answered.
#[derive(Clone, Copy)]
pub struct Told {
    /// Its end.
    pub end: End,
    /// Its status.
    pub status: u8,
    /// Its turns.
    pub turns: u64,
    /// The turns of the emulator that it handed out, where it handed one out.
    pub host_turns: Option<u64>,
}

/// What a session did. The emulator that it handed out is given up.
#[derive(Drop)]
pub struct Done {
    /// What it answered.
    pub answer: Told,
    /// Its devices.
    pub dev: Devices<MemSource, MemSink, MemSink>,
    /// Its files.
    pub store: MemStore,
}

/// What an answer says.
fn answered(answer: &Answer) -> Told {
    Told {
        end: answer.end,
        status: answer.status,
        turns: answer.turns,
        host_turns: answer.host.as_ref().map(|host| host.turns()),
    }
}

/// Carries out a session.
pub fn carry_out(alloc: Global, given: Given) -> Done {
    let failing = given.failing;
    let mut store = MemStore::new(alloc, given.files, failing.calls);
    let mut dev = Devices {
        input: MemSource::new(given.input, failing.takes),
        out: MemSink::new(alloc, failing.puts),
        err: MemSink::new(alloc, failing.lines),
    };
    let answer = answered(&session(alloc, &given.words, &mut store, &mut dev));
    Done { answer, dev, store }
}

/// Whether an answer has an emulator that took its turns, exactly where the run ended by itself.
pub(crate) fn is_hosted(answer: &Told) -> bool {
    let finished = matches!(
        answer.end,
        End::Exited(_) | End::Killed(_) | End::Budget | End::Blocked | End::Soaked(_)
    );
    match answer.host_turns {
        Some(turns) => finished && turns == answer.turns,
        None => !finished,
    }
}
