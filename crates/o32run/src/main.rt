//! The emulator's program: one session over the real arguments, files and streams.
#![tactic(auto)]

mod program;
#[cfg(test)]
mod tests;
mod words;

use outside::{Devices, DirStore, StdSink, StdSource};
use program::{Ended, run_program};
use std::io::{Stderr, Stdin, Stdout};

/// The streams of a run: those of the process.
type Streams = Devices<StdSource<Stdin>, StdSink<Stdout>, StdSink<Stderr>>;

fn main(rt: HostRuntime) -> Ended {
    let mut files = DirStore::new(rt.alloc(), rt);
    let mut streams: Streams = Devices {
        input: StdSource::new(rt.stdin()),
        out: StdSink::new(rt.stdout()),
        err: StdSink::new(rt.stderr()),
    };
    run_program(rt.alloc(), &rt, &mut files, &mut streams)
}
