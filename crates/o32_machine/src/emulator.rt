//! An emulator: a process, its clock and the turns that it took.
ghost use Rattle.std.specs.Prelude.{◌≡◌, ◌↔◌, ◌+◌, ◌*◌, ◌<◌, ◌≤◌, [], ℕ, Contains, false, true, if◌then◌else◌, IfOk, IfSome, None, unwrap_or};
ghost use Rattle.kernel_core.specs.LoadedTree.{saved};
ghost use Rattle.kernel_core.specs.ValidTree.{IsReached, IsValidTree, numbers};
ghost use Rattle.kernel_model.specs.Begin.{first_state};
ghost use Rattle.kernel_model.specs.Clock.{gone_off};
ghost use Rattle.kernel_model.specs.Stops.{StopsOnlyIfRose};
ghost use Rattle.native_kernel.specs.Settings.{settings_of};
ghost use Rattle.o32_machine.specs.Answered.{IsTurn, is_last, over_of, turns_done};
ghost use Rattle.native_log.specs.NativeLog.{first_log};
ghost use Rattle.o32_machine.specs.Emulator.{coming_of, first_emulated, first_machine, runs};
ghost use Rattle.o32_machine.specs.Native.{LogsTurn, LogsTurns};
ghost use Rattle.o32_machine.specs.Quiet.{IsTurnAfter};
ghost use Rattle.o32_machine.specs.Records.{RecordsCall, RecordsTurn, RecordsTurns};
ghost use Rattle.o32_machine.specs.inside.Quieting.{OnlyExecutes};
ghost use Rattle.o32_turns.specs.Instruction.{at_time, called};
ghost use Rattle.o32_turns.specs.Runs.{is_block};
ghost use Rattle.o32_turns.specs.Turn.{turn_of, whole};
ghost use Rattle.outside.specs.Streams.{NoCountFell, contents};
ghost use Rattle.schedule.specs.Ranges.{IsGivenSchedule};
ghost use Rattle.turn_records.specs.Keeping.{emptied, first_records};

use crate::kept::Kept;
use crate::process::Process;
use crate::times::{later, most_quiet};
use crate::turn::Turn;
use kernel_core::{Event, Finish, LogEntry, NoMemory, Record, Stop, Tree};
use native_kernel::NativeKernel;
use native_log::NativeLog;
use outside::{Devices, Sink, Source};
use schedule::Schedule;
use start_stack::Start;
use std::alloc::Global;
use std::marker::Model;
use turn_records::{Registers, TurnRecords};

/// An emulator of one o32 program. Contracts see it as `Emulated`: its machine, the nanoseconds of a turn with
/// an instruction, the turns so far, and whether there is no further one. (Turns are this project's own.)
///
/// The kernel's own clock is moved within a turn, once what is due is posted, so that between two turns it stands behind
/// the machine's: the machine's kernel is the native one at the machine's time.
#[derive(Drop)]
pub struct Emulator {
    process: Process,
    /// The machine's time, in nanoseconds from 0.
    clock: u64,
    /// The nanoseconds of a turn with an instruction, 1 to 1,000,000.
    quantum: u64,
    turns: u64,
    over: bool,
    kept: Kept,
}

impl Model for Emulator {
    ghost use Rattle.std.specs.Prelude.{◌≤◌, ◌*◌, ◌+◌, ◌^◌};
    ghost use Rattle.guest_space.specs.Memory.{memory_code};
    ghost use Rattle.kernel_core.specs.Nodes.{nodes_code};
    ghost use Rattle.o32_machine.specs.Emulator.{Emulated, machine_at, machine_of};
    ghost use Rattle.std.specs.Coded.{codes};

    ghost Value = { Emulated };

    ghost coded = { Prim.hlevel (codes, memory_code, nodes_code) };

    ghost view = { λ e. record { machine = machine_at e.clock (machine_of e.process); quantum = e.quantum; turns = e.turns; over = e.over; events = e.process.going.events; native = e.kept.native; records = e.kept.records } };

    ghost invariant = { λ e. (1 ≤ e.quantum) × (e.quantum ≤ 1_000_000) × (e.clock ≤ 2 ^ 61 + 1_000_000 * e.turns) × (e.process.idle ≤ e.clock)
        × (e.process.kernel.clock ≤ e.clock) × (e.kept.native.told ≤ e.process.kernel.clock) × (e.turns ≤ 1_000_000_000_000) };
}

impl Emulator {
    /// The emulator of a program at its first instruction, over the nodes of a file tree, with what a schedule
    /// says of the clock, the terminal and chance, and before its events. A native log is kept where `log` says so, and
    /// records of a journal where `journal` does. It takes its memory from `alloc`.
    #[tactic(auto, unfolding(kernel_model::specs::Begin::first_state))]
    pub fn new(
        alloc: Global,
        start: Start,
        tree: Tree,
        schedule: Schedule,
        log: bool,
        journal: bool,
    ) -> Result<Emulator, NoMemory>
        requires tree { IsValidTree tree }
        requires schedule { IsGivenSchedule schedule }
        ensures first { IfOk result (λ emulator. emulator
            ≡ first_emulated schedule.quantum (first_machine start.cpu start.space (first_state tree (settings_of schedule)) (coming_of schedule)) (first_log log) (first_records journal)) }
    {
        let kernel = NativeKernel::new(alloc, tree, &schedule)?;
        let quantum = schedule.quantum;
        let was = Registers::of(&start.cpu);
        Ok(Emulator {
            process: Process::new(alloc, start, kernel, schedule),
            clock: 0,
            quantum,
            turns: 0,
            over: false,
            kept: Kept {
                native: NativeLog::new(alloc, log),
                records: TurnRecords::new(alloc, journal),
                was,
            },
        })
    }

    /// Takes one turn: the events of the schedule that are due are posted, and then the timer's signal; a call ends whose
    /// deadline is over; signals are delivered; and a call that a stop interrupted ends, where the process goes on. Where
    /// the process is stopped or a call waits the clock jumps to what comes next, or nothing can come, and the process is
    /// blocked: that attempt is no turn. Else one instruction is carried out with its call, and the clock gains a quantum.
    ///
    /// # Errors
    ///
    /// `ReadFault` and `WriteFault` only where that device's count rose in this turn; `NoMemory`. The turn isn't
    /// finished then and doesn't count, and no further one follows.
    pub fn turn<I: Source, O: Sink, E: Sink>(
        &mut self,
        dev: &mut Devices<I, O, E>,
    ) -> Result<Turn, Stop>
        requires on { self.old.over ≡ false }
        requires few { self.old.turns < 1_000_000_000_000 }
        ensures turn { IsTurn (turn_of self.old.quantum self.old.machine) result self.new.machine self.new.events
            (contents I.left O.written E.written dev.old) (contents I.left O.written E.written dev.new) }
        ensures native { LogsTurn (turn_of self.old.quantum self.old.machine) result self.old.machine.kernel self.new.machine.kernel self.old.native self.new.native
            (contents I.left O.written E.written dev.old) }
        ensures records { RecordsTurn result self.old.quantum self.old.machine self.old.turns self.old.records self.new.records
            (contents I.left O.written E.written dev.old) }
        ensures quantum { self.new.quantum ≡ self.old.quantum }
        ensures turns { self.new.turns ≡ self.old.turns + turns_done result }
        ensures over { self.new.over ≡ is_last result }
        ensures cause { StopsOnlyIfRose I.faults O.faults E.faults result dev.old dev.new }
        ensures counts { NoCountFell I.faults O.faults E.faults dev.old dev.new }
    {
        self.next_turns(1, dev)
    }

    /// Takes turns, at least one and at most `limit`, up to the first in which more is done than an instruction that makes
    /// no call and meets no fault. It answers for the last of them, as `turn` does; those before it are quiet: they take
    /// nothing of the input and send nothing.
    ///
    /// # Errors
    ///
    /// As those of a turn. The turns before the one that isn't finished count.
    pub fn next_turns<I: Source, O: Sink, E: Sink>(
        &mut self,
        limit: u64,
        dev: &mut Devices<I, O, E>,
    ) -> Result<Turn, Stop>
        requires on { self.old.over ≡ false }
        requires some { 0 < limit }
        requires few { self.old.turns + limit ≤ 1_000_000_000_000 }
        ensures turns { IsTurnAfter self.old.quantum limit self.old.machine self.old.turns result self.new.machine self.new.turns self.new.events
            (contents I.left O.written E.written dev.old) (contents I.left O.written E.written dev.new) }
        ensures native { LogsTurns result self.old.quantum self.old.machine self.old.turns self.new.turns self.new.machine.kernel self.old.native self.new.native
            (contents I.left O.written E.written dev.old) }
        ensures records { RecordsTurns result self.old.quantum self.old.machine self.old.turns self.new.turns self.old.records self.new.records
            (contents I.left O.written E.written dev.old) }
        ensures quantum { self.new.quantum ≡ self.old.quantum }
        ensures over { self.new.over ≡ is_last result }
        ensures cause { StopsOnlyIfRose I.faults O.faults E.faults result dev.old dev.new }
        ensures counts { NoCountFell I.faults O.faults E.faults dev.old dev.new }
    {
        let result = self.attempt(limit, dev);
        if !matches!(result, Ok(Turn::Went)) {
            self.over = true;
        }
        result
    }

    /// The same, but for whether a further turn follows.
    fn attempt<I: Source, O: Sink, E: Sink>(
        &mut self,
        limit: u64,
        dev: &mut Devices<I, O, E>,
    ) -> Result<Turn, Stop>
        requires some { 0 < limit }
        requires few { self.old.turns + limit ≤ 1_000_000_000_000 }
        ensures turns { IsTurnAfter self.old.quantum limit self.old.machine self.old.turns result self.new.machine self.new.turns self.new.events
            (contents I.left O.written E.written dev.old) (contents I.left O.written E.written dev.new) }
        ensures native { LogsTurns result self.old.quantum self.old.machine self.old.turns self.new.turns self.new.machine.kernel self.old.native self.new.native
            (contents I.left O.written E.written dev.old) }
        ensures records { RecordsTurns result self.old.quantum self.old.machine self.old.turns self.new.turns self.old.records self.new.records
            (contents I.left O.written E.written dev.old) }
        ensures quantum { self.new.quantum ≡ self.old.quantum }
        ensures over { self.new.over ≡ self.old.over }
        ensures cause { StopsOnlyIfRose I.faults O.faults E.faults result dev.old dev.new }
        ensures counts { NoCountFell I.faults O.faults E.faults dev.old dev.new }
    {
        match self.most_quiet(limit) {
            None => self.whole_turn(dev),
            Some(most) => self.quick_turns(most, limit, dev),
        }
    }

    /// How many quiet turns can be taken at once before the last one, of at most `limit` in all; None where the next turn
    /// is one in all its steps. Nothing is due in any of them, and nothing can be delivered.
    #[inline(always)]
    fn most_quiet(&self, limit: u64) -> Option<u64>
        requires some { 0 < limit }
        ensures few { IfSome result (λ most. most < limit) }
        ensures quiet { IfSome result (λ most. OnlyExecutes self.now.quantum self.now.machine most) }
    {
        if !self.process.goes() {
            return None;
        }
        most_quiet(self.clock, self.quantum, self.process.next_due(), limit)
    }

    /// Turns that do no more than their instructions: at most `most` that make no call and meet no fault, and one more.
    fn quick_turns<I: Source, O: Sink, E: Sink>(
        &mut self,
        most: u64,
        limit: u64,
        dev: &mut Devices<I, O, E>,
    ) -> Result<Turn, Stop>
        requires some { most < limit }
        requires few { self.old.turns + limit ≤ 1_000_000_000_000 }
        requires quiet { OnlyExecutes self.old.quantum self.old.machine most }
        ensures turns { IsTurnAfter self.old.quantum limit self.old.machine self.old.turns result self.new.machine self.new.turns self.new.events
            (contents I.left O.written E.written dev.old) (contents I.left O.written E.written dev.new) }
        ensures native { LogsTurns result self.old.quantum self.old.machine self.old.turns self.new.turns self.new.machine.kernel self.old.native self.new.native
            (contents I.left O.written E.written dev.old) }
        ensures records { RecordsTurns result self.old.quantum self.old.machine self.old.turns self.new.turns self.old.records self.new.records
            (contents I.left O.written E.written dev.old) }
        ensures quantum { self.new.quantum ≡ self.old.quantum }
        ensures over { self.new.over ≡ self.old.over }
        ensures cause { StopsOnlyIfRose I.faults O.faults E.faults result dev.old dev.new }
        ensures counts { NoCountFell I.faults O.faults E.faults dev.old dev.new }
    {
        self.process.begin();
        self.kept.clear();
        let ran = self.process.run(most);
        self.clock = later(self.clock, self.quantum, ran.quiet);
        self.turns += ran.quiet;
        let came = ran.came?;
        self.process.set_clock(self.clock)?;
        let turn = self
            .process
            .end_turn(came, self.clock, self.turns + 1, &mut self.kept, dev)?;
        self.clock += self.quantum;
        self.turns += 1;
        Ok(turn)
    }

    /// A turn in all its steps.
    fn whole_turn<I: Source, O: Sink, E: Sink>(
        &mut self,
        dev: &mut Devices<I, O, E>,
    ) -> Result<Turn, Stop>
        requires few { self.old.turns < 1_000_000_000_000 }
        ensures turn { IsTurn (turn_of self.old.quantum self.old.machine) result self.new.machine self.new.events
            (contents I.left O.written E.written dev.old) (contents I.left O.written E.written dev.new) }
        ensures native { LogsTurn (turn_of self.old.quantum self.old.machine) result self.old.machine.kernel self.new.machine.kernel self.old.native self.new.native
            (contents I.left O.written E.written dev.old) }
        ensures records { RecordsTurn result self.old.quantum self.old.machine self.old.turns self.old.records self.new.records
            (contents I.left O.written E.written dev.old) }
        ensures quantum { self.new.quantum ≡ self.old.quantum }
        ensures turns { self.new.turns ≡ self.old.turns + turns_done result }
        ensures over { self.new.over ≡ self.old.over }
        ensures cause { StopsOnlyIfRose I.faults O.faults E.faults result dev.old dev.new }
        ensures counts { NoCountFell I.faults O.faults E.faults dev.old dev.new }
    {
        self.kept.clear();
        let next = self.turns + 1;
        self.process.settle(self.clock, next, &mut self.kept, dev)?;
        let last = self
            .process
            .last_steps(self.clock, self.quantum, next, &mut self.kept, dev)?;
        end_records(&mut self.kept.records, last.turn);
        self.clock = last.clock;
        self.turns += last.turn.count();
        Ok(last.turn)
    }

    /// Makes the call of the SYSCALL that was just executed, whose address is pc - 4. It counts no turn, and the
    /// clock stands.
    ///
    /// # Errors
    ///
    /// As those of a turn.
    pub fn call<I: Source, O: Sink, E: Sink>(
        &mut self,
        dev: &mut Devices<I, O, E>,
    ) -> Result<Turn, Stop>
        requires running { runs self.old ≡ true }
        requires timer { gone_off self.old.machine.kernel.clock self.old.machine.kernel.timer ≡ None }
        ensures turn { IsTurn (λ left. at_time self.old.machine.kernel.clock (called whole self.old.machine left)) result self.new.machine self.new.events
            (contents I.left O.written E.written dev.old) (contents I.left O.written E.written dev.new) }
        ensures native { LogsTurn (λ left. at_time self.old.machine.kernel.clock (called whole self.old.machine left)) result self.old.machine.kernel self.new.machine.kernel self.old.native self.new.native
            (contents I.left O.written E.written dev.old) }
        ensures records { RecordsCall result (self.old.turns + 1) self.old.machine (emptied self.old.records) self.new.records
            (contents I.left O.written E.written dev.old) }
        ensures quantum { self.new.quantum ≡ self.old.quantum }
        ensures turns { self.new.turns ≡ self.old.turns }
        ensures over { self.new.over ≡ is_last result }
        ensures cause { StopsOnlyIfRose I.faults O.faults E.faults result dev.old dev.new }
        ensures counts { NoCountFell I.faults O.faults E.faults dev.old dev.new }
    {
        self.over = true;
        self.process.begin();
        self.kept.clear();
        self.process.set_clock(self.clock)?;
        let turn = self
            .process
            .call(self.clock, self.turns + 1, &mut self.kept, dev)?;
        self.over = turn.is_end();
        Ok(turn)
    }

    /// Whether there is no further turn: the process has ended or is blocked, or a turn stopped early.
    pub fn is_over(&self) -> bool
        ensures { result ≡ self.now.over }
    {
        self.over
    }

    /// How many turns there were.
    pub fn turns(&self) -> u64
        ensures { result ≡ self.now.turns }
    {
        self.turns
    }

    /// What happened in the last turn, or in the last call alone, in order. After one that stopped early nothing is said of
    /// it. (The events are those of a trace.)
    pub fn events(&self) -> &[Event]
        ensures { result.now ≡ self.now.events }
    {
        self.process.events()
    }

    /// What the kernel was told and asked in the last turns that were taken at once, or in the last call alone, in order: its
    /// clock, signals that were posted from outside, and native calls. None where no log is kept, and after a turn that
    /// stopped early nothing is said of it. (The entries are those of the native log.)
    pub fn native(&self) -> &[LogEntry]
        ensures { result.now ≡ unwrap_or self.now.native.entries [] }
    {
        self.kept.native.entries()
    }

    /// What a journal keeps of the last turn, or of the last call alone, in order: what was done to the machine before the
    /// instruction, and the call, or that there was no instruction. None where no journal is kept, none of an attempt that
    /// found the process blocked, and after a turn that stopped early nothing is said of it. The record of a run's end is
    /// not among them. (The records are those of the journal.)
    pub fn records(&self) -> &[Record]
        ensures { result.now ≡ unwrap_or self.now.records [] }
    {
        self.kept.records.records()
    }

    /// Whether the process runs: it is not over, no call waits, and no signal has stopped it.
    pub fn is_running(&self) -> bool
        ensures { result ≡ runs self.now }
    {
        !self.over && !self.process.rests()
    }

    /// The nodes as a file tree: those that names lead to from the root, by rising number, each with the time of
    /// its last modification in whole seconds. It copies every byte once. (The form is this project's own.)
    pub fn tree(&self) -> Result<Tree, NoMemory>
        ensures saved { IfOk result (λ tree. tree ≡ saved self.now.machine.kernel.files.nodes) }
        ensures valid { IfOk result IsValidTree }
        ensures reached { IfOk result (λ tree. (number : ℕ) → Contains (numbers tree.nodes) number ↔ IsReached tree.nodes number) }
    {
        self.process.tree()
    }
}

/// An attempt that finds the process blocked is no turn, and has no records.
fn end_records(records: &mut TurnRecords, turn: Turn)
    ensures { records.new ≡ (if is_block (over_of turn) then emptied records.old else records.old) }
{
    if let Turn::Ended(Finish::Blocked) = turn {
        records.clear();
    }
}
