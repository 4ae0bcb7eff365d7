//! The process of an o32 program: its processor and memory, the kernel that it calls, and the steps of its turns.
ghost use Rattle.std.specs.Prelude.{◌≡◌, ◌+◌, List, true, ◌-◌, ◌*◌, ◌%◌, ◌<◌, ◌^◌, ◌≤◌, ◌↔◌, ◌++◌, ◌||◌, [], ◌∷◌, max, ℕ, Contains, false, if◌then◌else◌, IfErr, IfOk, IfSome, None, OnOk, is_some};
ghost use Rattle.bridge_delivery.specs.Ended.{ended_wait};
ghost use Rattle.bridge_system.specs.Found.{found};
ghost use Rattle.bridge_system.specs.Plain.{IsPlain};
ghost use Rattle.guest_space.specs.Memory.{Memory};
ghost use Rattle.kernel_core.specs.LoadedTree.{saved};
ghost use Rattle.kernel_core.specs.ValidTree.{IsReached, IsValidTree, numbers};
ghost use Rattle.kernel_core.specs.declared.event.Event.TheVariants as events;
ghost use Rattle.kernel_model.specs.Clock.{gone_off};
ghost use Rattle.kernel_model.specs.Stops.{StopsOnlyIfRose};
ghost use Rattle.mips_exec.specs.Processor.{register};
ghost use Rattle.mips_exec.specs.Going.{GoesThen};
ghost use Rattle.o32_machine.specs.Answered.{IsTurn, Turned, over_of, turns_of};
ghost use Rattle.o32_machine.specs.Emulator.{at_clock, coming_of, first_process, first_standing, machine_at, machine_of, within_at, within_now};
ghost use Rattle.native_log.specs.NativeLog.{IsReady};
ghost use Rattle.o32_machine.specs.inside.Finishing.{finished};
ghost use Rattle.o32_machine.specs.inside.Logging.{KeepsNative, LastLogged, LogsLast, LogsSettled, PostsLogged};
ghost use Rattle.o32_machine.specs.inside.Plainly.{IsPlainly, called_of};
ghost use Rattle.o32_machine.specs.Records.{RecordsCall};
ghost use Rattle.o32_machine.specs.inside.Quieting.{goes, next_due};
ghost use Rattle.o32_machine.specs.inside.Recording.{KeepsEffects, RecordsBefore, RecordsBehind, RecordsStep};
ghost use Rattle.o32_machine.specs.inside.Steps.{Finds, IsLast, Settles, Takes, begun, goes_on, jumped_within, last_steps, resumes, wakes, wakes_for};
ghost use Rattle.o32_turns.specs.Handling.{faults, frame_fault};
ghost use Rattle.o32_turns.specs.Instruction.{after_step, called, fault_info, restart_after, seen_of};
ghost use Rattle.o32_turns.specs.Machine.{Machine, begin};
ghost use Rattle.o32_turns.specs.Posting.{posted};
ghost use Rattle.o32_turns.specs.Turn.{after_events, next_event, next_for, second_step, sixth_step, third_step, whole};
ghost use Rattle.o32_calls.specs.Numbers.{bridged_number};
ghost use Rattle.o32_model.specs.Table.{machine_call};
ghost use Rattle.o32_model.specs.Words.{a3, v0, with_result};
ghost use Rattle.o32_model.specs.declared.call_words.CallWords.{CallWords};
ghost use Rattle.o32_model.specs.declared.wait.Seen.{Seen};
ghost use Rattle.turn_records.specs.Entry.{IsOne};
ghost use Rattle.turn_records.specs.Keeping.{Gains};
ghost use Rattle.turn_records.specs.Turn.{IsCallEntry};
ghost use Rattle.outside.specs.Streams.{Contents, NoCountFell, contents};
ghost use Rattle.schedule.specs.Ranges.{IsGivenSchedule};

use crate::calls::make_call;
use crate::kept::Kept;
use crate::posting::post_due;
use crate::process_core::Core;
use crate::times::{deadline_in, if_comes, is_over_at, later, sooner};
use crate::turn::Turn;
use bridge_delivery::{accepts, deliver, end_wait, is_quiet, post_timer};
use bridge_mem::{args, register_words};
use bridge_system::plain_call;
use host_mem::HostMem;
use kernel_core::{Errno, Event, Finish, Info, NoMemory, Sig, Stop, Tree};
use mips_exec::{Cpu, Ran, Stepped, run};
use native_kernel::NativeKernel;
use native_log::NativeLog;
use number_tables::O32Number;
use o32_calls::{BridgedCall, O32Call, PlainCall, RESTART_SYSCALL};
use o32_model::{CallWords, Cause, Log, Outcome, Seen};
use o32_turns::Going;
use outside::{Devices, Sink, Source};
use schedule::Schedule;
use start_stack::Start;
use std::alloc::Global;
use std::marker::Model;

// The registers of a call's results (System V ABI, MIPS supplement; syscall(2)).

/// The result of a call, or its error's number.
const V0: u8 = 2;

/// Whether the call failed, 0 or 1.
const A3: u8 = 7;

/// The second result of a call that has two.
const V1: u8 = 3;

/// Who sends the signal of a frame that can't be read: the kernel (SI_KERNEL).
const SENT_BY_KERNEL: i32 = 0x80;

/// What the last steps of a turn come to.
#[derive(Clone, Copy)]
pub(crate) struct Last {
    pub turn: Turn,
    /// The machine's time then, in nanoseconds.
    pub clock: u64,
}

/// A process. Contracts see it as `ProcessState`, whose kernel is the native one as it stands.
#[derive(Drop)]
pub(crate) struct Process {
    core: Core,
    /// What stands within a turn, and what happened in the last one.
    going: Going,
    /// The events that are still to come, from its cursor on.
    schedule: Schedule,
    /// The nanoseconds that the clock has jumped while no instruction was executed.
    idle: u64,
}

impl Model for Process {
    ghost use Rattle.guest_space.specs.Memory.{memory_code};
    ghost use Rattle.kernel_core.specs.Nodes.{nodes_code};
    ghost use Rattle.o32_machine.specs.Emulator.{ProcessState, coming_of};
    ghost use Rattle.schedule.specs.Ranges.{IsGivenSchedule};
    ghost use Rattle.std.specs.Coded.{codes};

    ghost Value = { ProcessState };

    ghost coded = { Prim.hlevel (codes, memory_code, nodes_code) };

    ghost view = { λ p. record { processor = p.core.cpu; memory = p.core.space; kernel = p.core.kernel; going = p.going; coming = coming_of p.schedule; idle = p.idle } };

    ghost invariant = { λ p. IsGivenSchedule p.schedule };
}

impl Process {
    /// A process at its first instruction, before the events of a schedule.
    pub(crate) fn new(
        alloc: Global,
        start: Start,
        kernel: NativeKernel,
        schedule: Schedule,
    ) -> Process
        requires { IsGivenSchedule schedule }
        ensures { result ≡ first_process start.cpu start.space kernel (coming_of schedule) }
    {
        Process {
            core: Core {
                cpu: start.cpu,
                space: start.space,
                kernel,
                memory: HostMem::new(alloc),
                alloc,
            },
            going: first_going(alloc),
            schedule,
            idle: 0,
        }
    }

    /// What happened in the last turn, in order.
    pub(crate) fn events(&self) -> &[Event]
        ensures { result.now ≡ self.now.going.events }
    {
        self.going.events.as_slice()
    }

    /// Whether there is nothing to be done but instructions, unless something is due: no call waits, no fault is to be
    /// delivered, the process isn't stopped, and no signal can be delivered.
    #[inline(always)]
    pub(crate) fn goes(&self) -> bool
        ensures { result ≡ goes (machine_of self.now) }
    {
        self.going.wait.is_none()
            && self.going.fault.is_none()
            && !self.going.stopped
            && is_quiet(&self.core.kernel)
    }

    /// The time at which an event of the schedule or the timer is due next, in nanoseconds of the clock.
    #[inline(always)]
    pub(crate) fn next_due(&self) -> Option<u64>
        ensures { result ≡ next_due (machine_of self.now) }
    {
        sooner(next_event(&self.schedule), self.core.kernel.next_time())
    }

    /// The nodes as a file tree, as the kernel tells it. It copies every byte once.
    pub(crate) fn tree(&self) -> Result<Tree, NoMemory>
        ensures saved { IfOk result (λ tree. tree ≡ saved self.now.kernel.files.nodes) }
        ensures valid { IfOk result IsValidTree }
        ensures reached { IfOk result (λ tree. (number : ℕ) → Contains (numbers tree.nodes) number ↔ IsReached tree.nodes number) }
    {
        self.core.kernel.tree()
    }

    /// Begins a turn, in which nothing has happened so far. The room for events is kept.
    pub(crate) fn begin(&mut self)
        ensures { self.new ≡ record self.old { going = begun self.old.going } }
    {
        self.going.saved = None;
        self.going.over = None;
        self.going.events.clear();
    }

    /// Moves the kernel's clock to a time, in nanoseconds, which is not before its own, and by which no timer is due.
    pub(crate) fn set_clock(&mut self, clock: u64) -> Result<(), NoMemory>
        requires later { self.old.kernel.clock ≤ clock }
        requires timer { gone_off clock self.old.kernel.timer ≡ None }
        ensures moved { OnOk result (self.new ≡ record self.old { kernel = at_clock clock self.old.kernel }) }
        ensures clock { self.new.kernel.clock ≡ clock }
        ensures idle { self.new.idle ≡ self.old.idle }
    {
        self.core.kernel.advance(clock, false)?;
        Ok(())
    }

    /// The first step of a turn: posts what is due at a time of the clock, in nanoseconds, the events of the schedule
    /// and then the timer's. The kernel's clock, which is not past that time, goes there.
    pub(crate) fn post(&mut self, clock: u64, native: &mut NativeLog) -> Result<(), NoMemory>
        requires later { self.old.kernel.clock ≤ clock }
        requires told { native.old.told ≤ self.old.kernel.clock }
        ensures posted { OnOk result (within_now self.new ≡ posted whole (within_at clock self.old)) }
        ensures clock { OnOk result (self.new.kernel.clock ≡ clock) }
        ensures behind { self.new.kernel.clock ≤ clock }
        ensures idle { self.new.idle ≡ self.old.idle }
        ensures processor { self.new.processor ≡ self.old.processor }
        ensures memory { self.new.memory ≡ self.old.memory }
        ensures native { OnOk result (PostsLogged self.old.kernel self.new.kernel native.old native.new) }
        ensures ready { OnOk result (IsReady clock native.new self.new.kernel) }
        ensures told { native.new.told ≤ self.new.kernel.clock }
    {
        post_due(
            clock,
            &mut self.schedule,
            &mut self.going,
            &self.core.space,
            &mut self.core.kernel,
            native,
        )?;
        let next = self.core.kernel.next_time();
        post_timer(
            clock,
            &mut self.going,
            &self.core.space,
            &mut self.core.kernel,
        )?;
        native.tell_timer(clock, next)
    }

    /// Ends the call that waits for a cause, at the kernel's time `clock`, in nanoseconds. It is not a handler that
    /// ends it.
    fn end_wait<I: Source, O: Sink, E: Sink>(
        &mut self,
        cause: Cause,
        clock: u64,
        dev: &mut Devices<I, O, E>,
        log: &mut Log,
    ) -> Result<(), Stop>
        requires clock { self.old.kernel.clock ≡ clock }
        ensures ended { Takes (λ within. ended_wait false cause within within.machine.wait) result self.old self.new
            (contents I.left O.written E.written dev.old) (contents I.left O.written E.written dev.new) }
        ensures native { KeepsNative result (I.left dev.old.input) self.old.kernel self.new.kernel log.old.native log.new.native }
        ensures effects { KeepsEffects result (I.left dev.old.input) self.old.memory.pages self.new.memory.pages log.old.effects log.new.effects }
        ensures clock { self.new.kernel.clock ≡ clock }
        ensures idle { self.new.idle ≡ self.old.idle }
        ensures cause { StopsOnlyIfRose I.faults O.faults E.faults result dev.old dev.new }
        ensures counts { NoCountFell I.faults O.faults E.faults dev.old dev.new }
    {
        end_wait(
            false,
            cause,
            clock,
            &mut self.going,
            &mut self.core.cpu,
            &mut self.core.space,
            &mut self.core.kernel,
            &mut self.core.memory,
            dev,
            log,
        )
    }

    /// Whether the second step ends the call that waits because its deadline is over, where no stop has interrupted it.
    fn wakes(&self, clock: u64) -> bool
        ensures { result ≡ wakes clock (machine_of self.now) }
    {
        !(self.going.stopped || self.going.interrupted)
            && is_over_at(clock, deadline_in(self.going.wait))
    }

    /// Whether a signal pends for which the call that waits waits by name, where no stop has interrupted it. It is asked
    /// of the kernel where a call waits so, and of no other.
    fn accepts<I: Source, O: Sink, E: Sink>(
        &mut self,
        dev: &mut Devices<I, O, E>,
        log: &mut Log,
    ) -> Result<bool, Stop>
        ensures found { Finds (λ found. found ≡ wakes_for (machine_of self.old)) result self.old self.new
            (contents I.left O.written E.written dev.old) (contents I.left O.written E.written dev.new) }
        ensures native { KeepsNative result (I.left dev.old.input) self.old.kernel self.new.kernel log.old.native log.new.native }
        ensures effects { KeepsEffects result (I.left dev.old.input) self.old.memory.pages self.new.memory.pages log.old.effects log.new.effects }
        ensures clock { self.new.kernel.clock ≡ self.old.kernel.clock }
        ensures idle { self.new.idle ≡ self.old.idle }
        ensures cause { StopsOnlyIfRose I.faults O.faults E.faults result dev.old dev.new }
        ensures counts { NoCountFell I.faults O.faults E.faults dev.old dev.new }
    {
        let Some(wait) = self.going.wait else {
            return Ok(false);
        };
        if self.going.stopped || self.going.interrupted {
            return Ok(false);
        }
        accepts(
            &wait,
            &self.core.space,
            &mut self.core.kernel,
            &mut self.core.memory,
            dev,
            log,
        )
    }

    /// The second step of a turn: ends the call that waits, at the kernel's time `clock`, in nanoseconds, where a signal
    /// pends for which it waits by name, and where its deadline is over.
    fn wake<I: Source, O: Sink, E: Sink>(
        &mut self,
        clock: u64,
        dev: &mut Devices<I, O, E>,
        log: &mut Log,
    ) -> Result<(), Stop>
        requires clock { self.old.kernel.clock ≡ clock }
        ensures woken { Takes (second_step whole) result self.old self.new
            (contents I.left O.written E.written dev.old) (contents I.left O.written E.written dev.new) }
        ensures native { KeepsNative result (I.left dev.old.input) self.old.kernel self.new.kernel log.old.native log.new.native }
        ensures effects { KeepsEffects result (I.left dev.old.input) self.old.memory.pages self.new.memory.pages log.old.effects log.new.effects }
        ensures clock { self.new.kernel.clock ≡ clock }
        ensures idle { self.new.idle ≡ self.old.idle }
        ensures cause { StopsOnlyIfRose I.faults O.faults E.faults result dev.old dev.new }
        ensures counts { NoCountFell I.faults O.faults E.faults dev.old dev.new }
    {
        let accepted = self.accepts(dev, log)?;
        if accepted {
            return self.end_wait(Cause::Accepted, clock, dev, log);
        }
        if self.wakes(clock) {
            return self.end_wait(Cause::Due, clock, dev, log);
        }
        Ok(())
    }

    /// The third step of a turn: delivers signals, unless the process is stopped.
    fn deliver<I: Source, O: Sink, E: Sink>(
        &mut self,
        clock: u64,
        dev: &mut Devices<I, O, E>,
        log: &mut Log,
    ) -> Result<(), Stop>
        requires clock { self.old.kernel.clock ≡ clock }
        ensures delivered { Takes (third_step whole) result self.old self.new
            (contents I.left O.written E.written dev.old) (contents I.left O.written E.written dev.new) }
        ensures native { KeepsNative result (I.left dev.old.input) self.old.kernel self.new.kernel log.old.native log.new.native }
        ensures effects { KeepsEffects result (I.left dev.old.input) self.old.memory.pages self.new.memory.pages log.old.effects log.new.effects }
        ensures clock { self.new.kernel.clock ≡ clock }
        ensures idle { self.new.idle ≡ self.old.idle }
        ensures cause { StopsOnlyIfRose I.faults O.faults E.faults result dev.old dev.new }
        ensures counts { NoCountFell I.faults O.faults E.faults dev.old dev.new }
    {
        if self.going.stopped {
            return Ok(());
        }
        deliver(
            clock,
            &mut self.going,
            &mut self.core.cpu,
            &mut self.core.space,
            &mut self.core.kernel,
            &mut self.core.memory,
            dev,
            log,
        )
    }

    /// Whether the fourth step ends the call that waits: a stop interrupted it, and the process goes on.
    fn resumes(&self) -> bool
        ensures { result ≡ resumes self.now.going }
    {
        self.going.over.is_none() && self.going.interrupted && !self.going.stopped
    }

    /// The fourth step of a turn, which a process that was killed doesn't take: ends the call that a stop interrupted,
    /// where the process goes on.
    fn resume<I: Source, O: Sink, E: Sink>(
        &mut self,
        clock: u64,
        dev: &mut Devices<I, O, E>,
        log: &mut Log,
    ) -> Result<(), Stop>
        requires clock { self.old.kernel.clock ≡ clock }
        ensures resumed { Takes goes_on result self.old self.new
            (contents I.left O.written E.written dev.old) (contents I.left O.written E.written dev.new) }
        ensures native { KeepsNative result (I.left dev.old.input) self.old.kernel self.new.kernel log.old.native log.new.native }
        ensures effects { KeepsEffects result (I.left dev.old.input) self.old.memory.pages self.new.memory.pages log.old.effects log.new.effects }
        ensures clock { self.new.kernel.clock ≡ clock }
        ensures idle { self.new.idle ≡ self.old.idle }
        ensures cause { StopsOnlyIfRose I.faults O.faults E.faults result dev.old dev.new }
        ensures counts { NoCountFell I.faults O.faults E.faults dev.old dev.new }
    {
        if self.resumes() {
            return self.end_wait(Cause::Stopped, clock, dev, log);
        }
        Ok(())
    }

    /// The third and the fourth step of a turn.
    fn deliver_and_resume<I: Source, O: Sink, E: Sink>(
        &mut self,
        clock: u64,
        dev: &mut Devices<I, O, E>,
        log: &mut Log,
    ) -> Result<(), Stop>
        requires clock { self.old.kernel.clock ≡ clock }
        ensures took { Takes (λ within. goes_on (third_step whole within)) result self.old self.new
            (contents I.left O.written E.written dev.old) (contents I.left O.written E.written dev.new) }
        ensures native { KeepsNative result (I.left dev.old.input) self.old.kernel self.new.kernel log.old.native log.new.native }
        ensures effects { KeepsEffects result (I.left dev.old.input) self.old.memory.pages self.new.memory.pages log.old.effects log.new.effects }
        ensures clock { self.new.kernel.clock ≡ clock }
        ensures idle { self.new.idle ≡ self.old.idle }
        ensures cause { StopsOnlyIfRose I.faults O.faults E.faults result dev.old dev.new }
        ensures counts { NoCountFell I.faults O.faults E.faults dev.old dev.new }
    {
        self.deliver(clock, dev, log)?;
        self.resume(clock, dev, log)
    }

    /// The second to the fourth step of a turn.
    fn wake_to_resume<I: Source, O: Sink, E: Sink>(
        &mut self,
        clock: u64,
        dev: &mut Devices<I, O, E>,
        log: &mut Log,
    ) -> Result<(), Stop>
        requires clock { self.old.kernel.clock ≡ clock }
        ensures took { Takes (λ within. goes_on (third_step whole (second_step whole within))) result self.old self.new
            (contents I.left O.written E.written dev.old) (contents I.left O.written E.written dev.new) }
        ensures native { KeepsNative result (I.left dev.old.input) self.old.kernel self.new.kernel log.old.native log.new.native }
        ensures effects { KeepsEffects result (I.left dev.old.input) self.old.memory.pages self.new.memory.pages log.old.effects log.new.effects }
        ensures clock { self.new.kernel.clock ≡ clock }
        ensures idle { self.new.idle ≡ self.old.idle }
        ensures cause { StopsOnlyIfRose I.faults O.faults E.faults result dev.old dev.new }
        ensures counts { NoCountFell I.faults O.faults E.faults dev.old dev.new }
    {
        self.wake(clock, dev, log)?;
        self.deliver_and_resume(clock, dev, log)
    }

    /// The first four steps of a turn, at a time of the clock, in nanoseconds: what is due is posted, a wait ends whose
    /// deadline is over, signals are delivered, and a wait ends that a stop interrupted. `turn` is the turn's number.
    ///
    /// # Errors
    ///
    /// `NoMemory`, and `ReadFault` and `WriteFault` only where that device's count rose. The process is not used again
    /// then.
    pub(crate) fn settle<I: Source, O: Sink, E: Sink>(
        &mut self,
        clock: u64,
        turn: u64,
        kept: &mut Kept,
        dev: &mut Devices<I, O, E>,
    ) -> Result<(), Stop>
        requires later { self.old.kernel.clock ≤ clock }
        requires told { kept.old.native.told ≤ self.old.kernel.clock }
        ensures settled { Settles clock result self.old self.new
            (contents I.left O.written E.written dev.old) (contents I.left O.written E.written dev.new) }
        ensures native { LogsSettled clock result (I.left dev.old.input) self.old.kernel self.new.kernel kept.old.native kept.new.native }
        ensures records { RecordsBefore result (I.left dev.old.input) turn (machine_at clock (machine_of self.old)) kept.old.records kept.new.records }
        ensures told { kept.new.native.told ≤ self.new.kernel.clock }
        ensures clock { OnOk result (self.new.kernel.clock ≡ clock) }
        ensures behind { self.new.kernel.clock ≤ clock }
        ensures idle { self.new.idle ≡ self.old.idle }
        ensures cause { StopsOnlyIfRose I.faults O.faults E.faults result dev.old dev.new }
        ensures counts { NoCountFell I.faults O.faults E.faults dev.old dev.new }
    {
        self.begin();
        self.post(clock, &mut kept.native)?;
        kept.records.look(&self.core.cpu, &mut kept.was);
        let mut log = kept.part();
        self.wake_to_resume(clock, dev, &mut log)?;
        let Log { native, effects } = log;
        kept.native.add(native, clock)?;
        let alive = self.going.over.is_none();
        kept.records.add_before(
            turn,
            &kept.was,
            &self.core.cpu,
            self.going.events.as_slice(),
            alive,
            effects,
        )?;
        Ok(())
    }

    /// The last steps of a turn, at the kernel's time `clock`, in nanoseconds: a process that was killed has ended; where
    /// it is stopped or a call waits, the clock jumps, or the process is blocked; else one instruction is carried out
    /// with its call, which takes a quantum.
    ///
    /// # Errors
    ///
    /// As those of a turn.
    pub(crate) fn last_steps<I: Source, O: Sink, E: Sink>(
        &mut self,
        clock: u64,
        quantum: u64,
        turn: u64,
        kept: &mut Kept,
        dev: &mut Devices<I, O, E>,
    ) -> Result<Last, Stop>
        requires clock { self.old.kernel.clock ≡ clock }
        requires told { kept.old.native.told ≤ clock }
        requires quantum { quantum ≤ 1_000_000 }
        requires few { clock + 1_000_000 < 2 ^ 64 }
        requires idle { self.old.idle ≤ clock }
        ensures last { IsLast (last_steps quantum (within_now self.old)) result self.new
            (contents I.left O.written E.written dev.old) (contents I.left O.written E.written dev.new) }
        ensures native { LogsLast (last_steps quantum (within_now self.old)) clock result self.old.kernel self.new.kernel kept.old.native kept.new.native
            (contents I.left O.written E.written dev.old) }
        ensures records { RecordsBehind result (I.left dev.old.input) turn (within_now self.old) kept.old.records kept.new.records }
        ensures told { kept.new.native.told ≤ clock }
        ensures bound { IfOk result (λ last. last.clock ≤ max clock (2 ^ 61) + 1_000_000 * turns_of last.turn) }
        ensures later { IfOk result (λ last. clock ≤ last.clock) }
        ensures clock { self.new.kernel.clock ≡ clock }
        ensures idle { IfOk result (λ last. self.new.idle ≤ last.clock) }
        ensures idle_before { IfErr result (λ stop. self.new.idle ≤ clock) }
        ensures cause { StopsOnlyIfRose I.faults O.faults E.faults result dev.old dev.new }
        ensures counts { NoCountFell I.faults O.faults E.faults dev.old dev.new }
    {
        if let Some(finish) = self.over() {
            return Ok(Last {
                turn: Turn::Ended(finish),
                clock,
            });
        }
        if self.rests() {
            kept.records.add_idle(turn, &self.core.cpu)?;
            return Ok(self.jump(clock));
        }
        self.execute(clock, quantum, turn, kept, dev)
    }

    /// How the process has ended.
    fn over(&self) -> Option<Finish>
        ensures { result ≡ self.now.going.over }
    {
        self.going.over
    }

    /// Whether no instruction is executed: the process is stopped, or a call waits.
    pub(crate) fn rests(&self) -> bool
        ensures { result ≡ (self.now.going.stopped || is_some self.now.going.wait) }
    {
        self.going.stopped || self.going.wait.is_some()
    }

    /// The time of the next thing that can come while no instruction is executed, in nanoseconds of the clock: an event,
    /// the timer, or the deadline of the call that waits, unless the process is stopped. None where nothing can come.
    fn next_time(&self) -> Option<u64>
        ensures time { result ≡ next_for (machine_of self.now) }
        ensures early { IfSome result (λ time. time ≤ 2 ^ 61) }
    {
        let deadline = if self.going.stopped {
            None
        } else {
            if_comes(deadline_in(self.going.wait))
        };
        sooner(
            next_event(&self.schedule),
            sooner(self.core.kernel.next_time(), deadline),
        )
    }

    /// The fifth step of a turn: the clock goes to the time of the next thing that can come, and never back. Where nothing
    /// can come the process is blocked, and it is no turn. The kernel's own clock stands, which the next turn moves.
    fn jump(&mut self, clock: u64) -> Last
        requires clock { self.old.kernel.clock ≡ clock }
        requires alive { self.old.going.over ≡ None }
        requires few { clock + 1_000_000 < 2 ^ 64 }
        requires idle { self.old.idle ≤ clock }
        ensures machine { machine_at result.clock (machine_of self.new) ≡ (jumped_within (within_now self.old)).machine }
        ensures over { over_of result.turn ≡ (jumped_within (within_now self.old)).over }
        ensures events { self.new.going.events ≡ self.old.going.events }
        ensures bound { result.clock ≤ max clock (2 ^ 61) }
        ensures later { clock ≤ result.clock }
        ensures clock { self.new.kernel.clock ≡ clock }
        ensures kernel { self.new.kernel ≡ self.old.kernel }
        ensures idle { self.new.idle ≤ result.clock }
    {
        match self.next_time() {
            None => Last {
                turn: Turn::Ended(Finish::Blocked),
                clock,
            },
            Some(time) => {
                let to = clock.max(time);
                self.idle += to - clock;
                Last {
                    turn: Turn::Went,
                    clock: to,
                }
            }
        }
    }

    /// The sixth step of a turn: one instruction is carried out with its call, which takes a quantum, in nanoseconds.
    fn execute<I: Source, O: Sink, E: Sink>(
        &mut self,
        clock: u64,
        quantum: u64,
        turn: u64,
        kept: &mut Kept,
        dev: &mut Devices<I, O, E>,
    ) -> Result<Last, Stop>
        requires clock { self.old.kernel.clock ≡ clock }
        requires told { kept.old.native.told ≤ clock }
        requires quantum { quantum ≤ 1_000_000 }
        requires few { clock + 1_000_000 < 2 ^ 64 }
        ensures last { IsLast (sixth_step whole quantum (within_now self.old)) result self.new
            (contents I.left O.written E.written dev.old) (contents I.left O.written E.written dev.new) }
        ensures native { LogsLast (sixth_step whole quantum (within_now self.old)) clock result self.old.kernel self.new.kernel kept.old.native kept.new.native
            (contents I.left O.written E.written dev.old) }
        ensures records { (self.old.going.stopped || is_some self.old.going.wait) ≡ false → self.old.going.over ≡ None
            → RecordsBehind result (I.left dev.old.input) turn (within_now self.old) kept.old.records kept.new.records }
        ensures told { kept.new.native.told ≤ clock }
        ensures time { IfOk result (λ last. last.clock ≡ clock + quantum) }
        ensures counted { IfOk result (λ last. turns_of last.turn ≡ 1) }
        ensures clock { self.new.kernel.clock ≡ clock }
        ensures idle { self.new.idle ≡ self.old.idle }
        ensures cause { StopsOnlyIfRose I.faults O.faults E.faults result dev.old dev.new }
        ensures counts { NoCountFell I.faults O.faults E.faults dev.old dev.new }
    {
        let came = self.run(0).came?;
        let ended = self.end_turn(came, clock, turn, kept, dev)?;
        Ok(Last {
            turn: ended,
            clock: later(clock, quantum, 1),
        })
    }

    /// Carries out instructions, one after the other: at most `most` that make no call and meet no fault, and one
    /// more, whose call is not yet made.
    pub(crate) fn run(&mut self, most: u64) -> Ran
        ensures last { GoesThen result.quiet self.old.processor self.old.memory result.came self.new.processor self.new.memory }
        ensures few { result.quiet ≤ most }
        ensures others { self.new ≡ record self.old { processor = self.new.processor; memory = self.new.memory } }
    {
        run(&mut self.core.cpu, &mut self.core.space, most)
    }

    /// Ends a turn whose instruction was just executed and came to this: makes its call, or keeps its fault. `clock` is the
    /// kernel's time, in nanoseconds.
    pub(crate) fn end_turn<I: Source, O: Sink, E: Sink>(
        &mut self,
        came: Stepped,
        clock: u64,
        turn: u64,
        kept: &mut Kept,
        dev: &mut Devices<I, O, E>,
    ) -> Result<Turn, Stop>
        requires clock { self.old.kernel.clock ≡ clock }
        requires told { kept.old.native.told ≤ clock }
        ensures turn { IsTurn (λ left. after_events self.old.going.events (after_step whole (machine_of self.old) came left)) result
            (machine_of self.new) self.new.going.events
            (contents I.left O.written E.written dev.old) (contents I.left O.written E.written dev.new) }
        ensures native { LogsLast (λ left. after_events self.old.going.events (after_step whole (machine_of self.old) came left)) clock result self.old.kernel self.new.kernel kept.old.native kept.new.native
            (contents I.left O.written E.written dev.old) }
        ensures records { RecordsStep result (I.left dev.old.input) turn ((self.old.processor.pc + (2 ^ 32 - 4)) % 2 ^ 32) (machine_of self.old) came kept.old.records kept.new.records }
        ensures told { kept.new.native.told ≤ clock }
        ensures clock { self.new.kernel.clock ≡ clock }
        ensures counted { IfOk result (λ turn. turns_of turn ≡ 1) }
        ensures idle { self.new.idle ≡ self.old.idle }
        ensures cause { StopsOnlyIfRose I.faults O.faults E.faults result dev.old dev.new }
        ensures counts { NoCountFell I.faults O.faults E.faults dev.old dev.new }
    {
        match came {
            Stepped::Next => Ok(Turn::Went),
            Stepped::Syscall => self.call(clock, turn, kept, dev),
            Stepped::Fault { sig, code, addr } => {
                self.keep_fault(fault_info(sig, code, addr))?;
                Ok(Turn::Went)
            }
        }
    }

    /// Makes the call of the SYSCALL that was just executed, at the kernel's time `clock`, in nanoseconds; `turn` is the turn's
    /// number. It stands apart from the path of the other instructions.
    #[cold]
    #[inline(never)]
    pub(crate) fn call<I: Source, O: Sink, E: Sink>(
        &mut self,
        clock: u64,
        turn: u64,
        kept: &mut Kept,
        dev: &mut Devices<I, O, E>,
    ) -> Result<Turn, Stop>
        requires clock { self.old.kernel.clock ≡ clock }
        requires told { kept.old.native.told ≤ clock }
        ensures turn { IsTurn (λ left. after_events self.old.going.events (called whole (machine_of self.old) left)) result
            (machine_of self.new) self.new.going.events
            (contents I.left O.written E.written dev.old) (contents I.left O.written E.written dev.new) }
        ensures native { LogsLast (λ left. after_events self.old.going.events (called whole (machine_of self.old) left)) clock result self.old.kernel self.new.kernel kept.old.native kept.new.native
            (contents I.left O.written E.written dev.old) }
        ensures records { RecordsCall result turn (machine_of self.old) kept.old.records kept.new.records
            (contents I.left O.written E.written dev.old) }
        ensures told { kept.new.native.told ≤ clock }
        ensures clock { self.new.kernel.clock ≡ clock }
        ensures counted { IfOk result (λ turn. turns_of turn ≡ 1) }
        ensures idle { self.new.idle ≡ self.old.idle }
        ensures cause { StopsOnlyIfRose I.faults O.faults E.faults result dev.old dev.new }
        ensures counts { NoCountFell I.faults O.faults E.faults dev.old dev.new }
    {
        match O32Call::of(self.core.cpu.register(V0)) {
            Some(O32Call::Bridged(call)) => self.call_bridged(call, clock, turn, kept, dev),
            Some(O32Call::Plain(call)) => {
                let plain = self.call_plainly(Some(call), turn, kept)?;
                Ok(plain)
            }
            None => {
                let refused = self.call_plainly(None, turn, kept)?;
                Ok(refused)
            }
        }
    }

    /// Makes a call by a bridge.
    #[inline(always)]
    fn call_bridged<I: Source, O: Sink, E: Sink>(
        &mut self,
        call: BridgedCall,
        clock: u64,
        turn: u64,
        kept: &mut Kept,
        dev: &mut Devices<I, O, E>,
    ) -> Result<Turn, Stop>
        requires named { register self.old.processor v0 ≡ bridged_number call }
        requires clock { self.old.kernel.clock ≡ clock }
        requires told { kept.old.native.told ≤ clock }
        ensures turn { IsTurn (λ left. after_events self.old.going.events (called whole (machine_of self.old) left)) result
            (machine_of self.new) self.new.going.events
            (contents I.left O.written E.written dev.old) (contents I.left O.written E.written dev.new) }
        ensures native { LogsLast (λ left. after_events self.old.going.events (called whole (machine_of self.old) left)) clock result self.old.kernel self.new.kernel kept.old.native kept.new.native
            (contents I.left O.written E.written dev.old) }
        ensures records { RecordsCall result turn (machine_of self.old) kept.old.records kept.new.records
            (contents I.left O.written E.written dev.old) }
        ensures told { kept.new.native.told ≤ clock }
        ensures clock { self.new.kernel.clock ≡ clock }
        ensures counted { IfOk result (λ turn. turns_of turn ≡ 1) }
        ensures idle { self.new.idle ≡ self.old.idle }
        ensures cause { StopsOnlyIfRose I.faults O.faults E.faults result dev.old dev.new }
        ensures counts { NoCountFell I.faults O.faults E.faults dev.old dev.new }
    {
        let words = args(&self.core.space, &self.core.cpu);
        let seen = self.seen(clock);
        kept.records.look(&self.core.cpu, &mut kept.was);
        let mut log = kept.part();
        let outcome = make_call(call, &words, &seen, &mut self.core, dev, &mut log)?;
        let Log { native, effects } = log;
        kept.native.add(native, clock)?;
        let ended = self.finish(&words, &outcome)?;
        kept.records
            .add_call(turn, &kept.was, &self.core.cpu, effects)?;
        Ok(ended)
    }

    /// Makes a call that is answered at once, or answers one whose number no call has. It stands apart from the others since
    /// it wants no buffer, no log, no argument on the stack and nothing that they see of the machine.
    #[inline(always)]
    fn call_plainly(
        &mut self,
        call: Option<PlainCall>,
        turn: u64,
        kept: &mut Kept,
    ) -> Result<Turn, NoMemory>
        requires { IsPlainly call (register self.old.processor v0) }
        ensures turn { IfOk result (λ turn. (left : List ℕ) (at : Contents) → at.left ≡ Some left
            → Turned (called_of self.old left) turn (machine_of self.new) self.new.going.events at at) }
        ensures native { OnOk result ((left : List ℕ) → LastLogged self.old.kernel self.new.kernel left (called_of self.old left) kept.old.native kept.new.native) }
        ensures untold { kept.new.native ≡ kept.old.native }
        ensures records { OnOk result ((left : List ℕ)
            → Gains kept.old.records kept.new.records (IsOne (IsCallEntry turn ((self.old.processor.pc + (2 ^ 32 - 4)) % 2 ^ 32) (machine_of self.old) (called whole (machine_of self.old) left)))) }
        ensures counted { IfOk result (λ turn. turns_of turn ≡ 1) }
        ensures clock { self.new.kernel.clock ≡ self.old.kernel.clock }
        ensures idle { self.new.idle ≡ self.old.idle }
    {
        let words = register_words(&self.core.cpu);
        kept.records.look(&self.core.cpu, &mut kept.was);
        let effects = kept.records.part();
        let outcome = answer(call, &words, &mut self.core.cpu);
        let ended = self.finish(&words, &outcome)?;
        kept.records
            .add_call(turn, &kept.was, &self.core.cpu, effects)?;
        Ok(ended)
    }

    /// What a call sees of the machine beside registers and memory, at the kernel's time `clock`, in nanoseconds.
    #[inline(always)]
    fn seen(&self, clock: u64) -> Seen
        requires { self.now.kernel.clock ≡ clock }
        ensures { result ≡ seen_of (machine_of self.now) }
    {
        Seen {
            quanta: clock.saturating_sub(self.idle),
            restart: self.going.restart,
        }
    }

    /// Puts the outcome of a call of these words into the registers, or keeps its wait, or makes a fault of it, or ends
    /// the process, and keeps what happened.
    #[inline(always)]
    fn finish(&mut self, words: &CallWords, outcome: &Outcome) -> Result<Turn, NoMemory>
        ensures machine { OnOk result (machine_of self.new ≡ (finished words.now (machine_of self.old) outcome.now).machine) }
        ensures events { OnOk result (self.new.going.events ≡ self.old.going.events ++ (finished words.now (machine_of self.old) outcome.now).events) }
        ensures over { IfOk result (λ turn. over_of turn ≡ (finished words.now (machine_of self.old) outcome.now).over) }
        ensures counted { IfOk result (λ turn. turns_of turn ≡ 1) }
        ensures kernel { self.new.kernel ≡ self.old.kernel }
        ensures idle { self.new.idle ≡ self.old.idle }
    {
        let event = self.put_outcome(words, outcome);
        self.going.events.push(event)?;
        Ok(turn_of(outcome))
    }

    /// Puts the outcome of a call of these words into the registers, or keeps its wait, or makes a fault of it, and tells
    /// what happened.
    #[inline(always)]
    fn put_outcome(&mut self, words: &CallWords, outcome: &Outcome) -> Event
        ensures machine { machine_of self.new ≡ (finished words.now (machine_of self.old) outcome.now).machine }
        ensures event { (finished words.now (machine_of self.old) outcome.now).events ≡ result ∷ [] }
        ensures kernel { self.new.kernel ≡ self.old.kernel }
        ensures events { self.new.going.events ≡ self.old.going.events }
        ensures idle { self.new.idle ≡ self.old.idle }
    {
        self.use_restart(words.nr);
        match *outcome {
            Outcome::Value(value) => {
                self.set_result(value, false);
                self.call_told(words)
            }
            Outcome::Pair(first, second) => {
                self.set_result(first, false);
                self.core.cpu.set_register(V1, second);
                self.call_told(words)
            }
            Outcome::Error(error) => {
                self.set_result(error.to_o32(), true);
                self.call_told(words)
            }
            Outcome::Sleep(wait) => {
                self.going.wait = Some(wait);
                self.going.interrupted = false;
                Event::Wait {
                    nr: words.nr,
                    args: words.reg,
                }
            }
            Outcome::Frame => Event::Return,
            Outcome::BadFrame => self.meet(frame_fault()),
            Outcome::Exit(status) => Event::Exit { status },
        }
    }

    /// A call of this number was made: restart_syscall(2) uses up the wait that it goes on with.
    #[inline(always)]
    fn use_restart(&mut self, number: u32)
        ensures { self.new ≡ record self.old { going = record self.old.going { restart = restart_after number self.old.going.restart } } }
    {
        if number == RESTART_SYSCALL {
            self.going.restart = None;
        }
    }

    /// Puts what a call gives, its result or its error's number, into the registers.
    #[inline(always)]
    fn set_result(&mut self, value: u32, failed: bool)
        ensures { self.new ≡ record self.old { processor = with_result self.old.processor value (if failed then 1 else 0) } }
    {
        self.core.cpu.set_register(V0, value);
        self.core.cpu.set_register(A3, u32::from(failed));
    }

    /// That a call of these words has ended, with what the registers hold of it.
    #[inline(always)]
    fn call_told(&self, words: &CallWords) -> Event
        ensures { result ≡ events.Call words.now.nr words.now.reg (register self.now.processor v0) (register self.now.processor a3) }
    {
        Event::Call {
            nr: words.nr,
            args: words.reg,
            v0: self.core.cpu.register(V0),
            a3: self.core.cpu.register(A3),
        }
    }

    /// Meets a fault, which is to be delivered, and tells what happened.
    fn meet(&mut self, info: Info) -> Event
        ensures machine { machine_of self.new ≡ (faults info (begin (machine_of self.old))).machine }
        ensures event { (faults info (begin (machine_of self.old))).events ≡ result ∷ [] }
        ensures kernel { self.new.kernel ≡ self.old.kernel }
        ensures events { self.new.going.events ≡ self.old.going.events }
        ensures idle { self.new.idle ≡ self.old.idle }
    {
        self.going.fault = Some(info);
        Event::Fault {
            sig: info.sig,
            code: info.code.unsigned_abs(),
            addr: info.addr,
        }
    }

    /// Meets a fault, and keeps what happened.
    fn keep_fault(&mut self, info: Info) -> Result<(), NoMemory>
        ensures machine { OnOk result (machine_of self.new ≡ (faults info (begin (machine_of self.old))).machine) }
        ensures events { OnOk result (self.new.going.events ≡ self.old.going.events ++ (faults info (begin (machine_of self.old))).events) }
        ensures kernel { self.new.kernel ≡ self.old.kernel }
        ensures idle { self.new.idle ≡ self.old.idle }
    {
        let fault = self.meet(info);
        self.going.events.push(fault)?;
        Ok(())
    }
}

/// What a call comes to that is answered at once: ENOSYS where no call has the number (syscalls(2)).
#[inline(always)]
fn answer(call: Option<PlainCall>, words: &CallWords, cpu: &mut Cpu) -> Outcome
    requires { IsPlainly call words.now.nr }
    ensures { (seen : Seen) (memory : Memory) → IsPlain (λ kernel left. machine_call seen kernel (found words.now cpu.old memory) left) result memory cpu.new }
{
    match call {
        Some(call) => plain_call(call, words, cpu),
        None => Outcome::Error(Errno::ENOSYS),
    }
}

/// What a process has at first: no call waits, nothing is to be delivered, and nothing has happened.
fn first_going(alloc: Global) -> Going
    ensures { result ≡ first_standing }
{
    Going {
        wait: None,
        interrupted: false,
        restart: None,
        stopped: false,
        fault: None,
        saved: None,
        over: None,
        events: Vec::new(alloc),
    }
}

/// The time of the next event of a schedule.
fn next_event(schedule: &Schedule) -> Option<u64>
    requires { IsGivenSchedule schedule.now }
    ensures time { result ≡ next_event (coming_of schedule.now) }
    ensures early { IfSome result (λ time. time ≤ 2 ^ 60) }
{
    schedule.next()
}

/// The turn of a call that came to this.
fn turn_of(outcome: &Outcome) -> Turn
    ensures over { (words : CallWords) (machine : Machine) → over_of result ≡ (finished words machine outcome.now).over }
    ensures counted { turns_of result ≡ 1 }
{
    match *outcome {
        Outcome::Exit(status) => Turn::Ended(Finish::Exited(status)),
        _ => Turn::Went,
    }
}

/// What is known of the signal of a fault that an instruction met.
fn fault_info(sig: Sig, code: u32, addr: u32) -> Info
    ensures { result ≡ fault_info sig code addr }
{
    Info {
        sig,
        code: code.cast_signed(),
        errno: 0,
        pid: 0,
        uid: 0,
        value: 0,
        addr,
    }
}

/// What is known of the signal of a frame that can't be read: SI_KERNEL, and no address.
fn frame_fault() -> Info
    ensures { result ≡ frame_fault }
{
    Info {
        sig: Sig::Segv,
        code: SENT_BY_KERNEL,
        errno: 0,
        pid: 0,
        uid: 0,
        value: 0,
        addr: 0,
    }
}
