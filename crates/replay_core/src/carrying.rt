//! Carrying out the effects of a record.
ghost use Rattle.std.specs.Prelude.{◌≡◌, ◌≤◌, ◌+◌, [], All, Ok, OnOk};
ghost use Rattle.journal.specs.Form.{IsEffect};
ghost use Rattle.journal.specs.Seen.{effect_seen};
ghost use Rattle.kernel_model.specs.Pipes.{Sent};
ghost use Rattle.guest_space.specs.Mapping.{page_limit};
ghost use Rattle.o32_model.specs.Effects.{after_map, after_protect, after_register, after_write, carried};
ghost use Rattle.o32_model.specs.Ranges.{count_with};
ghost use Rattle.replay_core.specs.Answered.{Gains, Written, written};
ghost use Rattle.replay_core.specs.Replay.{carried_all, carried_on};
ghost use Rattle.replay_core.specs.inside.Parts.{Carries, ChangesPages, HaltsOnlyIfRose, Sends, halt_of, target_at};

use crate::difference::{Difference, Halt};
use guest_space::{MapError, Space, StoreError};
use journal::{Effects, ReadEffect};
use kernel_core::address_space::{PAGE_LIMIT, PAGE_SIZE};
use mips_exec::Cpu;
use outside::{DevError, Sink};

/// That journal and machine differ so.
fn differs(wanted: u32, found: u32) -> Halt
    ensures { result ≡ Halt.Differs (record { wanted = wanted; found = found }) }
{
    Halt::Differs(Difference {
        wanted: u64::from(wanted),
        found: u64::from(found),
    })
}

/// Sets a register: 1 to 31 by its number, 32 HI, 33 LO, 34 the pc, 35 the thread pointer.
fn set_register(cpu: &mut Cpu, r: u8, value: u32)
    requires low { 1 ≤ r }
    requires high { r ≤ 35 }
    ensures { after_register cpu.old r value ≡ Ok cpu.new }
{
    match r {
        32 => cpu.hi = value,
        33 => cpu.lo = value,
        34 => cpu.pc = value,
        35 => cpu.tls = value,
        _ => cpu.set_register(r, value),
    }
}

/// Writes bytes; each has to lie in a page that may be written.
fn write(space: &mut Space, address: u32, bytes: &[u8]) -> Result<(), Halt>
    ensures { ChangesPages (after_write space.old.pages address bytes.now) space.old space.new result }
{
    match space.copy_out(address, bytes) {
        Ok(()) => Ok(()),
        Err(StoreError::Denied(denied)) => Err(differs(address, denied.addr)),
        Err(StoreError::NoMemory) => Err(Halt::NoMemory),
    }
}

/// How many pages would be mapped once those of a range are.
fn count_with(space: &Space, first: u32, count: u32) -> u64
    requires end { first + count ≤ 524280 }
    ensures { result ≡ count_with space.now.pages first count }
{
    let mut absent = 0_u32;
    for done in 0..count {
        absent += 1 - space.mapped(first + done, 1);
    }
    u64::from(space.page_count()) + u64::from(absent)
}

/// That more pages than the limit would be mapped, and how many.
fn passes_limit(space: &Space, first: u32, count: u32) -> Halt
    requires end { first + count ≤ 524280 }
    ensures { result ≡ Halt.Differs (record { wanted = page_limit; found = count_with space.now.pages first count }) }
{
    Halt::Differs(Difference {
        wanted: u64::from(PAGE_LIMIT),
        found: count_with(space, first, count),
    })
}

/// Maps pages of zeros, unless more than the limit would be mapped.
fn map(space: &mut Space, first: u32, count: u32, prot: u8) -> Result<(), Halt>
    requires end { first + count ≤ 524280 }
    requires protection { prot ≤ 7 }
    ensures { ChangesPages (after_map space.old.pages first count prot) space.old space.new result }
{
    match space.map(first, count, prot) {
        Ok(()) => Ok(()),
        Err(MapError::Full) => Err(passes_limit(space, first, count)),
        Err(MapError::NoPlace | MapError::NoMemory) => Err(Halt::NoMemory),
    }
}

/// Protects pages, each of which has to be there.
fn protect(space: &mut Space, first: u32, count: u32, prot: u8) -> Result<(), Halt>
    requires end { first + count ≤ 524280 }
    requires protection { prot ≤ 7 }
    ensures { ChangesPages (after_protect space.old.pages first count prot) space.old space.new result }
{
    let run = space.mapped(first, count);
    if run != count {
        return Err(differs(first * PAGE_SIZE, (first + run) * PAGE_SIZE));
    }
    space.protect(first, count, prot);
    Ok(())
}

fn halt_of(error: DevError) -> Halt
    ensures { result ≡ halt_of error }
{
    match error {
        DevError::Failed => Halt::WriteFault,
        DevError::NoMemory => Halt::NoMemory,
    }
}

/// Sends bytes to output 1 or 2.
fn send<O: Sink, E: Sink>(stream: u8, bytes: &[u8], out: &mut O, err: &mut E) -> Result<(), Halt>
    requires low { 1 ≤ stream }
    requires high { stream ≤ 2 }
    ensures sent { Sends stream bytes.now (written O.written E.written out.old err.old) (written O.written E.written out.new err.new) result }
    ensures cause { HaltsOnlyIfRose result (O.faults out.old) (O.faults out.new) (E.faults err.old) (E.faults err.new) }
{
    let put = if stream == 1 {
        out.put(bytes)
    } else {
        err.put(bytes)
    };
    match put {
        Ok(()) => Ok(()),
        Err(error) => Err(halt_of(error)),
    }
}

/// Carries out one effect.
fn carry_out<O: Sink, E: Sink>(
    effect: ReadEffect<'_>,
    cpu: &mut Cpu,
    space: &mut Space,
    out: &mut O,
    err: &mut E,
) -> Result<(), Halt>
    requires { IsEffect (effect_seen effect) }
    ensures carried { (first : Written) (sent : Sent) → Gains first (written O.written E.written out.old err.old) sent
        → Carries (carried_on [] (target_at cpu.old space.old sent) (carried (target_at cpu.old space.old sent) (effect_seen effect.entry)))
        cpu.new space.new first sent (written O.written E.written out.new err.new) result }
    ensures others { OnOk result (space.new ≡ record space.old { pages = space.new.pages }) }
    ensures cause { HaltsOnlyIfRose result (O.faults out.old) (O.faults out.new) (E.faults err.old) (E.faults err.new) }
{
    match effect {
        ReadEffect::Register { r, value } => {
            set_register(cpu, r, value);
            Ok(())
        }
        ReadEffect::Write { address, bytes } => write(space, address, bytes),
        ReadEffect::Map { first, count, prot } => map(space, first, count, prot),
        ReadEffect::Unmap { first, count } => {
            space.unmap(first, count);
            Ok(())
        }
        ReadEffect::Protect { first, count, prot } => protect(space, first, count, prot),
        ReadEffect::Output { stream, bytes } => send(stream, bytes, out, err),
    }
}

/// Carries out effects in order, up to the first difference.
pub(crate) fn carry_out_all<O: Sink, E: Sink>(
    mut effects: Effects<'_>,
    cpu: &mut Cpu,
    space: &mut Space,
    out: &mut O,
    err: &mut E,
) -> Result<(), Halt>
    requires { All IsEffect effects }
    ensures carried { (first : Written) (sent : Sent) → Gains first (written O.written E.written out.old err.old) sent
        → Carries (carried_all (target_at cpu.old space.old sent) effects.entry)
        cpu.new space.new first sent (written O.written E.written out.new err.new) result }
    ensures others { OnOk result (space.new ≡ record space.old { pages = space.new.pages }) }
    ensures cause { HaltsOnlyIfRose result (O.faults out.old) (O.faults out.new) (E.faults err.old) (E.faults err.new) }
{
    while let Some(effect) = effects.next() {
        match carry_out(effect, cpu, space, out, err) {
            Ok(()) => {}
            Err(halt) => return Err(halt),
        }
    }
    Ok(())
}
