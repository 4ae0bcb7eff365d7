//! Small turns: what is kept of a call, of before an instruction, and of a turn without one.

use crate::{Registers, TurnRecords};
use kernel_core::{Delivery, Effect, Event, Record, Sig};
use mips_exec::Cpu;
use std::test::Fail;

/// A processor past the SYSCALL at 0x400010, with a call's number and arguments.
fn caller() -> Cpu {
    let mut cpu = Cpu::new(0x0040_0014);
    cpu.set_register(2, 4004);
    cpu.set_register(4, 1);
    cpu.set_register(5, 0x0041_0000);
    cpu.set_register(6, 3);
    cpu.set_register(7, 9);
    cpu
}

/// Whether an effect sets a register to a value.
fn is_set(effect: Option<&Effect>, register: u8, word: u32) -> bool {
    match effect {
        Some(Effect::Register { r, value }) => *r == register && *value == word,
        _ => false,
    }
}

/// Whether a record is of a turn and a kind, with these words.
fn is_of(entry: &Record, turn: u64, kind: u8, words: [u32; 6]) -> bool {
    entry.turn == turn
        && entry.kind == kind
        && entry.words.as_slice() == words.as_slice()
        && entry.finish.is_none()
}

/// The one record; none where there are others or none.
fn only(records: &TurnRecords) -> Option<&Record> {
    let records = records.records();
    if records.len() == 1 {
        records.first()
    } else {
        None
    }
}

/// A signal that was delivered.
fn delivered(delivery: Delivery) -> Event {
    Event::Signal {
        sig: Sig::Usr1,
        delivery,
    }
}

#[test]
fn a_call_has_the_words_of_before_it(rt: HostRuntime) -> Result<(), Fail> {
    let mut records = TurnRecords::new(rt.alloc(), true);
    let mut cpu = caller();
    let mut was = Registers::of(&Cpu::new(0));
    records.look(&cpu, &mut was);
    cpu.set_register(2, 3);
    cpu.set_register(7, 0);
    let mut effects = records.part();
    if let Some(effects) = &mut effects {
        effects.push(Effect::Unmap { first: 1, count: 2 })?;
    }
    records.add_call(6, &was, &cpu, effects)?;
    let Some(entry) = only(&records) else {
        return Err(Fail::from("one record"));
    };
    let effects = entry.effects.as_slice();
    assert!(rt; is_of(entry, 6, 2, [0x0040_0010, 4004, 1, 0x0041_0000, 3, 9]));
    assert!(rt; effects.len() == 3 && !is_set(effects.get(0), 2, 3));
    assert!(rt; is_set(effects.get(1), 2, 3) && is_set(effects.get(2), 7, 0));
    Ok(())
}

#[test]
fn a_handler_has_a_record_before_its_instruction(rt: HostRuntime) -> Result<(), Fail> {
    let mut records = TurnRecords::new(rt.alloc(), true);
    let cpu = caller();
    let was = Registers::of(&cpu);
    let part = records.part();
    records.add_before(6, &was, &cpu, &[delivered(Delivery::Ignored)], true, part)?;
    assert!(rt; records.records().is_empty());
    let part = records.part();
    records.add_before(6, &was, &cpu, &[delivered(Delivery::Handler)], true, part)?;
    let Some(entry) = only(&records) else {
        return Err(Fail::from("one record"));
    };
    assert!(rt; is_of(entry, 6, 1, [0x0040_0014, 4004, 1, 0x0041_0000, 3, 9]));
    assert!(rt; entry.effects.as_slice().is_empty());
    Ok(())
}

#[test]
fn a_turn_without_an_instruction_has_no_effects(rt: HostRuntime) -> Result<(), Fail> {
    let mut records = TurnRecords::new(rt.alloc(), true);
    records.add_idle(6, &caller())?;
    records.clear();
    records.add_idle(7, &caller())?;
    let Some(entry) = only(&records) else {
        return Err(Fail::from("one record"));
    };
    assert!(rt; is_of(entry, 7, 3, [0x0040_0014, 4004, 1, 0x0041_0000, 3, 9]));
    assert!(rt; entry.effects.as_slice().is_empty());
    Ok(())
}

#[test]
fn without_a_journal_nothing_is_kept(rt: HostRuntime) -> Result<(), Fail> {
    let mut records = TurnRecords::new(rt.alloc(), false);
    let cpu = caller();
    let part = records.part();
    assert!(rt; part.is_none());
    let was = Registers::of(&cpu);
    records.add_call(6, &was, &cpu, part)?;
    records.add_idle(7, &cpu)?;
    assert!(rt; records.records().is_empty());
    Ok(())
}
