//! Effects that set registers.
ghost use Rattle.std.specs.Prelude.{◌≡◌, ◌≤◌, Ok, OnOk, slice_index};
ghost use Rattle.mips_exec.specs.Processor.{Processor};
ghost use Rattle.o32_model.specs.Effects.{after_register};
ghost use Rattle.turn_records.specs.inside.Setting.{Sets};

use kernel_core::{Effect, NoMemory};

/// Adds the effect that sets a register, by its number, where it is another one `now`.
pub(crate) fn add_change(
    effects: &mut Vec<Effect>,
    r: u8,
    was: u32,
    now: u32,
) -> Result<(), NoMemory>
    requires first { 1 ≤ r }
    requires last { r ≤ 35 }
    ensures { OnOk result ((from to : Processor) → after_register from r now ≡ Ok to → (was ≡ now → to ≡ from)
        → Sets effects.old.items effects.new.items from to) }
{
    if was != now {
        effects.push(Effect::Register { r, value: now })?;
    }
    Ok(())
}

/// Adds those that set the general registers, of which register 0 is never another one.
pub(crate) fn add_general(
    effects: &mut Vec<Effect>,
    was: &[u32; 32],
    now: &[u32; 32],
) -> Result<(), NoMemory>
    requires { slice_index was.now 0 ≡ slice_index now.now 0 }
    ensures { OnOk result ((from : Processor) → from.registers ≡ was.now
        → Sets effects.old.items effects.new.items from (record from { registers = now.now })) }
{
    for number in 1..32 {
        add_change(effects, number, was[number as usize], now[number as usize])?;
    }
    Ok(())
}
