//! Loads and stores over guest memory, and the signals of their refusals.
ghost use Rattle.std.specs.Prelude.{◌≡◌, ◌%◌, ◌<◌, ◌||◌, not, if◌then◌else◌, Ok, None, IfOk, IfSome, OnOk, OnErr, IsTrue, true, false};
ghost use Rattle.guest_space.specs.Access.{first_denied};
ghost use Rattle.guest_space.specs.Answers.{IsStoreAnswer};
ghost use Rattle.guest_space.specs.Bytes.{read, written, are_ready};
ghost use Rattle.guest_space.specs.declared.access.Access.TheVariants as Access;
ghost use Rattle.mips_exec.specs.Step.{carried_out, needs_page, stopped, load_address, load_width, loaded_value, merged_left, merged_right, store_address, store_width, stored_value, access_signal, access_code};

use crate::arithmetic::{extend_byte, extend_half};
use crate::codes::{ABSENT, BAD_ADDRESS, FORBIDDEN};
use crate::control::{fault, go_on};
use crate::cpu::Cpu;
use crate::effect::{Effect, Span};
use crate::execution::Stepped;
use guest_space::{Access, Denied, Space, StoreError, Why};
use kernel_core::{NoMemory, Sig};

/// The signal for a byte that may not be used.
#[inline]
pub fn access_signal(why: Why) -> Sig
    ensures { result ≡ access_signal why }
{
    match why {
        Why::Absent | Why::Forbidden => Sig::Segv,
        Why::Beyond => Sig::Bus,
    }
}

/// The code of that signal.
#[inline]
pub fn access_code(why: Why) -> u32
    ensures { result ≡ access_code why }
{
    match why {
        Why::Absent => ABSENT,
        Why::Forbidden => FORBIDDEN,
        Why::Beyond => BAD_ADDRESS,
    }
}

/// Stops at a byte that may not be used.
#[inline]
fn deny(cpu: &mut Cpu, denied: Denied) -> Stepped
    ensures processor { cpu.new ≡ stopped cpu.old }
    ensures came { result ≡ Stepped.Fault (access_signal denied.why) (access_code denied.why) denied.addr }
{
    fault(
        cpu,
        access_signal(denied.why),
        access_code(denied.why),
        denied.addr,
    )
}

/// The number that a load reads, or the first byte that may not be loaded.
#[inline(always)]
fn read(space: &Space, span: Span, address: u32) -> Result<u32, Denied>
    ensures { result ≡ read space.now (load_address span address) (load_width span) }
{
    match span {
        Span::Byte => space.load(address, 1),
        Span::Half => space.load(address, 2),
        Span::Word => space.load(address, 4),
        Span::Left | Span::Right => space.load(address - address % 4, 4),
    }
}

/// The number that a load reads, where its bytes lie in one page and may be loaded.
#[inline(always)]
fn read_quietly(space: &Space, span: Span, address: u32) -> Option<u32>
    ensures { IfSome result (λ number. read space.now (load_address span address) (load_width span) ≡ Ok number) }
{
    match span {
        Span::Byte => space.load_in_page(address, 1),
        Span::Half => space.load_in_page(address, 2),
        Span::Word => space.load_in_page(address, 4),
        Span::Left | Span::Right => space.load_in_page(address - address % 4, 4),
    }
}

/// A word's bytes from a place on, in the upper bytes of what the register held.
#[inline]
fn merge_left(place: u32, old: u32, word: u32) -> u32
    requires { place < 4 }
    ensures { result ≡ merged_left place old word }
{
    match place {
        0 => word,
        1 => word % 0x100_0000 * 0x100 + old % 0x100,
        2 => word % 0x1_0000 * 0x1_0000 + old % 0x1_0000,
        _ => word % 0x100 * 0x100_0000 + old % 0x100_0000,
    }
}

/// A word's bytes up to a place, in the lower bytes of what the register held.
#[inline]
fn merge_right(place: u32, old: u32, word: u32) -> u32
    requires { place < 4 }
    ensures { result ≡ merged_right place old word }
{
    match place {
        0 => old / 0x100 * 0x100 + word / 0x100_0000,
        1 => old / 0x1_0000 * 0x1_0000 + word / 0x1_0000,
        2 => old / 0x100_0000 * 0x100_0000 + word / 0x100,
        _ => word,
    }
}

/// What a register gets of the number that was read.
#[inline]
fn loaded_value(span: Span, signed: bool, address: u32, old: u32, number: u32) -> u32
    ensures { result ≡ loaded_value span signed address old number }
{
    match span {
        Span::Byte if signed => extend_byte(number),
        Span::Half if signed => extend_half(number),
        Span::Byte | Span::Half | Span::Word => number,
        Span::Left => merge_left(address % 4, old, number),
        Span::Right => merge_right(address % 4, old, number),
    }
}

/// A load: LB, LBU, LH, LHU, LW, LWL or LWR. It takes no memory.
#[inline(always)]
pub fn load(
    cpu: &mut Cpu,
    space: &Space,
    span: Span,
    signed: bool,
    address: u32,
    register: u8,
) -> Stepped
    ensures { carried_out cpu.old space.now (Effect.Load span signed address register)
        ≡ record { processor = cpu.new; memory = space.now; came = result } }
{
    match read(space, span, address) {
        Ok(number) => {
            let old = cpu.operand(register);
            cpu.set_operand(register, loaded_value(span, signed, address, old, number));
            go_on(cpu)
        }
        Err(denied) => deny(cpu, denied),
    }
}

/// A load whose bytes lie in one page and may be loaded. Else nothing changes. It takes no memory.
#[inline(always)]
pub fn load_quietly(
    cpu: &mut Cpu,
    space: &Space,
    span: Span,
    signed: bool,
    address: u32,
    register: u8,
) -> bool
    ensures went { result ≡ true → carried_out cpu.old space.now (Effect.Load span signed address register)
        ≡ record { processor = cpu.new; memory = space.now; came = Stepped.Next } }
    ensures stays { result ≡ false → cpu.new ≡ cpu.old }
{
    match span {
        Span::Byte if signed => load_span(cpu, space, Span::Byte, true, address, register),
        Span::Byte => load_span(cpu, space, Span::Byte, false, address, register),
        Span::Half if signed => load_span(cpu, space, Span::Half, true, address, register),
        Span::Half => load_span(cpu, space, Span::Half, false, address, register),
        Span::Word => load_span(cpu, space, Span::Word, signed, address, register),
        Span::Left | Span::Right => load_span(cpu, space, span, signed, address, register),
    }
}

/// The same, put in line with a span that is known there, so that the load's width is known too.
#[inline(always)]
fn load_span(
    cpu: &mut Cpu,
    space: &Space,
    span: Span,
    signed: bool,
    address: u32,
    register: u8,
) -> bool
    ensures went { result ≡ true → carried_out cpu.old space.now (Effect.Load span signed address register)
        ≡ record { processor = cpu.new; memory = space.now; came = Stepped.Next } }
    ensures stays { result ≡ false → cpu.new ≡ cpu.old }
{
    let Some(number) = read_quietly(space, span, address) else {
        return false;
    };
    let value = loaded_value(span, signed, address, cpu.operand(register), number);
    let _ = go_on(cpu);
    cpu.set_operand(register, value);
    true
}

/// LL, which links its address. It takes no memory.
#[inline]
pub fn load_linked(cpu: &mut Cpu, space: &Space, address: u32, register: u8) -> Stepped
    ensures { carried_out cpu.old space.now (Effect.LoadLinked address register)
        ≡ record { processor = cpu.new; memory = space.now; came = result } }
{
    if address % 4 != 0 {
        return fault(cpu, Sig::Bus, BAD_ADDRESS, address);
    }
    match space.load(address, 4) {
        Ok(number) => {
            cpu.link = Some(address);
            cpu.set_operand(register, number);
            go_on(cpu)
        }
        Err(denied) => deny(cpu, denied),
    }
}

/// Writes what a store writes: all its bytes, or none with the first that may not be stored to.
#[inline(always)]
fn write(space: &mut Space, span: Span, address: u32, value: u32) -> Result<(), StoreError>
    ensures ok { OnOk result (space.new
        ≡ written space.old (store_address span address) (store_width span address) (stored_value span address value)) }
    ensures err { OnErr result (space.new ≡ space.old) }
    ensures answer { IsStoreAnswer
        (first_denied Access.Store space.old.pages (store_address span address) (store_width span address))
        (are_ready space.old.pages (store_address span address) (store_width span address)) result }
{
    let place = address % 4;
    match span {
        Span::Byte => space.store(address, 1, value),
        Span::Half => space.store(address, 2, value),
        Span::Word => space.store(address, 4, value),
        Span::Left => space.store(address, 4 - place, value >> (8 * place)),
        Span::Right => space.store(address - place, place + 1, value),
    }
}

/// The same where the bytes lie in one page. It is told whether they were written; else nothing changes.
#[inline(always)]
fn write_quietly(space: &mut Space, span: Span, address: u32, value: u32) -> bool
    ensures stored { result ≡ true → space.new
        ≡ written space.old (store_address span address) (store_width span address) (stored_value span address value) }
    ensures allowed { result ≡ true
        → first_denied Access.Store space.old.pages (store_address span address) (store_width span address) ≡ None }
    ensures stays { result ≡ false → space.new ≡ space.old }
{
    let place = address % 4;
    match span {
        Span::Byte => space.store_in_page(address, 1, value),
        Span::Half => space.store_in_page(address, 2, value),
        Span::Word => space.store_in_page(address, 4, value),
        Span::Left => space.store_in_page(address, 4 - place, value >> (8 * place)),
        Span::Right => space.store_in_page(address - place, place + 1, value),
    }
}

/// A store: SB, SH, SW, SWL or SWR. It writes all its bytes or none.
#[inline(always)]
pub fn store(
    cpu: &mut Cpu,
    space: &mut Space,
    span: Span,
    address: u32,
    value: u32,
) -> Result<Stepped, NoMemory>
    ensures ok { IfOk result (λ came. carried_out cpu.old space.old (Effect.Store span address value)
        ≡ record { processor = cpu.new; memory = space.new; came = came }) }
    ensures unchanged_cpu { OnErr result (cpu.new ≡ cpu.old) }
    ensures unchanged_space { OnErr result (space.new ≡ space.old) }
    ensures cause { OnErr result (IsTrue (needs_page cpu.old space.old (Effect.Store span address value))) }
{
    match write(space, span, address, value) {
        Ok(()) => Ok(go_on(cpu)),
        Err(StoreError::Denied(denied)) => Ok(deny(cpu, denied)),
        Err(StoreError::NoMemory) => Err(NoMemory),
    }
}

/// A store whose bytes lie in one page and may be stored to and that does not want for memory. Else nothing changes.
#[inline(always)]
pub fn store_quietly(cpu: &mut Cpu, space: &mut Space, span: Span, address: u32, value: u32) -> bool
    ensures went { result ≡ true → carried_out cpu.old space.old (Effect.Store span address value)
        ≡ record { processor = cpu.new; memory = space.new; came = Stepped.Next } }
    ensures stays_cpu { result ≡ false → cpu.new ≡ cpu.old }
    ensures stays_space { result ≡ false → space.new ≡ space.old }
{
    if write_quietly(space, span, address, value) {
        let _ = go_on(cpu);
        return true;
    }
    false
}

/// The byte of an aligned word that may not be stored to.
#[inline]
fn store_refusal(space: &Space, address: u32) -> Option<Denied>
    requires { address % 4 ≡ 0 }
    ensures { result ≡ first_denied Access.Store space.now.pages address 4 }
{
    if space.writable(address, 4) == 4 {
        return None;
    }
    let why = match space.load(address, 1) {
        Ok(_) => Why::Forbidden,
        Err(denied) => denied.why,
    };
    Some(Denied { addr: address, why })
}

/// Writes the word at an aligned address where that is linked, and else tells only whether it may be
/// stored to.
#[inline]
fn write_if(linked: bool, space: &mut Space, address: u32, value: u32) -> Result<(), StoreError>
    requires { address % 4 ≡ 0 }
    ensures ok { OnOk result (space.new ≡ (if linked then written space.old address 4 value else space.old)) }
    ensures err { OnErr result (space.new ≡ space.old) }
    ensures answer { IsStoreAnswer (first_denied Access.Store space.old.pages address 4)
        (not linked || are_ready space.old.pages address 4) result }
{
    if linked {
        return space.store(address, 4, value);
    }
    match store_refusal(space, address) {
        Some(denied) => Err(StoreError::Denied(denied)),
        None => Ok(()),
    }
}

/// SC, which clears the link, also where it stores nothing.
#[inline]
pub fn store_conditional(
    cpu: &mut Cpu,
    space: &mut Space,
    address: u32,
    register: u8,
) -> Result<Stepped, NoMemory>
    ensures ok { IfOk result (λ came. carried_out cpu.old space.old (Effect.StoreConditional address register)
        ≡ record { processor = cpu.new; memory = space.new; came = came }) }
    ensures unchanged_cpu { OnErr result (cpu.new ≡ cpu.old) }
    ensures unchanged_space { OnErr result (space.new ≡ space.old) }
    ensures cause { OnErr result (IsTrue (needs_page cpu.old space.old (Effect.StoreConditional address register))) }
{
    if address % 4 != 0 {
        cpu.link = None;
        return Ok(fault(cpu, Sig::Bus, BAD_ADDRESS, address));
    }
    let linked = cpu.link == Some(address);
    match write_if(linked, space, address, cpu.operand(register)) {
        Ok(()) => {
            cpu.link = None;
            cpu.set_operand(register, u32::from(linked));
            Ok(go_on(cpu))
        }
        Err(StoreError::Denied(denied)) => {
            cpu.link = None;
            Ok(deny(cpu, denied))
        }
        Err(StoreError::NoMemory) => Err(NoMemory),
    }
}
