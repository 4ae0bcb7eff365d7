//! The stack and the page of the signal trampolines in the first memory.
ghost use Rattle.std.specs.Prelude.{◌≡◌, ◌≢◌, ◌+◌, ◌≤◌, Err, length, OnOk};
ghost use Rattle.std.specs.FinMap.{len};
ghost use Rattle.start_stack.specs.FirstMemory.{with_stack, with_trampolines};

use crate::error::StartError;
use crate::pages::{map_pages, protect_page, write_bytes};
use crate::stack_text::StackText;
use guest_space::Space;
use kernel_core::address_space::{PROT_EXEC, PROT_READ, STACK_PAGE, STACK_PAGES};

/// The page of the signal trampolines (this project's own).
const TRAMPOLINE_PAGE: u32 = 0x7FFF4;

/// Its protection: the trampolines are read and executed.
const READ_EXECUTE: u8 = PROT_READ + PROT_EXEC;

/// Maps the stack and writes its text.
pub(crate) fn map_stack(space: &mut Space, text: &StackText) -> Result<(), StartError>
    requires room { len space.old.pages ≤ 120000 }
    requires low { 0x7F7F0000 ≤ text.now.stack_pointer }
    requires high { text.now.stack_pointer + length text.now.bytes.items ≤ 0x7FFF0000 }
    ensures ok { OnOk result (space.new ≡ with_stack space.old text.now.stack_pointer text.now.bytes.items) }
    ensures room { OnOk result (len space.new.pages ≤ 122048) }
    ensures memory { result ≢ Err StartError.TooLong }
{
    map_pages(space, STACK_PAGE, STACK_PAGES)?;
    write_bytes(space, text.stack_pointer, &text.bytes)?;
    Ok(())
}

/// Maps the page of the signal trampolines and writes their words.
pub(crate) fn map_trampolines(space: &mut Space) -> Result<(), StartError>
    requires { len space.old.pages ≤ 122048 }
    ensures ok { OnOk result (space.new ≡ with_trampolines space.old) }
    ensures memory { result ≢ Err StartError.TooLong }
{
    map_pages(space, TRAMPOLINE_PAGE, 1)?;
    write_bytes(space, 0x7FFF_4000, &[0x24, 0x02, 0x10, 0x17, 0, 0, 0, 0x0C])?;
    write_bytes(space, 0x7FFF_4010, &[0x24, 0x02, 0x10, 0x61, 0, 0, 0, 0x0C])?;
    protect_page(space, TRAMPOLINE_PAGE, READ_EXECUTE);
    Ok(())
}
