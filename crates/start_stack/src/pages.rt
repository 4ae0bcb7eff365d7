//! Calls on guest memory that can want for nothing but memory.
ghost use Rattle.std.specs.Prelude.{◌≡◌, ◌≢◌, ◌+◌, ◌≤◌, None, Err, length, OnOk};
ghost use Rattle.std.specs.FinMap as map;
ghost use Rattle.guest_space.specs.Access.{first_denied};
ghost use Rattle.guest_space.specs.Bytes.{copied_out};
ghost use Rattle.guest_space.specs.Mapping.{with_zeros, page_limit};
ghost use Rattle.start_stack.specs.FirstMemory.{with_pages, with_protected};

use crate::error::StartError;
use guest_space::{Access, MapError, Space, StoreError};
use kernel_core::address_space::{PROT_READ, PROT_WRITE};

/// The protection of pages that are being filled.
const READ_WRITE: u8 = PROT_READ + PROT_WRITE;

/// Maps pages of zeros that may be read and written.
pub(crate) fn map_pages(space: &mut Space, first: u32, count: u32) -> Result<(), StartError>
    requires end { first + count ≤ 524280 }
    requires room { map.len (with_zeros space.old.pages first count 3) ≤ page_limit }
    ensures ok { OnOk result (space.new ≡ with_pages space.old first count) }
    ensures memory { result ≢ Err StartError.TooLong }
{
    match space.map(first, count, READ_WRITE) {
        Ok(()) => Ok(()),
        Err(MapError::NoMemory) => Err(StartError::NoMemory),
        Err(MapError::Full | MapError::NoPlace) => unreachable!(),
    }
}

/// Writes bytes to pages that may be written.
pub(crate) fn write_bytes(space: &mut Space, address: u32, bytes: &[u8]) -> Result<(), StartError>
    requires { first_denied Access.Store space.old.pages address (length bytes.now) ≡ None }
    ensures ok { OnOk result (space.new ≡ copied_out space.old address bytes.now) }
    ensures memory { result ≢ Err StartError.TooLong }
{
    match space.copy_out(address, bytes) {
        Ok(()) => Ok(()),
        Err(StoreError::NoMemory) => Err(StartError::NoMemory),
        Err(StoreError::Denied(_)) => unreachable!(),
    }
}

/// Gives one mapped page another protection.
pub(crate) fn protect_page(space: &mut Space, page: u32, protection: u8)
    requires end { page + 1 ≤ 524280 }
    requires protection { protection ≤ 7 }
    ensures { space.new ≡ with_protected space.old page 1 protection }
{
    space.protect(page, 1, protection);
}
