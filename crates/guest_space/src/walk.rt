//! Bytes of a page store: which may be used, and reads and writes of them, a page at a time.
ghost use Rattle.std.specs.Prelude.{◌≡◌, ◌+◌, ◌*◌, ◌<◌, ◌≤◌, ◌/◌, ◌%◌, ◌^◌, ℕ, length, take, slice_range, true, false, OnOk, OnErr, IfOk, IfErr, IfNone, IfSome, Some, None, Ok};
ghost use Rattle.std.specs.FinMap as map;
ghost use Rattle.raw_pages.specs.Pages.{is_ready, shown_bytes, zero_bytes};
ghost use Rattle.guest_space.specs.Memory.{IsValid};
ghost use Rattle.guest_space.specs.inside.Pieces.{with_both};
ghost use Rattle.byteorder.specs.Endian.{big_number};
ghost use Rattle.guest_space.specs.Access.{refusal, allows, first_denied, unless_denied, user_end};
ghost use Rattle.guest_space.specs.Bytes.{bytes_at, with_bytes, are_ready};
ghost use Rattle.guest_space.specs.Answers.{IsStoreAnswer};

use crate::access::{Access, Denied, StoreError, Why};
use byteorder::{BigEndian, ByteOrder};
use kernel_core::NoMemory;
use kernel_core::address_space::{PAGE_SIZE, USER_END};
use raw_pages::{Page, PageStore, WriteError};

#[inline(always)]
fn allows(access: Access, protection: u8) -> bool
    ensures { result ≡ allows access protection }
{
    match access {
        Access::Load => protection != 0,
        Access::Store => protection / 2 % 2 == 1,
    }
}

/// The page of the byte, where the byte may be used so, and else why it may not.
#[inline(always)]
fn usable_page(pages: &PageStore, access: Access, address: u32) -> Result<&Page, Why>
    ensures allowed { IfOk result (λ page. (refusal access pages.now address ≡ None)
        × (map.get pages.now (address / 4096) ≡ Some page.now)) }
    ensures refused { IfErr result (λ why. refusal access pages.now address ≡ Some why) }
{
    if address >= USER_END {
        return Err(Why::Beyond);
    }
    match pages.page(address / PAGE_SIZE) {
        None => Err(Why::Absent),
        Some(page) => {
            if allows(access, page.protection()) {
                Ok(page)
            } else {
                Err(Why::Forbidden)
            }
        }
    }
}

/// Why the byte may not be used so.
fn refusal(pages: &PageStore, access: Access, address: u32) -> Option<Why>
    ensures value { result ≡ refusal access pages.now address }
    ensures inside { IfNone result (address < user_end) }
{
    usable_page(pages, access, address).err()
}

/// The first of the `n` bytes from `address` on that may not be used so.
pub(crate) fn first_denied(
    pages: &PageStore,
    access: Access,
    address: u32,
    n: usize,
) -> Option<Denied>
    ensures value { result ≡ first_denied access pages.now address n }
    ensures inside { IfNone result (address + n ≤ 2 ^ 32) }
{
    let mut at = address;
    let mut left = n;
    while left > 0 {
        if let Some(why) = refusal(pages, access, at) {
            return Some(Denied { addr: at, why });
        }
        let room = PAGE_SIZE - at % PAGE_SIZE;
        if left <= room as usize {
            return None;
        }
        at += room;
        left -= room as usize;
    }
    None
}

/// The big-endian number of one to four bytes.
pub(crate) fn number(bytes: &[u8]) -> u32
    requires low { 1 ≤ length bytes.now }
    requires high { length bytes.now ≤ 4 }
    ensures value { result ≡ big_number (length bytes.now) bytes.now }
    ensures fits { result < 256 ^ length bytes.now }
{
    match bytes.len() {
        1 => u32::from(bytes[0]),
        2 => u32::from(BigEndian::read_u16(bytes)),
        3 => BigEndian::read_u24(bytes),
        _ => BigEndian::read_u32(bytes),
    }
}

/// The big-endian number of one to four bytes that lie in one page, by one look-up.
#[inline(always)]
pub(crate) fn load_in_page(pages: &PageStore, address: u32, n: u32) -> Result<u32, Denied>
    requires low { 1 ≤ n }
    requires high { n ≤ 4 }
    requires room { address % 4096 + n ≤ 4096 }
    ensures value { result ≡ unless_denied
        (first_denied Access.Load pages.now address n) (big_number n (bytes_at pages.now address n)) }
    ensures fits { IfOk result (λ value. value < 256 ^ n) }
{
    match usable_page(pages, Access::Load, address) {
        Ok(page) => Ok(number_in_page(page, (address % PAGE_SIZE) as usize, n)),
        Err(why) => Err(Denied { addr: address, why }),
    }
}

/// The bytes of the address's page, where they may be fetched and the page was written.
#[inline(always)]
pub(crate) fn code_page(pages: &PageStore, address: u32) -> Option<&[u8; 4096]>
    ensures usable { IfSome result (λ bytes. (refusal Access.Load pages.now address ≡ None)
        × (shown_bytes (map.get pages.now (address / 4096)) ≡ bytes.now)) }
    ensures refused { IfNone result (refusal Access.Load pages.now address ≡ None
        → is_ready (map.get pages.now (address / 4096)) ≡ false) }
{
    match usable_page(pages, Access::Load, address) {
        Ok(page) => page.bytes(),
        Err(_why) => None,
    }
}

/// The big-endian word at an address of a page that may be fetched and has these bytes, with no look-up.
#[inline(always)]
pub(crate) fn word_in_page(pages: &PageStore, bytes: &[u8; 4096], address: u32) -> u32
    requires usable { refusal Access.Load pages.now address ≡ None }
    requires there { shown_bytes (map.get pages.now (address / 4096)) ≡ bytes.now }
    requires room { address % 4096 + 4 ≤ 4096 }
    ensures { unless_denied (first_denied Access.Load pages.now address 4) (big_number 4 (bytes_at pages.now address 4)) ≡ Ok result }
{
    word_at(bytes, (address % PAGE_SIZE) as usize)
}

/// The big-endian word at a place of a page's bytes.
#[inline(always)]
fn word_at(bytes: &[u8; 4096], place: usize) -> u32
    requires room { place + 4 ≤ 4096 }
    ensures value { result ≡ big_number 4 (slice_range bytes.now place (place + 4)) }
    ensures whole { length bytes.now ≡ 4096 }
{
    BigEndian::read_u32(&four_bytes(bytes, place))
}

/// The four bytes from a place of a page's bytes on.
#[inline(always)]
fn four_bytes(bytes: &[u8; 4096], place: usize) -> [u8; 4]
    requires room { place + 4 ≤ 4096 }
    ensures value { result ≡ slice_range bytes.now place (place + 4) }
    ensures whole { length bytes.now ≡ 4096 }
{
    [
        bytes[place],
        bytes[place + 1],
        bytes[place + 2],
        bytes[place + 3],
    ]
}

/// The big-endian number of one to four bytes of a page.
#[inline(always)]
fn number_in_page(page: &Page, place: usize, n: u32) -> u32
    requires low { 1 ≤ n }
    requires high { n ≤ 4 }
    requires room { place + n ≤ 4096 }
    ensures value { result ≡ big_number n (slice_range page.now.bytes place (place + n)) }
    ensures fits { result < 256 ^ n }
    ensures whole { length page.now.bytes ≡ 4096 }
{
    match n {
        1 => u32::from(page.byte(place)),
        2 => u32::from(BigEndian::read_u16(&page.half(place))),
        3 => three_bytes(page, place),
        _ => BigEndian::read_u32(&page.word(place)),
    }
}

fn three_bytes(page: &Page, place: usize) -> u32
    requires { place + 3 ≤ 4096 }
    ensures value { result ≡ big_number 3 (slice_range page.now.bytes place (place + 3)) }
    ensures fits { result < 256 ^ 3 }
    ensures whole { length page.now.bytes ≡ 4096 }
{
    let mut bytes = [0; 3];
    page.read(place, &mut bytes);
    number(&bytes)
}

/// Reads a piece of bytes that lies in one page. Where no page is the bytes are 0.
fn read_piece(pages: &PageStore, address: u32, piece: &mut [u8])
    requires { address % 4096 + length piece.old ≤ 4096 }
    ensures { piece.new ≡ bytes_at pages.now address (length piece.old) }
{
    pages.read(address / PAGE_SIZE, address % PAGE_SIZE, piece);
}

/// Reads the bytes from `address` on. Where no page is they are 0.
pub(crate) fn read_bytes(pages: &PageStore, address: u32, buf: &mut [u8])
    requires { address + length buf.old ≤ 2 ^ 32 }
    ensures { buf.new ≡ bytes_at pages.now address (length buf.old) }
{
    let mut done = 0;
    while done < buf.len() {
        let at = address + done as u32;
        let size = (buf.len() - done).min((PAGE_SIZE - at % PAGE_SIZE) as usize);
        read_piece(pages, at, &mut buf[done..done + size]);
        done += size;
    }
}

/// Writes the bytes from `address` on, where pages are. After want of memory for a page that isn't ready a
/// first part of them is written.
pub(crate) fn write_bytes(pages: &mut PageStore, address: u32, bytes: &[u8]) -> Result<(), NoMemory>
    requires { address + length bytes.now ≤ 2 ^ 32 }
    ensures ok { OnOk result (pages.new ≡ with_bytes pages.old address bytes.now) }
    ensures part { OnErr result ((k : ℕ) × (k ≤ length bytes.now) × (pages.new ≡ with_bytes pages.old address (take k bytes.now))) }
    ensures ready { OnErr result (are_ready pages.old address (length bytes.now) ≡ false) }
    ensures valid { IsValid pages.old → IsValid pages.new }
{
    let mut done = 0;
    while done < bytes.len() {
        let at = address + done as u32;
        let place = at % PAGE_SIZE;
        let size = (bytes.len() - done).min((PAGE_SIZE - place) as usize);
        pages.write(at / PAGE_SIZE, place, &bytes[done..done + size])?;
        done += size;
    }
    Ok(())
}

/// Writes one to four bytes: all of them, or none.
#[inline(always)]
pub(crate) fn store_bytes(
    pages: &mut PageStore,
    address: u32,
    bytes: &[u8],
) -> Result<(), StoreError>
    requires some { 0 < length bytes.now }
    requires short { length bytes.now ≤ 4 }
    ensures ok { OnOk result (pages.new ≡ with_bytes pages.old address bytes.now) }
    ensures err { OnErr result (pages.new ≡ pages.old) }
    ensures answer { IsStoreAnswer (first_denied Access.Store pages.old address (length bytes.now))
        (are_ready pages.old address (length bytes.now)) result }
    ensures valid { IsValid pages.old → IsValid pages.new }
{
    if address % PAGE_SIZE + bytes.len() as u32 <= PAGE_SIZE {
        return store_in_page(pages, address, bytes);
    }
    store_across_pages(pages, address, bytes)
}

/// Writes one to four bytes that lie in one page, by one look-up: all of them, or none.
#[inline(always)]
pub(crate) fn store_in_page(
    pages: &mut PageStore,
    address: u32,
    bytes: &[u8],
) -> Result<(), StoreError>
    requires some { 0 < length bytes.now }
    requires room { address % 4096 + length bytes.now ≤ 4096 }
    ensures ok { OnOk result (pages.new ≡ with_bytes pages.old address bytes.now) }
    ensures err { OnErr result (pages.new ≡ pages.old) }
    ensures answer { IsStoreAnswer (first_denied Access.Store pages.old address (length bytes.now))
        (are_ready pages.old address (length bytes.now)) result }
    ensures valid { IsValid pages.old → IsValid pages.new }
{
    if address >= USER_END {
        return Err(StoreError::Denied(Denied {
            addr: address,
            why: Why::Beyond,
        }));
    }
    match pages.write_if_allowed(address / PAGE_SIZE, address % PAGE_SIZE, bytes) {
        Ok(()) => Ok(()),
        Err(WriteError::Absent) => Err(StoreError::Denied(Denied {
            addr: address,
            why: Why::Absent,
        })),
        Err(WriteError::Forbidden) => Err(StoreError::Denied(Denied {
            addr: address,
            why: Why::Forbidden,
        })),
        Err(WriteError::NoMemory) => Err(StoreError::NoMemory),
    }
}

/// Writes bytes of two neighbouring pages: all of them, or none.
fn write_across(pages: &mut PageStore, address: u32, bytes: &[u8]) -> Result<(), NoMemory>
    requires across { 4096 < address % 4096 + length bytes.now }
    requires short { length bytes.now ≤ 4 }
    requires inside { address + length bytes.now ≤ 2 ^ 32 }
    ensures ok { OnOk result (pages.new ≡ with_bytes pages.old address bytes.now) }
    ensures err { OnErr result (pages.new ≡ pages.old) }
    ensures ready { OnErr result (are_ready pages.old address (length bytes.now) ≡ false) }
{
    let page = address / PAGE_SIZE;
    let place = address % PAGE_SIZE;
    let front = &bytes[..(PAGE_SIZE - place) as usize];
    let back = &bytes[(PAGE_SIZE - place) as usize..];
    if pages.ready(page + 1) {
        write_with_ready_next(pages, page, place, front, back)?;
    } else {
        write_with_unready_next(pages, page, place, front, back)?;
    }
    Ok(())
}

/// Writes the end of a page and the begin of the next one, which is ready.
fn write_with_ready_next(
    pages: &mut PageStore,
    page: u32,
    place: u32,
    front: &[u8],
    back: &[u8],
) -> Result<(), NoMemory>
    requires number { page + 1 < 1048576 }
    requires front { place + length front.now ≤ 4096 }
    requires back { length back.now ≤ 4096 }
    requires ready { is_ready (map.get pages.old (page + 1)) ≡ true }
    ensures ok { OnOk result (pages.new ≡ with_both pages.old page place front.now back.now) }
    ensures err { OnErr result (pages.new ≡ pages.old) }
    ensures unready { OnErr result (is_ready (map.get pages.old page) ≡ false) }
{
    pages.write(page, place, front)?;
    pages.write(page + 1, 0, back)?;
    Ok(())
}

/// The same where the next page isn't ready. It is written first, and cleared again where there is no memory
/// for the first page.
fn write_with_unready_next(
    pages: &mut PageStore,
    page: u32,
    place: u32,
    front: &[u8],
    back: &[u8],
) -> Result<(), NoMemory>
    requires number { page + 1 < 1048576 }
    requires front { place + length front.now ≤ 4096 }
    requires back { length back.now ≤ 4096 }
    requires unready { is_ready (map.get pages.old (page + 1)) ≡ false }
    requires zeros { shown_bytes (map.get pages.old (page + 1)) ≡ zero_bytes }
    ensures ok { OnOk result (pages.new ≡ with_both pages.old page place front.now back.now) }
    ensures err { OnErr result (pages.new ≡ pages.old) }
{
    pages.write(page + 1, 0, back)?;
    if let Err(no_memory) = pages.write(page, place, front) {
        pages.clear(page + 1);
        return Err(no_memory);
    }
    Ok(())
}

/// Writes two to four bytes of two neighbouring pages: all of them, or none. It is rare.
#[cold]
#[inline(never)]
fn store_across_pages(pages: &mut PageStore, address: u32, bytes: &[u8]) -> Result<(), StoreError>
    requires across { 4096 < address % 4096 + length bytes.now }
    requires short { length bytes.now ≤ 4 }
    ensures ok { OnOk result (pages.new ≡ with_bytes pages.old address bytes.now) }
    ensures err { OnErr result (pages.new ≡ pages.old) }
    ensures answer { IsStoreAnswer (first_denied Access.Store pages.old address (length bytes.now))
        (are_ready pages.old address (length bytes.now)) result }
    ensures valid { IsValid pages.old → IsValid pages.new }
{
    if let Some(denied) = first_denied(pages, Access::Store, address, bytes.len()) {
        return Err(StoreError::Denied(denied));
    }
    write_across(pages, address, bytes)?;
    Ok(())
}
