//! The guest's memory as the calls of the machine see it.
ghost use Rattle.std.specs.Prelude.{◌≡◌, ◌||◌, ◌+◌, ◌*◌, ◌/◌, ◌%◌, ◌<◌, ◌≤◌, ◌^◌, ◌↔◌, IsTrue, None, ℕ, length, IfOk, OnOk, OnErr, IfErr, IsErrOf, IfSome, IfNone, Ok, is_some, not, true, false};
ghost use Rattle.std.specs.FinMap as map;
ghost use Rattle.std.specs.Option.{option_copied};
ghost use Rattle.raw_pages.specs.Pages.{is_ready, shown_bytes};
ghost use Rattle.guest_space.specs.Access.{first_denied, refusal, bytes_before, readable_prefix, writable_prefix, unless_denied, user_end};
ghost use Rattle.guest_space.specs.Answers.{IsStoreAnswer, LeavesPrefix, LeavesMapped};
ghost use Rattle.guest_space.specs.Bytes.{bytes_at, read, written, copied_out, are_ready};
ghost use Rattle.guest_space.specs.Memory.{IsValid};
ghost use Rattle.guest_space.specs.Mapping.{with_zeros, with_protection, mapped_run, page_limit};
ghost use Rattle.guest_space.specs.Places.{IsFree, IsGreatestPlace};
ghost use Rattle.guest_space.specs.Remapping.{without, IsRemapAnswer};
ghost use Rattle.guest_space.specs.Break.{with_break};

use crate::access::{Access, Denied, MapError, StoreError};
use crate::range::{
    absent_pages, greatest_place, is_free, map_zeros, mapped_pages, protect_pages, unmap_pages,
};
use crate::resize::{new_break, resize};
use crate::walk::{
    code_page, first_denied, load_in_page, number, read_bytes, store_bytes, store_in_page,
    word_in_page, write_bytes,
};
use kernel_core::NoMemory;
use kernel_core::address_space::{PAGE_LIMIT, PAGE_SIZE};
use raw_pages::{Page, PageStore};
use std::alloc::Global;
use std::marker::Model;

/// The memory of a guest program. Contracts see it as a `Memory` of `specs/Memory.antt`: a finite map
/// from page numbers to pages, the program break and the place where the break began. Addresses have
/// 32 bits, a page has 4096 bytes, and user space ends at 0x7FFF8000.
#[derive(Drop)]
pub struct Space {
    pages: PageStore,
    program_break: u32,
    break_start: u32,
}

impl Model for Space {
    ghost use Rattle.guest_space.specs.Memory.{Memory, memory_code, IsValid};

    ghost Value = { Memory };

    ghost coded = { memory_code };

    ghost view = { λ s. record { pages = s.pages; program_break = s.program_break; break_start = s.break_start } };

    ghost invariant = { λ s. IsValid s.pages };
}

impl Space {
    /// A memory with no page, and with the break and its start at 0. It takes its pages from `alloc`.
    pub fn new(alloc: Global) -> Result<Space, NoMemory>
        ensures empty { IfOk result (λ s. s ≡ record { pages = map.empty; program_break = 0; break_start = 0 }) }
        ensures valid { IfOk result (λ s. IsValid s.pages) }
    {
        let pages = PageStore::new(alloc)?;
        Ok(Space {
            pages,
            program_break: 0,
            break_start: 0,
        })
    }

    /// Makes `at` the program break and the break's start (brk(2)).
    pub fn set_break(&mut self, at: u32)
        ensures both { self.new ≡ record self.old { program_break = at; break_start = at } }
        ensures valid { IsValid self.new.pages }
    {
        self.program_break = at;
        self.break_start = at;
    }

    /// Does nothing, and tells a caller's proof what holds of every memory.
    pub fn whole(&self)
        ensures { IsValid self.now.pages }
    {
        let _pages = &self.pages;
    }

    /// The program break (brk(2)).
    pub fn program_break(&self) -> u32
        ensures { result ≡ self.now.program_break }
    {
        self.program_break
    }

    /// The page of this number, where it is mapped. It takes no memory.
    pub fn page(&self, number: u32) -> Option<&Page>
        ensures { option_copied result ≡ map.get self.now.pages number }
    {
        self.pages.page(number)
    }

    /// The number of pages that are mapped. Nothing is counted for it, and it takes no memory.
    pub fn page_count(&self) -> u32
        ensures { result ≡ map.len self.now.pages }
    {
        self.pages.len()
    }

    /// The big-endian number of the `n` bytes from `address` on, `n` from 1 to 4, or the first of them
    /// that may not be loaded. It takes no memory.
    #[inline(always)]
    pub fn load(&self, address: u32, n: u32) -> Result<u32, Denied>
        requires low { 1 ≤ n }
        requires high { n ≤ 4 }
        ensures value { result ≡ read self.now address n }
        ensures fits { IfOk result (λ value. value < 256 ^ n) }
    {
        if address % PAGE_SIZE + n <= PAGE_SIZE {
            return load_in_page(&self.pages, address, n);
        }
        self.load_across_pages(address, n)
    }

    /// The same where the bytes lie in one page, and None where they don't or where one may not be loaded. It takes no
    /// memory.
    #[inline(always)]
    pub fn load_in_page(&self, address: u32, n: u32) -> Option<u32>
        requires low { 1 ≤ n }
        requires high { n ≤ 4 }
        ensures value { IfSome result (λ value. read self.now address n ≡ Ok value) }
        ensures refused { IfNone result (address % 4096 + n ≤ 4096
            → is_some (first_denied Access.Load self.now.pages address n) ≡ true) }
    {
        if address % PAGE_SIZE + n > PAGE_SIZE {
            return None;
        }
        match load_in_page(&self.pages, address, n) {
            Ok(value) => Some(value),
            Err(_denied) => None,
        }
    }

    /// The same of bytes of two neighbouring pages, which is rare.
    #[cold]
    #[inline(never)]
    fn load_across_pages(&self, address: u32, n: u32) -> Result<u32, Denied>
        requires low { 1 ≤ n }
        requires high { n ≤ 4 }
        ensures value { result ≡ read self.now address n }
        ensures fits { IfOk result (λ value. value < 256 ^ n) }
    {
        let mut buffer = [0u8; 4];
        let bytes = &mut buffer[..n as usize];
        self.copy_in(address, bytes)?;
        Ok(number(bytes))
    }

    /// The big-endian word of the four bytes from `address` on, or the first of them that may not be
    /// fetched. That an address is a multiple of 4 is the caller's matter. It takes no memory.
    #[inline(always)]
    pub fn fetch(&self, address: u32) -> Result<u32, Denied>
        ensures { result ≡ read self.now address 4 }
    {
        self.load(address, 4)
    }

    /// The bytes of the address's page, where they may be fetched and the page was written since it was mapped, and
    /// None exactly where not. It takes no memory.
    #[inline(always)]
    pub fn code_page(&self, address: u32) -> Option<&[u8; 4096]>
        ensures usable { IfSome result (λ bytes. (refusal Access.Load self.now.pages address ≡ None)
            × (shown_bytes (map.get self.now.pages (address / 4096)) ≡ bytes.now)) }
        ensures refused { IfNone result (refusal Access.Load self.now.pages address ≡ None
            → is_ready (map.get self.now.pages (address / 4096)) ≡ false) }
    {
        code_page(&self.pages, address)
    }

    /// The word at an address of a page that has these bytes and may be fetched, with no look-up: what `fetch`
    /// gives there. It takes no memory.
    #[inline(always)]
    #[tactic(auto, unfolding(crate::specs::Bytes::read))]
    pub fn word_in_page(&self, bytes: &[u8; 4096], address: u32) -> u32
        requires usable { refusal Access.Load self.now.pages address ≡ None }
        requires there { shown_bytes (map.get self.now.pages (address / 4096)) ≡ bytes.now }
        requires room { address % 4096 + 4 ≤ 4096 }
        ensures { read self.now address 4 ≡ Ok result }
    {
        word_in_page(&self.pages, bytes, address)
    }

    /// Writes the lowest `n` bytes of `value`, `n` from 1 to 4, big-endian from `address` on: all of them,
    /// or none with the first byte that may not be stored to. It asks for memory only where a byte's
    /// page was not written since it was mapped, and a refusal then changes nothing.
    #[inline(always)]
    pub fn store(&mut self, address: u32, n: u32, value: u32) -> Result<(), StoreError>
        requires low { 1 ≤ n }
        requires high { n ≤ 4 }
        ensures ok { OnOk result (self.new ≡ written self.old address n value) }
        ensures err { OnErr result (self.new ≡ self.old) }
        ensures answer { IsStoreAnswer
            (first_denied Access.Store self.old.pages address n) (are_ready self.old.pages address n) result }
        ensures valid { IsValid self.new.pages }
    {
        let word = value.to_be_bytes();
        store_bytes(&mut self.pages, address, &word[4 - n as usize..])?;
        Ok(())
    }

    /// The same where the bytes lie in one page. It is told whether they were stored; else nothing changes.
    #[inline(always)]
    pub fn store_in_page(&mut self, address: u32, n: u32, value: u32) -> bool
        requires low { 1 ≤ n }
        requires high { n ≤ 4 }
        ensures stored { result ≡ true → self.new ≡ written self.old address n value }
        ensures allowed { result ≡ true → first_denied Access.Store self.old.pages address n ≡ None }
        ensures stays { result ≡ false → self.new ≡ self.old }
        ensures refused { result ≡ false → address % 4096 + n ≤ 4096
            → (is_some (first_denied Access.Store self.old.pages address n) || not (are_ready self.old.pages address n)) ≡ true }
    {
        if address % PAGE_SIZE + n > PAGE_SIZE {
            return false;
        }
        let word = value.to_be_bytes();
        let Ok(()) = store_in_page(&mut self.pages, address, &word[4 - n as usize..]) else {
            return false;
        };
        true
    }

    /// The greatest m, at most `n`, such that each of the first m bytes from `address` on may be loaded.
    /// None of these wraps past 2^32, and none lies past user space. It takes no memory.
    pub fn readable(&self, address: u32, n: u32) -> u32
        ensures value { result ≡ readable_prefix self.now.pages address n }
        ensures within { 0 < result → address + result ≤ user_end }
        ensures bound { result ≤ n }
        ensures free { (k : ℕ) → k ≤ result → first_denied Access.Load self.now.pages address k ≡ None }
    {
        self.prefix(Access::Load, address, n)
    }

    /// The same, of bytes that may be stored to.
    pub fn writable(&self, address: u32, n: u32) -> u32
        ensures value { result ≡ writable_prefix self.now.pages address n }
        ensures within { 0 < result → address + result ≤ user_end }
        ensures bound { result ≤ n }
        ensures free { (k : ℕ) → k ≤ result → first_denied Access.Store self.now.pages address k ≡ None }
    {
        self.prefix(Access::Store, address, n)
    }

    /// Reads the bytes from `address` on into `buf`: all of them, or none with the first byte that may
    /// not be loaded. It takes no memory.
    pub fn copy_in(&self, address: u32, buf: &mut [u8]) -> Result<(), Denied>
        ensures answer { result ≡ unless_denied (first_denied Access.Load self.now.pages address (length buf.old)) tt }
        ensures ok { OnOk result (buf.new ≡ bytes_at self.now.pages address (length buf.old)) }
        ensures err { OnErr result (buf.new ≡ buf.old) }
    {
        if let Some(denied) = first_denied(&self.pages, Access::Load, address, buf.len()) {
            return Err(denied);
        }
        read_bytes(&self.pages, address, buf);
        Ok(())
    }

    /// Writes the bytes from `address` on: all of them, or none with the first byte that may not be
    /// stored to. It asks for memory only where a byte's page was not written since it was mapped, and
    /// after a refusal of that a first part of the bytes is written.
    pub fn copy_out(&mut self, address: u32, bytes: &[u8]) -> Result<(), StoreError>
        ensures ok { OnOk result (self.new ≡ copied_out self.old address bytes.now) }
        ensures err { IfErr result (λ e. LeavesPrefix e self.old self.new address bytes.now) }
        ensures answer { IsStoreAnswer (first_denied Access.Store self.old.pages address (length bytes.now))
            (are_ready self.old.pages address (length bytes.now)) result }
        ensures valid { IsValid self.new.pages }
    {
        if let Some(denied) = first_denied(&self.pages, Access::Store, address, bytes.len()) {
            return Err(StoreError::Denied(denied));
        }
        write_bytes(&mut self.pages, address, bytes)?;
        Ok(())
    }

    /// Maps `count` pages of zeros from page `first` on, with this protection (1 read, 2 write,
    /// 4 execute, added up), in place of those that are there. Full comes exactly where more than
    /// 131,072 pages would be mapped, and then nothing changes. NoPlace never comes. After NoMemory a
    /// first part of the pages was mapped.
    pub fn map(&mut self, first: u32, count: u32, protection: u8) -> Result<(), MapError>
        requires end { first + count ≤ 524280 }
        requires protection { protection ≤ 7 }
        ensures ok { OnOk result (self.new ≡ record self.old { pages = with_zeros self.old.pages first count protection }) }
        ensures full { IsErrOf result MapError.Full ↔ (page_limit < map.len (with_zeros self.old.pages first count protection)) }
        ensures err { IfErr result (λ e. LeavesMapped e self.old self.new first count protection) }
        ensures valid { IsValid self.new.pages }
    {
        if self.pages.len() + absent_pages(&self.pages, first, count) > PAGE_LIMIT {
            return Err(MapError::Full);
        }
        map_zeros(&mut self.pages, first, count, protection)?;
        Ok(())
    }

    /// Gives the pages from `first` on, at most `count` and up to the first that is absent, this
    /// protection, and answers their number (mprotect(2)).
    pub fn protect(&mut self, first: u32, count: u32, protection: u8) -> u32
        requires end { first + count ≤ 524280 }
        requires protection { protection ≤ 7 }
        ensures count { result ≡ mapped_run self.old.pages first count }
        ensures changed { self.new ≡ record self.old { pages = with_protection self.old.pages first result protection } }
        ensures valid { IsValid self.new.pages }
    {
        let run = mapped_pages(&self.pages, first, count);
        protect_pages(&mut self.pages, first, run, protection);
        run
    }

    /// Takes the pages of the range away, where they are mapped (munmap(2)). It takes no memory.
    pub fn unmap(&mut self, first: u32, count: u32)
        requires { first + count ≤ 524280 }
        ensures changed { self.new ≡ record self.old { pages = without self.old.pages first count } }
        ensures valid { IsValid self.new.pages }
    {
        unmap_pages(&mut self.pages, first, count);
    }

    /// The number of pages that are mapped from `first` on before the first absent one, at most `count`. It
    /// takes no memory.
    pub fn mapped(&self, first: u32, count: u32) -> u32
        requires { first + count ≤ 524280 }
        ensures value { result ≡ mapped_run self.now.pages first count }
        ensures bound { result ≤ count }
    {
        mapped_pages(&self.pages, first, count)
    }

    /// Whether none of the pages is mapped. It takes no memory.
    pub fn is_free(&self, first: u32, count: u32) -> bool
        requires { first + count ≤ 524280 }
        ensures { IsTrue result ↔ IsFree self.now.pages first count }
    {
        is_free(&self.pages, first, count)
    }

    /// The greatest first page of a free run of so many pages that lies between 0x10000000 and 0x70000000, and
    /// None where there is none. (The rule is this project's own; mmap(2) leaves the choice to the kernel.)
    /// It costs by the runs of mapped pages and the tables of 1024 pages, not by the single pages, and takes no
    /// memory.
    pub fn place(&self, pages: u32) -> Option<u32>
        requires { 0 < pages }
        ensures { IsGreatestPlace self.now.pages pages result }
    {
        greatest_place(&self.pages, pages)
    }

    /// Gives the range of `old` mapped pages from `first` on the size of `new` pages, and answers its first
    /// page afterwards (mremap(2)). A smaller range is cut. A greater one grows by pages of zeros with the
    /// protection of its last page: where it stands, if the pages that follow are free and lie below
    /// 0x7F7F0000; else, if it may move, at the greatest place for `new` pages. Full comes exactly where more
    /// than 131,072 pages would be mapped, NoPlace exactly where it can't grow and may not move or has no
    /// place; neither changes anything. After NoMemory nothing is promised of the pages.
    pub fn remap(&mut self, first: u32, old: u32, new: u32, may_move: bool) -> Result<u32, MapError>
        requires end { first + old ≤ 524280 }
        requires some_old { 0 < old }
        requires some_new { 0 < new }
        requires mapped { mapped_run self.old.pages first old ≡ old }
        ensures answer { IsRemapAnswer result self.old.pages self.new.pages first old new may_move }
        ensures others { self.new ≡ record self.old { pages = self.new.pages } }
        ensures valid { IsValid self.new.pages }
    {
        resize(&mut self.pages, first, old, new, may_move)
    }

    /// Makes `to` the program break, and answers the break (brk(2)). The break stays where `to` lies below
    /// the break's start or above 0x70000000, where a page to be added is mapped already, and where more than
    /// 131,072 pages would be mapped. The pages between both breaks are mapped as zeros to read and write, or
    /// taken away. After NoMemory the break stays, and nothing is promised of the pages.
    pub fn brk(&mut self, to: u32) -> Result<u32, NoMemory>
        ensures answer { IfOk result (λ now. now ≡ (with_break self.old to).program_break) }
        ensures ok { OnOk result (self.new ≡ with_break self.old to) }
        ensures err { OnErr result (self.new ≡ record self.old { pages = self.new.pages }) }
        ensures valid { IsValid self.new.pages }
    {
        self.program_break = new_break(&mut self.pages, self.break_start, self.program_break, to)?;
        Ok(self.program_break)
    }

    /// The bytes before the first that may not be used so.
    fn prefix(&self, access: Access, address: u32, n: u32) -> u32
        ensures value { result ≡ bytes_before address n (first_denied access self.now.pages address n) }
        ensures within { 0 < result → address + result ≤ user_end }
        ensures bound { result ≤ n }
        ensures free { (k : ℕ) → k ≤ result → first_denied access self.now.pages address k ≡ None }
    {
        match first_denied(&self.pages, access, address, n as usize) {
            None => n,
            Some(denied) => denied.addr - address,
        }
    }
}
