//! One page: its protection, and its bytes in a frame that is taken at the first write.
ghost use Rattle.std.specs.Prelude.{◌≡◌, ◌+◌, ◌≤◌, ◌<◌, length, IfOk, IfSome, IfNone, OnOk, OnErr, IsOk, slice_index, slice_range, true, false, Some};
ghost use Rattle.raw_pages.specs.Pages.{zero_page, zero_bytes, with_piece, cleared_page, put_at, IsWriteAnswer};

use crate::piece::put;
use crate::write_error::WriteError;
use raw_frame::Frame;
use std::alloc::{AllocError, Global};
use std::marker::Model;
use std::mem::replace;

/// The number of bytes of a page.
pub(crate) const PAGE_SIZE: usize = 4096;

/// A mapped page. Contracts see it as a `MappedPage` of `specs/Pages.antt`.
pub struct Page {
    protection: u8,
    frame: Frame<[u8; PAGE_SIZE]>,
}

impl Drop for Page {
    fn drop(self) {
        let Page {
            protection: _,
            frame,
        } = self;
        give_back(frame);
    }
}

impl Model for Page {
    ghost use Rattle.raw_pages.specs.Pages.{MappedPage, mapped_page_code};
    ghost use Rattle.raw_pages.specs.inside.Frames.{frame_bytes};
    ghost use Rattle.std.specs.Prelude.{is_some};

    ghost Value = { MappedPage };

    ghost coded = { mapped_page_code };

    ghost view = { λ p. record { protection = p.protection; ready = is_some p.frame.value; bytes = frame_bytes p.frame.value } };
}

impl Page {
    /// A page of zeros that was not written. It takes no memory.
    pub(crate) fn zeros(alloc: Global, protection: u8) -> Page
        ensures { result ≡ zero_page protection }
    {
        Page {
            protection,
            frame: Frame::empty(alloc),
        }
    }

    /// The protection: 1 read, 2 write, 4 execute, added up (mprotect(2)).
    pub fn protection(&self) -> u8
        ensures { result ≡ self.now.protection }
    {
        self.protection
    }

    /// Whether the page was written since it was mapped.
    pub fn is_ready(&self) -> bool
        ensures value { result ≡ self.now.ready }
        ensures zeros { result ≡ false → self.now.bytes ≡ zero_bytes }
    {
        self.frame.is_full()
    }

    /// Gives the frame back: the page is one of zeros again.
    pub(crate) fn clear(&mut self, alloc: Global)
        ensures { self.new ≡ cleared_page self.old }
    {
        give_back(replace(&mut self.frame, Frame::empty(alloc)));
    }

    pub(crate) fn protect(&mut self, protection: u8)
        ensures { self.new ≡ record self.old { protection = protection } }
    {
        self.protection = protection;
    }

    /// Reads the bytes from the place on.
    pub fn read(&self, at: usize, buf: &mut [u8])
        requires { at + length buf.old ≤ 4096 }
        ensures value { buf.new ≡ slice_range self.now.bytes at (at + length buf.old) }
        ensures whole { length self.now.bytes ≡ 4096 }
    {
        match self.frame.get() {
            Some(frame) => buf.copy_from_slice(&frame[at..at + buf.len()]),
            None => buf.fill(0),
        }
    }

    /// The bytes, where the page was written, and None exactly where it was not.
    #[inline(always)]
    pub fn bytes(&self) -> Option<&[u8; PAGE_SIZE]>
        ensures written { IfSome result (λ bytes. (self.now.ready ≡ true) × (bytes.now ≡ self.now.bytes)) }
        ensures unwritten { IfNone result (self.now.ready ≡ false) }
    {
        self.frame.get()
    }

    /// The byte at the place.
    #[inline(always)]
    pub fn byte(&self, at: usize) -> u8
        requires { at < 4096 }
        ensures value { result ≡ slice_index self.now.bytes at }
        ensures whole { length self.now.bytes ≡ 4096 }
    {
        match self.frame.get() {
            Some(frame) => frame[at],
            None => 0,
        }
    }

    /// The two bytes from the place on.
    #[inline(always)]
    pub fn half(&self, at: usize) -> [u8; 2]
        requires { at + 2 ≤ 4096 }
        ensures value { result ≡ slice_range self.now.bytes at (at + 2) }
        ensures whole { length self.now.bytes ≡ 4096 }
    {
        match self.frame.get() {
            Some(frame) => [frame[at], frame[at + 1]],
            None => [0; 2],
        }
    }

    /// The four bytes from the place on.
    #[inline(always)]
    pub fn word(&self, at: usize) -> [u8; 4]
        requires { at + 4 ≤ 4096 }
        ensures value { result ≡ slice_range self.now.bytes at (at + 4) }
        ensures whole { length self.now.bytes ≡ 4096 }
    {
        match self.frame.get() {
            Some(frame) => [frame[at], frame[at + 1], frame[at + 2], frame[at + 3]],
            None => [0; 4],
        }
    }

    /// Writes the bytes from the place on.
    #[inline(always)]
    pub(crate) fn write(&mut self, alloc: Global, at: usize, bytes: &[u8]) -> Result<(), AllocError>
        requires { at + length bytes.now ≤ 4096 }
        ensures ok { OnOk result (self.new ≡ with_piece self.old at bytes.now) }
        ensures err { OnErr result (self.new ≡ self.old) }
        ensures ready { self.old.ready ≡ true → IsOk result }
    {
        if !self.frame.is_full() {
            return self.write_first(alloc, at, bytes);
        }
        put_in_frame(self.frame.get_mut(), at, bytes);
        Ok(())
    }

    /// The first write takes the frame. It stands apart, so that later ones don't pay for its zeros.
    #[cold]
    #[inline(never)]
    fn write_first(&mut self, alloc: Global, at: usize, bytes: &[u8]) -> Result<(), AllocError>
        requires inside { at + length bytes.now ≤ 4096 }
        requires first { self.old.ready ≡ false }
        ensures ok { OnOk result (self.new ≡ with_piece self.old at bytes.now) }
        ensures err { OnErr result (self.new ≡ self.old) }
    {
        let block = first_block(alloc, at, bytes)?;
        replace(&mut self.frame, Frame::full(block)).discard();
        Ok(())
    }

    /// The same where the protection allows it.
    #[inline(always)]
    pub(crate) fn write_if_allowed(
        &mut self,
        alloc: Global,
        at: usize,
        bytes: &[u8],
    ) -> Result<(), WriteError>
        requires { at + length bytes.now ≤ 4096 }
        ensures ok { OnOk result (self.new ≡ with_piece self.old at bytes.now) }
        ensures err { OnErr result (self.new ≡ self.old) }
        ensures answer { IsWriteAnswer (Some self.old) result }
    {
        if self.protection / 2 % 2 != 1 {
            return Err(WriteError::Forbidden);
        }
        self.write(alloc, at, bytes)?;
        Ok(())
    }
}

#[inline(always)]
fn put_in_frame(frame: &mut [u8; PAGE_SIZE], at: usize, bytes: &[u8])
    requires { at + length bytes.now ≤ 4096 }
    ensures { frame.new ≡ put_at frame.old at bytes.now }
{
    put(frame.as_mut_slice(), at, bytes);
}

/// Gives the frame's block back, where there is one.
fn give_back(frame: Frame<[u8; PAGE_SIZE]>) {
    if frame.is_full() {
        drop(frame.into_box());
    } else {
        frame.discard();
    }
}

/// A block of zeros with the bytes from the place on.
#[tactic(auto, unfolding(crate::specs::Pages::zero_bytes))]
fn first_block(alloc: Global, at: usize, bytes: &[u8]) -> Result<Box<[u8; PAGE_SIZE]>, AllocError>
    requires { at + length bytes.now ≤ 4096 }
    ensures { IfOk result (λ block. block.value ≡ put_at zero_bytes at bytes.now) }
{
    let mut block = [0; PAGE_SIZE];
    put_in_frame(&mut block, at, bytes);
    Ok(Box::new(alloc, block)?)
}
