//! The bytes of one page.
ghost use Rattle.std.specs.Prelude.{◌≡◌, ◌+◌, ◌-◌, ◌≤◌, ◌++◌, length, take, drop, IfOk, replicate};
ghost use Rattle.paged_bytes.specs.Pages.{page_size, zero_page, put_at};

use crate::place::PAGE_SIZE;
use crate::slices::{clear_from, put, read_part, zero_bytes};
use std::alloc::{AllocError, Global};
use std::marker::Model;

/// The 4096 bytes of a page. Contracts see the list of them.
#[derive(Drop)]
pub struct PageBytes {
    bytes: Vec<u8>,
}

impl Model for PageBytes {
    ghost use Rattle.std.specs.Prelude.{◌≡◌, ℕ, List, length};

    ghost Value = { List ℕ };

    ghost view = { λ p. p.bytes.items };

    ghost invariant = { λ p. length p.bytes.items ≡ 4096 };
}

impl PageBytes {
    /// A page of zeros.
    #[tactic(auto, unfolding(crate::specs::Pages::zero_page))]
    pub fn zeros(alloc: Global) -> Result<PageBytes, AllocError>
        ensures { IfOk result (λ page. page ≡ zero_page) }
    {
        let bytes = zero_bytes(alloc, PAGE_SIZE)?;
        Ok(PageBytes { bytes })
    }

    /// All 4096 bytes. It takes no memory.
    pub fn as_slice(&self) -> &[u8]
        ensures value { result.now ≡ self.now }
        ensures whole { length result.now ≡ page_size }
    {
        self.bytes.as_slice()
    }

    /// Reads the bytes from the place on into the whole piece, which has to end inside the page. It takes
    /// no memory.
    pub fn read(&self, place: usize, piece: &mut [u8])
        requires { place + length piece.old ≤ page_size }
        ensures part { piece.new ≡ take (length piece.old) (drop place self.now) }
        ensures whole { length self.now ≡ page_size }
    {
        read_part(self.as_slice(), place, piece);
    }

    /// Writes the piece from the place on; it has to end inside the page. It takes no memory.
    pub fn write(&mut self, place: usize, piece: &[u8])
        requires { place + length piece.now ≤ page_size }
        ensures { self.new ≡ put_at self.old place piece.now }
    {
        put(self.bytes.as_mut_slice(), place, piece);
    }

    /// Makes the bytes from the place on 0. It takes no memory.
    pub fn clear_from(&mut self, place: usize)
        requires { place ≤ page_size }
        ensures { self.new ≡ take place self.old ++ replicate (page_size - place) 0 }
    {
        clear_from(self.bytes.as_mut_slice(), place);
    }
}
