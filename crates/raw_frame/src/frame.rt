//! A raw pointer to a block that it owns, or null.
ghost use Rattle.std.specs.Prelude.{◌≡◌, Option, Some, None, IsSome, is_some, option_copied};
ghost use Rattle.std.specs.Coded.{coded_option};

use crate::loose::Loose;
use std::alloc::Global;
use std::marker::Model;
use std::ptr::null_mut;

/// The pointer of a block, or null where there is none. Contracts see the block's value as `value`.
///
/// A frame is never dropped: it goes by `into_box`, which gives the block back, or by `discard`,
/// which wants that there is none.
pub struct Frame<T> {
    at: *mut T,
    alloc: Global,
    pub ghost value: { Option T } by { coded_option T.code },
}

impl<T> Model for Frame<T> {
    ghost use Rattle.std.specs.contracts.impls.GlobalAllocator.TheImpl.{ghosts};
    ghost use Rattle.raw_frame.specs.Frames.{frame_owns, frame_lent};

    ghost also_owns = { λ f. frame_owns (ghosts.dealloc_token f.alloc) T.row f.at f.value };

    ghost also_shares = { λ f _ κ. frame_lent T.row f.at f.value κ };
}

impl<T> Frame<T> {
    /// A frame with no block. It takes no memory.
    pub fn empty(alloc: Global) -> Frame<T>
        ensures { result.value ≡ None }
    {
        Frame {
            at: null_mut(),
            alloc,
        }
    }

    /// The value of the block, where there is one.
    #[inline(always)]
    pub fn get(&self) -> Option<&T>
        ensures { option_copied result ≡ self.now.value }
    {
        if self.at.is_null() {
            None
        } else {
            Some(unsafe { &*self.at })
        }
    }

    /// Whether there is a block.
    #[inline(always)]
    pub fn is_full(&self) -> bool
        ensures { result ≡ is_some self.now.value }
    {
        match self.get() {
            Some(_) => true,
            None => false,
        }
    }

    /// Lets go of a frame that has no block.
    pub fn discard(self)
        requires { self.value ≡ None }
    {
        let Frame { at: _, alloc: _ } = self;
    }

    fn of_loose(block: Loose<T, Global>) -> Frame<T>
        ensures { result.value ≡ Some block.value }
    {
        let Loose { at, alloc } = block;
        Frame { at, alloc }
    }

    fn into_loose(self) -> Loose<T, Global>
        requires { IsSome self.value }
        ensures { self.value ≡ Some result.value }
    {
        let Frame { at, alloc } = self;
        Loose { at, alloc }
    }
}

impl<T> Frame<T> {
    ghost use Rattle.std.specs.Borrow.{sem};
    ghost use Rattle.std.specs.Prelude.{◌≡◌, Some, IsSome};
    ghost use Rattle.raw_frame.specs.Lends.{lends_value};

    /// The value of the block, to be written.
    #[inline(always)]
    pub fn get_mut(&mut self) -> &mut T
        requires { IsSome self.old.value }
        ensures* writes_back { sem 𝓛 (lends_value T.row self.entry result) }
        ensures value { self.old.value ≡ Some result.now }
    {
        unsafe { &mut *self.at }
    }
}

impl<T: Drop> Frame<T> {
    /// A frame that owns the box's block.
    pub fn full(block: Box<T>) -> Frame<T>
        ensures { result.value ≡ Some block.value }
    {
        Frame::of_loose(Loose::of(block))
    }

    /// The block as a box again.
    pub fn into_box(self) -> Box<T>
        requires { IsSome self.value }
        ensures { self.value ≡ Some result.value }
    {
        self.into_loose().into_box()
    }
}
