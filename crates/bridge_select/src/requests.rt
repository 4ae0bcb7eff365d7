//! What a call asks for, by its words and the program's memory: the descriptors, how long it may wait, and its mask.
ghost use Rattle.std.specs.Prelude.{◌≡◌, ℕ};
ghost use Rattle.bridge_select.specs.inside.Requests as spec;
ghost use Rattle.bridge_select.specs.inside.Requests.{asked_words, own_mask, pselect_requested, requested, requested_by, select_requested, waiting};
ghost use Rattle.layouts.specs.Number.{unsigned};
ghost use Rattle.o32_model.specs.GuestBytes.{read_as};
ghost use Rattle.o32_model.specs.Selecting as selecting;
ghost use Rattle.o32_model.specs.Words.{stack_word};

use crate::asked::Asked;
use bridge_limits::{OwnMask, TimeForm, TimePlace, load_structure, mask_at, wait_at};
use byteorder::{BigEndian, ByteOrder};
use guest_space::Space;
use kernel_core::Errno;
use o32_calls::SelectCall;
use o32_model::CallWords;

/// How many bytes the mask's address and its size have (pselect(2)).
const PAIR_SIZE: usize = 8;

/// What a call asks for, when it can be read.
#[derive(Clone, Copy)]
pub(crate) struct Request {
    pub(crate) asked: Asked,
    /// Where the time is that is left at the end.
    pub(crate) time: TimePlace,
    /// How long it may wait, in nanoseconds, and without end where this is None.
    pub(crate) wait: Option<u64>,
    pub(crate) mask: SizedMask,
}

/// A mask, and the size in bytes that the program says a set of signals has.
#[derive(Clone, Copy)]
pub(crate) struct SizedMask {
    pub(crate) mask: OwnMask,
    pub(crate) size: u32,
}

/// What the call with these words asks for: EFAULT where a word on the stack can't be read, or the pair of the mask;
/// then the error of the time.
pub(crate) fn read_request(
    call: SelectCall,
    words: &CallWords,
    space: &Space,
) -> Result<Request, Errno>
    ensures { read_as requested result ≡ requested_by call words.now space.now }
{
    match call {
        SelectCall::Newselect => select_request(words, space),
        SelectCall::Pselect6 => pselect_request(words, space),
    }
}

/// That of select(2), which has microseconds and no mask.
fn select_request(words: &CallWords, space: &Space) -> Result<Request, Errno>
    ensures { read_as requested result ≡ select_requested space.now (asked_words words.now.reg) (stack_word words.now 0) }
{
    match words.stack[0] {
        None => Err(Errno::EFAULT),
        Some(address) => {
            let form = TimeForm::Microseconds;
            timed(
                Asked::of_call(words),
                TimePlace { form, address },
                no_mask(),
                space,
            )
        }
    }
}

/// That of pselect(2), which has nanoseconds, and whose pair is read before the time.
fn pselect_request(words: &CallWords, space: &Space) -> Result<Request, Errno>
    ensures { read_as requested result ≡ pselect_requested space.now (asked_words words.now.reg) (stack_word words.now 0) (stack_word words.now 1) }
{
    match (words.stack[0], words.stack[1]) {
        (Some(address), Some(pair)) => {
            let form = TimeForm::Nanoseconds;
            masked(
                Asked::of_call(words),
                TimePlace { form, address },
                pair,
                space,
            )
        }
        _ => Err(Errno::EFAULT),
    }
}

/// By where the time and the pair of the mask are.
fn masked(asked: Asked, time: TimePlace, pair: u32, space: &Space) -> Result<Request, Errno>
    ensures { read_as requested result ≡ spec.masked space.now (spec.asked_of asked) time (selecting.mask_at space.now pair) }
{
    match pair_at(space, pair) {
        Err(error) => Err(error),
        Ok(mask) => timed(asked, time, mask, space),
    }
}

/// By where the time is.
fn timed(asked: Asked, time: TimePlace, mask: SizedMask, space: &Space) -> Result<Request, Errno>
    ensures { read_as requested result ≡ spec.timed space.now (spec.asked_of asked) time (own_mask mask) }
{
    match wait_at(space, time) {
        Err(error) => Err(error),
        Ok(wait) => Ok(Request {
            asked,
            time,
            wait,
            mask,
        }),
    }
}

/// The mask that a pair of words at an address names: its address and its size. There is none where an address is 0.
fn pair_at(space: &Space, pair: u32) -> Result<SizedMask, Errno>
    ensures { read_as own_mask result ≡ selecting.mask_at space.now pair }
{
    if pair == 0 {
        return Ok(no_mask());
    }
    let mut bytes = [0; PAIR_SIZE];
    match load_structure(space, pair, &mut bytes) {
        Err(error) => Err(error),
        Ok(()) => Ok(mask_in(&bytes, space)),
    }
}

/// The mask that the bytes of a pair name.
fn mask_in(bytes: &[u8; PAIR_SIZE], space: &Space) -> SizedMask
    ensures { own_mask result ≡ selecting.mask_of space.now bytes.now }
{
    SizedMask {
        mask: mask_at(space, BigEndian::read_u32(bytes)),
        size: BigEndian::read_u32(&bytes[4..]),
    }
}

fn no_mask() -> SizedMask
    ensures { own_mask result ≡ selecting.no_mask }
{
    SizedMask {
        mask: OwnMask::None,
        size: 0,
    }
}
