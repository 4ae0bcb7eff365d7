//! Sets of descriptors (select(2)): sixteen words of 64 bits, with a bit for each of 1,024 descriptors.
ghost use Rattle.std.specs.Prelude.{ℕ, ◌+◌, ◌*◌, ◌^◌, ◌<◌, ◌≤◌, ◌==◌, drop, length, slice_index};
ghost use Rattle.std.specs.Prelude.{◌≡◌, ◌&&◌, ◌||◌, ◌++◌, false};
ghost use Rattle.std.specs.List.{flat_map};
ghost use Rattle.host_mem.specs.Memory.{written};
ghost use Rattle.kernel_core.specs.Bits.{one_if};
ghost use Rattle.kernel_model.specs.Readiness as spec;
ghost use Rattle.layouts.specs.Number.{bytes_of, unsigned};
ghost use Rattle.native_calls.specs.HostBytes.{read_as};
ghost use Rattle.native_calls.specs.Polls.{fds_at, set_words};
ghost use Rattle.native_polls.specs.inside.FdSets.{AreWhere, Holds, fds_of, has_bit, is_ready_for, is_told, ready_fds};
ghost use Rattle.native_polls.specs.inside.FdSets.{words_bytes};
ghost use Rattle.signal_sets.specs.NativeSets.{bits_where};

use crate::readiness::Readiness;
use crate::structures::double_at;
use byteorder::{ByteOrder, LittleEndian};
use host_mem::HostMem;
use kernel_core::{Errno, PollBits};

/// How many words a set has: enough for the 1,024 descriptors that there are.
pub(crate) const WORDS: usize = 16;

const WORD_BITS: u32 = 64;

const WORD_SIZE: usize = 8;

const SET_SIZE: usize = 128;

/// The three sets of a call.
#[derive(Clone, Copy)]
pub(crate) struct FdSets {
    pub(crate) read: [u64; WORDS],
    pub(crate) write: [u64; WORDS],
    pub(crate) except: [u64; WORDS],
}

/// What a set is about.
#[derive(Clone, Copy)]
pub(crate) enum Side {
    Reading,
    Writing,
}

/// How many words the sets have of so many descriptors.
fn words_of(count: u32) -> usize
    requires { count ≤ 1024 }
    ensures words { result ≡ set_words count }
    ensures few { result ≤ 16 }
{
    (count as usize + 63) / 64
}

/// Whether a descriptor is in a set.
fn has(words: &[u64; WORDS], fd: u32) -> bool
    requires { fd < 1024 }
    ensures { result ≡ has_bit words.now fd }
{
    (words[fd as usize / 64] >> (fd % WORD_BITS)) % 2 == 1
}

/// The set in memory of which so many descriptors count, or EFAULT where it is not there. It is empty where its
/// address is null, or nothing counts: nothing is read then.
#[tactic(auto, using(crate::proofs::Read::length_read))]
pub(crate) fn set_at(mem: &HostMem, count: u32, address: u64) -> Result<[u64; WORDS], Errno>
    requires { count ≤ 1024 }
    ensures { read_as (fds_of count) result ≡ fds_at mem.now count address }
{
    if is_empty(count, address) {
        return Ok([0; WORDS]);
    }
    let words = words_of(count);
    match mem.read(address, (WORD_SIZE * words) as u64) {
        None => Err(Errno::EFAULT),
        Some(bytes) => Ok(words_in(bytes, words)),
    }
}

fn is_empty(count: u32, address: u64) -> bool
    ensures { result ≡ (count == 0 || address == 0) }
{
    count == 0 || address == 0
}

/// So many words that some bytes begin with, and 0 for the others.
fn words_in(bytes: &[u8], count: usize) -> [u64; WORDS]
    requires few { count ≤ 16 }
    requires whole { length bytes.now ≡ 8 * count }
    ensures { (k : ℕ) → k < count → slice_index result k ≡ unsigned false 8 (drop (8 * k) bytes.now) }
{
    let mut words = [0; WORDS];
    for k in 0..count {
        words[k] = double_at(bytes, WORD_SIZE * k);
    }
    words
}

/// Whether a set has a descriptor that counts and is not open.
pub(crate) fn names_closed<F: Readiness>(files: &F, count: u32, words: &[u64; WORDS]) -> bool
    requires { count ≤ 1024 }
    ensures { result ≡ spec.names_closed (F.files files.now) (fds_of count words.now) }
{
    for fd in 0..count {
        if has_closed(files, words, fd) {
            return true;
        }
    }
    false
}

/// Whether a descriptor is in a set and is not open.
fn has_closed<F: Readiness>(files: &F, words: &[u64; WORDS], fd: u32) -> bool
    requires { fd < 1024 }
    ensures { result ≡ (has_bit words.now fd && (spec.ready (F.files files.now) fd).nval) }
{
    has(words, fd) && files.ready(fd).nval()
}

/// How many descriptors of a set count.
pub(crate) fn size_of(count: u32, words: &[u64; WORDS]) -> u32
    requires { count ≤ 1024 }
    ensures size { result ≡ length (fds_of count words.now) }
    ensures few { result ≤ count }
{
    let mut size = 0;
    for fd in 0..count {
        if has(words, fd) {
            size += 1;
        }
    }
    size
}

/// The set of those descriptors of a set that count and are ready for what it is about.
pub(crate) fn ready_set<F: Readiness>(
    files: &F,
    count: u32,
    words: &[u64; WORDS],
    side: Side,
) -> [u64; WORDS]
    requires { count ≤ 1024 }
    ensures { Holds count result (ready_fds (F.files files.now) side (fds_of count words.now)) }
{
    ready_words(files, count, words, side)
}

fn ready_words<F: Readiness>(
    files: &F,
    count: u32,
    words: &[u64; WORDS],
    side: Side,
) -> [u64; WORDS]
    requires { count ≤ 1024 }
    ensures { AreWhere (is_told (F.files files.now) count words.now side) (set_words count) result }
{
    let mut ready = [0; WORDS];
    for k in 0..words_of(count) {
        ready[k] = ready_word(files, count, words, side, WORD_BITS * k as u32);
    }
    ready
}

/// The word of that set for the 64 descriptors from one on.
fn ready_word<F: Readiness>(
    files: &F,
    count: u32,
    words: &[u64; WORDS],
    side: Side,
    first: u32,
) -> u64
    requires { first + 64 ≤ 1024 }
    ensures { result ≡ bits_where (is_told (F.files files.now) count words.now side) first 64 }
{
    let mut word = 0;
    for done in 0..WORD_BITS {
        let told = is_told(files, count, words, side, first + (63 - done));
        word = with_bit(word, told);
    }
    word
}

/// A word with one more bit, which is the lowest.
fn with_bit(word: u64, bit: bool) -> u64
    requires { word < 2 ^ 63 }
    ensures { result ≡ one_if bit + 2 * word }
{
    if bit { 2 * word + 1 } else { 2 * word }
}

/// Whether a descriptor counts, is in a set and is ready.
fn is_told<F: Readiness>(files: &F, count: u32, words: &[u64; WORDS], side: Side, fd: u32) -> bool
    requires { fd < 1024 }
    ensures { result ≡ is_told (F.files files.now) count words.now side fd }
{
    fd < count && has(words, fd) && is_ready_for(side, files.ready(fd))
}

fn is_ready_for(side: Side, events: PollBits) -> bool
    ensures { result ≡ is_ready_for side events }
{
    match side {
        Side::Reading => events.input() || events.hup() || events.err(),
        Side::Writing => events.output() || events.err(),
    }
}

/// Stores the words of a set of which so many descriptors count; there is room for them where they were read,
/// and else nothing is stored.
pub(crate) fn store_set(count: u32, address: u64, words: &[u64; WORDS], mem: &mut HostMem)
    requires { count ≤ 1024 }
    ensures { mem.new ≡ written mem.old address (words_bytes count words.now) }
{
    let mut bytes = [0; SET_SIZE];
    let count = words_of(count);
    put_words(&words[..count], &mut bytes);
    let _there = mem.write(address, &bytes[..WORD_SIZE * count]);
}

/// Writes words to the first bytes.
fn put_words(words: &[u64], bytes: &mut [u8])
    requires few { length words.now ≤ 16 }
    requires room { length bytes.old ≡ 128 }
    ensures { bytes.new ≡ flat_map (bytes_of false 8) words.now ++ drop (8 * length words.now) bytes.old }
{
    for k in 0..words.len() {
        LittleEndian::write_u64(&mut bytes[WORD_SIZE * k..], words[k]);
    }
}
