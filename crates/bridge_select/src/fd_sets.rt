//! Sets of descriptors (fd_set of select(2)): descriptor f is bit f mod 32 of word f / 32. In the program's memory a
//! word's first byte counts most, and natively its last; a native word of 64 bits is two of these, the first counting
//! least.
ghost use Rattle.std.specs.Prelude.{◌≡◌, ◌≤◌, ◌*◌, ◌^◌, ◌<◌, ℕ, List, Ok, Some, length, slice_index, OnOk};
ghost use Rattle.std.specs.List.{flat_map};
ghost use Rattle.bridge_select.specs.inside.FdSets.{fds_of};
ghost use Rattle.byteorder.specs.Endian.{IsRead, big_bytes, big_number, little_bytes, little_number};
ghost use Rattle.host_mem.specs.Memory.{bytes_at};
ghost use Rattle.kernel_model.specs.Readiness.{first_fds};
ghost use Rattle.o32_model.specs.GuestBytes.{read_as, structure};
ghost use Rattle.o32_model.specs.Selecting as o32;

use bridge_limits::load_structure;
use byteorder::{BigEndian, ByteOrder, LittleEndian};
use guest_space::Space;
use host_mem::HostMem;
use kernel_core::Errno;

/// How many words a set has: enough for the 1,024 descriptors that there are.
pub(crate) const WORDS: usize = 32;

/// The size of a word in bytes.
pub(crate) const WORD_SIZE: usize = 4;

/// The size of a set in bytes.
pub(crate) const SET_SIZE: usize = 128;

/// The words of a set.
pub(crate) type FdSet = [u32; WORDS];

/// The set of so many words in the program's memory, and 0 for the words behind them: EFAULT where one of its bytes can't
/// be loaded.
pub(crate) fn set_at(space: &Space, address: u32, words: usize) -> Result<FdSet, Errno>
    requires { words ≤ 32 }
    ensures { (fds : ℕ) → fds ≤ 32 * words
        → read_as (fds_of fds) result ≡ read_as (λ bytes. first_fds fds (o32.fds_in words bytes)) (structure space.now address (4 * words)) }
{
    let mut bytes = [0; SET_SIZE];
    let mut set = [0; WORDS];
    match load_words(
        space,
        address,
        &mut bytes[..WORD_SIZE * words],
        &mut set[..words],
    ) {
        Err(error) => Err(error),
        Ok(()) => Ok(set),
    }
}

/// Loads words from the program's memory.
fn load_words(space: &Space, address: u32, bytes: &mut [u8], words: &mut [u32]) -> Result<(), Errno>
    requires { length bytes.old ≡ 4 * length words.old }
    ensures whole { read_as (λ _. bytes.new) result ≡ structure space.now address (length bytes.old) }
    ensures words { OnOk result (IsRead big_number 4 bytes.new words.new) }
{
    load_structure(space, address, bytes)?;
    BigEndian::read_u32_into(bytes, words);
    Ok(())
}

/// The bytes of a set natively.
pub(crate) fn native_bytes(set: &FdSet) -> [u8; SET_SIZE]
    ensures bytes { result ≡ flat_map (little_bytes 4) set.now }
    ensures words { (k : ℕ) → slice_index set.now k < 2 ^ 32 }
{
    let mut bytes = [0; SET_SIZE];
    LittleEndian::write_u32_into(set, &mut bytes);
    bytes
}

/// The bytes of a set in the program's memory.
pub(crate) fn program_bytes(set: &FdSet) -> [u8; SET_SIZE]
    ensures { result ≡ flat_map (big_bytes 4) set.now }
{
    let mut bytes = [0; SET_SIZE];
    BigEndian::write_u32_into(set, &mut bytes);
    bytes
}

/// The set at a place in host memory, and an empty one where there is none.
pub(crate) fn set_in(mem: &HostMem, place: u64) -> FdSet
    ensures { (bytes : List ℕ) → bytes_at mem.now place 128 ≡ Some bytes → IsRead little_number 4 bytes result }
{
    let mut set = [0; WORDS];
    if let Some(bytes) = mem.read(place, SET_SIZE as u64) {
        LittleEndian::read_u32_into(bytes, &mut set);
    }
    set
}
