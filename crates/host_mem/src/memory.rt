//! The bytes by their addresses.
ghost use Rattle.std.specs.Prelude.{◌≡◌, ◌+◌, ◌-◌, ◌%◌, ◌++◌, [], length, replicate, IfOk, OnOk, OnErr, Some, None, option_map, if◌then◌else◌};
ghost use Rattle.std.specs.Borrow.{sem};
ghost use Rattle.host_mem.specs.Lending.{lends_bytes};
ghost use Rattle.host_mem.specs.Memory.{bytes_at, is_inside, room_from, written, padded, end_address, first_address};

use crate::part::replace_part;
use kernel_core::NoMemory;
use std::alloc::Global;
use std::marker::Model;

/// The address of the first byte. (This project's own.)
pub const FIRST_ADDRESS: u64 = 65_536;

/// What fills a gap before a structure.
const ZEROS: [u8; 8] = [0; 8];

/// Host memory, whose addresses begin at 65,536. Contracts see the list of its bytes. (What it is for is
/// this project's own: it stands for the memory of a native process.)
#[derive(Drop)]
pub struct HostMem {
    bytes: Vec<u8>,
}

impl Model for HostMem {
    ghost use Rattle.std.specs.Prelude.{ℕ, List};

    ghost Value = { List ℕ };

    ghost view = { λ m. m.bytes.items };
}

impl HostMem {
    /// Memory without a byte. It takes no memory yet, and later from `alloc`.
    pub fn new(alloc: Global) -> HostMem
        ensures empty { result ≡ [] }
    {
        HostMem {
            bytes: Vec::new(alloc),
        }
    }

    /// Adds the bytes at the next address that is a multiple of 8, with zeros before it, and gives the
    /// address. After NoMemory nothing has changed.
    pub fn push(&mut self, bytes: &[u8]) -> Result<u64, NoMemory>
        ensures ok { OnOk result (self.new ≡ padded self.old ++ bytes.now) }
        ensures address { IfOk result (λ address. address ≡ end_address (padded self.old)) }
        ensures err { OnErr result (self.new ≡ self.old) }
    {
        let padding = self.padding();
        self.bytes.reserve(padding + bytes.len())?;
        self.bytes.extend_from_slice(&ZEROS[..padding])?;
        let address = FIRST_ADDRESS + self.bytes.len() as u64;
        self.bytes.extend_from_slice(bytes)?;
        Ok(address)
    }

    /// Adds `count` zeros as [`HostMem::push`] adds bytes, and gives their address. After NoMemory nothing
    /// has changed.
    pub fn push_zeros(&mut self, count: u32) -> Result<u64, NoMemory>
        ensures ok { OnOk result (self.new ≡ padded self.old ++ replicate count 0) }
        ensures address { IfOk result (λ address. address ≡ end_address (padded self.old)) }
        ensures err { OnErr result (self.new ≡ self.old) }
    {
        let place = self.bytes.len() + self.padding();
        self.bytes.resize(place + count as usize, 0)?;
        Ok(FIRST_ADDRESS + place as u64)
    }

    /// All bytes. It takes no memory.
    pub fn as_slice(&self) -> &[u8]
        ensures { result.now ≡ self.now }
    {
        self.bytes.as_slice()
    }

    /// All bytes, to be written in place. It takes no memory.
    pub fn as_mut_slice(&mut self) -> &mut [u8]
        ensures* writes_back { sem 𝓛 (lends_bytes self.entry result) }
        ensures value { result.now ≡ self.old }
    {
        self.bytes.as_mut_slice()
    }

    /// The `len` bytes from `addr` on, or None where they are not all there. No byte is there from 65,536 up
    /// to the end, the end too. It takes no memory.
    pub fn read(&self, addr: u64, len: u64) -> Option<&[u8]>
        ensures bytes { option_map (λ bytes. bytes.now) result ≡ bytes_at self.now addr len }
    {
        let place = self.place_of(addr, len)?;
        Some(&self.bytes.as_slice()[place..place + len as usize])
    }

    /// How many bytes are there from `addr` on: 0 for an address before the first byte or past the last. It
    /// takes no memory.
    pub fn room_from(&self, addr: u64) -> u64
        ensures { result ≡ room_from self.now addr }
    {
        match addr.checked_sub(FIRST_ADDRESS) {
            Some(place) => (self.bytes.len() as u64).saturating_sub(place),
            None => 0,
        }
    }

    /// Writes the bytes from `addr` on and answers true, or changes nothing and answers false where they
    /// are not all there. It takes no memory.
    pub fn write(&mut self, addr: u64, bytes: &[u8]) -> bool
        ensures inside { result ≡ is_inside self.old addr (length bytes.now) }
        ensures written { self.new ≡ written self.old addr bytes.now }
    {
        match self.place_of(addr, bytes.len() as u64) {
            Some(place) => {
                replace_part(self.bytes.as_mut_slice(), place, bytes);
                true
            }
            None => false,
        }
    }

    /// Takes all bytes away. It takes no memory.
    pub fn clear(&mut self)
        ensures empty { self.new ≡ [] }
    {
        self.bytes.clear();
    }

    /// How many zeros stand before the next structure.
    fn padding(&self) -> usize
        ensures { result ≡ (8 - length self.now % 8) % 8 }
    {
        (8 - self.bytes.len() % 8) % 8
    }

    /// The place of the first of these bytes, where they are all there.
    fn place_of(&self, addr: u64, len: u64) -> Option<usize>
        ensures { result ≡ (if is_inside self.now addr len then Some (addr - first_address) else None) }
    {
        let place = addr.checked_sub(FIRST_ADDRESS)?;
        let room = (self.bytes.len() as u64).checked_sub(place)?;
        if len <= room {
            Some(place as usize)
        } else {
            None
        }
    }
}
