//! What a call stores of what it was shown, and what it comes to.
ghost use Rattle.std.specs.Prelude.{◌≡◌, ◌++◌, IfOk, OnOk};
ghost use Rattle.bridge_log.specs.Keeping.{EffectsLead};
ghost use Rattle.bridge_log.specs.Storing.{ending};
ghost use Rattle.bridge_wait.specs.inside.Endings.{day_ending, pieces_ending, resolution_ending, seconds_ending, time_ending};
ghost use Rattle.byteorder.specs.Endian.{big_bytes};
ghost use Rattle.o32_model.specs.Results.{all_fit, piece_unless_null, value_if, with_pieces};

use crate::clock_times::ClockTime;
use bridge_log::{put, store, store_unless_null, value_if};
use byteorder::{BigEndian, ByteOrder};
use guest_space::Space;
use kernel_core::{Errno, NoMemory};
use o32_model::{Log, Outcome};

/// How many bytes a time zone has (struct timezone of gettimeofday(2)).
const ZONE_SIZE: usize = 8;

/// clock_gettime(2), by what the clock showed.
pub(crate) fn store_time(
    shown: Result<ClockTime, Errno>,
    address: u32,
    space: &mut Space,
    log: &mut Log,
) -> Result<Outcome, NoMemory>
    ensures ends { IfOk result (λ outcome. time_ending space.old address shown ≡ ending outcome space.new) }
    ensures effects { OnOk result (EffectsLead log.old log.new space.old space.new) }
    ensures native { log.new.native ≡ log.old.native }
{
    match shown {
        Err(error) => Ok(Outcome::Error(error)),
        Ok(time) => store(address, &time.spec_bytes(), 0, space, log),
    }
}

/// clock_getres(2), by the resolution of the clock, if there is one: a null pointer stores nothing.
pub(crate) fn store_resolution(
    shown: Option<ClockTime>,
    address: u32,
    space: &mut Space,
    log: &mut Log,
) -> Result<Outcome, NoMemory>
    ensures ends { IfOk result (λ outcome. resolution_ending space.old address shown ≡ ending outcome space.new) }
    ensures effects { OnOk result (EffectsLead log.old log.new space.old space.new) }
    ensures native { log.new.native ≡ log.old.native }
{
    match shown {
        None => Ok(Outcome::Error(Errno::EINVAL)),
        Some(time) => store_unless_null(address, &time.spec_bytes(), 0, space, log),
    }
}

/// time(2), by what the clock showed: the seconds are the value, and a null pointer stores nothing.
pub(crate) fn store_seconds(
    shown: Result<ClockTime, Errno>,
    address: u32,
    space: &mut Space,
    log: &mut Log,
) -> Result<Outcome, NoMemory>
    ensures ends { IfOk result (λ outcome. seconds_ending space.old address shown ≡ ending outcome space.new) }
    ensures effects { OnOk result (EffectsLead log.old log.new space.old space.new) }
    ensures native { log.new.native ≡ log.old.native }
{
    match shown {
        Err(error) => Ok(Outcome::Error(error)),
        Ok(time) => {
            let bytes = word_bytes(time.seconds);
            store_unless_null(address, &bytes, time.seconds, space, log)
        }
    }
}

/// gettimeofday(2), by what the clock showed: the time, and then the zone, which says nothing. A null pointer
/// stores nothing.
pub(crate) fn store_day(
    shown: Result<ClockTime, Errno>,
    value: u32,
    zone: u32,
    space: &mut Space,
    log: &mut Log,
) -> Result<Outcome, NoMemory>
    ensures ends { IfOk result (λ outcome. day_ending space.old value zone shown ≡ ending outcome space.new) }
    ensures effects { OnOk result (EffectsLead log.old log.new space.old space.new) }
    ensures native { log.new.native ≡ log.old.native }
{
    match shown {
        Err(error) => Ok(Outcome::Error(error)),
        Ok(time) => store_pieces(value, &time.val_bytes(), zone, &[0; ZONE_SIZE], space, log),
    }
}

/// Bytes at one address and then others at another, each unless its address is null. EFAULT at the first that
/// can't be stored whole, and then nothing more is stored.
fn store_pieces(
    value: u32,
    first: &[u8],
    zone: u32,
    second: &[u8],
    space: &mut Space,
    log: &mut Log,
) -> Result<Outcome, NoMemory>
    ensures ends { IfOk result (λ outcome. pieces_ending space.old (piece_unless_null value first.now ++ piece_unless_null zone second.now)
        ≡ ending outcome space.new) }
    ensures effects { OnOk result (EffectsLead log.old log.new space.old space.new) }
    ensures native { log.new.native ≡ log.old.native }
{
    if !put_piece(value, first, space, log)? {
        return Ok(Outcome::Error(Errno::EFAULT));
    }
    let stored = put_piece(zone, second, space, log)?;
    Ok(value_if(stored, 0))
}

/// Writes bytes unless the address is null, and answers whether they are stored.
fn put_piece(address: u32, bytes: &[u8], space: &mut Space, log: &mut Log) -> Result<bool, NoMemory>
    ensures answer { IfOk result (λ stored. stored ≡ all_fit space.old (piece_unless_null address bytes.now)) }
    ensures stored { OnOk result (space.new ≡ with_pieces space.old (piece_unless_null address bytes.now)) }
    ensures effects { OnOk result (EffectsLead log.old log.new space.old space.new) }
    ensures native { log.new.native ≡ log.old.native }
{
    if address == 0 {
        return Ok(true);
    }
    put(space, address, bytes, log)
}

/// The bytes of a number, the first counting most.
fn word_bytes(number: u32) -> [u8; 4]
    ensures { result ≡ big_bytes 4 number }
{
    let mut bytes = [0; 4];
    BigEndian::write_u32(&mut bytes, number);
    bytes
}
