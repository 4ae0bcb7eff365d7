//! New mappings of a file: mmap(2).
ghost use Rattle.std.specs.Prelude.{◌≡◌, ◌≤◌, ◌<◌, ◌+◌, ◌*◌, ◌^◌, false, ℕ, List, Some};
ghost use Rattle.bridge_log.specs.Proceeding.{Proceeds};
ghost use Rattle.bridge_map.specs.Rows.{IsAsked, asked_for, guest_of, maps_no_file, placed};
ghost use Rattle.bridge_map.specs.Shown.{Maps, Shows};
ghost use Rattle.kernel_core.specs.FileContent.{FileContent};
ghost use Rattle.kernel_model.specs.Transfers.{file_bytes};
ghost use Rattle.mips_exec.specs.Processor.{Processor};
ghost use Rattle.o32_model.specs.Mappings.{mapped, mmap_in};
ghost use Rattle.o32_model.specs.Ranges.{page_size};
ghost use Rattle.outside.specs.Streams.{contents};

use crate::asked::{Asked, asked_in};
use crate::effects::{map, protect};
use crate::filling::{FilePart, fill};
use crate::place::place_for;
use crate::shown::refusal;
use bridge_log::Below;
use guest_space::Space;
use kernel_core::address_space::{PAGE_SIZE, PROT_READ, PROT_WRITE};
use kernel_core::{Errno, Stop};
use o32_model::{CallWords, Outcome};
use outside::{Devices, Sink, Source};

/// mmap(2) and mmap2(2) without MAP_ANONYMOUS, whose offset counts so many bytes.
pub(crate) fn mmap_file<I: Source, O: Sink, E: Sink>(
    args: &CallWords,
    unit: u32,
    space: &mut Space,
    dev: &mut Devices<I, O, E>,
    below: &mut Below,
) -> Result<Outcome, Stop>
    requires unit { unit ≤ 4096 }
    requires file { maps_no_file args.now ≡ false }
    ensures row { (processor : Processor) (left : List ℕ) → I.left dev.old.input ≡ Some left
        → Maps (mmap_in unit below.old.kernel.now (guest_of args.now processor space.old)) args.now result below.old.kernel.now below.new.kernel.now left
        (contents I.left O.written E.written dev.old) (contents I.left O.written E.written dev.new)
        space.old space.new below.old.log.now below.new.log.now }
    ensures proceeds { Proceeds I.faults O.faults E.faults result below.old below.new dev.old dev.new }
{
    match asked_in(args, unit) {
        Err(error) => Ok(Outcome::Error(error)),
        Ok(asked) => map_file(args, &asked, space, dev, below),
    }
}

/// Maps pages that begin with bytes of a file, where it may be shown and there is a place.
fn map_file<I: Source, O: Sink, E: Sink>(
    args: &CallWords,
    asked: &Asked,
    space: &mut Space,
    dev: &mut Devices<I, O, E>,
    below: &mut Below,
) -> Result<Outcome, Stop>
    requires asked { IsAsked asked.now }
    requires file { asked.now.flags.anonymous ≡ false }
    ensures row { (left : List ℕ) → I.left dev.old.input ≡ Some left
        → Maps (asked_for below.old.kernel.now.files space.old asked.now) args.now result below.old.kernel.now below.new.kernel.now left
        (contents I.left O.written E.written dev.old) (contents I.left O.written E.written dev.new)
        space.old space.new below.old.log.now below.new.log.now }
    ensures proceeds { Proceeds I.faults O.faults E.faults result below.old below.new dev.old dev.new }
{
    match refusal(asked.fd, asked.flags.kind(), asked.offset, dev, below)? {
        Some(error) => Ok(Outcome::Error(error)),
        None => map_shown(args, asked, space, dev, below),
    }
}

/// Maps pages that begin with bytes of a file that may be shown, where there is a place.
fn map_shown<I: Source, O: Sink, E: Sink>(
    args: &CallWords,
    asked: &Asked,
    space: &mut Space,
    dev: &mut Devices<I, O, E>,
    below: &mut Below,
) -> Result<Outcome, Stop>
    requires { IsAsked asked.now }
    ensures row { (left : List ℕ) → I.left dev.old.input ≡ Some left
        → (content : FileContent) → Shows below.old.kernel.now.files asked.now.fd content
        → Maps (placed space.old asked.now.flags asked.now.address asked.now.count asked.now.protection
        (file_bytes content asked.now.offset (asked.now.count * page_size)))
        args.now result below.old.kernel.now below.new.kernel.now left
        (contents I.left O.written E.written dev.old) (contents I.left O.written E.written dev.new)
        space.old space.new below.old.log.now below.new.log.now }
    ensures proceeds { Proceeds I.faults O.faults E.faults result below.old below.new dev.old dev.new }
{
    match place_for(space, asked.flags, asked.address, asked.count) {
        Err(error) => Ok(Outcome::Error(error)),
        Ok(first) => map_shown_at(args, asked, first, space, dev, below),
    }
}

/// Maps pages at a place that begin with bytes of a file. They get their protection once the bytes are there.
fn map_shown_at<I: Source, O: Sink, E: Sink>(
    args: &CallWords,
    asked: &Asked,
    first: u32,
    space: &mut Space,
    dev: &mut Devices<I, O, E>,
    below: &mut Below,
) -> Result<Outcome, Stop>
    requires asked { IsAsked asked.now }
    requires ends { first + asked.now.count ≤ 524280 }
    ensures row { (left : List ℕ) → I.left dev.old.input ≡ Some left
        → (content : FileContent) → Shows below.old.kernel.now.files asked.now.fd content
        → Maps (mapped space.old first asked.now.count asked.now.protection
        (file_bytes content asked.now.offset (asked.now.count * page_size)))
        args.now result below.old.kernel.now below.new.kernel.now left
        (contents I.left O.written E.written dev.old) (contents I.left O.written E.written dev.new)
        space.old space.new below.old.log.now below.new.log.now }
    ensures proceeds { Proceeds I.faults O.faults E.faults result below.old below.new dev.old dev.new }
{
    if !map(space, below.log, first, asked.count, PROT_READ + PROT_WRITE)? {
        return Ok(Outcome::Error(Errno::ENOMEM));
    }
    let address = first * PAGE_SIZE;
    let part = FilePart {
        fd: asked.fd,
        offset: asked.offset,
        address,
        count: asked.count * PAGE_SIZE,
    };
    fill(args, part, space, dev, below)?;
    protect(space, below.log, first, asked.count, asked.protection)?;
    Ok(Outcome::Value(address))
}
