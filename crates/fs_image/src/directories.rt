//! Reading a directory's entries, and a link's target.
ghost use Rattle.std.specs.Prelude.{◌≡◌, ◌≤◌, ◌^◌, ◌==◌, [], ◌∷◌, ◌++◌, IfOk, ◌||◌, false};
ghost use Rattle.std.specs.List.{list_any};
ghost use Rattle.kernel_core.specs.ValidTree.{is_dots, is_no_name_byte};
ghost use Rattle.fs_image.specs.Reading.{last_cookie, breaks_cookie, breaks_name, entry_at, many, dir_at, link_at};
ghost use Rattle.fs_image.specs.inside.Names.{AreNames};
ghost use Rattle.fs_image.specs.Meaning.{GivesBy};

use crate::fields::{bytes_at, place, refused, rises, u8_at, u16_at, u32_at, u64_at};
use crate::names::take_name;
use crate::refusal::{ImageError, ImageRule};
use kernel_core::limits::{ENTRY_LIMIT, GREATEST_COOKIE, LONGEST_TARGET};
use kernel_core::{Bytes, DirEntry, Items, Kind};
use std::alloc::{AllocError, Global};
use std::collections::HashSet;

fn last_cookie(entries: &[DirEntry]) -> Option<u32>
    ensures { result ≡ last_cookie entries.now }
{
    entries.last().map(|entry| entry.cookie)
}

/// Whether a cookie is none, or does not rise.
fn breaks_cookie(before: Option<u32>, cookie: u32) -> bool
    ensures { result ≡ breaks_cookie before cookie }
{
    cookie < 3 || cookie > GREATEST_COOKIE || !rises(before, cookie)
}

/// Whether a byte is `/` or NUL.
fn has_no_name_byte(name: &[u8]) -> bool
    ensures { result ≡ list_any is_no_name_byte name.now }
{
    name.iter().any(|byte| *byte == b'/' || *byte == 0)
}

/// Whether these bytes are no name.
fn is_no_name(name: &[u8]) -> bool
    ensures { result ≡ (is_dots name.now || list_any is_no_name_byte name.now) }
{
    name == b".".as_slice() || name == b"..".as_slice() || has_no_name_byte(name)
}

/// Whether a byte is NUL.
fn has_nul(target: &[u8]) -> bool
    ensures { result ≡ list_any (λ byte. byte == 0) target.now }
{
    target.iter().any(|byte| *byte == 0)
}

/// Whether a name breaks its rule behind those before, which it joins otherwise.
fn breaks_name<'a>(
    before: &[DirEntry],
    names: &mut HashSet<&'a [u8]>,
    name: &'a [u8],
) -> Result<bool, AllocError>
    requires { AreNames names.old before.now }
    ensures breaks { IfOk result (λ breaks. breaks ≡ breaks_name before.now name.now) }
    ensures names { IfOk result (λ breaks. breaks ≡ false → (entry : DirEntry) → entry.name ≡ name.now
        → AreNames names.new (before.now ++ entry ∷ [])) }
{
    if is_no_name(name) {
        return Ok(true);
    }
    let is_new = take_name(names, name)?;
    Ok(!is_new)
}

/// An entry behind those before; its name joins theirs.
#[tactic(auto, unfolding(crate::specs::Reading::entry_at))]
fn entry_at<'a>(
    alloc: Global,
    before: &[DirEntry],
    names: &mut HashSet<&'a [u8]>,
    file: u64,
    rest: &'a [u8],
) -> Result<(DirEntry, &'a [u8]), ImageError>
    requires { AreNames names.old before.now }
    ensures entry { GivesBy (λ x. (x.0, x.1.now)) result (entry_at before.now file rest.now) }
    ensures names { IfOk result (λ x. AreNames names.new (before.now ++ x.0 ∷ [])) }
{
    let at = place(file, rest);
    let (cookie, rest) = u32_at(file, rest)?;
    if breaks_cookie(last_cookie(before), cookie) {
        return Err(refused(ImageRule::Cookie, at));
    }
    let at = place(file, rest);
    let (count, rest) = u8_at(file, rest)?;
    if count == 0 {
        return Err(refused(ImageRule::Name, at));
    }
    let at = place(file, rest);
    let (name, rest) = bytes_at(file, usize::from(count), rest)?;
    if breaks_name(before, names, name)? {
        return Err(refused(ImageRule::Name, at));
    }
    let (node, rest) = u64_at(file, rest)?;
    let name = Bytes::from(Vec::from_slice(alloc, name)?);
    Ok((DirEntry { cookie, name, node }, rest))
}

fn entries_at<'a>(
    alloc: Global,
    count: u32,
    file: u64,
    rest: &'a [u8],
) -> Result<(Vec<DirEntry>, &'a [u8]), ImageError>
    ensures { GivesBy (λ x. (x.0.items, x.1.now)) result (many entry_at count [] file rest.now) }
{
    let mut entries = Vec::new(alloc);
    let mut names = HashSet::new(alloc);
    let mut left = rest;
    for _ in 0..count {
        let (entry, after) = entry_at(alloc, entries.as_slice(), &mut names, file, left)?;
        entries.push(entry)?;
        left = after;
    }
    Ok((entries, left))
}

/// What stands behind the front of a directory. `entries` is the number of entries of the
/// directories before.
#[tactic(auto, unfolding(crate::specs::Reading::dir_at))]
pub(crate) fn dir_at<'a>(
    alloc: Global,
    entries: u64,
    file: u64,
    rest: &'a [u8],
) -> Result<(Kind, &'a [u8]), ImageError>
    requires { entries ≤ 2 ^ 32 }
    ensures { GivesBy (λ x. (x.0, x.1.now)) result (dir_at entries file rest.now) }
{
    let at = place(file, rest);
    let (count, rest) = u32_at(file, rest)?;
    if entries + u64::from(count) > u64::from(ENTRY_LIMIT) {
        return Err(refused(ImageRule::Limit, at));
    }
    let (held, rest) = entries_at(alloc, count, file, rest)?;
    let entries = Items::from(held);
    Ok((Kind::Dir { entries }, rest))
}

/// What stands behind the front of a link.
#[tactic(auto, unfolding(crate::specs::Reading::link_at))]
pub(crate) fn link_at(alloc: Global, file: u64, rest: &[u8]) -> Result<(Kind, &[u8]), ImageError>
    ensures { GivesBy (λ x. (x.0, x.1.now)) result (link_at file rest.now) }
{
    let at = place(file, rest);
    let (count, rest) = u16_at(file, rest)?;
    if count == 0 || usize::from(count) > LONGEST_TARGET {
        return Err(refused(ImageRule::Name, at));
    }
    let at = place(file, rest);
    let (target, rest) = bytes_at(file, usize::from(count), rest)?;
    if has_nul(target) {
        return Err(refused(ImageRule::Name, at));
    }
    let target = Bytes::from(Vec::from_slice(alloc, target)?);
    Ok((Kind::Link { target }, rest))
}
