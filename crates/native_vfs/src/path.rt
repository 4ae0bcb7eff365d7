//! Paths and the targets of links, cut at slashes into components (path_resolution(7)).
ghost use Rattle.std.specs.Prelude.{◌≡◌, ◌≤◌, ◌↔◌, [], ◌∷◌, ◌++◌, false, length, IsTrue, MatchOption, IfSome, OnOk, OnErr, All};
ghost use Rattle.std.specs.List.{list_any, position};
ghost use Rattle.kernel_core.specs.PathWalk.{components, begins_with_slash, ends_with_slash};
ghost use Rattle.kernel_core.specs.ValidTree.{is_no_name_byte};
ghost use Rattle.native_vfs.specs.inside.Texts.{is_nul, is_slash, AreBytes, texts, stacked, IsTrimmed, IsLater, AreTexts};

use std::alloc::{AllocError, Global};
use std::marker::Model;

/// What a walk has still to read: a text, and those that it interrupted, of which the last one
/// comes first. No text begins with a slash, so each has a component; the one that is read is empty
/// only where nothing is left. Contracts see the components.
#[derive(Drop)]
pub(crate) struct Rest<'a> {
    text: &'a [u8],
    later: Vec<&'a [u8]>,
}

impl<'a> Model for Rest<'a> {
    ghost use Rattle.std.specs.Prelude.{List, ℕ, ◌++◌};
    ghost use Rattle.kernel_core.specs.PathWalk.{components};
    ghost use Rattle.native_vfs.specs.inside.Texts.{texts, stacked, AreTexts};

    ghost Value = { List (List ℕ) };

    ghost view = { λ r. components r.text.now ++ stacked (texts r.later.items) };

    ghost invariant = { λ r. AreTexts r.text.now (texts r.later.items) };
}

impl<'a> Rest<'a> {
    /// The components of a path. It takes no memory.
    pub(crate) fn new(alloc: Global, path: &'a [u8]) -> Rest<'a>
        requires { list_any is_nul path.now ≡ false }
        ensures { result ≡ components path.now }
    {
        Rest {
            text: without_slashes(path),
            later: Vec::new(alloc),
        }
    }

    /// Whether no component is left.
    pub(crate) fn is_empty(&self) -> bool
        ensures { IsTrue result ↔ (self.now ≡ []) }
    {
        self.text.is_empty()
    }

    /// Takes the first component, or None where none is left.
    pub(crate) fn next_component(&mut self) -> Option<&'a [u8]>
        ensures taken { MatchOption result (self.old ≡ [])
            (λ name. self.old ≡ name.now ∷ self.new) }
        ensures plain { IfSome result (λ name. list_any is_no_name_byte name.now ≡ false) }
        ensures bytes { IfSome result (λ name. AreBytes name.now) }
    {
        if self.text.is_empty() {
            return None;
        }
        let (name, after) = split_name(self.text);
        self.text = resume(after, &mut self.later);
        Some(name)
    }

    /// Puts the components of a link's target before those that are left.
    pub(crate) fn put_before(&mut self, target: &'a [u8]) -> Result<(), AllocError>
        requires { list_any is_nul target.now ≡ false }
        ensures { OnOk result (self.new ≡ components target.now ++ self.old) }
    {
        let target = without_slashes(target);
        if target.is_empty() {
            return Ok(());
        }
        interrupt(self.text, &mut self.later)?;
        self.text = target;
        Ok(())
    }
}

/// The text to read next: what is left of this one, or else the one that it interrupted.
fn resume<'a>(left: &'a [u8], later: &mut Vec<&'a [u8]>) -> &'a [u8]
    requires left { IsTrimmed left.now }
    requires later { All IsLater (texts later.old.items) }
    ensures same { components result.now ++ stacked (texts later.new.items)
        ≡ components left.now ++ stacked (texts later.old.items) }
    ensures valid { AreTexts result.now (texts later.new.items) }
{
    if !left.is_empty() {
        return left;
    }
    later.pop().unwrap_or(left)
}

/// Keeps the text for later, where something is left of it.
fn interrupt<'a>(text: &'a [u8], later: &mut Vec<&'a [u8]>) -> Result<(), AllocError>
    requires { AreTexts text.now (texts later.old.items) }
    ensures ok { OnOk result (stacked (texts later.new.items)
        ≡ components text.now ++ stacked (texts later.old.items)) }
    ensures err { OnErr result (later.new.items ≡ later.old.items) }
    ensures later { All IsLater (texts later.new.items) }
{
    if text.is_empty() {
        return Ok(());
    }
    later.push(text)?;
    Ok(())
}

/// Whether the text begins with a slash.
pub(crate) fn begins_with_slash(text: &[u8]) -> bool
    ensures { result ≡ begins_with_slash text.now }
{
    matches!(text, [b'/', ..])
}

/// Whether the text, a path or the target of a link, ends with a slash (path_resolution(7)). What a call
/// does with a name that is not there depends on it.
pub fn ends_with_slash(text: &[u8]) -> bool
    ensures { result ≡ ends_with_slash text.now }
{
    match text.split_last() {
        Some((last, _)) => *last == b'/',
        None => false,
    }
}

/// The text without the slashes at its beginning.
fn without_slashes(text: &[u8]) -> &[u8]
    ensures same { components result.now ≡ components text.now }
    ensures begins { begins_with_slash result.now ≡ false }
    ensures plain { list_any is_nul text.now ≡ false → list_any is_nul result.now ≡ false }
{
    let mut rest = text;
    while let [b'/', after @ ..] = rest {
        rest = after;
    }
    rest
}

/// The first component of a text that begins with one, and the text after it and its slashes.
fn split_name(text: &[u8]) -> (&[u8], &[u8])
    requires some { 1 ≤ length text.now }
    requires begins { begins_with_slash text.now ≡ false }
    requires plain { list_any is_nul text.now ≡ false }
    ensures first { components text.now ≡ result.0.now ∷ components result.1.now }
    ensures name { list_any is_no_name_byte result.0.now ≡ false }
    ensures bytes { AreBytes result.0.now }
    ensures begins { begins_with_slash result.1.now ≡ false }
    ensures plain { list_any is_nul result.1.now ≡ false }
{
    let end = first_slash(text).unwrap_or(text.len());
    let (name, after) = text.split_at(end);
    (name, without_slashes(after))
}

/// Where the first slash stands.
fn first_slash(text: &[u8]) -> Option<usize>
    ensures { result ≡ position is_slash text.now }
{
    text.iter().position(|byte| *byte == b'/')
}
