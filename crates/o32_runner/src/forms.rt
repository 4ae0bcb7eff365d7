//! Whether a record of a turn has a form that a journal may have.
ghost use Rattle.std.specs.Prelude.{◌≡◌, ◌<◌, ◌≤◌, [], All, None, true};
ghost use Rattle.journal.specs.Form.{ArePages, AreSixWords, IsBody, IsEffect, IsRecord, end_kind, greatest_turn, idle_kind};

use kernel_core::{Bytes, Effect, Record};

/// The number of the first page behind those that an o32 program may have. (This project's own.)
const USER_PAGES: u32 = 524_280;

/// How many words a record has.
const WORDS: usize = 6;

/// The first count that no field of the journal has.
const COUNTS: usize = 1 << 32;

/// The greatest number of a turn. (This project's own.)
const GREATEST_TURN: u64 = 1_000_000_000_000;

/// The kinds of a record before an instruction, and of one of a turn without an instruction, which is the last but the end's.
const BEFORE: u8 = 1;

const IDLE: u8 = 3;

fn are_pages(first: u32, count: u32) -> bool
    ensures { result ≡ true → ArePages first count }
{
    first < USER_PAGES && count <= USER_PAGES - first
}

fn is_register(r: u8, value: u32) -> bool
    ensures { result ≡ true → IsEffect (Effect.Register r value) }
{
    1 <= r && r <= 35
}

fn is_write(address: u32, bytes: &Bytes) -> bool
    ensures { result ≡ true → IsEffect (Effect.Write address bytes.now) }
{
    bytes.len() < COUNTS
}

fn is_effect(effect: &Effect) -> bool
    ensures { result ≡ true → IsEffect effect.now }
{
    match effect {
        Effect::Register { r, value } => is_register(*r, *value),
        Effect::Write { address, bytes } => is_write(*address, bytes),
        Effect::Map { first, count, prot } => are_pages(*first, *count) && *prot <= 7,
        Effect::Unmap { first, count } => are_pages(*first, *count),
        Effect::Protect { first, count, prot } => are_pages(*first, *count) && *prot <= 7,
        Effect::Output { stream, bytes } => 1 <= *stream && *stream <= 2 && bytes.len() < COUNTS,
    }
}

fn are_effects(effects: &[Effect]) -> bool
    ensures { result ≡ true → All IsEffect effects.now }
{
    for effect in effects {
        if !is_effect(effect) {
            return false;
        }
    }
    true
}

/// Whether a turn and a kind are those of a record that is no end.
fn is_front(turn: u64, kind: u8) -> bool
    ensures { result ≡ true → (1 ≤ turn) × (turn ≤ greatest_turn) × (1 ≤ kind) × (kind < end_kind) }
{
    1 <= turn && turn <= GREATEST_TURN && BEFORE <= kind && kind <= IDLE
}

/// Whether a record of a kind may have these effects, of which a turn without an instruction has none.
fn may_have(kind: u8, effects: &[Effect]) -> bool
    ensures { result ≡ true → kind ≡ idle_kind → effects.now ≡ [] }
{
    kind != IDLE || effects.is_empty()
}

fn are_six(words: &[u32]) -> bool
    ensures { result ≡ true → AreSixWords words.now }
{
    words.len() == WORDS
}

/// Whether these are what a record of a kind has that is no end.
fn is_body(kind: u8, words: &[u32], effects: &[Effect]) -> bool
    requires some { 1 ≤ kind }
    requires before { kind < end_kind }
    ensures { result ≡ true → IsBody kind None words.now effects.now }
{
    if !are_six(words) || !may_have(kind, effects) || effects.len() >= COUNTS {
        return false;
    }
    are_effects(effects)
}

/// Whether a record is one of a turn, and not an end. Those of an emulator are; a run whose input doesn't tell what is left of it
/// is promised nothing of them, so this is looked at before one is written.
pub(crate) fn is_record(entry: &Record) -> bool
    ensures { result ≡ true → IsRecord entry.now }
{
    if entry.finish.is_some() || !is_front(entry.turn, entry.kind) {
        return false;
    }
    is_body(entry.kind, entry.words.as_slice(), entry.effects.as_slice())
}
