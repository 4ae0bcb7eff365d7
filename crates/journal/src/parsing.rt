//! From bytes to the journal that they are the text of.
ghost use Rattle.std.specs.Prelude.{◌≡◌, map, string_bytes, not, ◌==◌, IfOk, IfErr, OnOk, None, Ok, is_none, IfSome};
ghost use Rattle.std.specs.List.{list_any};
ghost use Rattle.std.specs.Str.{is_utf8};
ghost use Rattle.journal.specs.Text.{Kept, text_of};
ghost use Rattle.journal.specs.Form.{IsJournal};
ghost use Rattle.journal.specs.Reading.{breaks_text, text_at, many, bytes_at, counts_at, reading_of};
ghost use Rattle.journal.specs.Meaning.{kept, first_fault, GivesBy, IsCause};
ghost use Rattle.journal.specs.inside.Reads.{ReadsBy};

use crate::fields::{bytes_at, place, u32_at};
use crate::kept::Journal;
use crate::records::records_at;
use crate::refusal::{BadField, JournalError};
use crate::writing::MAGIC;
use std::alloc::Global;

/// Whether a byte is NUL.
fn has_nul(bytes: &[u8]) -> bool
    ensures { result ≡ list_any (λ byte. byte == 0) bytes.now }
{
    bytes.iter().any(|byte| *byte == 0)
}

/// The text that bytes are, where they are UTF-8.
fn utf8_text(bytes: &[u8]) -> Option<&str>
    ensures none { is_none result ≡ not (is_utf8 bytes.now) }
    ensures text { IfSome result (λ text. text.now ≡ bytes.now) }
{
    match str::from_utf8(bytes) {
        Ok(text) => Some(text),
        Err(_) => None,
    }
}

/// The text that bytes are, where they are UTF-8 without NUL.
fn text_of(bytes: &[u8]) -> Option<&str>
    ensures none { is_none result ≡ breaks_text bytes.now }
    ensures text { IfSome result (λ text. text.now ≡ bytes.now) }
{
    let text = utf8_text(bytes)?;
    if has_nul(bytes) { None } else { Some(text) }
}

#[tactic(auto, unfolding(crate::specs::Reading::text_at))]
fn text_at(alloc: Global, file: u64, rest: &[u8]) -> Result<(String, &[u8]), JournalError>
    ensures { GivesBy (λ x. (string_bytes x.0, x.1.now)) result (text_at file rest.now) }
{
    let (count, rest) = u32_at(file, rest)?;
    let at = place(file, rest);
    let (bytes, rest) = bytes_at(file, count as usize, rest)?;
    match text_of(bytes) {
        Some(text) => Ok((String::from_str(alloc, text)?, rest)),
        None => Err(JournalError::from(BadField { at })),
    }
}

fn texts_at(
    alloc: Global,
    count: u32,
    file: u64,
    rest: &[u8],
) -> Result<(Vec<String>, &[u8]), JournalError>
    ensures { GivesBy (λ x. (map string_bytes x.0.items, x.1.now)) result (many text_at count file rest.now) }
{
    let mut texts = Vec::new(alloc);
    let mut left = rest;
    for _ in 0..count {
        let (text, after) = text_at(alloc, file, left)?;
        texts.push(text)?;
        left = after;
    }
    Ok((texts, left))
}

/// The sixteen random bytes.
fn random_at(file: u64, rest: &[u8]) -> Result<([u8; 16], &[u8]), BadField>
    ensures { ReadsBy (λ x. (x.0, x.1.now)) result (bytes_at 16 file rest.now) }
{
    let (bytes, rest) = bytes_at(file, 16, rest)?;
    let mut random = [0; 16];
    random.copy_from_slice(bytes);
    Ok((random, rest))
}

/// The counts of the arguments and of the texts of the environment, behind the first bytes.
#[tactic(auto, unfolding(crate::specs::Reading::counts_at))]
fn counts_at(file: u64, bytes: &[u8]) -> Result<((u32, u32), &[u8]), BadField>
    ensures { ReadsBy (λ x. (x.0, x.1.now)) result (counts_at file bytes.now) }
{
    let (magic, rest) = bytes_at(file, MAGIC.len(), bytes)?;
    if magic != MAGIC.as_slice() {
        return Err(BadField {
            at: place(file, bytes),
        });
    }
    let at = place(file, rest);
    let (args, rest) = u32_at(file, rest)?;
    if args == 0 {
        return Err(BadField { at });
    }
    let (env, rest) = u32_at(file, rest)?;
    Ok(((args, env), rest))
}

/// What the bytes keep, or where they are bad.
#[tactic(auto, unfolding(crate::specs::Reading::reading_of))]
fn read(alloc: Global, bytes: &[u8]) -> Result<Journal<'_>, JournalError>
    ensures { GivesBy (λ x. kept x) result (reading_of bytes.now) }
{
    let file = bytes.len() as u64;
    let ((args_count, env_count), rest) = counts_at(file, bytes)?;
    let (args, rest) = texts_at(alloc, args_count, file, rest)?;
    let (env, rest) = texts_at(alloc, env_count, file, rest)?;
    let (random, rest) = random_at(file, rest)?;
    let records = records_at(file, rest)?;
    Ok(Journal {
        args,
        env,
        random,
        records,
    })
}

/// The journal whose text the bytes are, or the offset of the first field that breaks the form.
///
/// The bytes are those of a whole file, of any length. `Bad` comes exactly where the form is broken, with
/// the offset of the first byte of the first field that breaks it, or with the length of the bytes
/// where they end early. Time and memory go by the bytes that are given and not by the counts and
/// lengths that they claim. (The format is this project's own.)
pub fn parse(alloc: Global, bytes: &[u8]) -> Result<Journal<'_>, JournalError>
    // What is accepted is the text of a journal, and that journal comes.
    ensures accepted { IfOk result (λ j. IsJournal (kept j) × (bytes.now ≡ text_of (kept j))) }

    // The text of a journal is accepted, unless memory runs out.
    ensures complete { (j : Kept) → IsJournal j → bytes.now ≡ text_of j → GivesBy (λ x. kept x) result (Ok j) }

    // What comes for any bytes.
    ensures exact { GivesBy (λ x. kept x) result (reading_of bytes.now) }
    ensures sound { OnOk result (first_fault bytes.now ≡ None) }
    ensures bad { IfErr result (IsCause (first_fault bytes.now)) }
{
    read(alloc, bytes)
}

/// The text of a journal breaks no form, and says that journal.
pub fn text_is_accepted()
    ensures { (j : Kept) → IsJournal j → reading_of (text_of j) ≡ Ok j }
{}

/// A text is that of one journal alone.
pub fn text_is_of_one_journal()
    ensures { (a b : Kept) → IsJournal a → IsJournal b → text_of a ≡ text_of b → a ≡ b }
{}
