//! Writing the front of a journal, and its records.
ghost use Rattle.std.specs.Prelude.{◌≡◌, ◌<◌, ◌≤◌, ◌^◌, ◌++◌, [], ◌∷◌, length, map, All, string_bytes, OnOk, OnErr, Some, None};
ghost use Rattle.std.specs.List.{flat_map};
ghost use Rattle.byteorder.specs.Endian.{big_bytes};
ghost use Rattle.journal.specs.Text.{magic, counted, head_text, effect_text, finish_text, body_text, record_text};
ghost use Rattle.journal.specs.Form.{IsText, AreTexts, IsEffect, IsBody, IsRecord};
ghost use Rattle.journal.specs.Adding.{AddsPrefix};
ghost use Rattle.journal.specs.inside.Writing.{Adds};

use kernel_core::{Effect, Finish, NoMemory, Record};

/// The first eight bytes of a journal.
pub(crate) const MAGIC: [u8; 8] = *b"O32JRN1\n";

/// Adds the bytes of some pieces, one after the other.
fn put(out: &mut Vec<u8>, pieces: &[&[u8]]) -> Result<(), NoMemory>
    ensures { Adds (flat_map (λ piece. piece.now) pieces.now) result out.old.items out.new.items }
{
    for piece in pieces {
        out.extend_from_slice(piece)?;
    }
    Ok(())
}

/// Adds bytes with their length before them.
fn put_counted(out: &mut Vec<u8>, bytes: &[u8]) -> Result<(), NoMemory>
    requires { length bytes.now < 2 ^ 32 }
    ensures { Adds (counted bytes.now) result out.old.items out.new.items }
{
    let count = (bytes.len() as u32).to_be_bytes();
    put(out, &[count.as_slice(), bytes])
}

fn put_text(out: &mut Vec<u8>, text: &String) -> Result<(), NoMemory>
    requires { IsText (string_bytes text.now) }
    ensures { Adds (counted (string_bytes text.now)) result out.old.items out.new.items }
{
    put_counted(out, text.as_bytes())
}

fn put_texts(out: &mut Vec<u8>, texts: &[String]) -> Result<(), NoMemory>
    requires { All (λ text. IsText (string_bytes text)) texts.now }
    ensures { Adds (flat_map (λ text. counted (string_bytes text)) texts.now) result out.old.items out.new.items }
{
    for text in texts {
        put_text(out, text)?;
    }
    Ok(())
}

/// Adds the first bytes and the counts of the texts.
fn put_counts(out: &mut Vec<u8>, args: u32, env: u32) -> Result<(), NoMemory>
    ensures { Adds (magic ++ (big_bytes 4 args ++ big_bytes 4 env)) result out.old.items out.new.items }
{
    let args = args.to_be_bytes();
    let env = env.to_be_bytes();
    put(out, &[MAGIC.as_slice(), args.as_slice(), env.as_slice()])
}

/// Adds the texts of the environment, and the random bytes.
fn put_env(out: &mut Vec<u8>, env: &[String], random: [u8; 16]) -> Result<(), NoMemory>
    requires { All (λ text. IsText (string_bytes text)) env.now }
    ensures { Adds (flat_map (λ text. counted (string_bytes text)) env.now ++ random) result out.old.items out.new.items }
{
    put_texts(out, env)?;
    put(out, &[random.as_slice()])
}

fn put_all_texts(
    out: &mut Vec<u8>,
    args: &[String],
    env: &[String],
    random: [u8; 16],
) -> Result<(), NoMemory>
    requires args { All (λ text. IsText (string_bytes text)) args.now }
    requires env { All (λ text. IsText (string_bytes text)) env.now }
    ensures { Adds (flat_map (λ text. counted (string_bytes text)) args.now ++ (flat_map (λ text. counted (string_bytes text)) env.now ++ random)) result out.old.items out.new.items }
{
    put_texts(out, args)?;
    put_env(out, env, random)
}

fn put_head(
    out: &mut Vec<u8>,
    args: &[String],
    env: &[String],
    random: [u8; 16],
) -> Result<(), NoMemory>
    requires { AreTexts (map string_bytes args.now) (map string_bytes env.now) }
    ensures { Adds (head_text (map string_bytes args.now) (map string_bytes env.now) random) result out.old.items out.new.items }
{
    put_counts(out, args.len() as u32, env.len() as u32)?;
    put_all_texts(out, args, env, random)
}

/// Adds a tag, an address and bytes.
fn put_write(out: &mut Vec<u8>, address: u32, bytes: &[u8]) -> Result<(), NoMemory>
    requires { length bytes.now < 2 ^ 32 }
    ensures { Adds (effect_text (Effect.Write address bytes.now)) result out.old.items out.new.items }
{
    let address = address.to_be_bytes();
    let count = (bytes.len() as u32).to_be_bytes();
    let tag = [2];
    put(
        out,
        &[tag.as_slice(), address.as_slice(), count.as_slice(), bytes],
    )
}

fn put_output(out: &mut Vec<u8>, stream: u8, bytes: &[u8]) -> Result<(), NoMemory>
    requires { length bytes.now < 2 ^ 32 }
    ensures { Adds (effect_text (Effect.Output stream bytes.now)) result out.old.items out.new.items }
{
    let front = [6, stream];
    let count = (bytes.len() as u32).to_be_bytes();
    put(out, &[front.as_slice(), count.as_slice(), bytes])
}

fn put_register(out: &mut Vec<u8>, r: u8, value: u32) -> Result<(), NoMemory>
    ensures { Adds (effect_text (Effect.Register r value)) result out.old.items out.new.items }
{
    let front = [1, r];
    let value = value.to_be_bytes();
    put(out, &[front.as_slice(), value.as_slice()])
}

fn put_map(out: &mut Vec<u8>, first: u32, count: u32, prot: u8) -> Result<(), NoMemory>
    ensures { Adds (effect_text (Effect.Map first count prot)) result out.old.items out.new.items }
{
    put_pages(out, 3, first, count)?;
    put(out, &[[prot].as_slice()])
}

fn put_protect(out: &mut Vec<u8>, first: u32, count: u32, prot: u8) -> Result<(), NoMemory>
    ensures { Adds (effect_text (Effect.Protect first count prot)) result out.old.items out.new.items }
{
    put_pages(out, 5, first, count)?;
    put(out, &[[prot].as_slice()])
}

/// Adds a tag, a first page and a count of pages.
fn put_pages(out: &mut Vec<u8>, tag: u8, first: u32, count: u32) -> Result<(), NoMemory>
    ensures { Adds (tag ∷ big_bytes 4 first ++ big_bytes 4 count) result out.old.items out.new.items }
{
    let tag = [tag];
    let first = first.to_be_bytes();
    let count = count.to_be_bytes();
    put(out, &[tag.as_slice(), first.as_slice(), count.as_slice()])
}

fn put_effect(out: &mut Vec<u8>, effect: &Effect) -> Result<(), NoMemory>
    requires { IsEffect effect.now }
    ensures { Adds (effect_text effect.now) result out.old.items out.new.items }
{
    match effect {
        Effect::Register { r, value } => put_register(out, *r, *value),
        Effect::Write { address, bytes } => put_write(out, *address, bytes.as_slice()),
        Effect::Map { first, count, prot } => put_map(out, *first, *count, *prot),
        Effect::Unmap { first, count } => put_pages(out, 4, *first, *count),
        Effect::Protect { first, count, prot } => put_protect(out, *first, *count, *prot),
        Effect::Output { stream, bytes } => put_output(out, *stream, bytes.as_slice()),
    }
}

fn put_effects(out: &mut Vec<u8>, effects: &[Effect]) -> Result<(), NoMemory>
    requires { All IsEffect effects.now }
    ensures { Adds (flat_map effect_text effects.now) result out.old.items out.new.items }
{
    for effect in effects {
        put_effect(out, effect)?;
    }
    Ok(())
}

fn put_number(out: &mut Vec<u8>, number: u32) -> Result<(), NoMemory>
    ensures { Adds (big_bytes 4 number) result out.old.items out.new.items }
{
    let bytes = number.to_be_bytes();
    put(out, &[bytes.as_slice()])
}

fn put_words(out: &mut Vec<u8>, words: &[u32]) -> Result<(), NoMemory>
    ensures { Adds (flat_map (big_bytes 4) words.now) result out.old.items out.new.items }
{
    for word in words {
        put_number(out, *word)?;
    }
    Ok(())
}

/// Adds the count of effects, and the effects.
fn put_all_effects(out: &mut Vec<u8>, effects: &[Effect]) -> Result<(), NoMemory>
    requires few { length effects.now < 2 ^ 32 }
    requires effects { All IsEffect effects.now }
    ensures { Adds (big_bytes 4 (length effects.now) ++ flat_map effect_text effects.now) result out.old.items out.new.items }
{
    put_number(out, effects.len() as u32)?;
    put_effects(out, effects)
}

fn put_changes(out: &mut Vec<u8>, words: &[u32], effects: &[Effect]) -> Result<(), NoMemory>
    requires few { length effects.now < 2 ^ 32 }
    requires effects { All IsEffect effects.now }
    ensures { Adds (body_text None words.now effects.now) result out.old.items out.new.items }
{
    put_words(out, words)?;
    put_all_effects(out, effects)
}

/// How a run is over, as its two bytes.
fn finish_bytes(finish: Finish) -> [u8; 2]
    ensures { result ≡ finish_text finish }
{
    match finish {
        Finish::Exited(status) => [1, status],
        Finish::Killed(signal) => [2, signal],
        Finish::Budget => [3, 0],
        Finish::Blocked => [4, 0],
    }
}

fn put_finish(out: &mut Vec<u8>, finish: Finish) -> Result<(), NoMemory>
    ensures { Adds (finish_text finish) result out.old.items out.new.items }
{
    let bytes = finish_bytes(finish);
    put(out, &[bytes.as_slice()])
}

fn put_body(out: &mut Vec<u8>, entry: &Record) -> Result<(), NoMemory>
    requires { IsRecord entry.now }
    ensures { Adds (body_text entry.now.finish entry.now.words entry.now.effects) result out.old.items out.new.items }
{
    match entry.finish {
        Some(finish) => put_finish(out, finish),
        None => put_changes(out, entry.words.as_slice(), entry.effects.as_slice()),
    }
}

fn put_front(out: &mut Vec<u8>, turn: u64, kind: u8) -> Result<(), NoMemory>
    ensures { Adds (big_bytes 8 turn ++ big_bytes 1 kind) result out.old.items out.new.items }
{
    let turn = turn.to_be_bytes();
    let kind = [kind];
    put(out, &[turn.as_slice(), kind.as_slice()])
}

fn put_record(out: &mut Vec<u8>, entry: &Record) -> Result<(), NoMemory>
    requires { IsRecord entry.now }
    ensures { Adds (record_text entry.now) result out.old.items out.new.items }
{
    put_front(out, entry.turn, entry.kind)?;
    put_body(out, entry)
}

/// Adds the front of a journal to `out`: the arguments, at least one, the texts of the environment,
/// each without NUL and shorter than 2^32 bytes, and the random bytes. After `NoMemory` a first part
/// of it was added. Costs by the length of what is added. (The format is this project's own.)
pub fn head(
    args: &[String],
    env: &[String],
    random: [u8; 16],
    out: &mut Vec<u8>,
) -> Result<(), NoMemory>
    requires { AreTexts (map string_bytes args.now) (map string_bytes env.now) }
    ensures ok { OnOk result (out.new.items ≡ out.old.items ++ head_text (map string_bytes args.now) (map string_bytes env.now) random) }
    ensures err { OnErr result (AddsPrefix (head_text (map string_bytes args.now) (map string_bytes env.now) random) out.old.items out.new.items) }
{
    put_head(out, args, env, random)
}

/// Adds one record to `out`. After `NoMemory` a first part of it was added. Costs by the length of what
/// is added. (The format is this project's own.)
pub fn add(entry: &Record, out: &mut Vec<u8>) -> Result<(), NoMemory>
    requires { IsRecord entry.now }
    ensures ok { OnOk result (out.new.items ≡ out.old.items ++ record_text entry.now) }
    ensures err { OnErr result (AddsPrefix (record_text entry.now) out.old.items out.new.items) }
{
    put_record(out, entry)
}
