//! The text of the first stack, from the stack pointer to the end of its strings.

ghost use Rattle.std.specs.Prelude.{◌≡◌, ℕ, ◌+◌, ◌-◌, ◌*◌, ◌/◌, ◌<◌, ◌≤◌, ◌++◌, ◌↔◌, length, take, map, replicate, string_bytes, vec_len, IsSome, IfSome, IsErrOf, IfOk, OnOk};
ghost use Rattle.start_stack.specs.Stack.{texts, strings, aligned, word_count, start_size, strings_at, random_at, stack_pointer, auxiliary, words, word_bytes, stack_bytes, start_limit};

use crate::error::StartError;
use crate::strings::{push_strings, room_left};
use crate::words::{push_addresses, push_word, push_words};
use elf_image::Plan;
use std::alloc::{AllocError, Global};

/// How many bytes the strings and the words of the stack may take together (this project's own).
const LIMIT: usize = 131_072;

/// Where the strings end, four bytes below the stack's end (this project's own).
const STRINGS_END: u32 = 0x7FFE_FFFC;

/// The bytes of the stack from the stack pointer to the end of the strings.
#[derive(Drop)]
pub(crate) struct StackText {
    /// The stack pointer, where the bytes begin.
    pub(crate) stack_pointer: u32,
    /// The bytes.
    pub(crate) bytes: Vec<u8>,
}

/// How many bytes of strings and how many words the stack holds.
#[derive(Clone, Copy)]
struct Sizes {
    strings: u32,
    words: u32,
}

/// Where the parts of the stack begin.
#[derive(Clone, Copy)]
struct Places {
    strings: u32,
    random: u32,
    stack_pointer: u32,
}

impl StackText {
    /// The stack's text for a program with these arguments, environment and random bytes.
    pub(crate) fn new(
        alloc: Global,
        plan: &Plan,
        args: &[String],
        env: &[String],
        random: &[u8; 16],
    ) -> Result<StackText, StartError>
        requires { 0 < length args.now }
        ensures too_long { IsErrOf result StartError.TooLong ↔ (start_limit < start_size (map string_bytes args.now) (map string_bytes env.now)) }
        ensures fits { OnOk result (start_size (map string_bytes args.now) (map string_bytes env.now) ≤ start_limit) }
        ensures end { IfOk result (λ text. text.stack_pointer + length text.bytes.items ≡ 0x7FFEFFFC) }
        ensures stack_pointer { IfOk result (λ text. text.stack_pointer ≡ stack_pointer (map string_bytes args.now) (map string_bytes env.now)) }
        ensures bytes { IfOk result (λ text. text.bytes.items ≡ stack_bytes plan.now (map string_bytes args.now) (map string_bytes env.now) random.now) }
    {
        let Some(sizes) = sizes_of(args, env) else {
            return Err(StartError::TooLong);
        };
        let places = places_of(sizes);
        let mut bytes = Vec::new(alloc);
        push_start_words(&mut bytes, plan, args, env, places)?;
        let words_end = places.stack_pointer + 4 * sizes.words;
        push_zeros(&mut bytes, places.random - words_end)?;
        bytes.extend_from_slice(random)?;
        push_zeros(&mut bytes, places.strings - (places.random + 16))?;
        push_texts(&mut bytes, args, env)?;
        Ok(StackText {
            stack_pointer: places.stack_pointer,
            bytes,
        })
    }
}

/// The sizes of strings and words, or `None` if they take more than the limit together.
fn sizes_of(args: &[String], env: &[String]) -> Option<Sizes>
    requires { 0 < length args.now }
    ensures fits { IsSome result ↔ (start_size (map string_bytes args.now) (map string_bytes env.now) ≤ start_limit) }
    ensures strings { IfSome result (λ sizes. sizes.strings ≡ length (strings (texts (map string_bytes args.now) (map string_bytes env.now)))) }
    ensures words { IfSome result (λ sizes. sizes.words ≡ word_count (map string_bytes args.now) (map string_bytes env.now)) }
{
    // The address of the last text is one of the 37 words that are no address of the lists.
    let room = room_left(args, LIMIT - 4 * 36)?;
    let room = room_left(env, room)?;
    let room = room_left(&args[..1], room)?;
    let words = args.len() + env.len() + 37;
    let strings = LIMIT - room - 4 * words;
    Some(Sizes {
        strings: strings as u32,
        words: words as u32,
    })
}

/// Where strings and words of these sizes stand.
fn places_of(sizes: Sizes) -> Places
    requires { sizes.strings + 4 * sizes.words ≤ start_limit }
    ensures strings { result.strings ≡ 0x7FFEFFFC - sizes.strings }
    ensures random { result.random ≡ aligned (result.strings - 16) }
    ensures stack_pointer { result.stack_pointer ≡ aligned (result.random - 4 * sizes.words) }
{
    let strings = STRINGS_END - sizes.strings;
    let random = align_down(strings - 16);
    let stack_pointer = align_down(random - 4 * sizes.words);
    Places {
        strings,
        random,
        stack_pointer,
    }
}

/// The greatest multiple of 16 that is at most the address.
fn align_down(address: u32) -> u32
    ensures { result ≡ aligned address }
{
    address / 16 * 16
}

/// Adds the words of the stack to `bytes`. After an error a part of them was added.
fn push_start_words(
    bytes: &mut Vec<u8>,
    plan: &Plan,
    args: &[String],
    env: &[String],
    places: Places,
) -> Result<(), AllocError>
    requires fits { start_size (map string_bytes args.now) (map string_bytes env.now) ≤ start_limit }
    requires strings { places.strings ≡ strings_at (map string_bytes args.now) (map string_bytes env.now) }
    requires random { places.random ≡ random_at (map string_bytes args.now) (map string_bytes env.now) }
    ensures { OnOk result (bytes.new.items ≡ bytes.old.items ++ word_bytes (words plan.now (map string_bytes args.now) (map string_bytes env.now))) }
{
    push_word(bytes, args.len() as u32)?;
    let env_at = push_addresses(bytes, places.strings, args)?;
    push_word(bytes, 0)?;
    let name_at = push_addresses(bytes, env_at, env)?;
    push_word(bytes, 0)?;
    push_words(bytes, &auxiliary_vector(plan, places.random, name_at))
}

/// Adds the arguments, the environment and the program's name to `bytes`. After an error a part of
/// them was added.
fn push_texts(bytes: &mut Vec<u8>, args: &[String], env: &[String]) -> Result<(), AllocError>
    requires { 0 < length args.now }
    ensures { OnOk result (bytes.new.items ≡ bytes.old.items ++ strings (texts (map string_bytes args.now) (map string_bytes env.now))) }
{
    push_strings(bytes, args)?;
    push_strings(bytes, env)?;
    push_strings(bytes, &args[..1])
}

/// The auxiliary vector, type and value in turn, with the types of `<linux/auxvec.h>`.
fn auxiliary_vector(plan: &Plan, random: u32, name: u32) -> [u32; 34]
    ensures { result ≡ auxiliary plan.now random name }
{
    [
        3, plan.phdr, 4, 32, 5, plan.phnum, 6, 4096, 7, 0, 8, 0, 9, plan.entry, 11, 0, 12, 0, 13,
        0, 14, 0, 16, 0, 17, 100, 23, 0, 25, random, 31, name, 0, 0,
    ]
}

/// Adds so many zeros to `bytes`. After an error nothing was added.
fn push_zeros(bytes: &mut Vec<u8>, count: u32) -> Result<(), AllocError>
    ensures { OnOk result (bytes.new.items ≡ bytes.old.items ++ replicate count 0) }
{
    bytes.resize(bytes.len() + count as usize, 0)
}
