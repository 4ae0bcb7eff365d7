//! Scripts: calls that a program makes one after the other, and what each gives.
//!
//!     open '/f o_rdwr = 3            a call, its arguments, and its result
//!     open '/none ! enoent           the same, with its error
//!     show room + 24 4 : 000081A4    so many bytes from an address on are these
//!
//! Arguments that are left out are 0. A word behind `+` or `-` is added to the argument before it, or taken from it.
use crate::numbers::value;
use crate::reading::push_bytes;
use std::alloc::Global;
use std::test::Fail;

/// What a call gives.
#[derive(Clone, Copy)]
pub enum Gives {
    /// A result.
    Value(u32),
    /// An error, by its number.
    Error(u32),
}

/// A call.
#[derive(Clone, Copy)]
pub struct Call {
    /// Its number.
    pub number: u32,
    /// Its arguments.
    pub words: [u32; 6],
    /// What it gives.
    pub gives: Gives,
}

/// What a script says.
#[derive(Drop)]
pub struct Script {
    /// Its calls.
    pub calls: Vec<Call>,
    /// What they write to standard output.
    pub out: Vec<u8>,
}

/// What is done with the next argument.
#[derive(Clone, Copy)]
enum Joining {
    New,
    Add,
    Take,
}

/// A call that is read up to an argument.
#[derive(Clone, Copy)]
struct Begun {
    number: u32,
    words: [u32; 6],
    /// How many arguments have been read.
    count: usize,
    joining: Joining,
}

/// What the next word of a script is.
#[derive(Clone, Copy)]
enum Next {
    Name,
    Argument(Begun),
    Value(Begun),
    Error(Begun),
    Bytes(Begun),
}

/// write(2).
const WRITE: u32 = 4004;

/// A call with no argument.
fn call_of(number: u32) -> Begun {
    Begun {
        number,
        words: [0; 6],
        count: 0,
        joining: Joining::New,
    }
}

/// What stands behind the name of a call: arguments. Bytes that are shown are written to standard output.
fn begin(word: &str) -> Result<Next, Fail> {
    if word == "show" {
        return Ok(Next::Argument(with_next(call_of(WRITE), 1)));
    }
    let number = value(word).ok_or("no call")?;
    Ok(Next::Argument(call_of(number)))
}

/// A call with one argument more, where it has fewer than six.
fn with_next(begun: Begun, number: u32) -> Begun {
    let mut begun = begun;
    if begun.count < 6 {
        begun.words[begun.count] = number;
        begun.count += 1;
    }
    begun
}

/// A call with a number added to its last argument.
fn with_sum(begun: Begun, number: u32) -> Begun {
    let mut begun = begun;
    if begun.count > 0 && begun.count <= 6 {
        let place = begun.count - 1;
        begun.words[place] = begun.words[place].wrapping_add(number);
    }
    begun
}

/// A call whose next argument is joined so.
fn joined_by(begun: Begun, joining: Joining) -> Begun {
    let mut begun = begun;
    begun.joining = joining;
    begun
}

/// A call with a number as its next argument, or joined to the last.
fn with(begun: Begun, number: u32) -> Begun {
    let begun = match begun.joining {
        Joining::New => with_next(begun, number),
        Joining::Add => with_sum(begun, number),
        Joining::Take => with_sum(begun, 0u32.wrapping_sub(number)),
    };
    joined_by(begun, Joining::New)
}

/// Takes an argument, or what stands behind the last one.
fn go_on(begun: Begun, word: &str) -> Result<Next, Fail> {
    match word {
        "=" => Ok(Next::Value(begun)),
        "!" => Ok(Next::Error(begun)),
        ":" => Ok(Next::Bytes(begun)),
        "+" => Ok(Next::Argument(joined_by(begun, Joining::Add))),
        "-" => Ok(Next::Argument(joined_by(begun, Joining::Take))),
        _ => {
            let number = value(word).ok_or("no argument")?;
            Ok(Next::Argument(with(begun, number)))
        }
    }
}

/// Puts a call behind others that gives this. A name comes next.
fn push_call(calls: &mut Vec<Call>, begun: Begun, gives: Gives) -> Result<Next, Fail> {
    let words = begun.words;
    let number = begun.number;
    calls.push(Call {
        number,
        words,
        gives,
    })?;
    Ok(Next::Name)
}

/// Takes the next word, and tells what the one behind it is.
fn read_word(script: &mut Script, next: Next, word: &str) -> Result<Next, Fail> {
    match next {
        Next::Name => begin(word),
        Next::Argument(begun) => go_on(begun, word),
        Next::Value(begun) => {
            let number = value(word).ok_or("no value")?;
            push_call(&mut script.calls, begun, Gives::Value(number))
        }
        Next::Error(begun) => {
            let number = value(word).ok_or("no error")?;
            push_call(&mut script.calls, begun, Gives::Error(number))
        }
        Next::Bytes(begun) => {
            push_bytes(&mut script.out, word)?;
            push_call(&mut script.calls, begun, Gives::Value(begun.words[2]))
        }
    }
}

/// Reads the words of a text.
fn read_words(script: &mut Script, text: &str) -> Result<(), Fail> {
    let mut next = Next::Name;
    for word in text.split_whitespace() {
        next = read_word(script, next, word)?;
    }
    match next {
        Next::Name => Ok(()),
        _ => Err(Fail::from("a call is cut off")),
    }
}

/// Reads a script.
pub fn read(alloc: Global, text: &str) -> Result<Script, Fail> {
    let mut script = Script {
        calls: Vec::new(alloc),
        out: Vec::new(alloc),
    };
    read_words(&mut script, text)?;
    Ok(script)
}
