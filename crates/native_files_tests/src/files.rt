//! The calls of `Files` with ample memory: descriptors, their duplicates and flags, pipes, and the terminal.
//!
//!     duplicate 0 10 on = 10    a call, its arguments, and its answer
//!     pipe off on = 3 5         a new pipe, whose answer is its read end and its write end
//!     close 3 ! ebadf           a call and its error
//!
//! A call that answers no number has the answer 0. An argument that could not be made out is `none`, and a switch that could not be
//! read is `fault`.

use kernel_model::{TerminalSettings, Winsize};
use native_files::{CoreError, Errno, Files, PipeFlags};
use native_scripts::Words;
use native_scripts::trees::{EMPTY_TREE, tree_of};
use std::alloc::Global;
use std::test::Fail;

/// A call.
#[derive(Clone, Copy)]
enum Call {
    Close(u32),
    Duplicate(u32, Option<u32>, bool),
    Onto(u32, u32),
    OntoWith(u32, u32, Option<bool>),
    Pipe(Option<PipeFlags>),
    /// Whether the descriptor is closed on execve(2), as 1 or 0.
    IsCloseOnExec(u32),
    SetCloseOnExec(u32, bool),
    /// 1 for O_APPEND, and 2 for O_NONBLOCK.
    Flags(u32),
    SetFlags(u32, bool, bool),
    SetNonblock(u32, Result<bool, Errno>),
    Sync(u32),
    /// How many rows the terminal's window has.
    Rows(u32),
    /// The line discipline of the terminal's settings.
    Line(u32),
    /// Sets the settings to those there are with another line discipline.
    SetLine(u32, u8),
    /// Settings that could not be read.
    SetUnreadable(u32),
    /// 1 for POLLIN, 2 for POLLOUT, 4 for POLLERR, 8 for POLLHUP and 16 for POLLNVAL.
    Ready(u32),
}

/// What a call gives.
#[derive(Clone, Copy, PartialEq, Eq)]
enum Given {
    Number(u32),
    /// The read end and the write end of a pipe.
    Ends(u32, u32),
}

type Answer = Result<Given, Errno>;

fn number(number: u32) -> Answer {
    Ok(Given::Number(number))
}

fn answer(files: &mut Files, call: Call) -> Answer {
    match call {
        Call::Close(fd) => done(files.close(fd)),
        Call::Duplicate(fd, from, cloexec) => number(files.duplicate(fd, from, cloexec)?),
        Call::Onto(fd, onto) => number(files.duplicate_onto(fd, onto)?),
        Call::OntoWith(fd, onto, cloexec) => number(files.duplicate_onto_with(fd, onto, cloexec)?),
        Call::Pipe(flags) => pipe(files, flags),
        Call::IsCloseOnExec(fd) => number(u32::from(files.close_on_exec(fd)?)),
        Call::SetCloseOnExec(fd, on) => done(files.set_close_on_exec(fd, on)),
        Call::Flags(fd) => {
            let flags = files.status_flags(fd)?;
            number(u32::from(flags.append()) + 2 * u32::from(flags.nonblock()))
        }
        Call::SetFlags(fd, append, nonblock) => done(files.set_status_flags(fd, append, nonblock)),
        Call::SetNonblock(fd, on) => done(files.set_nonblock(fd, on)),
        _ => content_answer(files, call),
    }
}

fn content_answer(files: &mut Files, call: Call) -> Answer {
    match call {
        Call::Sync(fd) => done(files.sync(fd)),
        Call::Rows(fd) => number(u32::from(files.window_size(fd)?.rows)),
        Call::Line(fd) => number(u32::from(files.terminal_settings(fd)?.line)),
        Call::SetLine(fd, line) => {
            let settings = files.terminal_settings(fd)?;
            done(files.set_terminal_settings(fd, Ok(with_line(settings, line))))
        }
        Call::Ready(fd) => number(events(files, fd)),
        Call::SetUnreadable(fd) => done(files.set_terminal_settings(fd, Err(Errno::EFAULT))),
        _ => Err(Errno::ENOSYS),
    }
}

fn events(files: &Files, fd: u32) -> u32 {
    let ready = files.ready(fd);
    u32::from(ready.input())
        + 2 * u32::from(ready.output())
        + 4 * u32::from(ready.err())
        + 8 * u32::from(ready.hup())
        + 16 * u32::from(ready.nval())
}

fn with_line(settings: TerminalSettings, line: u8) -> TerminalSettings {
    TerminalSettings {
        input: settings.input,
        output: settings.output,
        control: settings.control,
        local: settings.local,
        line,
        characters: settings.characters,
    }
}

fn done(answer: Result<(), Errno>) -> Answer {
    match answer {
        Ok(()) => number(0),
        Err(error) => Err(error),
    }
}

fn pipe(files: &mut Files, flags: Option<PipeFlags>) -> Answer {
    match files.make_pipe(flags) {
        Ok(ends) => Ok(Given::Ends(ends.read, ends.write)),
        Err(CoreError::Refused(error)) => Err(error),
        Err(CoreError::Stop(_)) => Err(Errno::ENOMEM),
    }
}

/// A descriptor, or another number.
fn descriptor(words: &mut Words) -> Result<u32, Fail> {
    Ok(u32::try_from(words.number()?)?)
}

/// The same, or `none`.
fn descriptor_or_none(words: &mut Words) -> Result<Option<u32>, Fail> {
    if words.next_is("none") {
        return Ok(None);
    }
    Ok(Some(descriptor(words)?))
}

/// Whether something is on.
fn switch(words: &mut Words) -> Result<bool, Fail> {
    let word = words.next()?;
    if word == "on" {
        Ok(true)
    } else if word == "off" {
        Ok(false)
    } else {
        Err(Fail::from("neither on nor off"))
    }
}

/// The same, or `none`.
fn switch_or_none(words: &mut Words) -> Result<Option<bool>, Fail> {
    if words.next_is("none") {
        return Ok(None);
    }
    Ok(Some(switch(words)?))
}

/// The same, or `fault`.
fn switch_or_fault(words: &mut Words) -> Result<Result<bool, Errno>, Fail> {
    if words.next_is("fault") {
        return Ok(Err(Errno::EFAULT));
    }
    Ok(Ok(switch(words)?))
}

/// Whether the descriptors are closed on execve(2), and whether the ends do not wait; or `none`.
fn pipe_flags(words: &mut Words) -> Result<Option<PipeFlags>, Fail> {
    if words.next_is("none") {
        return Ok(None);
    }
    let cloexec = switch(words)?;
    let nonblock = switch(words)?;
    Ok(Some(PipeFlags { cloexec, nonblock }))
}

/// A call that makes a descriptor.
fn making(name: &str, words: &mut Words) -> Result<Call, Fail> {
    if name == "pipe" {
        return Ok(Call::Pipe(pipe_flags(words)?));
    }
    let fd = descriptor(words)?;
    if name == "duplicate" {
        let from = descriptor_or_none(words)?;
        Ok(Call::Duplicate(fd, from, switch(words)?))
    } else if name == "onto" {
        Ok(Call::Onto(fd, descriptor(words)?))
    } else if name == "onto_with" {
        let onto = descriptor(words)?;
        Ok(Call::OntoWith(fd, onto, switch_or_none(words)?))
    } else {
        changing(name, fd, words)
    }
}

/// A call that changes a descriptor, or what it has open.
fn changing(name: &str, fd: u32, words: &mut Words) -> Result<Call, Fail> {
    if name == "close" {
        Ok(Call::Close(fd))
    } else if name == "set_close_on_exec" {
        Ok(Call::SetCloseOnExec(fd, switch(words)?))
    } else if name == "set_flags" {
        let append = switch(words)?;
        Ok(Call::SetFlags(fd, append, switch(words)?))
    } else if name == "set_nonblock" {
        Ok(Call::SetNonblock(fd, switch_or_fault(words)?))
    } else if name == "set_line" {
        Ok(Call::SetLine(fd, u8::try_from(words.number()?)?))
    } else if name == "set_unreadable" {
        Ok(Call::SetUnreadable(fd))
    } else {
        Ok(asking(name, fd).ok_or("no call")?)
    }
}

/// A call that asks for something.
fn asking(name: &str, fd: u32) -> Option<Call> {
    if name == "is_close_on_exec" {
        Some(Call::IsCloseOnExec(fd))
    } else if name == "flags" {
        Some(Call::Flags(fd))
    } else if name == "sync" {
        Some(Call::Sync(fd))
    } else if name == "rows" {
        Some(Call::Rows(fd))
    } else if name == "line" {
        Some(Call::Line(fd))
    } else if name == "ready" {
        Some(Call::Ready(fd))
    } else {
        None
    }
}

/// An error by its name.
fn error(word: &str) -> Option<Errno> {
    if word == "ebadf" {
        Some(Errno::EBADF)
    } else if word == "efault" {
        Some(Errno::EFAULT)
    } else if word == "einval" {
        Some(Errno::EINVAL)
    } else if word == "emfile" {
        Some(Errno::EMFILE)
    } else if word == "enotty" {
        Some(Errno::ENOTTY)
    } else {
        None
    }
}

/// The answer that stands behind a call.
fn expected(words: &mut Words) -> Result<Answer, Fail> {
    if words.next_is("!") {
        return Ok(Err(error(words.next()?).ok_or("no error")?));
    }
    if !words.next_is("=") {
        return Err(Fail::from("no answer"));
    }
    let first = descriptor(words)?;
    if words.is_over() {
        return Ok(Ok(Given::Number(first)));
    }
    Ok(Ok(Given::Ends(first, descriptor(words)?)))
}

/// Whether a call answers as its line says.
fn is_right(files: &mut Files, words: &mut Words) -> Result<bool, Fail> {
    let name = words.next()?;
    let call = making(name, words)?;
    let expected = expected(words)?;
    if !words.is_over() {
        return Err(Fail::from("a word too many"));
    }
    Ok(answer(files, call) == expected)
}

/// The line of the first call that does not answer so, counted from 0.
fn first_wrong(alloc: Global, files: &mut Files, text: &str) -> Result<Option<usize>, Fail> {
    let mut place: usize = 0;
    for line in text.lines() {
        let words: Vec<&str> = line.split_whitespace().collect(alloc)?;
        if !words.is_empty() && !is_right(files, &mut Words::new(words.as_slice()))? {
            return Ok(Some(place));
        }
        place = place.saturating_add(1);
    }
    Ok(None)
}

fn new_files(alloc: Global, terminal: Option<Winsize>) -> Result<Files, Fail> {
    match Files::new(alloc, tree_of(alloc, EMPTY_TREE)?, terminal) {
        Ok(files) => Ok(files),
        Err(_) => Err(Fail::from("no memory")),
    }
}

/// The same of new files with an empty tree.
fn first_wrong_of_new(
    alloc: Global,
    terminal: Option<Winsize>,
    text: &str,
) -> Result<Option<usize>, Fail> {
    let mut files = new_files(alloc, terminal)?;
    first_wrong(alloc, &mut files, text)
}

const DESCRIPTORS_AND_FLAGS: &str = "
    duplicate 0 0 off = 3
    duplicate 0 10 on = 10
    is_close_on_exec 10 = 1
    is_close_on_exec 3 = 0
    duplicate 7 0 off ! ebadf
    duplicate 0 none off ! einval
    duplicate 0 1024 off ! einval
    onto 0 0 = 0
    onto 9 9 ! ebadf
    onto 0 1024 ! ebadf
    onto 1 10 = 10
    is_close_on_exec 10 = 0
    onto_with 0 0 off ! einval
    onto_with 0 1024 none ! ebadf
    onto_with 0 4 none ! einval
    onto_with 0 4 on = 4
    is_close_on_exec 4 = 1
    set_close_on_exec 4 off = 0
    is_close_on_exec 4 = 0
    close 3 = 0
    close 3 ! ebadf
    set_flags 1 on on = 0
    flags 10 = 3
    flags 2 = 0
    set_nonblock 10 off = 0
    flags 1 = 1
    set_nonblock 10 fault ! efault
    set_nonblock 50 fault ! ebadf
    sync 0 ! einval
    sync 50 ! ebadf
";

const PIPES_AND_THE_TERMINAL: &str = "
    pipe on off = 3 4
    is_close_on_exec 3 = 1
    flags 4 = 0
    pipe none ! einval
    ready 0 = 1
    ready 2 = 2
    ready 3 = 0
    ready 4 = 2
    ready 6 = 16
    close 3 = 0
    ready 4 = 4
    pipe off on = 3 5
    is_close_on_exec 5 = 0
    flags 5 = 2
    rows 0 = 24
    rows 2 = 24
    rows 5 ! enotty
    rows 9 ! ebadf
    line 1 = 0
    set_line 1 5 = 0
    line 0 = 5
    set_unreadable 0 ! efault
    set_unreadable 3 ! enotty
    line 2 = 5
";

/// With all descriptors open but 1023.
const ALL_DESCRIPTORS: &str = "
    pipe off off ! emfile
    duplicate 1 0 off = 1023
    duplicate 1 0 off ! emfile
    close 7 = 0
    duplicate 1 8 off ! emfile
    close 8 = 0
    pipe off off = 7 8
    rows 0 ! enotty
";

/// Calls that open all descriptors but 1023, and then the calls of a text.
fn with_nearly_all_open(alloc: Global, text: &str) -> Result<String, Fail> {
    let mut rows = String::new(alloc);
    for fd in 3..1023 {
        let row = format!(in alloc; "duplicate 0 0 off = {fd}\n")?;
        rows.push_str(row.as_str())?;
    }
    rows.push_str(text)?;
    Ok(rows)
}

#[test]
fn descriptors_and_flags(rt: HostRuntime) -> Result<(), Fail> {
    assert_eq!(rt;
        first_wrong_of_new(rt.alloc(), None, DESCRIPTORS_AND_FLAGS)?,
        None
    );
    Ok(())
}

#[test]
fn pipes_and_the_terminal(rt: HostRuntime) -> Result<(), Fail> {
    let terminal = Winsize { rows: 24, cols: 80 };
    assert_eq!(rt;
        first_wrong_of_new(rt.alloc(), Some(terminal), PIPES_AND_THE_TERMINAL)?,
        None
    );
    Ok(())
}

#[test]
fn all_descriptors(rt: HostRuntime) -> Result<(), Fail> {
    let rows = with_nearly_all_open(rt.alloc(), ALL_DESCRIPTORS)?;
    assert_eq!(rt; first_wrong_of_new(rt.alloc(), None, rows.as_str())?, None);
    Ok(())
}
