//! The program over files and streams in memory.
use crate::program::run_program;
use outside::{Devices, MemSink, MemStore, NamedFile, SureSource};
use std::env::FillError;
use std::process::Abort;
use std::rt::Env;
use std::test::Fail;

/// A program of one segment from the start of its file on: it writes `Hi` and a newline, and exits with 7.
const HELLO: &[u8] = b"\x7fELF\x01\x02\x01\0\0\0\0\0\0\0\0\0\
\0\x02\0\x08\0\0\0\x01\0\x40\0\x54\0\0\0\x34\0\0\0\0\0\0\x10\0\0\x34\0\x20\0\x01\0\0\0\0\0\0\
\0\0\0\x01\0\0\0\0\0\x40\0\0\0\x40\0\0\0\0\0\x7b\0\0\0\x7b\0\0\0\x05\0\0\x10\0\
\x24\x02\x0f\xa4\x24\x04\0\x01\x3c\x05\0\x40\x34\xa5\0\x78\x24\x06\0\x03\0\0\0\x0c\
\x24\x02\x0f\xa1\x24\x04\0\x07\0\0\0\x0cHi\n";

/// Arguments behind the program's own name, each by its bytes.
#[derive(Drop)]
struct Arguments<'a>(&'a [&'a [u8]]);

impl<'a> Env for Arguments<'a> {
    fn arg(&self, i: usize, buf: &mut [u8]) -> Result<usize, FillError> {
        let word = match i.checked_sub(1) {
            Some(at) => *self.0.get(at).ok_or(FillError::NotPresent)?,
            None => b"o32run",
        };
        if word.len() > buf.len() {
            return Err(FillError::TooLong);
        }
        buf[..word.len()].copy_from_slice(word);
        Ok(word.len())
    }

    fn var(&self, _name: &str, _buf: &mut [u8]) -> Result<usize, FillError> {
        Err(FillError::NotPresent)
    }

    fn var_at(&self, _i: usize, _buf: &mut [u8]) -> Result<usize, FillError> {
        Err(FillError::NotPresent)
    }
}

/// The arguments, the status, and what is written to standard output and standard error.
type Run<'a> = (&'a [&'a [u8]], u8, &'a [u8], &'a [u8]);

/// Each run over a store whose one file `p` is the program.
fn programs_end(rt: &(impl Abort + AllocGlobal), rows: &[Run]) -> Result<(), Fail> {
    let alloc = rt.alloc();
    for (words, status, out, err) in rows {
        let mut named = Vec::new(alloc);
        named.push(NamedFile {
            name: String::from_str(alloc, "p")?,
            bytes: HELLO.to_vec(alloc)?,
        })?;
        let mut files = MemStore::new(alloc, named, Vec::new(alloc));
        let mut streams = Devices {
            input: SureSource::new(Vec::new(alloc)),
            out: MemSink::new(alloc, Vec::new(alloc)),
            err: MemSink::new(alloc, Vec::new(alloc)),
        };
        let ended = run_program(alloc, &Arguments(*words), &mut files, &mut streams);
        assert_eq!(rt; ended.status(), *status);
        assert_eq!(rt; streams.out.bytes(), *out);
        assert_eq!(rt; streams.err.bytes(), *err);
    }
    Ok(())
}

#[test]
fn runs_end(rt: HostRuntime) -> Result<(), Fail> {
    let rows: [Run; 2] = [
        (&[b"run", b"p"], 7, b"Hi\n", b""),
        (&[b"run", b"--budget", b"5", b"p"], 124, b"", b""),
    ];
    programs_end(&rt, &rows)
}

#[test]
fn refusals_have_a_line(rt: HostRuntime) -> Result<(), Fail> {
    let rows: [Run; 3] = [
        (&[], 125, b"", b"o32run: usage at word 0\n"),
        (&[b"run", b"q"], 125, b"", b"o32run: file 1 missing\n"),
        (
            &[b"run", b"--save", b"p", b"p"],
            125,
            b"",
            b"o32run: usage at word 3\n",
        ),
    ];
    programs_end(&rt, &rows)
}

#[test]
fn words_that_are_not_utf_8(rt: HostRuntime) -> Result<(), Fail> {
    let rows: [Run; 3] = [
        (&[b"run", b"\xff"], 125, b"", b"o32run: usage at word 1\n"),
        (
            &[b"run", b"--image", b"\xc3\x28", b"p"],
            125,
            b"",
            b"o32run: usage at word 2\n",
        ),
        (&[b"walk", b"\xff"], 125, b"", b"o32run: usage at word 0\n"),
    ];
    programs_end(&rt, &rows)
}

#[test]
fn long_words(rt: HostRuntime) -> Result<(), Fail> {
    let long = vec![in rt.alloc(); b'a'; 9000]?;
    let rows: [Run; 1] = [(
        &[b"run", b"--image", &long, b"p"],
        125,
        b"",
        b"o32run: file 2 missing\n",
    )];
    programs_end(&rt, &rows)
}
