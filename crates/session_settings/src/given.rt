//! What a session is given, and what it leaves.
use crate::words::push_words;
use outside::NamedFile;
use std::alloc::Global;
use std::test::Fail;

/// The numbers of the calls that fail, counted from 1.
#[derive(Drop)]
pub struct Failing {
    /// Of the takes of standard input.
    pub takes: Vec<u64>,
    /// Of the puts of standard output.
    pub puts: Vec<u64>,
    /// Of the puts of standard error.
    pub lines: Vec<u64>,
    /// Of the calls on the store.
    pub calls: Vec<u64>,
}

/// What a session is given.
#[derive(Drop)]
pub struct Given {
    /// Its words.
    pub words: Vec<String>,
    /// The files of its store.
    pub files: Vec<NamedFile>,
    /// Its standard input.
    pub input: Vec<u8>,
    /// The calls that fail.
    pub failing: Failing,
}

/// What a session leaves.
#[derive(Drop)]
pub struct Left {
    /// What it wrote to standard output.
    pub out: Vec<u8>,
    /// What it wrote to standard error.
    pub err: Vec<u8>,
    /// What it left in the file `s`, where there is one.
    pub saved: Option<Vec<u8>>,
    /// What it left in the file `trace`, where there is one.
    pub traced: Option<Vec<u8>>,
    /// What it left in the file `native`, where there is one.
    pub logged: Option<Vec<u8>>,
}

/// No call that fails.
fn none_fails(alloc: Global) -> Failing {
    Failing {
        takes: Vec::new(alloc),
        puts: Vec::new(alloc),
        lines: Vec::new(alloc),
        calls: Vec::new(alloc),
    }
}

/// Whether a file has this name.
fn is_named(files: &[NamedFile], name: &str) -> bool {
    for file in files {
        if file.name.as_str() == name {
            return true;
        }
    }
    false
}

/// A file.
fn file_of(alloc: Global, name: &str, bytes: Vec<u8>) -> Result<NamedFile, Fail> {
    let name = String::from_str(alloc, name)?;
    Ok(NamedFile { name, bytes })
}

impl Given {
    /// No word, no file, no input and no call that fails.
    pub fn new(alloc: Global) -> Given {
        Given {
            words: Vec::new(alloc),
            files: Vec::new(alloc),
            input: Vec::new(alloc),
            failing: none_fails(alloc),
        }
    }

    /// Adds a file, of a name that no other has.
    pub fn add_file(&mut self, alloc: Global, name: &str, bytes: Vec<u8>) -> Result<(), Fail> {
        if is_named(&self.files, name) {
            return Err(Fail::from("two files of a name"));
        }
        let file = file_of(alloc, name, bytes)?;
        self.files.push(file).ok().ok_or("no memory")?;
        Ok(())
    }

    /// Adds words, behind those that are there.
    pub fn add_words(&mut self, alloc: Global, text: &str) -> Result<(), Fail> {
        push_words(alloc, &mut self.words, text)
    }
}

/// Nothing written, and none of the files.
pub(crate) fn nothing_left(alloc: Global) -> Left {
    Left {
        out: Vec::new(alloc),
        err: Vec::new(alloc),
        saved: None,
        traced: None,
        logged: None,
    }
}
