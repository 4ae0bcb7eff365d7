//! What the lines of a script before a session say of it.
use crate::given::{Given, Left, nothing_left};
use guest_scripts::code::{hello, one_page, push_code};
use guest_scripts::image::{EMPTY_ROOT, ONE_FILE, image_of};
use guest_scripts::reading::{Words, bytes_of, parts, push_text};
use std::alloc::Global;
use std::test::Fail;

/// What a session is given, and what it has to leave.
#[derive(Drop)]
pub struct Setting {
    /// The instructions of the file `p`, where there are any.
    code: Vec<u32>,
    /// What it is given.
    pub given: Given,
    /// What it has to leave.
    pub left: Left,
}

/// The bytes of a text, or those of a name behind `@`.
fn content_of(alloc: Global, text: &str) -> Result<Vec<u8>, Fail> {
    match text.strip_prefix("@") {
        None => bytes_of(alloc, text),
        Some("hello") => hello(alloc),
        Some("empty_root") => image_of(alloc, EMPTY_ROOT),
        Some("one_file") => image_of(alloc, ONE_FILE),
        Some(_) => Err(Fail::from("no such content")),
    }
}

/// Writes bytes over those of a file from a place on, as many as have to be there.
fn write_at(file: &mut [u8], place: usize, bytes: &[u8]) -> Result<(), Fail> {
    if place.saturating_add(bytes.len()) > file.len() {
        return Err(Fail::from("no such place"));
    }
    for (old, new) in file.iter_mut().skip(place).zip(bytes) {
        *old = *new;
    }
    Ok(())
}

/// Puts the bytes of a text behind those that are left in a file, which is there then.
fn push_left(alloc: Global, left: &mut Option<Vec<u8>>, text: &str) -> Result<(), Fail> {
    if left.is_none() {
        *left = Some(Vec::new(alloc));
    }
    push_text(left.as_mut().ok_or("no file")?, text)
}

impl Setting {
    /// Nothing is said yet.
    pub fn new(alloc: Global) -> Setting {
        Setting {
            code: Vec::new(alloc),
            given: Given::new(alloc),
            left: nothing_left(alloc),
        }
    }

    /// The last file.
    fn last_file(&mut self) -> Result<&mut Vec<u8>, Fail> {
        let file = self.given.files.last_mut().ok_or("no file")?;
        Ok(&mut file.bytes)
    }

    /// A file, by its name and its bytes.
    fn file(&mut self, alloc: Global, text: &str) -> Result<(), Fail> {
        let (name, content) = parts(text);
        let bytes = content_of(alloc, content)?;
        self.given.add_file(alloc, name, bytes)
    }

    /// Bytes that are written over those of the last file, behind their place.
    fn change(&mut self, alloc: Global, text: &str) -> Result<(), Fail> {
        let (place, content) = parts(text);
        let place = Words::new(&[place]).place()?;
        let bytes = bytes_of(alloc, content)?;
        write_at(self.last_file()?, place, &bytes)
    }

    /// Bytes of the last file that are written over others of it: where they begin and end, and where they go.
    fn copy(&mut self, alloc: Global, text: &str) -> Result<(), Fail> {
        let items: Vec<&str> = text.split_whitespace().collect(alloc)?;
        self.copy_bytes(alloc, &mut Words::new(items.as_slice()))
    }

    fn copy_bytes(&mut self, alloc: Global, words: &mut Words) -> Result<(), Fail> {
        let begin = words.place()?;
        let end = words.place()?;
        let place = words.place()?;
        words.end()?;
        let file = self.last_file()?;
        let bytes = file.get(begin..end).ok_or("short")?.to_vec(alloc)?;
        write_at(file, place, &bytes)
    }

    /// A call that fails, by its device and its number.
    fn fails(&mut self, text: &str) -> Result<(), Fail> {
        let (device, number) = parts(text);
        let number = Words::new(&[number]).number()?;
        let failing = &mut self.given.failing;
        match device {
            "take" => failing.takes.push(number)?,
            "put" => failing.puts.push(number)?,
            "line" => failing.lines.push(number)?,
            "store" => failing.calls.push(number)?,
            _ => return Err(Fail::from("no device")),
        }
        Ok(())
    }

    /// What is then in the file `s`.
    fn saved(&mut self, alloc: Global, text: &str) -> Result<(), Fail> {
        if self.left.saved.is_some() {
            return Err(Fail::from("two files are saved"));
        }
        self.left.saved = Some(content_of(alloc, text)?);
        Ok(())
    }

    /// What is then in the file `trace`, behind what has been said of it.
    fn traced(&mut self, alloc: Global, text: &str) -> Result<(), Fail> {
        push_left(alloc, &mut self.left.traced, text)
    }

    /// What is then in the file `native`, behind what has been said of it.
    fn logged(&mut self, alloc: Global, text: &str) -> Result<(), Fail> {
        push_left(alloc, &mut self.left.logged, text)
    }

    /// A line that is then in the file `native`.
    fn native(&mut self, alloc: Global, line: &str) -> Result<(), Fail> {
        self.logged(alloc, line)?;
        self.logged(alloc, r"\n")
    }

    /// A line that is then in the file `trace`.
    fn trace(&mut self, alloc: Global, line: &str) -> Result<(), Fail> {
        self.traced(alloc, line)?;
        self.traced(alloc, r"\n")
    }

    /// A line that it writes to standard error.
    pub fn tells(&mut self, line: &str) -> Result<(), Fail> {
        push_text(&mut self.left.err, line)?;
        self.left.err.push(b'\n')?;
        Ok(())
    }

    /// Takes a line.
    pub fn take(&mut self, alloc: Global, line: &str) -> Result<(), Fail> {
        let (name, text) = parts(line);
        match name {
            "file" => self.file(alloc, text),
            "change" => self.change(alloc, text),
            "copy" => self.copy(alloc, text),
            "more" => push_text(self.last_file()?, text),
            "fails" => self.fails(text),
            "input" => push_text(&mut self.given.input, text),
            "out" => push_text(&mut self.left.out, text),
            "err" => push_text(&mut self.left.err, text),
            "saved" => self.saved(alloc, text),
            "trace" => self.trace(alloc, text),
            "traced" => self.traced(alloc, text),
            "native" => self.native(alloc, text),
            "logged" => self.logged(alloc, text),
            _ => push_code(alloc, &mut self.code, line),
        }
    }

    /// Takes the words of its session, behind all lines.
    pub fn runs(&mut self, alloc: Global, words: &str) -> Result<(), Fail> {
        self.given.add_words(alloc, words)?;
        if self.code.is_empty() {
            return Ok(());
        }
        let program = one_page(alloc, &self.code)?;
        self.given.add_file(alloc, "p", program)
    }
}
