use crate::{
    DevError, DirStore, Failed, LoadError, MemSink, MemSource, MemStore, NamedFile, Sink, Source,
    StdSink, StdSource, Store, SureSink, SureSource, SureStore,
};
use std::alloc::{AllocError, Global};
use std::io::{ErrorKind, Read, Write};
use std::process::Abort;
use std::test::Fail;
use std::{fs, io, process};

#[test]
fn failing_source(rt: HostRuntime) -> Result<(), Fail> {
    let alloc = rt.alloc();
    let mut buf = [0; 3];
    let mut source = MemSource::new(b"hello".to_vec(alloc)?, [2].to_vec(alloc)?);
    for (answer, rest) in [(Ok(3), 2), (Err(Failed), 2), (Ok(2), 0), (Ok(0), 0)] {
        assert_eq!(rt; source.take(&mut buf), answer);
        assert_eq!(rt; source.rest().len(), rest);
    }
    assert_eq!(rt; buf, *b"lol");
    Ok(())
}

#[test]
fn sure_source(rt: HostRuntime) -> Result<(), Fail> {
    let mut buf = [0; 3];
    let mut source = SureSource::new(b"hello".to_vec(rt.alloc())?);
    for answer in [Ok(3), Ok(2), Ok(0)] {
        assert_eq!(rt; source.take(&mut buf), answer);
    }
    assert_eq!(rt; buf, *b"lol");
    Ok(())
}

#[test]
fn failing_sink(rt: HostRuntime) -> Result<(), Fail> {
    let alloc = rt.alloc();
    let mut sink = MemSink::new(alloc, [1, 3].to_vec(alloc)?);
    let failed = Err(DevError::Failed);
    for (bytes, answer) in [
        (b"ab", failed),
        (b"cd", Ok(())),
        (b"ef", failed),
        (b"gh", Ok(())),
    ] {
        assert_eq!(rt; sink.put(bytes), answer);
    }
    assert_eq!(rt; sink.bytes(), b"cdgh".as_slice());
    Ok(())
}

#[test]
fn sure_sink(rt: HostRuntime) {
    let mut sink = SureSink::new(rt.alloc());
    for bytes in [b"ab", b"cd"] {
        assert_eq!(rt; sink.put(bytes), Ok(()));
    }
    assert_eq!(rt; sink.bytes(), b"abcd".as_slice());
}

fn two_files(alloc: Global) -> Result<Vec<NamedFile>, AllocError> {
    let mut files = Vec::new(alloc);
    files.push(NamedFile {
        name: String::from_str(alloc, "a")?,
        bytes: b"abc".to_vec(alloc)?,
    })?;
    files.push(NamedFile {
        name: String::from_str(alloc, "b")?,
        bytes: b"".to_vec(alloc)?,
    })?;
    Ok(files)
}

/// A load of this name under this limit, and its answer with the bytes that it loads.
type Load<'a> = (&'a str, usize, Result<&'a [u8], LoadError>);

/// The loads in a store where `a` has `abc` and `b` nothing.
const LOADS: [Load<'static>; 4] = [
    ("a", 3, Ok(b"abc")),
    ("a", 2, Err(LoadError::TooLong)),
    ("b", 0, Ok(b"")),
    ("c", 9, Err(LoadError::Missing)),
];

fn loads<S: Store>(rt: &impl Abort, alloc: Global, store: &mut S, rows: &[Load]) {
    for (name, limit, answer) in rows {
        let mut into = Vec::new(alloc);
        let loaded = store.load(name, *limit, &mut into);
        match answer {
            Ok(bytes) => {
                assert_eq!(rt; loaded, Ok(()));
                assert_eq!(rt; into.as_slice(), *bytes);
            }
            Err(error) => assert_eq!(rt; loaded, Err(*error)),
        }
    }
}

/// The answers to a create and, after another one, to an append of `bytes` and one of `yz`.
fn writes<S: Store>(
    rt: &impl Abort,
    store: &mut S,
    name: &str,
    bytes: &[u8],
    answers: [Result<(), DevError>; 3],
) {
    assert_eq!(rt; store.create(name), answers[0]);
    store.create(name).expect(rt, "create");
    assert_eq!(rt; store.append(name, bytes), answers[1]);
    assert_eq!(rt; store.append(name, b"yz"), answers[2]);
}

#[test]
fn sure_store(rt: HostRuntime) -> Result<(), Fail> {
    let alloc = rt.alloc();
    let mut store = SureStore::new(alloc, two_files(alloc)?);
    loads(&rt, alloc, &mut store, &LOADS);
    writes(&rt, &mut store, "a", b"x", [Ok(()), Ok(()), Ok(())]);
    assert_eq!(rt; store.file("a"), Some(b"xyz".as_slice()));
    assert_eq!(rt; store.file("c"), None);
    Ok(())
}

#[test]
fn failing_store(rt: HostRuntime) -> Result<(), Fail> {
    let alloc = rt.alloc();
    let mut store = MemStore::new(alloc, two_files(alloc)?, [5, 7].to_vec(alloc)?);
    loads(&rt, alloc, &mut store, &LOADS);
    let failed = Err(DevError::Failed);
    writes(&rt, &mut store, "c", b"x", [failed, failed, Ok(())]);
    assert_eq!(rt; store.file("c"), Some(b"yz".as_slice()));
    assert_eq!(rt; store.file("a"), Some(b"abc".as_slice()));
    Ok(())
}

/// Gives two bytes, then an error, then two bytes, then nothing.
#[derive(Drop)]
struct Stutter(u8);

impl Read for Stutter {
    fn read(&mut self, buf: &mut [u8]) -> io::Result<usize> {
        self.0 = self.0.saturating_add(1);
        if self.0 == 2 {
            return Err(io::Error::from(ErrorKind::Other));
        }
        if self.0 > 3 || buf.len() < 2 {
            return Ok(0);
        }
        buf[0] = b'h';
        buf[1] = b'i';
        Ok(2)
    }
}

/// Takes one byte at a write, and fails at the fourth write and takes nothing at the fifth.
#[derive(Drop)]
struct Trickle {
    writes: u8,
    taken: Vec<u8>,
}

impl Write for Trickle {
    fn write(&mut self, buf: &[u8]) -> io::Result<usize> {
        self.writes = self.writes.saturating_add(1);
        if self.writes == 4 {
            return Err(io::Error::from(ErrorKind::Other));
        }
        if self.writes == 5 || buf.is_empty() {
            return Ok(0);
        }
        self.taken.push(buf[0])?;
        Ok(1)
    }

    fn flush(&mut self) -> io::Result<()> {
        Ok(())
    }
}

/// Takes every byte, and fails at the first flush.
#[derive(Drop)]
struct Unflushed {
    flushes: u8,
    taken: Vec<u8>,
}

impl Write for Unflushed {
    fn write(&mut self, buf: &[u8]) -> io::Result<usize> {
        self.taken.extend_from_slice(buf)?;
        Ok(buf.len())
    }

    fn flush(&mut self) -> io::Result<()> {
        self.flushes = self.flushes.saturating_add(1);
        if self.flushes == 1 {
            return Err(io::Error::from(ErrorKind::Other));
        }
        Ok(())
    }
}

#[test]
fn put_ends_with_a_flush(rt: HostRuntime) {
    let mut writer = Unflushed {
        flushes: 0,
        taken: Vec::new(rt.alloc()),
    };
    let mut sink = StdSink::new(&mut writer);
    assert_eq!(rt; sink.put(b"ab"), Err(DevError::Failed));
    assert_eq!(rt; sink.put(b"cd"), Ok(()));
    assert_eq!(rt; writer.flushes, 2);
    assert_eq!(rt; writer.taken.as_slice(), b"abcd".as_slice());
}

#[test]
fn real_streams(rt: HostRuntime) -> Result<(), Fail> {
    let mut buf = [0; 4];
    let mut source = StdSource::new(Stutter(0));
    for answer in [Ok(2), Err(Failed), Ok(2), Ok(0), Ok(0)] {
        assert_eq!(rt; source.take(&mut buf), answer);
    }
    assert_eq!(rt; buf, *b"hi\0\0");

    let mut writer = Trickle {
        writes: 0,
        taken: Vec::new(rt.alloc()),
    };
    let mut sink = StdSink::new(&mut writer);
    assert_eq!(rt; sink.put(b"ab"), Ok(()));
    assert_eq!(rt; sink.put(b"cd"), Err(DevError::Failed));
    assert_eq!(rt; sink.put(b"e"), Err(DevError::Failed));
    assert_eq!(rt; sink.put(b"fg"), Ok(()));
    assert_eq!(rt; writer.taken.as_slice(), b"abcfg".as_slice());
    Ok(())
}

#[test]
fn host_files(rt: HostRuntime) -> Result<(), Fail> {
    let alloc = rt.alloc();
    let id = process::id(rt.process());
    let a = format!(in alloc; "/tmp/o32run-outside-{id}-a")?;
    let b = format!(in alloc; "/tmp/o32run-outside-{id}-b")?;
    let under_a = format!(in alloc; "{a}/x")?;
    fs::write(&rt, a.as_str(), "an old text")?;
    let mut store = DirStore::new(alloc, rt);
    writes(&rt, &mut store, b.as_str(), b"x", [Ok(()); 3]);
    writes(&rt, &mut store, a.as_str(), b"wx", [Ok(()); 3]);
    assert_eq!(rt; fs::read(&rt, a.as_str())?.as_slice(), b"wxyz".as_slice());
    assert_eq!(rt; fs::read(&rt, b.as_str())?.as_slice(), b"xyz".as_slice());
    let rows: [Load; 6] = [
        (a.as_str(), 4, Ok(b"wxyz")),
        (b.as_str(), 9, Ok(b"xyz")),
        (a.as_str(), 3, Err(LoadError::TooLong)),
        ("/tmp/o32run-none", 9, Err(LoadError::Missing)),
        // A name under a file, and a folder.
        (under_a.as_str(), 9, Err(LoadError::Failed)),
        ("/tmp", 9, Err(LoadError::Failed)),
    ];
    loads(&rt, alloc, &mut store, &rows);
    assert_eq!(rt; store.create("/tmp"), Err(DevError::Failed));
    assert_eq!(rt; store.create(a.as_str()), Ok(()));
    loads(&rt, alloc, &mut store, &[(a.as_str(), 0, Ok(b""))]);
    assert_eq!(rt; fs::read(&rt, b.as_str())?.as_slice(), b"xyz".as_slice());
    fs::remove_file(&rt, a.as_str())?;
    fs::remove_file(&rt, b.as_str())?;
    Ok(())
}
