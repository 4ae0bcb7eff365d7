//! Streams that count what is asked of them, and a folder in place of one.
use outside::{Failed, Sink, Source, StdSink, StdSource};
use std::io::Write;
use std::process::Abort;
use std::test::Fail;
use std::{fs, io};

/// Takes every byte, and counts its calls.
#[derive(Drop)]
struct Counts {
    writes: u8,
    flushes: u8,
    bytes: usize,
}

impl Write for Counts {
    fn write(&mut self, buf: &[u8]) -> io::Result<usize> {
        self.writes = self.writes.saturating_add(1);
        self.bytes = self.bytes.saturating_add(buf.len());
        Ok(buf.len())
    }

    fn flush(&mut self) -> io::Result<()> {
        self.flushes = self.flushes.saturating_add(1);
        Ok(())
    }
}

/// One put of so many bytes.
fn puts(rt: &(impl Abort + AllocGlobal), length: usize) -> Result<(), Fail> {
    let text = vec![in rt.alloc(); b'a'; length]?;
    let mut writer = Counts {
        writes: 0,
        flushes: 0,
        bytes: 0,
    };
    let answer = StdSink::new(&mut writer).put(text.as_slice());
    assert_eq!(rt; answer, Ok(()));
    assert_eq!(rt; writer.writes, 1);
    assert_eq!(rt; writer.flushes, 1);
    assert_eq!(rt; writer.bytes, length);
    Ok(())
}

#[test]
fn a_put_is_one_write_and_one_flush(rt: HostRuntime) -> Result<(), Fail> {
    puts(&rt, 4096)?;
    puts(&rt, 4097)?;
    puts(&rt, 10_000)
}

#[test]
fn a_folder_as_input_fails(rt: HostRuntime) -> Result<(), Fail> {
    let mut source = StdSource::new(fs::open(&rt, "/tmp")?);
    assert_eq!(rt; source.take(&mut [0; 4]), Err(Failed));
    Ok(())
}
