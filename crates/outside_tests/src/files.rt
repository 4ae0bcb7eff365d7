//! Stores over a host that counts, and over the real one.
use crate::host::Host;
use outside::{DevError, DirStore, LoadError, Store};
use std::alloc::Global;
use std::os::unix::fs::symlink;
use std::process::Abort;
use std::test::Fail;
use std::{fs, process};

/// The answer to a load of this name.
fn loaded(alloc: Global, host: &Host, name: &str) -> Result<(), LoadError> {
    let mut store = DirStore::new(alloc, host);
    let mut into = Vec::new(alloc);
    store.load(name, 9, &mut into)
}

#[test]
fn a_file_is_missing_only_where_it_is_not_there(rt: HostRuntime) {
    let host = Host::new();
    for (name, answer) in [
        ("there", Ok(())),
        ("gone", Err(LoadError::Missing)),
        ("closed", Err(LoadError::Failed)),
        ("interrupted", Err(LoadError::Failed)),
    ] {
        assert_eq!(rt; loaded(rt.alloc(), &host, name), answer);
    }
    assert_eq!(rt; host.asked_to_write.get(), false);
    assert_eq!(rt; host.opened.get(), 4);
}

/// The answer to a create and two appends, by the host's count of opened files.
fn appends(rt: &(impl Abort + AllocGlobal), name: &str, answer: Result<(), DevError>) {
    let host = Host::new();
    let mut store = DirStore::new(rt.alloc(), &host);
    store.create(name).expect(rt, "create");
    assert_eq!(rt; store.append(name, b"ab"), answer);
    assert_eq!(rt; store.append(name, b"cd"), answer);
    assert_eq!(rt; host.opened.get(), 1);
    assert_eq!(rt; host.removed.get(), 0);
}

#[test]
fn a_file_is_opened_once_and_stays_where_an_append_fails(rt: HostRuntime) {
    appends(&rt, "there", Ok(()));
    appends(&rt, "full", Err(DevError::Failed));
}

#[test]
fn an_append_to_a_full_device_fails(rt: HostRuntime) -> Result<(), Fail> {
    let alloc = rt.alloc();
    let id = process::id(rt.process());
    // A link, so that a wrong store that removes its file leaves the device.
    let full = format!(in alloc; "/tmp/o32run-outside-tests-{id}-full")?;
    symlink(&rt, "/dev/full", full.as_str())?;
    let mut store = DirStore::new(alloc, rt);
    store.create(full.as_str()).expect(&rt, "create");
    assert_eq!(rt; store.append(full.as_str(), b"x"), Err(DevError::Failed));
    fs::remove_file(&rt, full.as_str())?;
    Ok(())
}

#[test]
fn a_file_keeps_its_other_names(rt: HostRuntime) -> Result<(), Fail> {
    let alloc = rt.alloc();
    let id = process::id(rt.process());
    let first = format!(in alloc; "/tmp/o32run-outside-tests-{id}-1")?;
    let second = format!(in alloc; "/tmp/o32run-outside-tests-{id}-2")?;
    fs::write(&rt, first.as_str(), "an old text")?;
    fs::hard_link(&rt, first.as_str(), second.as_str())?;
    let mut store = DirStore::new(alloc, rt);
    store.create(first.as_str()).expect(&rt, "create");
    store.append(first.as_str(), b"new").expect(&rt, "append");
    assert_eq!(rt;
        fs::read(&rt, second.as_str())?.as_slice(),
        b"new".as_slice()
    );
    fs::remove_file(&rt, first.as_str())?;
    fs::remove_file(&rt, second.as_str())?;
    Ok(())
}
