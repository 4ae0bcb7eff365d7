//! Makes names in one directory and takes them away in the order of its listing, for `bench/names.py`. The word is
//! how many.
#![tactic(auto)]

ghost use Rattle.std.specs.Prelude.{◌≤◌, IfOk};
ghost use Rattle.kernel_core.specs.ValidTree.{IsName};

use directory_names::{Directory, NoMemory, NodeRef};
use kernel_core::Bytes;
use kernel_core::limits::GREATEST_COOKIE;
use std::alloc::{AllocError, Global};
use std::{env, io};

/// One of the 26 small letters.
fn letter(number: u32) -> u8
    ensures low { 97 ≤ result }
    ensures high { result ≤ 122 }
{
    b'a' + (number % 26) as u8
}

/// A name of four letters, another one for each number below 26^4.
fn name_of(alloc: Global, number: u32) -> Result<Vec<u8>, AllocError>
    ensures { IfOk result (λ name. IsName name.items) }
{
    [
        letter(number),
        letter(number / 26),
        letter(number / 676),
        letter(number / 17_576),
    ]
    .to_vec(alloc)
}

/// Makes so many names, and stops early where one is there already or no cookie is left.
fn make(alloc: Global, directory: &mut Directory, count: u32) -> Result<(), NoMemory> {
    for number in 0..count {
        let name = name_of(alloc, number)?;
        directory.reserve()?;
        if directory.greatest() >= GREATEST_COOKIE || directory.find(name.as_slice()).is_some() {
            break;
        }
        let node = NodeRef {
            number: u64::from(number),
            key: 0,
        };
        directory.add(Bytes::from(name), node);
    }
    Ok(())
}

/// Takes the names away, each as the listing comes to it, and tells how many those were.
fn remove_all(alloc: Global, directory: &mut Directory) -> Result<usize, NoMemory> {
    let mut cookie = 0;
    for removed in 0..usize::MAX {
        let Some(entry) = directory.entry_after(cookie) else {
            return Ok(removed);
        };
        cookie = entry.cookie;
        let name = entry.name.to_vec(alloc)?;
        directory.remove(name.as_slice());
    }
    Ok(0)
}

fn made_and_removed(alloc: Global, count: u32) -> Result<usize, NoMemory> {
    let mut directory = Directory::new(alloc);
    make(alloc, &mut directory, count)?;
    remove_all(alloc, &mut directory)
}

fn main(rt: HostRuntime) -> io::Result<()> {
    let word = env::args(&rt)?.nth(1);
    let Some(count) = word.and_then(|word| word.parse::<u32>().ok()) else {
        return eprintln!(rt; "usage: names_bench COUNT");
    };
    match made_and_removed(rt.alloc(), count) {
        Ok(removed) => println!(rt; "{removed} names made and removed"),
        Err(NoMemory) => eprintln!(rt; "out of memory"),
    }
}
