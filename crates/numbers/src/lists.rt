// Lists of recorded sets: for each the length of its name in a byte, the name, its size in four bytes, its bytes.
ghost use Rattle.std.specs.Prelude.{◌<◌, length, IfSome};

use std::io;
use std::rt::Files;
use test_support::{Entries, Entry};

// A recorded set: its name, and its bytes.
#[derive(Clone, Copy)]
struct Set<'a> {
    name: &'a [u8],
    bytes: &'a [u8],
}

impl<'a> Entry<'a> for Set<'a> {
    fn split_first(list: &'a [u8]) -> Option<(Set<'a>, &'a [u8])> {
        let (len, rest) = list.split_first()?;
        let (name, rest) = rest.split_at_checked(*len as usize)?;
        let (size, rest) = rest.split_first_chunk::<4>()?;
        let (bytes, rest) = rest.split_at_checked(u32::from_le_bytes(*size) as usize)?;
        Some((Set { name, bytes }, rest))
    }
}

// The sets of a list: whether each agrees.
fn run_all<F: Fn(&[u8]) -> bool>(rt: &impl Print, list: &[u8], agrees: F) -> io::Result<()>
    requires { F.IsAlwaysCallable agrees }
{
    for entry in Entries::<Set>::new(list) {
        match entry {
            Ok(set) => test_support::tell_agrees(rt, set.name, agrees(set.bytes))?,
            Err(_) => test_support::tell_agrees(rt, b"an entry cut short", false)?,
        }
    }
    Ok(())
}

// The list of data/ with that name.
pub fn run<R: Files + Print, F: Fn(&[u8]) -> bool>(rt: &R, name: &str, agrees: F) -> io::Result<()>
    requires { F.IsAlwaysCallable agrees }
{
    let mut buf = [0u8; 350000];
    match test_support::read_file(rt, name, &mut buf) {
        Some(list) => run_all(rt, list, agrees),
        None => Ok(()),
    }
}
