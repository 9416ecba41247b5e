// For the programs of the gate: files, the entries of lists, numbers in bytes, and what is printed.
#![tactic(auto)]

ghost use Rattle.std.specs.Prelude.{◌+◌, ◌^◌, ◌<◌, ◌≤◌, length, IfSome};
ghost use Rattle.std.specs.Iterator.{at_most};

use arrayvec::ArrayString;
use floats::Stored;
use refusals::Refusal;
use std::fmt::Write;
use std::io::Read;
use std::marker::PhantomData;
use std::rt::Files;
use std::{fs, io};

// ---- files

// An input that ends where a read of it fails.
#[derive(Drop)]
struct UpToFailure<R> {
    input: R,
}

impl<R: Read> Read for UpToFailure<R> {
    fn read(&mut self, buf: &mut [u8]) -> io::Result<usize> {
        Ok(self.input.read(buf).unwrap_or(0))
    }
}

// Reads the file of that name to the front of buf, until buf is full, the file ends or a read fails, and answers that part; none where
// there is no such file.
pub fn read_file<'a, R: Files>(rt: &R, name: &str, buf: &'a mut [u8]) -> Option<&'a mut [u8]>
    ensures { IfSome result (λ s. length s.now ≤ length buf.old) }
{
    let input = fs::open(rt, name).ok()?;
    let n = full_reads::read_full(&mut UpToFailure { input }, buf).unwrap_or(0);
    Some(&mut buf[..n])
}

// The same of the file of case n with that ending.
pub fn read_case<'a, R: Files>(
    rt: &R,
    n: usize,
    ending: &str,
    buf: &'a mut [u8],
) -> Option<&'a mut [u8]>
    ensures { IfSome result (λ s. length s.now ≤ length buf.old) }
{
    let mut name = ArrayString::<32>::new();
    write!(name, "case-{n:04}.{ending}").ok()?;
    read_file(rt, &name, buf)
}

// ---- lists

// What a list in bytes holds; how long one is stands in it.
pub trait Entry<'a>: Copy {
    // The first entry, and what is behind it; none where it is cut short.
    fn split_first(list: &'a [u8]) -> Option<(Self, &'a [u8])>
        ensures { IfSome result (λ p. length p.1.now < length list.now) };
}

// An entry that is cut short: how many bytes there are of it.
#[derive(Clone, Copy, Debug)]
pub struct CutShort {
    pub len: usize,
}

// The entries of a list, one after the other; one that is cut short is the last.
#[derive(Clone, Copy)]
pub struct Entries<'a, T> {
    list: &'a [u8],
    entry: PhantomData<T>,
}

impl<'a, T: Entry<'a>> Entries<'a, T> {
    pub fn new(list: &'a [u8]) -> Self {
        Entries {
            list,
            entry: PhantomData,
        }
    }
}

impl<'a, T: Entry<'a>> Iterator for Entries<'a, T> {
    type Item = Result<T, CutShort>;

    ghost remaining = { λ s. at_most (length s.list.now) };

    fn next(&mut self) -> Option<Result<T, CutShort>> {
        if self.list.is_empty() {
            return None;
        }
        match T::split_first(self.list) {
            Some((entry, behind)) => {
                self.list = behind;
                Some(Ok(entry))
            }
            None => {
                let len = self.list.len();
                self.list = &[];
                Some(Err(CutShort { len }))
            }
        }
    }
}

// ---- numbers in bytes, the lowest first

// The number in four bytes.
pub fn four(s: &[u8], at: usize) -> usize
    requires { at + 4 ≤ length s.now }
    ensures { result < 2 ^ 32 }
{
    let n: u32 = floats::get(s, at);
    n as usize
}

// Each item becomes what the next N bytes hold, as far as the bytes go.
pub fn read<T: Stored<N>, const N: usize>(s: &[u8], items: &mut [T])
    requires { N < 2 ^ 16 }
{
    let mut rest = s;
    for item in items {
        let Some((bytes, behind)) = rest.split_first_chunk::<N>() else {
            return;
        };
        *item = T::from_bytes(bytes);
        rest = behind;
    }
}

// ---- answers

// The number of the refusal, 0 where there is none.
pub fn refused<T: Copy>(answer: Result<T, Refusal>) -> u64 {
    match answer {
        Err(e) => e.number() as u64,
        Ok(_) => 0,
    }
}

// ---- lines

// A line: a name, whatever its bytes, and whether what it stands for agrees.
pub fn tell_agrees(rt: &impl Print, name: &[u8], agrees: bool) -> io::Result<()> {
    rt.write_all(name)?;
    if agrees {
        println!(rt; " agrees")
    } else {
        println!(rt; " differs")
    }
}

// One more where it holds.
pub fn more(n: u64, holds: bool) -> u64 {
    n.wrapping_add(holds as u64)
}
