// Document 01's limits and refusals: 5 to 10 for the models of a list, 11 and 4 for ring lists. 0 is no refusal.
//
// The list has for each model 24 bytes: the length of its name, how many coordinates, kinds, ends and words stand here, the flags, two
// that are zero, the number of all coordinates in four (those that don't stand here are 0), four that are zero, the tolerance; then the
// name and these, ends and words in four bytes each.
ghost use Rattle.std.specs.Prelude.{◌<◌, length, IfSome};

use crate::nodes;
use mesh::{Checks, Model};
use refusals::Refusal;
use std::io;
use std::rt::Files;
use test_support::{CutShort, Entries, Entry};

// How many bytes stand before a model's name.
const HEAD: usize = 24;

// A model of the list: what stands before its name, the name, and the lists, as bytes.
#[derive(Clone, Copy)]
struct Listed<'a> {
    head: &'a [u8; HEAD],
    name: &'a [u8],
    coords: &'a [u8],
    kinds: &'a [u8],
    ends: &'a [u8],
    words: &'a [u8],
}

impl<'a> Entry<'a> for Listed<'a> {
    fn split_first(list: &'a [u8]) -> Option<(Listed<'a>, &'a [u8])> {
        let (head, rest) = list.split_first_chunk::<HEAD>()?;
        let (name, rest) = rest.split_at_checked(head[0] as usize)?;
        let (coords, rest) = rest.split_at_checked(8 * head[1] as usize)?;
        let (kinds, rest) = rest.split_at_checked(head[2] as usize)?;
        let (ends, rest) = rest.split_at_checked(4 * head[3] as usize)?;
        let (words, rest) = rest.split_at_checked(4 * head[4] as usize)?;
        Some((
            Listed {
                head,
                name,
                coords,
                kinds,
                ends,
                words,
            },
            rest,
        ))
    }
}

// What acceptance says of a model.
fn refusal(model: &Model) -> u64 {
    test_support::refused(mesh::accept(model))
}

// The same of a model of the list, of which no more is taken than the lists here hold.
fn judge(m: &Listed) -> u64 {
    let mut coords = [0.0f64; 196608];
    let mut ends = [0u32; 65];
    let mut words = [0u32; 65];
    test_support::read(m.coords, &mut coords);
    test_support::read(m.ends, &mut ends);
    test_support::read(m.words, &mut words);
    let head = m.head;
    let n = test_support::four(head, 8);
    let model = Model {
        coords: &coords[..n.min(196608)],
        kinds: m.kinds,
        ends: &ends[..(m.ends.len() / 4).min(65)],
        words: &words[..(m.words.len() / 4).min(65)],
        tolerance: floats::get(head, 16),
        checks: Checks(head[5]),
        cap: 0,
    };
    refusal(&model)
}

// The line for a model.
fn tell(rt: &impl Print, m: &Listed) -> io::Result<()> {
    let says = judge(m);
    rt.write_all(m.name)?;
    println!(rt; " {says}")
}

// A line for each model of the list. Bytes that are fewer than a head end it without one.
fn judge_all(rt: &impl Print, list: &[u8]) -> io::Result<()> {
    for entry in Entries::<Listed>::new(list) {
        match entry {
            Ok(m) => tell(rt, &m)?,
            Err(CutShort { len }) => {
                if HEAD <= len {
                    println!(rt; "a model cut short 255")?;
                }
            }
        }
    }
    Ok(())
}

// ---- ring lists

// The words of the tetrahedron's ring lists, and the words of work that filling them needs: R is 12, F 4, C 1, N 4 and M 4.
const RING_WORDS: usize = 12;

const WORK: usize = 168;

// A trial of filling ring lists: how long the raw list and the work are, and the flags.
#[derive(Clone, Copy)]
struct Fill {
    name: &'static str,
    list: usize,
    work: usize,
    checks: Checks,
}

// Filled twice, then refused with 11, 11, 4, 11 and 10.
const FILLS: [Fill; 7] = [
    Fill {
        name: "lists of 12 words, work of 168",
        list: RING_WORDS,
        work: WORK,
        checks: Checks::ALL,
    },
    Fill {
        name: "lists of 13 words, work of 169",
        list: RING_WORDS + 1,
        work: WORK + 1,
        checks: Checks::ALL,
    },
    Fill {
        name: "work of 167",
        list: RING_WORDS,
        work: WORK - 1,
        checks: Checks::ALL,
    },
    Fill {
        name: "no work",
        list: RING_WORDS,
        work: 0,
        checks: Checks::ALL,
    },
    Fill {
        name: "a list of 11 words",
        list: RING_WORDS - 1,
        work: WORK,
        checks: Checks::ALL,
    },
    Fill {
        name: "a list of 11 words, work of 167",
        list: RING_WORDS - 1,
        work: WORK - 1,
        checks: Checks::ALL,
    },
    Fill {
        name: "work of 167, flags 4",
        list: RING_WORDS,
        work: WORK - 1,
        checks: nodes::TOO_MANY,
    },
];

// What filling says: the words filled, or the refusal; none where the trial asks for longer lists than stand here.
fn filled(trial: &Fill) -> Option<Result<u32, Refusal>> {
    let mut raw = [7u32; RING_WORDS + 1];
    let mut welded = [7u32; RING_WORDS + 1];
    let mut work = [7u32; WORK + 1];
    let raw = raw.get_mut(..trial.list)?;
    let work = work.get_mut(..trial.work)?;
    let m = nodes::tetrahedron(trial.checks);
    Some(ring_lists::fill_ring_lists(&m, raw, &mut welded, work))
}

// A line for each trial.
fn fill_all(rt: &impl Print) -> io::Result<()> {
    for trial in &FILLS {
        let name = trial.name;
        match filled(trial) {
            Some(Ok(n)) => println!(rt; "{name} filled {n}")?,
            Some(Err(e)) => println!(rt; "{name} {}", e.number())?,
            None => println!(rt; "{name} is too long")?,
        }
    }
    Ok(())
}

pub fn run<R: Files + Print>(rt: &R) -> io::Result<()> {
    let mut buf = [0u8; 65536];
    if let Some(list) = test_support::read_file(rt, "limits", &mut buf) {
        judge_all(rt, list)?;
    }
    fill_all(rt)
}
