// Recorded models, compared by their finding records with the Rust's answers, and by either way of seeking: a line for each of the
// many that differs and one with the counts, then a line for each pin, by its name.
ghost use Rattle.std.specs.Prelude.{◌<◌, ◌≤◌, length, IfSome};

use crate::{lent, ways};
use records::Kind;
use std::io;
use std::rt::Files;
use test_support::{Entries, Entry};

// How many models were run, of how many the records and the ways agree, and how many faces were sought each way.
#[derive(Clone, Copy, Default)]
struct Tally {
    models: u64,
    agree: u64,
    faces: u64,
}

// A recorded model: its file, and the records.
#[derive(Clone, Copy)]
struct Recorded<'a> {
    model: &'a [u8],
    records: &'a [u8],
}

// ---- records

const OVERFULL: u8 = Kind::Overfull as u8;

const PARTLY_SHARED: u8 = Kind::PartlyShared as u8;

// The end of the fields from byte 12 on that the Rust does not have: a and b of an overfull face, those and the count of a pair.
fn untold_end(kind: u8) -> usize
    ensures { (12 ≤ result) × (result ≤ 64) }
{
    match kind {
        OVERFULL => 20,
        PARTLY_SHARED => 24,
        _ => 12,
    }
}

// The records agree; theirs is zero in a field that the Rust does not have.
fn same_record(ours: &[u8], theirs: &[u8]) -> bool {
    let Some(ours) = ours.first_chunk::<64>() else {
        return false;
    };
    let mut told = *ours;
    told[12..untold_end(ours[0])].fill(0);
    theirs == told.as_slice()
}

// Their records stand in front of the bytes, and all behind them is as it was.
fn is_front(bytes: &[u8], theirs: &[u8]) -> bool {
    if theirs.len() % 64 != 0 {
        return false;
    }
    let Some((ours, behind)) = bytes.split_at_checked(theirs.len()) else {
        return false;
    };
    let mut pairs = ours.chunks_exact(64).zip(theirs.chunks_exact(64));
    pairs.all(|(a, b)| same_record(a, b)) && lent::unmarked(behind)
}

// ---- a model

// The number in the two bytes from `at` on; the head of an entry has two.
fn two(head: &[u8; 4], at: usize) -> usize
    requires { at ≤ 2 }
    ensures { result < 65536 }
{
    floats::get::<u16, 2>(head, at) as usize
}

// A recorded model is the model file's length / 32 and the number of records in two bytes each, the model file, the records.
impl<'a> Entry<'a> for Recorded<'a> {
    fn split_first(list: &'a [u8]) -> Option<(Recorded<'a>, &'a [u8])> {
        let (head, rest) = list.split_first_chunk::<4>()?;
        let (model, rest) = rest.split_at_checked(32 * two(head, 0))?;
        let (records, rest) = rest.split_at_checked(64 * two(head, 2))?;
        Some((Recorded { model, records }, rest))
    }
}

// What came of a recorded model: whether the ways agree and the program's records are the recorded ones, and how many faces were sought
// each way, which is told whatever the records are.
#[derive(Clone, Copy, Default)]
struct Replayed {
    alike: bool,
    faces: u64,
}

// A recorded model, replayed and checked by either way.
fn agrees(recorded: Recorded) -> Replayed {
    let mut findings = [lent::MARK; 32768];
    let mut out = [0u8; 65600];
    lent::run_model(recorded.model, &mut findings, &mut out);
    let sought = ways::by_either(recorded.model);
    Replayed {
        alike: sought.is_some() & is_front(&findings, recorded.records),
        faces: sought.unwrap_or(0),
    }
}

// ---- many models

// Counts a model, with a line if it differs.
fn counted(rt: &impl Print, t: Tally, model: Replayed) -> io::Result<Tally> {
    if !model.alike {
        println!(rt; "model {} differs", t.models)?;
    }
    Ok(Tally {
        models: test_support::more(t.models, true),
        agree: test_support::more(t.agree, model.alike),
        faces: t.faces.wrapping_add(model.faces),
    })
}

// The models of a file, one after the other. What is cut short counts as one that differs.
fn replay(rt: &impl Print, s: &[u8], before: Tally) -> io::Result<Tally> {
    let mut t = before;
    for entry in Entries::<Recorded>::new(s) {
        let model = match entry {
            Ok(recorded) => agrees(recorded),
            Err(_) => Replayed::default(),
        };
        t = counted(rt, t, model)?;
    }
    Ok(t)
}

// The line with the counts.
fn count(rt: &impl Print, t: Tally) -> io::Result<()> {
    print!(rt; "{} models: {} agree, ", t.models, t.agree)?;
    println!(rt; "by either way; {} faces sought each way", t.faces)
}

const PARTS: [&str; 10] = [
    "part-0", "part-1", "part-2", "part-3", "part-4", "part-5", "part-6", "part-7", "part-8",
    "part-9",
];

// The files part-0 to part-9, those that data/ has.
fn replay_parts<R: Files + Print>(rt: &R) -> io::Result<()> {
    let mut t = Tally::default();
    for name in PARTS {
        let mut buf = [0u8; 65536];
        if let Some(s) = test_support::read_file(rt, name, &mut buf) {
            t = replay(rt, s, t)?;
        }
    }
    count(rt, t)
}

// ---- pins

// A pin: a name and a recorded model. The length of its name stands in a byte before it.
#[derive(Clone, Copy)]
struct Pin<'a> {
    name: &'a [u8],
    recorded: Recorded<'a>,
}

impl<'a> Entry<'a> for Pin<'a> {
    fn split_first(list: &'a [u8]) -> Option<(Pin<'a>, &'a [u8])> {
        let (size, rest) = list.split_first()?;
        let (name, rest) = rest.split_at_checked(*size as usize)?;
        let (recorded, rest) = Recorded::split_first(rest)?;
        Some((Pin { name, recorded }, rest))
    }
}

// The pins of a list, one after the other.
fn replay_pins(rt: &impl Print, s: &[u8]) -> io::Result<()> {
    for entry in Entries::<Pin>::new(s) {
        match entry {
            Ok(pin) => test_support::tell_agrees(rt, pin.name, agrees(pin.recorded).alike)?,
            Err(_) => test_support::tell_agrees(rt, b"a pin cut short", false)?,
        }
    }
    Ok(())
}

// The files of data/.
pub fn replay_all<R: Files + Print>(rt: &R) -> io::Result<()> {
    replay_parts(rt)?;
    let mut buf = [0u8; 65536];
    match test_support::read_file(rt, "pins", &mut buf) {
        Some(s) => replay_pins(rt, s),
        None => Ok(()),
    }
}
