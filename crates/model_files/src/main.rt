// Published and damaged model files, read, and written back where they are accepted: what came of each.
// tools/model_files.py gives what must be printed, by a reading of its own.
#![tactic(auto)]

ghost use Rattle.std.specs.Prelude.{◌<◌};

use mesh::Model;
use refusals::Refusal;
use std::io;
use std::rt::Files;

// What came of writing back what was read: the bytes that were read, or others.
#[derive(Clone, Copy, PartialEq, Eq)]
enum Written {
    Same,
    Different,
}

// What came of a file that was read: what it holds; how it was written back.
#[derive(Clone, Copy)]
struct Outcome {
    nodes: usize,
    cells: usize,
    words: usize,
    sum: u64,
    written: Result<Written, Refusal>,
}

// A sum of numbers in which their order counts.
fn sum_of(l: &[u32], start: u64) -> u64 {
    let mut sum = start % 0x1_0000_0000;
    for x in l {
        sum = (sum * 31 + *x as u64) % 0x1_0000_0000;
    }
    sum
}

// Writes back what was read.
fn write_back(s: &[u8], model: &Model) -> Result<Written, Refusal> {
    let mut out = [0u8; 65536];
    let n = model_write::write(model, &mut out)?;
    if out.get(..n) == Some(s) {
        Ok(Written::Same)
    } else {
        Ok(Written::Different)
    }
}

// Reads into lists of which the longest files need more, and writes back. None where a model was read that the lists don't hold: `read`
// refuses those, and here it would be seen if it did not.
fn trial(s: &[u8]) -> Result<Option<Outcome>, Refusal> {
    let mut coords = [0.0; 2000];
    let mut kinds = [0u8; 400];
    let mut ends = [0u32; 400];
    let mut words = [0u32; 4000];
    let f = model_read::read(s, &mut coords, &mut kinds, &mut ends, &mut words)?;
    let Some(model) = f.model(&coords, &kinds, &ends, &words) else {
        return Ok(None);
    };
    Ok(Some(Outcome {
        nodes: f.nodes,
        cells: f.cells,
        words: f.words,
        sum: sum_of(model.words, sum_of(model.ends, 0)),
        written: write_back(s, &model),
    }))
}

// ---- printing

// A line's end: why reading refuses, 255 where it should have, or what was read, and what came of writing it back.
fn say_outcome(rt: &impl Print, outcome: Result<Option<Outcome>, Refusal>) -> io::Result<()> {
    let t = match outcome {
        Err(e) => return println!(rt; " {e}"),
        Ok(None) => return println!(rt; " refused 255"),
        Ok(Some(t)) => t,
    };
    print!(rt;
        " nodes {} cells {} words {} sum {}",
        t.nodes, t.cells, t.words, t.sum
    )?;
    match t.written {
        Err(e) => println!(rt; " not written {}", e.number()),
        Ok(Written::Same) => println!(rt; " the same"),
        Ok(Written::Different) => println!(rt; " DIFFERENT"),
    }
}

// The number that refuses, A for 10; reading and writing refuse with no higher one, which would be a question mark.
fn digit(refused: Refusal) -> char {
    match refused {
        Refusal::Flags => 'A',
        _ => char::from_digit(refused.number() as u32, 10).unwrap_or('?'),
    }
}

// One letter for an outcome: the number that refuses, ? where reading should have refused, = for the same bytes, ! for others.
fn letter(outcome: Result<Option<Outcome>, Refusal>) -> char {
    let t = match outcome {
        Err(e) => return digit(e),
        Ok(None) => return '?',
        Ok(Some(t)) => t,
    };
    match t.written {
        Err(e) => digit(e),
        Ok(Written::Same) => '=',
        Ok(Written::Different) => '!',
    }
}

// ---- the files

// Published case n, where data/ has it.
fn published<R: Files + Print>(rt: &R, n: usize) -> io::Result<()> {
    let mut buf = [0u8; 65536];
    let Some(s) = test_support::read_case(rt, n, "in", &mut buf) else {
        return Ok(());
    };
    print!(rt; "case-{n:04}.in")?;
    say_outcome(rt, trial(s))
}

fn all_published<R: Files + Print>(rt: &R) -> io::Result<()> {
    for n in 0..1000 {
        published(rt, n)?;
    }
    Ok(())
}

// ---- damage

// Each byte of s changed in turn, for one trial.
fn damage_all(rt: &impl Print, s: &mut [u8], by: u8) -> io::Result<()> {
    for p in 0..s.len() {
        let b = s[p];
        s[p] = b.wrapping_add(by);
        print!(rt; "{}", letter(trial(s)))?;
        s[p] = b;
        if p % 32 == 31 {
            println!(rt; "")?;
        }
    }
    Ok(())
}

// The file cut short behind each record, of 2,048 at most. By number: a turn takes the first n records, which `chunks` does not give.
fn cut_all(rt: &impl Print, s: &[u8]) -> io::Result<()> {
    for n in 0..(s.len() / 32 + 1).min(2048) {
        print!(rt; "{}", letter(trial(&s[..32 * n])))?;
    }
    println!(rt; "")
}

fn damages(rt: &impl Print, s: &mut [u8]) -> io::Result<()> {
    say_outcome(rt, trial(s))?;
    cut_all(rt, s)?;
    damage_all(rt, s, 1)?;
    damage_all(rt, s, 128)
}

// A file that is not there is one without bytes.
fn damaged<R: Files + Print>(rt: &R) -> io::Result<()> {
    let mut buf = [0u8; 65536];
    let file = test_support::read_file(rt, "good.in", &mut buf);
    print!(rt; "good.in")?;
    match file {
        Some(s) => damages(rt, s),
        None => damages(rt, &mut []),
    }
}

fn main(rt: HostRuntime) -> io::Result<()> {
    all_published(&rt)?;
    damaged(&rt)
}
