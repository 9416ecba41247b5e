// The published cases: output and finding records, byte for byte, and the check by either way. A line for each case that differs, and
// one with the counts.
use crate::{lent, ways};
use std::io;
use std::rt::Files;

// Whether the output and the records of a case are the published ones, and both ways of seeking agree.
#[derive(Clone, Copy)]
struct Agrees {
    output: bool,
    records: bool,
    ways: bool,
}

// How many cases were run, of how many the output, the records and the ways agree, and how many faces were sought each way.
#[derive(Clone, Copy, Default)]
struct Tally {
    cases: u64,
    outputs: u64,
    records: u64,
    ways: u64,
    faces: u64,
}

// The file of case n with that ending is s.
fn is_file(rt: &impl Files, n: usize, ending: &str, s: &[u8]) -> bool {
    let mut buf = [0u8; 65601];
    match test_support::read_case(rt, n, ending, &mut buf) {
        Some(file) => *file == *s,
        None => false,
    }
}

// That file stands in front of s, and all behind it is as it was.
fn is_front(rt: &impl Files, n: usize, ending: &str, s: &[u8]) -> bool {
    let mut buf = [0u8; 65601];
    let Some(file) = test_support::read_case(rt, n, ending, &mut buf) else {
        return false;
    };
    match s.strip_prefix(file) {
        Some(behind) => lent::unmarked(behind),
        None => false,
    }
}

// The program on the bytes of case n, compared.
fn compared(rt: &impl Files, n: usize, input: &[u8], ways: bool) -> Agrees {
    let mut findings = [lent::MARK; 32768];
    let mut out = [0u8; 65600];
    let printed = lent::run_model(input, &mut findings, &mut out);
    Agrees {
        output: is_file(rt, n, "out", printed),
        records: is_front(rt, n, "rec", &findings),
        ways,
    }
}

// A line for a case that differs.
fn tell(rt: &impl Print, n: usize, a: Agrees) -> io::Result<()> {
    let agree = a.output & a.records & a.ways;
    if agree {
        return Ok(());
    }
    print!(rt; "case-{n:04}")?;
    if !a.output {
        print!(rt; ": the output differs")?;
    }
    if !a.records {
        print!(rt; ": the records differ")?;
    }
    if !a.ways {
        print!(rt; ": the ways differ")?;
    }
    println!(rt; "")
}

// Case n, where data/ has it.
fn replay<R: Files + Print>(rt: &R, n: usize, t: Tally) -> io::Result<Tally> {
    let mut buf = [0u8; 65536];
    let Some(input) = test_support::read_case(rt, n, "in", &mut buf) else {
        return Ok(t);
    };
    let sought = ways::by_either(input);
    let a = compared(rt, n, input, sought.is_some());
    tell(rt, n, a)?;
    Ok(Tally {
        cases: test_support::more(t.cases, true),
        outputs: test_support::more(t.outputs, a.output),
        records: test_support::more(t.records, a.records),
        ways: test_support::more(t.ways, a.ways),
        faces: t.faces.wrapping_add(sought.unwrap_or(0)),
    })
}

// The line with the counts.
fn count(rt: &impl Print, t: Tally) -> io::Result<()> {
    print!(rt;
        "{} cases: {} outputs and {} records agree, ",
        t.cases, t.outputs, t.records
    )?;
    println!(rt;
        "{} by either way; {} faces sought each way",
        t.ways, t.faces
    )
}

// All cases with a number of four digits.
pub fn replay_all<R: Files + Print>(rt: &R) -> io::Result<()> {
    let mut t = Tally::default();
    for n in 0..10000 {
        t = replay(rt, n, t)?;
    }
    count(rt, t)
}
