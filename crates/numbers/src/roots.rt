// Recorded roots: pairs of patterns, a value and its root.
use std::io;
use std::rt::Files;

// The root of the first eight bytes is the pattern that the next eight hold.
fn agrees(pair: &[u8; 16]) -> bool {
    let wanted: u64 = floats::get(pair, 8);
    floats::to_bits(floats::sqrt(floats::get(pair, 0))) == wanted
}

// How many pairs the list has, and how many agree; bytes that make no pair are left out.
fn tally(list: &[u8]) -> (usize, usize) {
    let (pairs, _) = list.as_chunks::<16>();
    let agree = pairs.iter().filter(|pair| agrees(pair)).count();
    (pairs.len(), agree)
}

// The roots of data/.
pub fn run<R: Files + Print>(rt: &R) -> io::Result<()> {
    let mut buf = [0u8; 65536];
    let (run, agree) = match test_support::read_file(rt, "roots", &mut buf) {
        Some(list) => tally(list),
        None => (0, 0),
    };
    println!(rt; "roots {run} agree {agree}")
}
