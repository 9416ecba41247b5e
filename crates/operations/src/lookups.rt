// The ring lookup, face owners and the area test on small models: rings and owners, or why they are refused.
use crate::nodes;
use mesh::{Checks, RingList};
use std::io;

// The end of a line: words.
fn list(rt: &impl Print, words: &[u32]) -> io::Result<()> {
    for word in words {
        print!(rt; " {word}")?;
    }
    println!(rt; "")
}

// ---- the ring lookup

// A raw ring list, one word too long.
const RAW: [u32; 13] = [
    101, 102, 103, 104, 105, 106, 107, 108, 109, 110, 111, 112, 113,
];

// A welded ring list of a tetrahedron.
const WELDED: [u32; 12] = [201, 202, 203, 204, 205, 206, 207, 208, 209, 210, 211, 212];

// A lookup of a face of a tetrahedron, in a raw list of so many words.
#[derive(Clone, Copy)]
struct Look {
    name: &'static str,
    len: usize,
    which: RingList,
    face: usize,
    checks: Checks,
}

// Two rings, then refused with 12, 4, 4 and 10.
const LOOKS: [Look; 6] = [
    Look {
        name: "raw face 0",
        len: 12,
        which: RingList::Raw,
        face: 0,
        checks: Checks::ALL,
    },
    Look {
        name: "welded face 3",
        len: 12,
        which: RingList::Welded,
        face: 3,
        checks: Checks::ALL,
    },
    Look {
        name: "face 4 of four",
        len: 12,
        which: RingList::Raw,
        face: 4,
        checks: Checks::ALL,
    },
    Look {
        name: "face 4 of four, a list of 13 words",
        len: 13,
        which: RingList::Raw,
        face: 4,
        checks: Checks::ALL,
    },
    Look {
        name: "face 0, a list of 11 words",
        len: 11,
        which: RingList::Welded,
        face: 0,
        checks: Checks::ALL,
    },
    Look {
        name: "face 0, a list of 11 words, flags 4",
        len: 11,
        which: RingList::Welded,
        face: 0,
        checks: nodes::TOO_MANY,
    },
];

// Why each lookup is refused, 0 where it isn't, and the ring that it hands back.
fn look_all(rt: &impl Print) -> io::Result<()> {
    for look in &LOOKS {
        let m = nodes::tetrahedron(look.checks);
        let raw = &RAW[..look.len.min(RAW.len())];
        let judged = faces::judge_lookup(&m, raw, &WELDED, look.face);
        println!(rt; "{} {}", look.name, test_support::refused(judged))?;
        print!(rt; "  part")?;
        list(
            rt,
            faces::ring_lookup(&m, raw, &WELDED, look.which, look.face),
        )?;
    }
    Ok(())
}

// ---- face owners

// A trial of face owners: the face, and how many owners there is room for.
#[derive(Clone, Copy)]
struct Own {
    name: &'static str,
    face: usize,
    room: usize,
}

// As many as fit, then twice refused with 12.
const OWNS: [Own; 5] = [
    Own {
        name: "face 3",
        face: 3,
        room: 4,
    },
    Own {
        name: "face 3",
        face: 3,
        room: 2,
    },
    Own {
        name: "face 0",
        face: 0,
        room: 4,
    },
    Own {
        name: "face 6 of six",
        face: 6,
        room: 4,
    },
    Own {
        name: "face 7 of six",
        face: 7,
        room: 4,
    },
];

// The owners of faces of a tetrahedron and of a PHED that holds one of its faces twice, or why they are refused.
fn own_all(rt: &impl Print) -> io::Result<()> {
    for own in &OWNS {
        let mut room = [9u32; 4];
        let lent = &mut room[..own.room.min(4)];
        match owners::face_owners(&nodes::both(), own.face, lent) {
            Err(e) => println!(rt; "{} {}", own.name, e.number())?,
            Ok(n) => {
                print!(rt; "held {n} times by")?;
                list(rt, lent)?;
            }
        }
    }
    Ok(())
}

// ---- the area test

// An area test: the last of three nodes, how many nodes with those behind them that are 0, and the tolerance.
#[derive(Clone, Copy)]
struct Test {
    name: &'static str,
    last: u32,
    many: usize,
    tolerance: f64,
}

// Answered, then refused with 5, 6, 12 and 12.
const TESTS: [Test; 5] = [
    Test {
        name: "area of three nodes",
        last: 2,
        many: 3,
        tolerance: 0.0,
    },
    Test {
        name: "area of 65 nodes",
        last: 2,
        many: 65,
        tolerance: -1.0,
    },
    Test {
        name: "area of 64 nodes, tolerance below zero",
        last: 2,
        many: 64,
        tolerance: -1.0,
    },
    Test {
        name: "area of 64 nodes, not ascending",
        last: 2,
        many: 64,
        tolerance: 0.0,
    },
    Test {
        name: "area of a node too large",
        last: 4,
        many: 3,
        tolerance: 0.0,
    },
];

// Why each area test is refused, 0 where it isn't.
fn test_all(rt: &impl Print) -> io::Result<()> {
    for test in &TESTS {
        let mut nodes = [0u32; 65];
        nodes[1] = 1;
        nodes[2] = test.last;
        let says = area::area_test(&nodes::CORNERS, &nodes[..test.many.min(65)], test.tolerance);
        println!(rt; "{} {}", test.name, test_support::refused(says))?;
    }
    Ok(())
}

pub fn run(rt: &impl Print) -> io::Result<()> {
    look_all(rt)?;
    own_all(rt)?;
    test_all(rt)
}
