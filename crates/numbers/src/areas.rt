// A recorded area test: the number of nodes and the length of the list in four bytes each, the tolerance, three coordinates a node, the
// list in four bytes each, document 01's answer as our number, and whether the Rust says that the nodes span an area.
ghost use Rattle.std.specs.Prelude.{◌≤◌};

use area::Area;
use refusals::Refusal;

// What is recorded in place of the answer's number where the test is refused.
const REFUSED: u32 = 5;

// A recorded test.
#[derive(Clone, Copy)]
struct Test<'a> {
    tolerance: f64,
    coords: &'a [u8],
    nodes: &'a [u8],
    number: u8,
    spans: u8,
}

// The test that the bytes are, with at most 64 nodes.
fn test_of(bytes: &[u8]) -> Option<Test<'_>> {
    let (head, rest) = bytes.split_first_chunk::<16>()?;
    let (coords, rest) = rest.split_at_checked(24 * test_support::four(head, 0))?;
    let (nodes, rest) = rest.split_at_checked(4 * test_support::four(head, 4))?;
    let (end, rest) = rest.split_first_chunk::<2>()?;
    if !rest.is_empty() {
        return None;
    }
    Some(Test {
        tolerance: floats::get(head, 8),
        coords,
        nodes,
        number: end[0],
        spans: end[1],
    })
}

// The answer to a test; none where it has more than 64 nodes.
fn answer(test: &Test) -> Option<Result<Area, Refusal>> {
    let mut coords = [0.0f64; 192];
    let mut nodes = [0u32; 64];
    let coords = coords.get_mut(..test.coords.len() / 8)?;
    let nodes = nodes.get_mut(..test.nodes.len() / 4)?;
    test_support::read(test.coords, coords);
    test_support::read(test.nodes, nodes);
    Some(area::area_test(coords, nodes, test.tolerance))
}

// Our number of an answer.
fn number(answer: Result<Area, Refusal>) -> u32 {
    match answer {
        Ok(says) => u32::from(says),
        Err(_) => REFUSED,
    }
}

// The answer to a test is the recorded one, and 'spans' where the Rust says so. A test has at most 64 nodes.
pub fn agrees(bytes: &[u8]) -> bool {
    let Some(test) = test_of(bytes) else {
        return false;
    };
    let Some(says) = answer(&test) else {
        return false;
    };
    let spans = says == Ok(Area::Spans);
    (number(says) == test.number as u32) & (spans == (test.spans == 1))
}
