// Why an operation refuses.
#![tactic(auto)]

ghost use Rattle.std.specs.Prelude.{◌≡◌, ◌<◌};
ghost use Rattle.refusals.specs.Told.{number};

use std::error::Error;
use std::fmt;

// The reasons, each under the number that callers are told.
#[derive(Clone, Copy, Debug, PartialEq, Eq)]
pub enum Refusal {
    // a file's length is 0, no multiple of 32 or over the limit
    FileLength = 1,
    // a record's letter is unknown or misplaced, or no T is last
    Letter = 2,
    // a record's count or zero byte is wrong
    RecordBytes = 3,
    // a lent array is too short, or a list is not as long as it must be
    Room = 4,
    // over a limit, or lists that do not fit together
    Shape = 5,
    // the tolerance is not finite or below zero
    Tolerance = 6,
    // a coordinate is not finite or beyond the limit
    Coordinate = 7,
    // no cells, the Rust's `NoVolumeCells`
    NoCells = 8,
    // a cell's kind, kind order, word count, node number or ring length is wrong
    Cell = 9,
    // the check flags are over 3
    Flags = 10,
    // the lent work is too short
    Work = 11,
    // no such face, or a list of nodes that is not strictly ascending or has a number too large
    Number = 12,
    // the root of a NaN or of a number below zero
    Root = 13,
}

impl Refusal {
    // The number of the reason; 0 is none. A method: `e.number()` says at its many uses what `u8::from(e)` would not, and that none is 0 is a
    // second promise.
    pub fn number(self) -> u8
        ensures value { result ≡ number self }
        ensures nonzero { 0 < result }
    {
        self as u8
    }
}

impl fmt::Display for Refusal {
    fn fmt<W: fmt::Write>(&self, f: &mut fmt::Formatter<W>) -> fmt::Result {
        write!(f, "refused {}", self.number())
    }
}

impl Error for Refusal {}
