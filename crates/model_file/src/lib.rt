// The model file: the letters of its 32-byte records, the stages of a file, and what it holds besides the lists.
#![tactic(auto)]

ghost use Rattle.model_file.specs.Letters.{LetterRead};

use mesh::{Checks, Model};
use refusals::Refusal;

// What a record is, under its first byte.
#[derive(Clone, Copy, Debug, PartialEq, Eq)]
pub enum Letter {
    Node = 78,
    Cell = 67,
    More = 75,
    Last = 84,
}

impl From<Letter> for u8 {
    ghost use Rattle.std.specs.Prelude.{◌≡◌};
    ghost use Rattle.model_file.specs.Letters.{letter_byte};

    ghost from_gives = { λ letter byte. byte ≡ letter_byte letter };

    fn from(letter: Letter) -> u8 {
        letter as u8
    }
}

impl TryFrom<u8> for Letter {
    type Error = Refusal;

    ghost try_from_gives = { LetterRead };

    fn try_from(byte: u8) -> Result<Letter, Refusal> {
        match byte {
            78 => Ok(Letter::Node),
            67 => Ok(Letter::Cell),
            75 => Ok(Letter::More),
            84 => Ok(Letter::Last),
            _ => Err(Refusal::Letter),
        }
    }
}

// Where a file stands: at its start or after an N, after a cell's record, after a full one, after T.
#[derive(Clone, Copy, Debug, PartialEq, Eq)]
pub enum Stage {
    Nodes,
    Cells,
    Full,
    Done,
}

// What a file holds besides the lists.
#[derive(Clone, Copy)]
pub struct Found {
    pub nodes: usize,
    pub cells: usize,
    pub words: usize,
    pub tolerance: f64,
    pub checks: Checks,
    pub cap: u16,
}

impl Found {
    ghost use Rattle.std.specs.Prelude.{◌≡◌, ◌↔◌, IsSome, IfSome, length};
    ghost use Rattle.mesh.specs.Lent.{lent};
    ghost use Rattle.model_file.specs.Reading.{model_in};
    ghost use Rattle.model_file.specs.Parts.{Within};

    // The model that was found, in the filled parts of the lists; none where a list is shorter than what was found.
    pub fn model<'a>(
        &self,
        coords: &'a [f64],
        kinds: &'a [u8],
        ends: &'a [u32],
        words: &'a [u32],
    ) -> Option<Model<'a>>
        ensures variant { IsSome result ↔ Within self.now (length coords.now) (length kinds.now) (length ends.now) (length words.now) }
        ensures model { IfSome result (λ m. lent m ≡ model_in self.now coords.now kinds.now ends.now words.now) }
    {
        if coords.len() / 3 < self.nodes {
            return None;
        }
        Some(Model {
            coords: &coords[..3 * self.nodes],
            kinds: kinds.get(..self.cells)?,
            ends: ends.get(..self.cells)?,
            words: words.get(..self.words)?,
            tolerance: self.tolerance,
            checks: self.checks,
            cap: self.cap,
        })
    }
}
