// Reading a model file into lent lists.
#![tactic(auto)]

ghost use Rattle.std.specs.Prelude.{◌≡◌};
ghost use Rattle.model_file.specs.File.{length_off};
ghost use Rattle.model_file.specs.Reading.{Reading};
ghost use Rattle.model_read.specs.Steps.{short as short_of, found_at};

use filling::fill_all;
use judging::{judge_all, leading_nodes};
use mesh::Checks;
use model_file::Found;
use refusals::Refusal;

mod judging; // one pass over the records: the first refusal, or how much the file holds
mod filling; // one more pass, which fills the lists

// How many coordinates, cells and words the records up to one hold: where what the next holds goes.
#[derive(Clone, Copy)]
struct Place {
    coords: usize,
    cells: usize,
    words: usize,
}

// What a file says besides its lists, by its last record.
fn found_in(r: &[u8; 32], p: Place) -> Found
    ensures { result ≡ found_at r.now p }
{
    Found {
        nodes: p.coords / 3,
        cells: p.cells,
        words: p.words,
        tolerance: floats::get(r, 8),
        checks: Checks(r[1]),
        cap: floats::get(r, 2),
    }
}

// 1: so many bytes are none, no multiple of 32 or too many.
fn length_off(n: usize) -> bool
    ensures { result ≡ length_off n }
{
    let none = n == 0;
    let part = n % 32 != 0;
    let over = 131072 < n / 32;
    none | part | over
}

// 4: lists of these lengths, one of them too short.
fn room_off(p: Place, coords: usize, kinds: usize, ends: usize, words: usize) -> bool
    ensures { result ≡ short_of p coords kinds ends words }
{
    let a = coords < p.coords;
    let b = kinds < p.cells;
    let c = ends < p.cells;
    let d = words < p.words;
    a | b | c | d
}

// The public operation: judges the whole file, then the room, and fills nothing before.
pub fn read(
    bytes: &[u8],
    coords: &mut [f64],
    kinds: &mut [u8],
    ends: &mut [u32],
    words: &mut [u32],
) -> Result<Found, Refusal>
    ensures { Reading bytes.now coords.old coords.new kinds.old kinds.new ends.old ends.new words.old words.new result }
{
    if length_off(bytes.len()) {
        return Err(Refusal::FileLength);
    }
    let (records, _) = bytes.as_chunks::<32>();
    let nodes = leading_nodes(records);
    let p = judge_all(records, nodes)?;
    if room_off(p, coords.len(), kinds.len(), ends.len(), words.len()) {
        return Err(Refusal::Room);
    }
    fill_all(records, coords, kinds, ends, words, nodes);
    Ok(found_in(&records[records.len() - 1], p))
}
