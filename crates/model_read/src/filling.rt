// The filling pass: what each record adds to the lists.
ghost use Rattle.std.specs.Prelude.{◌≡◌, Some, ◌+◌, ◌*◌, ◌-◌, ◌≤◌, ◌<◌, ◌^◌, ltb, length, take, drop};
ghost use Rattle.std.proofs.lemmas.List.Edits.{sets};
ghost use Rattle.laws.specs.Bytes.{number};
ghost use Rattle.model_file.specs.Records.{letter, widen, words_at, count, coords_in, ends_in};
ghost use Rattle.model_read.specs.Steps.{after, Nodes, node_coords, words_between, Stored, Room, Put, Fitting, Filled};

use crate::Place;
use crate::judging::place_after;
use model_file::Letter;

// Two bytes as a word of the model.
fn word_at(r: &[u8; 32], at: usize) -> u32
    requires { at + 2 ≤ 32 }
    ensures { result ≡ widen (number (take 2 (drop at r.now))) }
{
    let w: u16 = floats::get(r, at);
    if w == 65535 {
        return mesh::SEPARATOR;
    }
    w as u32
}

// The coordinates of an N.
fn put_node(r: &[u8; 32], coords: &mut [f64], at: usize)
    requires { at + 3 ≤ length coords.old }
    ensures { coords.new ≡ sets coords.old at (coords_in (Some Letter.Node) r.now) }
{
    coords[at] = floats::get(r, 8);
    coords[at + 1] = floats::get(r, 16);
    coords[at + 2] = floats::get(r, 24);
}

// An open cell ends after so many words.
fn put_end(ends: &mut [u32], cells: usize, words: usize)
    requires { (cells ≤ length ends.old) × (words < 2 ^ 32) }
    ensures { ends.new ≡ sets ends.old (cells - 1) (ends_in (Some Letter.Cell) (ltb 0 cells) words) }
{
    if 0 < cells {
        ends[cells - 1] = words as u32;
    }
}

// N words of a C or K, from the j-th on. N is a constant, so the compiler unrolls the loop: with one over all words reading a file of
// hexahedra took 130 instructions a record, and with these 65 (docs/SPEED.md).
fn put_some<const N: usize>(r: &[u8; 32], words: &mut [u32], at: usize, j: usize)
    requires { (j + N ≤ 14) × (at + j + N ≤ length words.old) }
    ensures { words.new ≡ sets words.old (at + j) (words_between j (j + N) r.now) }
{
    for i in 0..N {
        words[at + j + i] = word_at(r, 4 + 2 * (j + i));
    }
}

// N more of n words behind j, where there are as many; how many are stored then.
fn put_next<const N: usize>(r: &[u8; 32], words: &mut [u32], at: usize, n: usize, j: usize) -> usize
    requires { (n ≤ 14) × (at + n ≤ length words.old) × (j ≤ n) × (n < j + 2 * N) }
    ensures { Stored r.now at n j result N words.old words.new }
{
    if n - j < N {
        return j;
    }
    put_some::<N>(r, words, at, j);
    j + N
}

// The words of a C or K.
fn put_words(r: &[u8; 32], words: &mut [u32], at: usize)
    requires { (count r.now ≤ 14) × (at + count r.now ≤ length words.old) }
    ensures { words.new ≡ sets words.old at (words_at (count r.now) (drop 4 r.now)) }
{
    let n = r[2] as usize;
    if n == 14 {
        put_some::<14>(r, words, at, 0);
        return;
    }
    let i = put_next::<8>(r, words, at, n, 0);
    let j = put_next::<4>(r, words, at, n, i);
    let k = put_next::<2>(r, words, at, n, j);
    put_next::<1>(r, words, at, n, k);
}

// What a record with this letter adds to the lists behind the leading nodes. They stay apart: of a struct that holds them
// each contract would say, list by list, that it still holds the same borrow.
fn fill_by(l: Letter, r: &[u8; 32], kinds: &mut [u8], ends: &mut [u32], words: &mut [u32], p: Place)
    requires { Room (Some l) r.now p (length kinds.old) (length ends.old) (length words.old) }
    ensures { Put (Some l) r.now p kinds.old kinds.new ends.old ends.new words.old words.new }
{
    match l {
        Letter::Node => {}
        Letter::Cell => {
            put_end(ends, p.cells, p.words);
            kinds[p.cells] = r[1];
            put_words(r, words, p.words);
        }
        Letter::More => put_words(r, words, p.words),
        Letter::Last => put_end(ends, p.cells, p.words),
    }
}

// What a record adds, and the place after it.
fn fill_record(
    r: &[u8; 32],
    kinds: &mut [u8],
    ends: &mut [u32],
    words: &mut [u32],
    p: Place,
) -> Place
    requires { Room (letter r.now) r.now p (length kinds.old) (length ends.old) (length words.old) }
    ensures place { result ≡ after (letter r.now) r.now p }
    ensures lists { Put (letter r.now) r.now p kinds.old kinds.new ends.old ends.new words.old words.new }
{
    let Ok(l) = Letter::try_from(r[0]) else {
        return p;
    };
    fill_by(l, r, kinds, ends, words, p);
    place_after(l, r, p)
}

// The coordinates of records that are N.
fn fill_nodes(nodes: &[[u8; 32]], coords: &mut [f64])
    requires { 3 * length nodes.now ≤ length coords.old }
    ensures { coords.new ≡ sets coords.old 0 (node_coords nodes.now) }
{
    for (i, r) in nodes.iter().enumerate() {
        put_node(r, coords, 3 * i);
    }
}

// The filling pass: the coordinates of the leading nodes, which are all, then record by record.
pub fn fill_all(
    records: &[[u8; 32]],
    coords: &mut [f64],
    kinds: &mut [u8],
    ends: &mut [u32],
    words: &mut [u32],
    nodes: usize,
)
    requires { Fitting records.now (length coords.old) (length kinds.old) (length ends.old) (length words.old) × Nodes records.now nodes }
    ensures { Filled records.now coords.old coords.new kinds.old kinds.new ends.old ends.new words.old words.new }
{
    fill_nodes(&records[..nodes], coords);
    let mut p = Place {
        coords: 3 * nodes,
        cells: 0,
        words: 0,
    };
    let rest = &records[nodes..];
    for r in rest {
        p = fill_record(r, kinds, ends, words, p);
    }
}
