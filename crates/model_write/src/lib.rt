// Writing a model file into lent bytes.
#![tactic(auto)]

ghost use Rattle.std.specs.Prelude.{◌≡◌, ◌+◌, ◌*◌, ◌-◌, ◌/◌, ◌%◌, ◌≤◌, ◌<◌, length, take, drop};
ghost use Rattle.std.proofs.lemmas.List.Edits.{sets};
ghost use Rattle.laws.specs.Bytes.{bytes};
ghost use Rattle.laws.specs.Lists.{All, each};
ghost use Rattle.mesh.specs.Model.{cells_of};
ghost use Rattle.mesh.specs.Lent.{lent};
ghost use Rattle.mesh.specs.CellsRest.{cell_raw};
ghost use Rattle.model_file.specs.Held.{Fits, Held};
ghost use Rattle.model_file.specs.Letters.{letter_byte};
ghost use Rattle.model_file.specs.Records.{narrow, word_bytes, node_record, word_record, last_record};
ghost use Rattle.model_file.specs.File.{node_records, cell_records};
ghost use Rattle.model_file.specs.Steps.{join};
ghost use Rattle.model_file.specs.Writing.{Writing};

use mesh::{Accepted, Cell, Checks, Model};
use model_file::Letter;
use refusals::Refusal;

// ---- one record, 32 bytes

// N
fn node_record(x: f64, y: f64, z: f64) -> [u8; 32]
    ensures { result ≡ node_record x y z }
{
    let mut r = [0; 32];
    r[0] = u8::from(Letter::Node);
    floats::put(&mut r, 8, x);
    floats::put(&mut r, 16, y);
    floats::put(&mut r, 24, z);
    r
}

// T
fn last_record(checks: Checks, cap: u16, tolerance: f64) -> [u8; 32]
    ensures { result ≡ last_record checks.0 cap tolerance }
{
    let mut r = [0; 32];
    r[0] = u8::from(Letter::Last);
    r[1] = checks.0;
    floats::put(&mut r, 2, cap);
    floats::put(&mut r, 8, tolerance);
    r
}

// A word of the model as 16 bits: its low ones, which turn one separator into the other.
fn low_bits(w: u32) -> u16
    ensures { bytes 2 result ≡ bytes 2 (narrow w) }
{
    (w % 0x1_0000) as u16
}

// N words from the j-th on, as two bytes each, the first of all at byte 4. N is a constant: with one loop over the words writing
// a file takes up to 1.12 times the instructions.
fn put_some<const N: usize>(r: &mut [u8; 32], words: &[u32], j: usize)
    requires { (j + N ≤ length words.now) × (length words.now ≤ 14) }
    ensures { r.new ≡ sets r.old (4 + 2 * j) (word_bytes (take N (drop j words.now))) }
{
    for i in 0..N {
        floats::put(r, 4 + 2 * (j + i), low_bits(words[j + i]));
    }
}

// N more behind j, where there are as many; how many are put then.
fn put_next<const N: usize>(r: &mut [u8; 32], words: &[u32], j: usize) -> usize
    requires { (j ≤ length words.now) × (length words.now < j + 2 * N) × (length words.now ≤ 14) }
    ensures up { j ≤ result }
    ensures inside { result ≤ length words.now }
    ensures few { length words.now < result + N }
    ensures put { r.new ≡ sets r.old (4 + 2 * j) (word_bytes (take (result - j) (drop j words.now))) }
{
    if words.len() - j < N {
        return j;
    }
    put_some::<N>(r, words, j);
    j + N
}

// All words of a record.
fn put_words(r: &mut [u8; 32], words: &[u32])
    requires { length words.now ≤ 14 }
    ensures { r.new ≡ sets r.old 4 (word_bytes words.now) }
{
    if words.len() == 14 {
        put_some::<14>(r, words, 0);
        return;
    }
    let i = put_next::<8>(r, words, 0);
    let j = put_next::<4>(r, words, i);
    let k = put_next::<2>(r, words, j);
    put_next::<1>(r, words, k);
}

// C or K
fn word_record(letter: Letter, kind: u8, words: &[u32]) -> [u8; 32]
    requires { length words.now ≤ 14 }
    ensures { result ≡ word_record (letter_byte letter) kind words.now }
{
    let mut r = [0; 32];
    r[0] = u8::from(letter);
    r[1] = kind;
    r[2] = words.len() as u8;
    put_words(&mut r, words);
    r
}

// ---- all records

// All nodes, from the first byte on.
fn put_nodes(out: &mut [u8], coords: &[f64])
    requires { 32 * (length coords.now / 3) ≤ length out.old }
    ensures { out.new ≡ sets out.old 0 (join (node_records coords.now)) }
{
    let (nodes, _) = coords.as_chunks::<3>();
    for (i, [x, y, z]) in nodes.iter().enumerate() {
        floats::put(out, 32 * i, node_record(*x, *y, *z));
    }
}

// A cell: C, then as many K as its further words need; the place after them. By the place in the whole output, of which the promise is a run
// of stores.
fn put_cell(out: &mut [u8], at: usize, cell: &Cell) -> usize
    requires { at + 32 * (1 + (length cell.now.words.now - 1) / 14) ≤ length out.old }
    ensures put { out.new ≡ sets out.old at (join (cell_records (cell_raw cell.now))) }
    ensures place { result ≡ at + 32 * (1 + (length cell.now.words.now - 1) / 14) }
{
    let (first, rest) = cell.words.split_at(cell.words.len().min(14));
    floats::put(
        out,
        at,
        word_record(Letter::Cell, u8::from(cell.kind), first),
    );
    // p goes on by hand: the place behind the last is the answer
    let mut p = at + 32;
    for part in rest.chunks(14) {
        floats::put(out, p, word_record(Letter::More, 0, part));
        p += 32;
    }
    p
}

// How many records a cell of n words takes.
fn cell_size(n: usize) -> usize
    ensures { result ≡ 1 + (n - 1) / 14 }
{
    1 + n.saturating_sub(1) / 14
}

// How many records the cells take.
fn count_cells(model: &Accepted) -> usize
    ensures { result ≡ length (each cell_records (cells_of (lent model.now.model))) }
{
    let mut sum = 0;
    // no `map(..).sum()`: each sum on the way would have to be shown to fit of the closure's results alone
    for cell in model.cells() {
        sum += cell_size(cell.words.len());
    }
    sum
}

// All cells, from a place on, as each of them.
fn put_cells(out: &mut [u8], at: usize, model: &Accepted)
    requires { at + 32 * length (each cell_records (cells_of (lent model.now.model))) ≤ length out.old }
    ensures { out.new ≡ sets out.old at (join (each cell_records (cells_of (lent model.now.model)))) }
{
    let mut p = at;
    for cell in model.cells() {
        p = put_cell(out, p, &cell);
    }
}

// ---- the file

// What the types of these values say of them, as a promise: in the proof of `write` the types of a model's fields, behind a reference, have no
// name.
fn held(coords: &[f64], tolerance: f64, cap: u16)
    ensures { All Fits coords.now × Fits tolerance × (cap < 65536) }
{}

// The file of an accepted model.
fn write_accepted(model: &Accepted, out: &mut [u8]) -> Result<usize, Refusal>
    requires { Held (lent model.now.model) }
    ensures { Writing (lent model.now.model) out.old out.new result }
{
    let m = model.model;
    let n = m.node_count();
    let c = count_cells(model);
    let size = 32 * (n + c + 1);
    if out.len() < size {
        return Err(Refusal::Room);
    }
    put_nodes(out, m.coords);
    put_cells(out, 32 * n, model);
    floats::put(out, 32 * (n + c), last_record(m.checks, m.cap, m.tolerance));
    Ok(size)
}

// The public operation: writes a model's file, and answers its length.
pub fn write(model: &Model, out: &mut [u8]) -> Result<usize, Refusal>
    ensures { Writing (lent model.now) out.old out.new result }
{
    held(model.coords, model.tolerance, model.cap);
    let accepted = mesh::accept(model)?;
    write_accepted(&accepted, out)
}
