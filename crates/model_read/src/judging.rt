// The judging pass: records one by one, nothing stored.
ghost use Rattle.std.specs.Prelude.{◌≡◌, Some, ◌+◌, ◌%◌, ◌≤◌, ◌<◌, ◌^◌, length};
ghost use Rattle.std.proofs.Math.Seq.{slice};
ghost use Rattle.laws.specs.Bytes.{zeros};
ghost use Rattle.model_file.specs.Records.{misplaced, stage, record_off, words_right};
ghost use Rattle.model_read.specs.Steps.{after, Nodes, RecordJudged, Judged};

use crate::Place;
use model_file::{Letter, Stage};
use refusals::Refusal;

// Three sizes, each one number that is read at once: a loop over N bytes took 1.8 times the instructions to read a file, and over `Stored`
// each instance would owe a law of zero, for these three alone. Each match on a letter below is one definition of the papers.

// Whether eight bytes are zero.
fn zero_eight(r: &[u8; 32], at: usize) -> bool
    requires { at + 8 ≤ 32 }
    ensures { result ≡ zeros (slice at (at + 8) r.now) }
{
    floats::get::<u64, 8>(r, at) == 0
}

// Whether four bytes are zero.
fn zero_four(r: &[u8; 32], at: usize) -> bool
    requires { at + 4 ≤ 32 }
    ensures { result ≡ zeros (slice at (at + 4) r.now) }
{
    floats::get::<u32, 4>(r, at) == 0
}

// Whether two bytes are zero.
fn zero_two(r: &[u8; 32], at: usize) -> bool
    requires { at + 2 ≤ 32 }
    ensures { result ≡ zeros (slice at (at + 2) r.now) }
{
    floats::get::<u16, 2>(r, at) == 0
}

// Whether sixteen bytes are zero.
fn zero_sixteen(r: &[u8; 32], at: usize) -> bool
    requires { at + 16 ≤ 32 }
    ensures { result ≡ zeros (slice at (at + 16) r.now) }
{
    zero_eight(r, at) & zero_eight(r, at + 8)
}

// Whether a record's bytes from an even place on are zero: the first and the last of them, which may overlap.
fn rest_zero(r: &[u8; 32], from: usize) -> bool
    requires { (from % 2 ≡ 0) × (from ≤ 30) }
    ensures { result ≡ zeros (slice from 32 r.now) }
{
    if from <= 16 {
        return zero_sixteen(r, from) & zero_sixteen(r, 16);
    }
    if from <= 24 {
        return zero_eight(r, from) & zero_eight(r, 24);
    }
    if from <= 28 {
        return zero_four(r, from) & zero_four(r, 28);
    }
    zero_two(r, from)
}

// A count from `least` on, byte 3 and the unused words zero.
fn words_right(r: &[u8; 32], least: u8) -> bool
    ensures { result ≡ words_right least r.now }
{
    let n = r[2];
    if n < least {
        return false;
    }
    if 14 < n {
        return false;
    }
    if r[3] != 0 {
        return false;
    }
    if n == 14 {
        return true;
    }
    rest_zero(r, 4 + 2 * (n as usize))
}

// A count or zero byte is wrong.
fn record_off(l: Letter, r: &[u8; 32]) -> bool
    ensures { result ≡ record_off (Some l) r.now }
{
    match l {
        Letter::Node => !(zero_four(r, 1) & zero_four(r, 4)),
        Letter::Cell => !words_right(r, 0),
        Letter::More => {
            if r[1] != 0 {
                return true;
            }
            !words_right(r, 1)
        }
        Letter::Last => {
            if !zero_four(r, 4) {
                return true;
            }
            !zero_sixteen(r, 16)
        }
    }
}

// A letter is misplaced at a stage.
fn misplaced(s: Stage, l: Letter) -> bool
    ensures { result ≡ misplaced s (Some l) }
{
    match l {
        Letter::Node => s != Stage::Nodes,
        Letter::Cell => s == Stage::Done,
        Letter::More => s != Stage::Full,
        Letter::Last => s == Stage::Done,
    }
}

// A record's letter, where the record is not refused at a stage: 2 before 3.
fn judge_record(s: Stage, r: &[u8; 32]) -> Result<Letter, Refusal>
    ensures { RecordJudged s r.now result }
{
    let l = Letter::try_from(r[0])?;
    if misplaced(s, l) {
        return Err(Refusal::Letter);
    }
    if record_off(l, r) {
        return Err(Refusal::RecordBytes);
    }
    Ok(l)
}

// The stage after a C or K.
fn full(r: &[u8; 32]) -> Stage
    ensures { result ≡ stage (Some Letter.Cell) r.now }
{
    if r[2] == 14 {
        return Stage::Full;
    }
    Stage::Cells
}

// The stage after a record.
fn stage_after(l: Letter, r: &[u8; 32]) -> Stage
    ensures { result ≡ stage (Some l) r.now }
{
    match l {
        Letter::Node => Stage::Nodes,
        Letter::Cell => full(r),
        Letter::More => full(r),
        Letter::Last => Stage::Done,
    }
}

// The place after a record.
pub fn place_after(l: Letter, r: &[u8; 32], p: Place) -> Place
    requires { (p.coords < 2 ^ 40) × (p.cells < 2 ^ 40) × (p.words < 2 ^ 40) }
    ensures { result ≡ after (Some l) r.now p }
{
    match l {
        Letter::Node => Place {
            coords: p.coords + 3,
            ..p
        },
        Letter::Cell => Place {
            cells: p.cells + 1,
            words: p.words + r[2] as usize,
            ..p
        },
        Letter::More => Place {
            words: p.words + r[2] as usize,
            ..p
        },
        Letter::Last => p,
    }
}

// How many records from the first on are N with nothing wrong: their first eight bytes are 78 and zeros.
// Taken into its caller the loop keeps the places in the lists too, two instructions more a node.
#[inline(never)]
pub fn leading_nodes(records: &[[u8; 32]]) -> usize
    ensures { Nodes records.now result }
{
    for (n, r) in records.iter().enumerate() {
        if floats::get::<u64, 8>(r, 0) != 78 {
            return n;
        }
    }
    records.len()
}

// The judging pass, from behind the leading nodes on.
pub fn judge_all(records: &[[u8; 32]], nodes: usize) -> Result<Place, Refusal>
    requires { (length records.now ≤ 131072) × Nodes records.now nodes }
    ensures { Judged records.now result }
{
    let mut stage = Stage::Nodes;
    let mut p = Place {
        coords: 3 * nodes,
        cells: 0,
        words: 0,
    };
    let rest = &records[nodes..];
    for r in rest {
        let l = judge_record(stage, r)?;
        p = place_after(l, r, p);
        stage = stage_after(l, r);
    }
    if stage != Stage::Done {
        return Err(Refusal::Letter);
    }
    Ok(p)
}
