// The model: its check flags, and why it is refused; one pass over its cells judges and counts.
#![tactic(auto)]

ghost use Rattle.std.specs.Prelude.{◌≡◌, not, true, false, ◌≤◌, ◌<◌, ltb, eqb, length, is_none, IfSome};
ghost use Rattle.laws.specs.Limits.{cell_limit, word_limit, flag_limit};
ghost use Rattle.laws.specs.Lists.{any};
ghost use Rattle.laws.specs.Refusals.{answer};
ghost use Rattle.refusals.specs.Told.{told_by};
ghost use Rattle.mesh.specs.Model.{cells_from, contains as containsOf, intersects as intersectsOf};
ghost use Rattle.mesh.specs.Lent.{lent};
ghost use Rattle.mesh.specs.Kinds.{kind_number, KindAfter};
ghost use Rattle.mesh.specs.Acceptance.{shape_off, ends_off, node_off, model_refusal};
ghost use Rattle.mesh.specs.Steps.{cell_with, RunsCounted, KindCounted};
ghost use Rattle.mesh.specs.Counted.{CellCounted, CellsCounted, MeshCounted};

pub use accepted::{Accepted, Cell, Cells};
pub use kind::Kind;
pub use model::{Model, RawCell, RawCells};
pub use phed::{PhedRings, SEPARATOR};
use refusals::Refusal;

mod accepted; // an accepted model, and its cells
mod kind; // the kinds of cells
mod model; // a model in lent lists, and its cells as they stand there
mod phed; // the rings of a PHED

// The most cells, words of all cells, and words of a ring.
const CELL_LIMIT: usize = 16384;

const WORD_LIMIT: usize = 262144;

const RING_LIMIT: usize = 64;

// The check flags.
#[derive(Clone, Copy)]
pub struct Checks(pub u8);

impl Checks {
    pub const TOPOLOGY: Checks = Checks(1);

    pub const BUTTERFLY: Checks = Checks(2);

    // Every check.
    pub const ALL: Checks = Checks(3);

    pub fn contains(self, other: Checks) -> bool
        ensures { result ≡ containsOf self.0 other.0 }
    {
        self.0 & other.0 == other.0
    }

    pub fn intersects(self, other: Checks) -> bool
        ensures { result ≡ intersectsOf self.0 other.0 }
    {
        self.0 & other.0 != 0
    }

    // A flag that is none of these.
    fn unknown(self) -> bool
        ensures { result ≡ ltb flag_limit self.0 }
    {
        Checks::ALL.0 < self.0
    }
}

// One of the two ring lists.
#[derive(Clone, Copy)]
pub enum RingList {
    Raw,
    Welded,
}

// What is counted of cells: faces and ring words.
#[derive(Clone, Copy)]
pub struct CellTally {
    pub faces: usize,
    pub words: usize,
}

// Ends descend, or the last is not n.
fn ends_off(ends: &[u32], n: usize) -> bool
    ensures { result ≡ ends_off 0 ends.now n }
{
    let mut at = 0;
    for end in ends {
        let e = *end as usize;
        if e < at {
            return true;
        }
        at = e;
    }
    at != n
}

// A PHED's rings, one by one; none where one is too long. That the words are few is asked here and of the three below, and not held by a
// type: these words are judged only now.
fn tally_runs(words: &[u32]) -> Option<CellTally>
    requires { length words.now < 4294967296 }
    ensures { RunsCounted words.now result }
{
    let mut t = CellTally { faces: 0, words: 0 };
    for ring in PhedRings::new(words) {
        if RING_LIMIT < ring.len() {
            return None;
        }
        t.faces += 1;
        t.words += ring.len();
    }
    Some(t)
}

// A word that is no node's number, and in a PHED no separator.
fn node_off(nodes: usize, kind: Kind, word: u32) -> bool
    ensures { result ≡ node_off nodes (kind_number kind) word }
{
    let large = nodes <= word as usize;
    let phed = kind == Kind::Phed;
    let separates = word == SEPARATOR;
    large & !(phed & separates)
}

// Some word is. Every word is tested, with no early exit, so that the compiler makes vector code of the loop; `any` ends at the first.
fn nodes_off(nodes: usize, kind: Kind, words: &[u32]) -> bool
    ensures { result ≡ any (node_off nodes (kind_number kind)) words.now }
{
    let mut off = false;
    for word in words {
        off |= node_off(nodes, kind, *word);
    }
    off
}

// The same, with no word read where all are known to be `good`: the promise binds the flag to the words, so it is not believed.
fn nodes_off_unless(nodes: usize, kind: Kind, words: &[u32], good: bool) -> bool
    requires { good ≡ true → any (node_off nodes (kind_number kind)) words.now ≡ false }
    ensures { result ≡ any (node_off nodes (kind_number kind)) words.now }
{
    if good {
        return false;
    }
    nodes_off(nodes, kind, words)
}

// A cell of so many words, where it must have `wanted`, with so many faces and ring words.
fn tally_fixed(len: usize, wanted: usize, faces: usize, words: usize) -> Option<CellTally>
    ensures off { is_none result ≡ not (eqb len wanted) }
    ensures tallied { IfSome result (λ t. (t.faces ≡ faces) × (t.words ≡ words)) }
{
    if len != wanted {
        return None;
    }
    Some(CellTally { faces, words })
}

// A PHED's faces; none where it has no word, or a ring too long.
fn tally_phed(words: &[u32]) -> Option<CellTally>
    requires { length words.now < 4294967296 }
    ensures { KindCounted (cell_with 4 words.now) result }
{
    if words.is_empty() {
        return None;
    }
    tally_runs(words)
}

// A cell's faces and ring words, by its kind; none where the word count or a ring's length is wrong.
fn tally_kind(kind: Kind, words: &[u32]) -> Option<CellTally>
    requires { length words.now < 4294967296 }
    ensures { KindCounted (cell_with (kind_number kind) words.now) result }
{
    match kind {
        Kind::Tet4 => tally_fixed(words.len(), 4, 4, 12),
        Kind::Hex8 => tally_fixed(words.len(), 8, 6, 24),
        Kind::Wedge6 => tally_fixed(words.len(), 6, 5, 18),
        Kind::Phed => tally_phed(words),
    }
}

// The kind of a cell after one of kind number `before`, 0 for none.
// Compared as numbers: by a derived order of `Kind`, which reads a table, accepting tetrahedra takes 1.3 times as long.
fn kind_after(kind: u8, before: u8) -> Result<Kind, Refusal>
    ensures { KindAfter before kind result }
{
    if kind < before {
        return Err(Refusal::Cell);
    }
    Kind::try_from(kind)
}

// A cell whose kind is in order: count, then nodes, unless these are known to be `good`.
fn tally_cell(kind: Kind, words: &[u32], nodes: usize, good: bool) -> Result<CellTally, Refusal>
    requires { (length words.now < 4294967296) × (good ≡ true → any (node_off nodes (kind_number kind)) words.now ≡ false) }
    ensures { CellCounted nodes 0 (cell_with (kind_number kind) words.now) result }
{
    let t = tally_kind(kind, words).ok_or(Refusal::Cell)?;
    if nodes_off_unless(nodes, kind, words, good) {
        return Err(Refusal::Cell);
    }
    Ok(t)
}

// The cells in order: the first refusal, or all faces and ring words.
fn tally_cells(model: &Model, nodes: usize) -> Result<CellTally, Refusal>
    requires { (length model.now.kinds.now ≡ length model.now.ends.now) × (ends_off 0 model.now.ends.now (length model.now.words.now) ≡ false) × (length model.now.kinds.now ≤ cell_limit) × (length model.now.words.now ≤ word_limit) }
    ensures { CellsCounted nodes (cells_from 0 model.now.kinds.now model.now.ends.now model.now.words.now) result }
{
    // no word is off in a cell of any kind; none is off in a PHED
    let below = !nodes_off(nodes, Kind::Tet4, model.words);
    let sound = !nodes_off_unless(nodes, Kind::Phed, model.words, below);
    let mut all = CellTally { faces: 0, words: 0 };
    let mut before = 0;
    for cell in model.raw_cells() {
        let kind = kind_after(cell.kind, before)?;
        let good = below | (sound & (kind == Kind::Phed));
        let t = tally_cell(kind, cell.words, nodes, good)?;
        all.faces += t.faces;
        all.words += t.words;
        before = cell.kind;
    }
    Ok(all)
}

// Limits and lengths.
fn shape_off(model: &Model) -> bool
    ensures { result ≡ shape_off (lent model.now) }
{
    let count = geometry::count_off(model.coords.len());
    let cells = CELL_LIMIT < model.kinds.len();
    let many = WORD_LIMIT < model.words.len();
    let unequal = model.kinds.len() != model.ends.len();
    let wrong = ends_off(model.ends, model.words.len());
    count | cells | many | unequal | wrong
}

// The first of refusals 5 to 9, which look at no flags, or the faces and ring words.
pub fn judge_mesh(model: &Model) -> Result<CellTally, Refusal>
    ensures { MeshCounted (lent model.now) result }
{
    if shape_off(model) {
        return Err(Refusal::Shape);
    }
    if geometry::tolerance_off(model.tolerance) {
        return Err(Refusal::Tolerance);
    }
    if geometry::coordinates_off(model.coords) {
        return Err(Refusal::Coordinate);
    }
    if model.kinds.is_empty() {
        return Err(Refusal::NoCells);
    }
    tally_cells(model, model.node_count())
}

// The first of refusals 5 to 10, or the model as accepted.
pub fn accept<'a>(model: &Model<'a>) -> Result<Accepted<'a>, Refusal>
    ensures { told_by (λ a. lent a.model) result ≡ answer (model_refusal (lent model.now)) (lent model.now) }
{
    let t = judge_mesh(model)?;
    if model.checks.unknown() {
        return Err(Refusal::Flags);
    }
    Ok(Accepted {
        model: *model,
        faces: t.faces,
        ring_words: t.words,
    })
}
