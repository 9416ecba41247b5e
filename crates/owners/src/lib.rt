// The owners of a face: the cells that hold its sorted ring.
#![tactic(auto)]

ghost use Rattle.std.specs.Prelude.{◌≡◌, [], ◌+◌, ◌≤◌, ◌<◌, ◌^◌, leb, length, get_or};
ghost use Rattle.laws.specs.Lists.{sort, eql};
ghost use Rattle.refusals.specs.Told.{told};
ghost use Rattle.mesh.specs.Model.{cells_of};
ghost use Rattle.mesh.specs.Lent.{lent};
ghost use Rattle.mesh.specs.Rings.{phed_rings, rings_of};
ghost use Rattle.mesh.specs.Lookup.{owners_answer, owners_after};
ghost use Rattle.mesh.specs.CellsRest.{cell_raw};
ghost use Rattle.mesh.specs.Steps.{ring_total};
ghost use Rattle.faces.specs.Spans.{rings_in};

use mesh::{Accepted, Cell, Kind, Model, PhedRings};
use refusals::Refusal;

// A ring's words in order, in the room lent.
fn sorted<'a>(ring: &[u32], room: &'a mut [u32; 64]) -> &'a [u32]
    requires { length ring.now ≤ 64 }
    ensures { result.now ≡ sort leb ring.now }
{
    let part = &mut room[..ring.len()];
    sorting::copy_words(ring, part);
    part.sort_unstable();
    part
}

// A ring, sorted, is the key.
fn same_ring(key: &[u32], ring: &[u32]) -> bool
    requires { length key.now ≤ 64 }
    ensures { result ≡ eql key.now (sort leb ring.now) }
{
    if key.len() != ring.len() {
        return false;
    }
    // most rings end here, unsorted
    if let Some(last) = ring.last() {
        if !key.contains(last) {
            return false;
        }
    }
    let mut room = [0; 64];
    key == sorted(ring, &mut room)
}

// A cell's ring, among its words or laid flat in the room lent.
fn cell_ring<'a>(cell: &Cell<'a>, face: usize, room: &'a mut [u32; 24]) -> &'a [u32]
    requires { face < length (rings_of (cell_raw cell.now)) }
    ensures { result.now ≡ get_or (rings_of (cell_raw cell.now)) face [] }
{
    match cell.kind {
        Kind::Phed => PhedRings::new(cell.words).nth(face).unwrap(),
        _ => {
            rings::put_cell(cell, room, 0);
            let s = faces::cell_span(cell.kind, cell.words, face);
            &room[s.start..s.end]
        }
    }
}

// A face's ring in order, in the room lent.
fn key_of<'a>(model: &Accepted, face: usize, room: &'a mut [u32; 64]) -> &'a [u32]
    requires { face < length (rings_in (lent model.now.model)) }
    ensures { (result.now ≡ sort leb (get_or (rings_in (lent model.now.model)) face [])) × (length result.now ≤ 64) }
{
    let p = faces::find_cell(model.cells(), face);
    let mut flat = [0; 24];
    sorted(cell_ring(&p.cell, p.face, &mut flat), room)
}

// The cells that hold the key, as often as they do: written as long as there is room, and all counted.
#[derive(Drop)]
struct Holders<'a> {
    key: &'a [u32],
    owners: &'a mut [u32],
    count: usize,
    ghost short: { length key.now ≤ 64 },
}

impl Holders<'_> {
    ghost use Rattle.owners.specs.Holding.{holder, holders, held};
    ghost use Rattle.owners.specs.Noted.{Noted};

    // A cell, where its ring has the key.
    fn note(&mut self, cell: u32, ring: &[u32])
        requires { self.old.count < 2 ^ 63 }
        ensures { Noted (holder self.old.key.now cell ring.now) self.old self.new }
    {
        if !same_ring(self.key, ring) {
            return;
        }
        let n = self.count;
        let room = self.owners.len();
        self.count = n + 1;
        if n < room {
            self.owners[n] = cell;
        }
    }

    // A PHED, ring by ring.
    fn note_phed(&mut self, number: u32, words: &[u32])
        requires { self.old.count + length (phed_rings words.now) < 2 ^ 63 }
        ensures { Noted (holders self.old.key.now number (phed_rings words.now)) self.old self.new }
    {
        for ring in PhedRings::new(words) {
            self.note(number, ring);
        }
    }

    // A cell of another kind, its rings laid flat.
    fn note_flat(&mut self, number: u32, cell: &Cell)
        requires { (ring_total (rings_of (cell_raw cell.now)) ≤ 24) × (self.old.count + length (rings_of (cell_raw cell.now)) < 2 ^ 63) }
        ensures { Noted (holders self.old.key.now number (rings_of (cell_raw cell.now))) self.old self.new }
    {
        let mut flat = [0; 24];
        rings::put_cell(cell, &mut flat, 0);
        for j in 0..cell.tally().faces {
            let s = faces::cell_span(cell.kind, cell.words, j);
            self.note(number, &flat[s.start..s.end]);
        }
    }

    // A cell.
    fn note_cell(&mut self, number: u32, cell: &Cell)
        requires { self.old.count + length (rings_of (cell_raw cell.now)) < 2 ^ 63 }
        ensures { Noted (holders self.old.key.now number (rings_of (cell_raw cell.now))) self.old self.new }
    {
        match cell.kind {
            Kind::Phed => self.note_phed(number, cell.words),
            _ => self.note_flat(number, cell),
        }
    }

    // All cells.
    fn note_cells(&mut self, model: &Accepted)
        requires { self.old.count + length (rings_in (lent model.now.model)) < 2 ^ 32 }
        ensures { Noted (held self.old.key.now 0 (cells_of (lent model.now.model))) self.old self.new }
    {
        for (number, cell) in model.cells().enumerate() {
            self.note_cell(number as u32, &cell);
        }
    }
}

// The cells that hold a face's sorted ring, in face order, as many as fit; answers the whole count.
pub fn face_owners(model: &Model, face: usize, owners: &mut [u32]) -> Result<u32, Refusal>
    ensures { (told result ≡ owners_answer (lent model.now) face) × (owners.new ≡ owners_after (lent model.now) face owners.old) }
{
    let m = mesh::accept(model)?;
    if m.faces <= face {
        return Err(Refusal::Number);
    }
    let mut room = [0; 64];
    let key = key_of(&m, face, &mut room);
    let mut holders = Holders {
        key,
        owners,
        count: 0,
    };
    holders.note_cells(&m);
    Ok(holders.count as u32)
}
