// The 64-byte record of a finding: written, and its fields read.
#![tactic(auto)]

ghost use Rattle.std.specs.Prelude.{◌≡◌, ◌+◌, ◌^◌, ◌≤◌, ◌<◌, length};
ghost use Rattle.std.proofs.lemmas.List.Edits.{sets};
ghost use Rattle.findings.specs.Records.{record_bytes};
ghost use Rattle.records.specs.Read.{fields_in};
ghost use Rattle.records.specs.Keeping.{told, KeptOne};

// The kinds of findings; a record has the kind's number. By a cast at the four places that make records, where the kind is written out: a
// From would be a call for each, whose promise says the same constant.
#[derive(Clone, Copy, Debug, PartialEq, Eq)]
pub enum Kind {
    BowTie = 1,
    Overfull = 2,
    PartlyShared = 3,
    Repeated = 4,
}

// A finding's fields: kind, first cell, second cell, item a, item b, count. Read from lent bytes the kind may be any number.
#[derive(Clone, Copy, Default)]
pub struct Record {
    pub kind: u8,
    pub first: u32,
    pub second: u32,
    pub a: u32,
    pub b: u32,
    pub count: u32,
}

// The bytes of a record. No instance of `Stored`: the centre is written, and not read back. A record and its centre go side by side, for
// a report prints the fields alone.
fn bytes_of(r: Record, centre: geometry::Point) -> [u8; 64]
    ensures { result ≡ record_bytes (told r) centre }
{
    let mut bytes = [0; 64];
    bytes[0] = r.kind;
    floats::put(&mut bytes, 4, r.first);
    floats::put(&mut bytes, 8, r.second);
    floats::put(&mut bytes, 12, r.a);
    floats::put(&mut bytes, 16, r.b);
    floats::put(&mut bytes, 20, r.count);
    floats::put(&mut bytes, 32, centre.x);
    floats::put(&mut bytes, 40, centre.y);
    floats::put(&mut bytes, 48, centre.z);
    bytes
}

// A record from `at` on; all else as before.
pub fn put_record(out: &mut [u8], at: usize, r: Record, centre: geometry::Point)
    requires { at + 64 ≤ length out.old }
    ensures { out.new ≡ sets out.old at (record_bytes (told r) centre) }
{
    floats::put(out, at, bytes_of(r, centre));
}

// Where findings go: the records of the first are written, 64 bytes each, as long as there is room, and all are counted.
// The count's bound is no field here: each function that keeps findings has its own, by how many it may add.
#[derive(Drop)]
pub struct Sink<'a> {
    records: &'a mut [u8],
    pub count: usize,
}

impl<'a> Sink<'a> {
    // A sink with nothing in it.
    pub fn new(records: &'a mut [u8]) -> Sink<'a>
        ensures same_reference { result.records.ghost_name ≡ records.entry.ghost_name }
        ensures empty { (result.records.now ≡ records.old) × (result.count ≡ 0) }
    {
        Sink { records, count: 0 }
    }

    // One more finding: its record is kept where there is room, and it is counted.
    pub fn keep(&mut self, r: Record, centre: geometry::Point)
        requires { self.old.count < 2 ^ 57 }
        ensures { KeptOne r centre self.old self.new }
    {
        let n = self.count;
        let room = self.records.len() / 64;
        self.count = n + 1;
        if n < room {
            put_record(self.records, 64 * n, r, centre);
        }
    }
}

// The fields of a record.
#[tactic(auto, unfolding(crate::specs::Read::fields_in))]
pub fn fields_of(bytes: &[u8; 64]) -> Record
    ensures { told result ≡ fields_in bytes.now 0 }
{
    Record {
        kind: bytes[0],
        first: floats::get(bytes, 4),
        second: floats::get(bytes, 8),
        a: floats::get(bytes, 12),
        b: floats::get(bytes, 16),
        count: floats::get(bytes, 20),
    }
}
