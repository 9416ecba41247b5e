// The operations for programs in C and Rust: a slice is a pointer and a length, an out-parameter a pointer.
// Each but the version answers 0 or the refusal's number; at a refusal nothing is written. A model is made of its fields by name in each: a
// function of seven arguments, two of them lists of one type, would be no plainer.
#![tactic(auto)]

ghost use Rattle.std.specs.Prelude.{◌≡◌};
ghost use Rattle.mesh.specs.Model.{model_of};
ghost use Rattle.capi.specs.Version.{version};
ghost use Rattle.capi.specs.Checks.{WorkExport, CheckExport};

use mesh::{Checks, Model};

mod answers; // what C is told of an answer
mod model_files; // reading and writing a file
mod face_rings; // ring lists, face owners, ring lookup
mod nodes; // welding, area test, root
mod reports; // the report's text, the whole run

// The number of this interface: another where the arguments or the meaning of a function change.
const VERSION: u32 = 2;

// The interface that the library was built with, to be held against the header's LENOSHALE_VERSION.
#[unsafe(no_mangle)]
pub extern "C" fn lenoshale_version() -> u32
    ensures { result ≡ version }
{
    VERSION
}

// The words of work that checking a model and filling its ring lists need, its ring words and its faces.
#[unsafe(no_mangle)]
pub extern "C" fn lenoshale_work_needed(
    coords: &[f64],
    kinds: &[u8],
    ends: &[u32],
    words: &[u32],
    tolerance: f64,
    flags: u8,
    need: &mut u64,
    ring_words: &mut u64,
    faces: &mut u64,
) -> u32
    ensures { WorkExport (model_of coords.now kinds.now ends.now words.now tolerance flags 0) need.old need.new ring_words.old ring_words.new faces.old faces.new result }
{
    let model = Model {
        coords,
        kinds,
        ends,
        words,
        tolerance,
        checks: Checks(flags),
        cap: 0,
    };
    // no `if let` and `status`: where the branches join, the kit makes no proof of what holds a model
    match mesh::accept(&model) {
        Err(e) => answers::refused(e),
        Ok(m) => {
            *need = m.work_needed() as u64;
            *ring_words = m.ring_words as u64;
            *faces = m.faces as u64;
            0
        }
    }
}

// Checks a model: the findings kept, their total and how many are kept.
#[unsafe(no_mangle)]
pub extern "C" fn lenoshale_check(
    coords: &[f64],
    kinds: &[u8],
    ends: &[u32],
    words: &[u32],
    tolerance: f64,
    flags: u8,
    cap: u16,
    findings: &mut [u8],
    work: &mut [u32],
    total: &mut u64,
    kept: &mut u64,
) -> u32
    ensures { CheckExport (model_of coords.now kinds.now ends.now words.now tolerance flags cap) findings.old findings.new work.old work.new total.old total.new kept.old kept.new result }
{
    let checks = Checks(flags);
    let m = Model {
        coords,
        kinds,
        ends,
        words,
        tolerance,
        checks,
        cap,
    };
    let checked = conformance::check(&m, findings, work);
    if let Ok(c) = checked {
        *total = c.totals.total;
        *kept = c.totals.kept;
    }
    answers::status(checked)
}
