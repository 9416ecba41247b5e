// Reading a model file into lent lists, and writing one.
ghost use Rattle.mesh.specs.Model.{model_of};
ghost use Rattle.model_file.specs.Reading.{found_of};
ghost use Rattle.capi.specs.Files.{ReadExport, WriteExport};

use crate::answers;
use mesh::{Checks, Model};

// Reads a file: its lists, three coordinates a node, and what it says besides them.
#[unsafe(no_mangle)]
pub extern "C" fn lenoshale_read(
    bytes: &[u8],
    coords: &mut [f64],
    kinds: &mut [u8],
    ends: &mut [u32],
    words: &mut [u32],
    node_count: &mut u64,
    cell_count: &mut u64,
    word_count: &mut u64,
    tolerance: &mut f64,
    flags: &mut u8,
    cap: &mut u16,
) -> u32
    ensures { ReadExport bytes.now coords.old coords.new kinds.old kinds.new ends.old ends.new words.old words.new (found_of node_count.old cell_count.old word_count.old tolerance.old flags.old cap.old) (found_of node_count.new cell_count.new word_count.new tolerance.new flags.new cap.new) result }
{
    let found = model_read::read(bytes, coords, kinds, ends, words);
    if let Ok(f) = found {
        *node_count = f.nodes as u64;
        *cell_count = f.cells as u64;
        *word_count = f.words as u64;
        *tolerance = f.tolerance;
        *flags = f.checks.0;
        *cap = f.cap;
    }
    answers::status(found)
}

// Writes a model's file, and its length in bytes.
#[unsafe(no_mangle)]
pub extern "C" fn lenoshale_write(
    coords: &[f64],
    kinds: &[u8],
    ends: &[u32],
    words: &[u32],
    tolerance: f64,
    flags: u8,
    cap: u16,
    out: &mut [u8],
    size: &mut u64,
) -> u32
    ensures { WriteExport (model_of coords.now kinds.now ends.now words.now tolerance flags cap) out.old out.new size.old size.new result }
{
    let m = Model {
        coords,
        kinds,
        ends,
        words,
        tolerance,
        checks: Checks(flags),
        cap,
    };
    let written = model_write::write(&m, out);
    if let Ok(n) = written {
        *size = n as u64;
    }
    answers::status(written)
}
