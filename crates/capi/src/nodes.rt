// Welded numbers, the area test and the root.
ghost use Rattle.mesh.specs.Model.{model_of};
ghost use Rattle.capi.specs.Nodes.{WeldExport, AreaExport, RootExport};

use crate::answers;
use mesh::{Checks, Model};

// Welds the nodes that cells name: the map gets the welded numbers of all nodes.
#[unsafe(no_mangle)]
pub extern "C" fn lenoshale_weld(
    coords: &[f64],
    kinds: &[u8],
    ends: &[u32],
    words: &[u32],
    tolerance: f64,
    map: &mut [u32],
    scratch: &mut [u32],
) -> u32
    ensures { WeldExport (model_of coords.now kinds.now ends.now words.now tolerance 0 0) map.old map.new scratch.old scratch.new result }
{
    let m = Model {
        coords,
        kinds,
        ends,
        words,
        tolerance,
        checks: Checks(0),
        cap: 0,
    };
    answers::status(welding::weld(&m, map, scratch))
}

// The area test on nodes.
#[tactic(auto, unfolding(area::specs::AreaTest::area_answer))]
#[unsafe(no_mangle)]
pub extern "C" fn lenoshale_area_test(
    coords: &[f64],
    nodes: &[u32],
    tolerance: f64,
    says: &mut u32,
) -> u32
    ensures { AreaExport coords.now nodes.now tolerance says.old says.new result }
{
    let tested = area::area_test(coords, nodes, tolerance);
    if let Ok(a) = tested {
        *says = u32::from(a);
    }
    answers::status(tested)
}

// The root of x.
#[tactic(auto, unfolding(floats::specs::RootAnswer::root_answer))]
#[unsafe(no_mangle)]
pub extern "C" fn lenoshale_root(x: f64, root: &mut f64) -> u32
    ensures { RootExport x root.old root.new result }
{
    answers::tell(floats::root(x), root)
}
