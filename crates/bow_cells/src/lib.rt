// The cells that are bow-ties, read off the tables in the lent work slice and marked there.
#![tactic(auto)]

ghost use Rattle.std.specs.Prelude.{◌≡◌, map, ◌+◌, ◌≤◌, ◌<◌, length, take};
ghost use Rattle.std.proofs.lemmas.List.Edits.{sets};
ghost use Rattle.laws.specs.Lists.{up_from};
ghost use Rattle.layout.specs.Tables.{Ringed};
ghost use Rattle.layout.specs.ByCell.{cell_bow, bit};

use layout::{Context, Rings};
use polygons::Polygons;

mod polygons; // rings with the coordinates of their nodes

// The mark of each cell, 1 for a bow-tie and 0 for none, goes to its place among the marks of bow-ties.
pub fn put_bows(ctx: &Context, work: &mut [u32])
    requires { Ringed ctx.now.layout (take ctx.now.layout.at.bows work.old) × (ctx.now.layout.at.bows + ctx.now.layout.at.cell_count ≤ length work.old) }
    ensures { work.new ≡ sets work.old ctx.now.layout.at.bows (map (λ c. bit (cell_bow ctx.now.coords.now ctx.now.tolerance ctx.now.layout (take ctx.now.layout.at.bows work.old) c)) (up_from 0 ctx.now.layout.at.cell_count)) }
{
    let (tables, marks) = work.split_at_mut(ctx.layout.at.bows);
    let polygons = Polygons {
        rings: Rings {
            work: tables,
            layout: &ctx.layout,
        },
        coords: ctx.coords,
        tolerance: ctx.tolerance,
    };
    polygons.mark_cells(marks);
}
