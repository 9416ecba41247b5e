// Recorded numbers, computed again: square roots, welded node sets, area tests. A line for the roots, and one for each set and test.
#![tactic(auto)]

mod areas;
mod lists;
mod roots;
mod welds;

use std::io;

fn main(rt: HostRuntime) -> io::Result<()> {
    roots::run(&rt)?;
    lists::run(&rt, "welds", welds::agrees)?;
    lists::run(&rt, "areas", areas::agrees)
}
