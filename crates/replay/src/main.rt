// Runs the program on published cases and on recorded models, and says which agree with what was published or recorded.
#![tactic(auto)]

mod cases;
mod lent;
mod recorded;
mod ways;

use std::io;

fn main(rt: HostRuntime) -> io::Result<()> {
    cases::replay_all(&rt)?;
    recorded::replay_all(&rt)
}
