// The walk program on examples/cabinet.walk (docs/walk.md tells the story).
#![tactic(auto)]

use std::io;

fn main(rt: HostRuntime) -> io::Result<()> {
    walk_run::run(&rt)
}
