// `store-walk`: see docs/walk.md.
#![tactic(auto)]

use std::io;

fn main(rt: HostRuntime) -> io::Result<()> {
    walk_run::run(&rt)
}
