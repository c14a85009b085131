// The walk program on part 4 of the fixed list (oracle/README.md).
#![tactic(auto)]

use std::io;

fn main(rt: HostRuntime) -> io::Result<()> {
    walk_run::run(&rt)
}
