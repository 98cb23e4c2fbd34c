// The program merge: a train on standard input, merged as the Rust merges, and one line out.
#![tactic(auto)]

use std::io;

fn main(rt: HostRuntime) -> io::Result<()> {
    program::run(&rt, false)
}
