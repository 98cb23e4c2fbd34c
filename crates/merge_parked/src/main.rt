// The program merge in the mode "Parked log first" (document 02, Item 6): what `./run --parked-first` runs. It is given P5.
#![tactic(auto)]

use std::io;

fn main(rt: HostRuntime) -> io::Result<()> {
    program::run(&rt, true)
}
