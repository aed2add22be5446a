// The program `refs`: SPEC, The program refs. It is the library `refs_program`, run on the whole case of that section.
#![tactic(auto)]

use std::io;

fn main(rt: HostRuntime) -> io::Result<()> {
    refs_program::run(&rt)
}
