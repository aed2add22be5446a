// `refs` on the whole case (SPEC, The program refs), asked for 17 indices: refusal 14.
#![tactic(auto)]

use std::io;

fn main(rt: HostRuntime) -> io::Result<()> {
    refs_program::run(&rt)
}
