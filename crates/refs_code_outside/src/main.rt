// `refs` on the whole case (SPEC, The program refs), cut a byte before its array's end, at 71 bytes: the code item is not inside: refusal 8.
#![tactic(auto)]

use std::io;

fn main(rt: HostRuntime) -> io::Result<()> {
    refs_program::run(&rt)
}
