// `refs` on the whole case (SPEC, The program refs), cut after its array, at 72 bytes: the file ends with its last code item, in the middle of a
// block, so the region ends with the file, and the answer is the whole case's.
#![tactic(auto)]

use std::io;

fn main(rt: HostRuntime) -> io::Result<()> {
    refs_program::run(&rt)
}
