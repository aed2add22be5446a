// `refs` on a file of 65,537 zeros, one more than it reads: refusal 1. The request is not as it must be either, but 14 comes after 1.
#![tactic(auto)]

use std::io;

fn main(rt: HostRuntime) -> io::Result<()> {
    refs_program::run(&rt)
}
