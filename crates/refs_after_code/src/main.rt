// `refs` on what looks like a use after a method's end. As the whole case (SPEC, The program refs), but for the bytes from 70 on: 1a 00 05 00
// (const-string of string 5), and the same once more at 74. The array ends at 72: the entry at 70 is confirmed, since it counts by its first
// byte, though its instruction passes the end; the one at 74 is not, though a walk would land on it.
#![tactic(auto)]

use std::io;

fn main(rt: HostRuntime) -> io::Result<()> {
    refs_program::run(&rt)
}
