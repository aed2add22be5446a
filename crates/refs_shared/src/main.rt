// `refs` on a code item that the methods 4, 7 and 9 share: they are listed second found, first found, then the rest as found. As the
// whole case (SPEC, The program refs), but for the class data at 32, 00 00 03 00 04 01 30 03 01 30 02 01 30 (differences 4, 3 and 2), and the
// array at 64, 6e 10 05 00 00 00 0e 00: invoke-virtual of method 5.
#![tactic(auto)]

use std::io;

fn main(rt: HostRuntime) -> io::Result<()> {
    refs_program::run(&rt)
}
