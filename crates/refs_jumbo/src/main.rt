// `refs` on a const-string/jumbo, and on a byte of const-string that is the tail of another instruction. As the whole case (SPEC, The program
// refs), but for eight units from 64 on: 1b 00 05 00 01 00 (const-string/jumbo of string 65541), 13 00 1a 00 (const/16 of 26), 05 00 00 00
// (move-wide/from16), 0e 00. The bytes 1a 00 05 00 at 72 look like a const-string of 5, but no instruction begins there.
#![tactic(auto)]

use std::io;

fn main(rt: HostRuntime) -> io::Result<()> {
    refs_program::run(&rt)
}
