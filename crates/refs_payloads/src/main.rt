// `refs` on payloads between uses of a phrase (SPEC, Locate): the tables of both switches and an array's data stand among the instructions, and one
// method's code begins with such data. Each use after a payload is confirmed, and the bytes 1a 00 08 00 in each payload, which look like one, are
// not. `make` assembles the file from smali/, and takes the request and the output from what dexdump and baksmali say of it.
#![tactic(auto)]

use std::io;

fn main(rt: HostRuntime) -> io::Result<()> {
    refs_program::run(&rt)
}
