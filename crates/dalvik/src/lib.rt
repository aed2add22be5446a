// What the public documents "Dalvik Executable format", "Dalvik bytecode" and "Dalvik instruction formats" say, as
// definitions for contracts and proofs. There is no code here: see specs/.
#![tactic(auto)]
