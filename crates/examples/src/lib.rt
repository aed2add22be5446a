// The worked examples of SPEC as one checked table of theorems: specs/Table.antt states them, proofs/Checked.antt computes them.
#![tactic(auto)]
