// Demand 3, stated in specs/Completeness.antt and proved of the definitions that the operations meet. It has no code.
#![tactic(auto)]
