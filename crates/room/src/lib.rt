// Room in lent slices: how many words suffice, in plain numbers (specs/Enough.antt), and what is proved of these numbers and of longer slices
// (specs/Laws.antt). It has no code.
#![tactic(auto)]
