// What a text means: meanings, the order of names, the canonical text, pointers and merge patches.
// Definitions stand in specs/, demand 2 is proved of them in proofs/. There is no code here.
#![tactic(auto)]
