// What each public entry promises: the answer and the content of every lent slice at exit, for every
// input. Definitions stand in specs/; that each leaves one outcome only is proved in proofs/. There
// is no code here.
#![tactic(auto)]
