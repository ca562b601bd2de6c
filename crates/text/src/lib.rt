// What a text is: the grammar of RFC 8259 with the house ceilings, the place and the number of
// every refusal, and the record table. Definitions stand in specs/, demand 3 is proved of them in
// proofs/. There is no code here.
#![tactic(auto)]
