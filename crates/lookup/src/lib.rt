// The look-up: a pointer is checked as a whole, then its tokens are followed from value to value in the record
// table. Tokens and names are compared where they stand.
#![tactic(auto)]

pub mod child;
pub mod find;
pub mod part;
pub mod pointer;
pub mod token;
