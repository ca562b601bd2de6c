// Leaves over a lent text: whitespace, fixed words, strings and numbers. Each says how far it read, or
// the number and place of a refusal, in terms of what a reader that leaves names for later answers.
#![tactic(auto)]

pub mod bytes;
pub mod digits;
pub mod eights;
pub mod exponent;
pub mod limits;
pub mod number;
pub mod power;
pub mod refusal;
pub mod run;
pub mod space;
pub mod string;
pub mod word;
