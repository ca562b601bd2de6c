// Canonical text of values without values inside them: units, strings, numbers and the three literals, each
// written to the front of a lent output or only measured.
#![tactic(auto)]

pub mod digits;
pub mod normal;
pub mod number;
pub mod scalar;
pub mod string;
pub mod unit;
pub mod word;
