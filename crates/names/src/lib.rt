// Names inside a lent text: their units, their order, and where they close. A name begins behind its
// opening quote, and the bytes lent for it may run on behind the closing one.
#![tactic(auto)]

pub mod alike;
pub mod closing;
pub mod compare;
pub mod escape;
pub mod unit;
