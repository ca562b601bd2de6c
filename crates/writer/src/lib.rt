// The canonical writer: the exact length of a value's canonical text, then the text itself, with the
// members of each object in the order of their names.
#![tactic(auto)]

pub mod enter;
pub mod measure;
pub mod name;
pub mod put;
pub mod room;
pub mod write;
