// Nibrocate's public entries, for Rattle; `nibrocate_c` has them for C and Rust. Any bytes and any lengths may
// be handed to any of them: nothing is asked first, nothing but the lent slices is touched, and one answer and
// one content of each slice at exit is possible.
#![tactic(auto)]

pub mod find;
pub mod merge;
pub mod part;
pub mod read;
pub mod write;
