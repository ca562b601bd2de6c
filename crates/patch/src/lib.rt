// The merge patch: target and patch are walked side by side in the order of their members' names, once to
// count the bytes of the result and once to write them. The result itself is never built.
#![tactic(auto)]

pub mod emit;
pub mod merge;
pub mod side;
pub mod turn;
pub mod view;
pub mod walk;
