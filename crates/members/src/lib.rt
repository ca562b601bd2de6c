// The members of an object inside the record table: the first repeated name, and the members in the
// order of their names. No memory but the table is used. Links between members are kept in the high
// bits of words 0 and 1, above the offsets, and are taken away again; words 2 and 3 never change.
#![tactic(auto)]

pub mod chain;
pub mod link;
pub mod member;
pub mod merge;
pub mod name;
pub mod pairs;
pub mod record;
pub mod repeat;
pub mod siblings;
pub mod sort;
pub mod walk;
