// What programs share: texts of up to 1,024 bytes, the line of a refusal, and what is said of a comparison.
#![tactic(auto)]

pub mod file;
pub mod front;
pub mod line;
pub mod show;
pub mod verdict;

// The most bytes of a text, and room to see that one has more.
pub const LONGEST: usize = 1024;

pub const ROOM: usize = LONGEST + 1;

// The words of a table that is never too short for such a text.
pub const WORDS: usize = 4 * LONGEST;
