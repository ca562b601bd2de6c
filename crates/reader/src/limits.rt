// The house ceilings of texts and depths.
pub const MAX_TEXT: usize = 1048576;

pub const MAX_DEPTH: usize = 64;
