// The house ceilings of numbers.
pub const MAX_DIGITS: u64 = 18;

pub const MAX_POWER: u64 = 999;
