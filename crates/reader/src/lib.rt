// The reader: a lent text fills a lent table of records, or is refused with its number and place.
#![tactic(auto)]

pub mod answer;
pub mod close;
pub mod entry;
pub mod fill;
pub mod limits;
pub mod read;
pub mod record;
pub mod settle;
pub mod value;
