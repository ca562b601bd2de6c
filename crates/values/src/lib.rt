// Values found again in the record table of an accepted text: where each stands, and what it holds. Links
// between members, which may stand above the offsets, are passed over.
#![tactic(auto)]

pub mod span;
