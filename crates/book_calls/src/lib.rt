// The calls over a book, before the working area is cleared: its table built, its listing written.
#![tactic(auto)]

pub mod building;
pub mod listing;
