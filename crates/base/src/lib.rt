// What many crates share: the numbers that docs/SCOPE.md fixes, the refusals, sets of names, and the working area's cells.
#![tactic(auto)]

pub mod cells;
pub mod limits;
pub mod refusals;
pub mod sets;
