// What one call lends and what one field holds, judged by the refusals' numbers: the sizes of slices (1), names (5, 6, 7), classes (8),
// rows (7, 9) and states (7, 11); and where a field's bytes stand. Reading a whole file is in crate fields.
#![tactic(auto)]

pub mod classes;
mod items;
pub mod names;
pub mod offsets;
pub mod rows;
pub mod sizes;
pub mod states;
