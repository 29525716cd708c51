// The calls over a table, before the working area is cleared: a table rewritten, a row walked.

#![tactic(auto)]

pub mod rewriting;
pub mod walking;
