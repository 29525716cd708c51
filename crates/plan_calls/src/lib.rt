// The calls over a plan, before the working area is cleared: its rows read.
#![tactic(auto)]

pub mod reading;
