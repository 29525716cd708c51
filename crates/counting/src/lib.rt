// How often each way is used: the passes of the joined automaton's arcs, summed from the last tree state to the first, and the counts
// file written from them.
#![tactic(auto)]

pub mod passes;
pub mod written;
