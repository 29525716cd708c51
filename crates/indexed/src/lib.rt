// The prefix tree of a book's rows by the numbers of its states, and partitions of them: definitions and their theory, and the tree as it
// is handed from crate to crate.
#![tactic(auto)]

ghost use Rattle.std.specs.Prelude.{length};
ghost use Rattle.indexed.specs.Trees.{Arrays};

// For each state the one that it goes on from, and the name by which; states come after those that they go on from, and the root, state 0,
// goes on from itself.
// Stays: (d) that a partition has as many numbers as the tree has states is said where both come in: the one is written, the other is read.
#[derive(Clone, Copy)]
pub struct Tree<'a> {
    pub parents: &'a [u16],
    pub names: &'a [u8],
    pub ghost arrays: { Arrays (length parents.now) parents.now names.now },
}
