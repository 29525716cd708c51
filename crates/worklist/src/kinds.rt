// The three kinds of arcs that `close` goes by, with their lists and the queue.
ghost use Rattle.std.specs.Prelude.{◌≡◌, List, ℕ, None, Some, length, MatchOption, option_copied};
ghost use Rattle.worklist.specs.Keys.{given_keys};

use crate::arcs::Arcs;
use crate::lists::{Lists, Queue};

// What a partition is to be closed under: the tree's arcs by their names, with the states' own numbers, and one set of keys against
// them, or two.
#[derive(Clone, Copy)]
pub struct Rules<'a> {
    pub parents: &'a [u16],
    pub names: &'a [u8],
    pub numbers: &'a [u16],
    pub keys: &'a [u8],
    pub more: Option<&'a [u8]>,
    pub ghost names_size: { length names.now ≡ length parents.now },
    pub ghost numbers_size: { length numbers.now ≡ length parents.now },
    pub ghost keys_size: { length keys.now ≡ length parents.now },
    pub ghost more_size: { length (given_keys (length parents.now) (option_copied more)) ≡ length parents.now },
}

impl<'a> Rules<'a> {
    // The tree's arcs by their names.
    pub fn forks(self) -> Arcs<'a>
        ensures outs { result.outs.now ≡ self.entry.numbers.now }
        ensures keys { result.keys.now ≡ self.entry.names.now }
    {
        Arcs {
            outs: self.numbers,
            keys: self.names,
        }
    }

    // The arcs against them, by the first set of keys.
    pub fn backs(self) -> Arcs<'a>
        ensures outs { result.outs.now ≡ self.entry.parents.now }
        ensures keys { result.keys.now ≡ self.entry.keys.now }
    {
        Arcs {
            outs: self.parents,
            keys: self.keys,
        }
    }

    // The arcs against them by the second set of keys, where there is one.
    pub fn others(self) -> Option<Arcs<'a>>
        ensures { MatchOption result (option_copied self.entry.more ≡ None) (λ arcs.
            (arcs.outs.now ≡ self.entry.parents.now) × (option_copied self.entry.more ≡ Some arcs.keys.now)) }
    {
        let keys = self.more?;
        Some(Arcs {
            outs: self.parents,
            keys,
        })
    }
}

// The lists of each kind of arcs, and the queue of all.
#[derive(Drop)]
pub struct Kinds {
    pub forks: Lists,
    pub backs: Lists,
    pub others: Lists,
    pub queue: Queue,
}

impl Kinds {
    ghost use Rattle.worklist.specs.Kinds.{NoArcs};

    // Lists with no arc, and a queue with no pair.
    pub fn new() -> Kinds
        ensures { NoArcs result }
    {
        Kinds {
            forks: Lists::new(),
            backs: Lists::new(),
            others: Lists::new(),
            queue: Queue::new(),
        }
    }
}
