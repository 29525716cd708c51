// How far each state of an accepted table is from an end: the arcs are sorted by their targets, and the states reached against them, from
// the accepting ones on, nearest first. Linear in states and arcs.

#![tactic(auto)]

pub mod places;
pub mod rising;
pub mod sorting;
pub mod spreading;

ghost use Rattle.std.specs.Prelude.{◌≡◌, length};
ghost use Rattle.model.specs.Calls.{table_states};
ghost use Rattle.tables.specs.Accepting.{Ready};
ghost use Rattle.endings.specs.Live.{Marked};
ghost use Rattle.levels.specs.Sorted.{FewArcs, SameOffsets};
ghost use Rattle.levels.specs.Found.{LevelsFound};

use base::limits::STATE_LIMIT;
use sorting::ENDS;
use tables::opened::Opened;

// The level of each state: the fewest names from it to an accepting state, plus 1, or 0 where there is no way to one.
pub fn find_levels(s: &[u8], count: usize, work: &mut [u8]) -> [u16; STATE_LIMIT]
    requires ready { Ready s.now work.old }
    requires count_value { count ≡ length (table_states s.now) }
    requires few_arcs { FewArcs (table_states s.now) }
    ensures same_offsets { SameOffsets work.old work.new }
    ensures levels_found { LevelsFound (table_states s.now) result }
{
    let mut ends = [0; ENDS];
    sorting::sort_arcs(s, count, work, &mut ends);
    spreading::spread(Opened { s, work }, count, &ends)
}

// Marks the states that have a way to an accepting one. Where every state accepts or has an arc to one of a higher number, as in the prefix
// tree, all have one, and nothing need be sorted.
// Stays: (a) marks are numbers, 0 for no way, since `Marked` speaks of them so, and levels serve as marks.
pub fn mark_live(s: &[u8], count: usize, work: &mut [u8]) -> [u16; STATE_LIMIT]
    requires ready { Ready s.now work.old }
    requires count_value { count ≡ length (table_states s.now) }
    requires few_arcs { FewArcs (table_states s.now) }
    ensures same_offsets { SameOffsets work.old work.new }
    ensures marked { Marked (table_states s.now) result }
{
    if rising::all_rise(Opened { s, work }, count) {
        return [1; STATE_LIMIT];
    }
    find_levels(s, count, work)
}
