// Walks over an accepted table: an arc to a state with no way to an end counts for none.
ghost use Rattle.std.specs.Prelude.{◌≤◌, ◌<◌, length};
ghost use Rattle.base.specs.Limits.{row_limit};
ghost use Rattle.model.specs.Calls.{table_states};
ghost use Rattle.endings.specs.Live.{trimmed, Marked};
ghost use Rattle.tables.specs.Walking.{SteppedAs, WalkedAs};

use crate::arcs::target;
use crate::opened::Opened;
use base::limits::STATE_LIMIT;

// A walk: the number of the state reached, and the steps taken.
#[derive(Clone, Copy)]
pub struct Walk {
    pub state: usize,
    pub taken: usize,
}

impl Walk {
    // One step by a name, from the walk's state: the walk handed on, or none where there is no arc by that name to a marked state.
    pub fn step(self, table: Opened, marks: &[u16; STATE_LIMIT], name: u8) -> Option<Walk>
        requires marked { Marked (table_states table.s.now) marks.now }
        requires state_in_bounds { self.state < length (table_states table.s.now) }
        requires taken_lt_row_limit { self.taken < row_limit }
        ensures { SteppedAs (trimmed (table_states table.entry.s.now)) self name result }
    {
        let to = target(table.state(self.state), name)?;
        if marks[to] == 0 {
            return None;
        }
        Some(Walk {
            state: to,
            taken: self.taken + 1,
        })
    }
}

// The walk of a row from state 0 on, to the row's end or to the first name that has no arc to a marked state.
pub fn walk_all(table: Opened, row: &[u8], marks: &[u16; STATE_LIMIT]) -> Walk
    requires marked { Marked (table_states table.s.now) marks.now }
    requires row_len_bound { length row.now ≤ row_limit }
    ensures { WalkedAs (trimmed (table_states table.entry.s.now)) row.now result }
{
    let mut walk = Walk { state: 0, taken: 0 };
    for name in row {
        let Some(next) = walk.step(table, marks, *name) else {
            return walk;
        };
        walk = next;
    }
    walk
}
