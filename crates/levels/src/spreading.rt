// The levels of states, from the accepting ones on against the sorted arcs: a queue has the states whose level is known, nearest first.
ghost use Rattle.std.specs.Prelude.{◌≡◌, ℕ, ◌*◌, ◌<◌, ◌≤◌, length, replicate};
ghost use Rattle.base.specs.Limits.{state_limit, work_bytes, input_limit};
ghost use Rattle.model.specs.Calls.{table_states};
ghost use Rattle.levels.specs.Sorted.{SortedArcs, source_at};
ghost use Rattle.levels.specs.Found.{LevelsFound};
ghost use Rattle.levels.specs.Queues.{MayEnter, Longer, SourceIn, AcceptsBelow};

use crate::places::source_at;
use crate::sorting::ENDS;
use base::limits::STATE_LIMIT;
use tables::opened::Opened;

// The level of each state, 0 for none yet; and the states that have one, in the order in which they got it, as many as `last`.
// Stays: (a) 0 for none and arrays side by side: fixed memory, and LevelsFound speaks of these numbers.
#[derive(Drop)]
struct Reached {
    levels: [u16; STATE_LIMIT],
    queue: [u16; STATE_LIMIT],
    last: usize,
}

impl Reached {
    // A state that has no level yet gets this one, and enters the queue.
    fn reach(&mut self, q: usize, level: u16)
        requires q_lt_state_limit { q < state_limit }
        requires may_enter { MayEnter level self.old.levels self.old.queue self.old.last }
        ensures { Longer (λ (p : ℕ). p ≡ q) level self.old.levels self.old.queue self.old.last
            self.new.levels self.new.queue self.new.last }
    {
        if 0 < self.levels[q] {
            return;
        }
        let last = self.last;
        self.levels[q] = level;
        self.queue[last] = q as u16;
        self.last = last + 1;
    }

    // The sources in these places that have no level yet get this one, and enter the queue.
    fn reach_from(&mut self, work: &[u8], from: usize, to: usize, level: u16)
        requires work_bytes_in_bounds { work_bytes ≤ length work.now }
        requires to_bound { 3 * to ≤ input_limit }
        requires by_index { (j : ℕ) → from ≤ j → j < to → source_at work.now j < state_limit }
        requires may_enter { MayEnter level self.old.levels self.old.queue self.old.last }
        ensures { Longer (SourceIn work.now from to) level self.old.levels self.old.queue self.old.last
            self.new.levels self.new.queue self.new.last }
    {
        for j in from..to {
            self.reach(source_at(work, j), level);
        }
    }
}

// The accepting states have level 1 and stand in the queue; all others have none.
fn reach_accepting(table: Opened, count: usize, reached: &mut Reached)
    requires count_value { count ≡ length (table_states table.s.now) }
    requires levels { reached.old.levels ≡ replicate state_limit 0 }
    requires queue { reached.old.queue ≡ replicate state_limit 0 }
    requires last { reached.old.last ≡ 0 }
    ensures { Longer (AcceptsBelow (table_states table.entry.s.now) (length (table_states table.entry.s.now))) 1
        (replicate state_limit 0) (replicate state_limit 0) 0 reached.new.levels reached.new.queue reached.new.last }
{
    for q in 0..count {
        if table.accepts(q) {
            reached.reach(q, 1);
        }
    }
}

// The level of each state.
pub fn spread(table: Opened, count: usize, ends: &[u16; ENDS]) -> [u16; STATE_LIMIT]
    requires count_value { count ≡ length (table_states table.s.now) }
    requires sorted_arcs { SortedArcs (table_states table.s.now) table.work.now ends.now }
    ensures { LevelsFound (table_states table.entry.s.now) result }
{
    let mut reached = Reached {
        levels: [0; STATE_LIMIT],
        queue: [0; STATE_LIMIT],
        last: 0,
    };
    reach_accepting(table, count, &mut reached);
    let mut first = 0;
    // Stays: (d) the queue grows while it is gone through, so that no `for` goes over it; a method that takes the next state is no plainer,
    // since `reach` and `reach_from` would have to say that they leave `first` as it was.
    while first < reached.last {
        let t = reached.queue[first] as usize;
        let level = reached.levels[t] + 1;
        reached.reach_from(table.work, ends[t] as usize, ends[t + 1] as usize, level);
        first += 1;
    }
    reached.levels
}
