// A table accepted, with the lent area that keeps the offset of each state's field: the states are read where they stand.
ghost use Rattle.std.specs.Prelude.{◌≡◌, ◌<◌, length, get_or};
ghost use Rattle.model.specs.Tables.{empty_state, name_set};
ghost use Rattle.model.specs.Calls.{table_states};
ghost use Rattle.endings.specs.Live.{trimmed, Marked};
ghost use Rattle.tables.specs.Accepting.{Ready, StateAt};

use crate::arcs::name_set;
use crate::field_at;
use base::limits::STATE_LIMIT;
use judging::offsets::body;

// The table's bytes, and the lent area.
#[derive(Clone, Copy)]
pub struct Opened<'s, 'w> {
    pub s: &'s [u8],
    pub work: &'w [u8],
    pub ghost ready: { Ready s.now work.now },
}

impl<'s> Opened<'s, '_> {
    // The bytes of the field of state q.
    #[tactic(auto, using(crate::proofs::ReadyLaws::state_at))]
    pub fn state(self, q: usize) -> &'s [u8]
        requires { q < length (table_states self.s.now) }
        ensures { StateAt (table_states self.entry.s.now) q result.now }
    {
        body(self.s, field_at(self.work, q))
    }

    // Whether state q accepts.
    pub fn accepts(self, q: usize) -> bool
        requires { q < length (table_states self.s.now) }
        ensures { result ≡ (get_or (table_states self.entry.s.now) q empty_state).accepts }
    {
        let state = self.state(q);
        state[0] == 1
    }

    // The names with an arc from state q to a marked state, as a set of 64 bits, bit n for name n.
    pub fn next_names(self, marks: &[u16; STATE_LIMIT], q: usize) -> u64
        requires marked { Marked (table_states self.s.now) marks.now }
        requires q_in_bounds { q < length (table_states self.s.now) }
        ensures { result ≡ name_set (get_or (trimmed (table_states self.entry.s.now)) q empty_state).arcs }
    {
        let state = self.state(q);
        name_set(state, marks)
    }
}
