// Whether every state rises: it accepts, or has an arc to a state of a higher number.
ghost use Rattle.std.specs.Prelude.{◌≡◌, true, ℕ, ◌<◌, length};
ghost use Rattle.model.specs.Tables.{state_in};
ghost use Rattle.model.specs.Calls.{table_states};
ghost use Rattle.tables.specs.Arcs.{StateOk};
ghost use Rattle.endings.specs.Live.{is_live};
ghost use Rattle.levels.specs.Found.{rises};

use tables::arcs::Arcs;
use tables::opened::Opened;

// Whether the state with number q rises, over its field's bytes.
fn rises(state: &[u8], q: usize) -> bool
    requires { StateOk state.now }
    ensures { result ≡ rises q (state_in state.now) }
{
    if state[0] == 1 {
        return true;
    }
    for arc in Arcs::of(state) {
        if q < arc.to as usize {
            return true;
        }
    }
    false
}

// Whether every state rises: then each has a way to an accepting state, since a way by such arcs ends.
pub fn all_rise(table: Opened, count: usize) -> bool
    requires count_value { count ≡ length (table_states table.s.now) }
    ensures { result ≡ true → (q : ℕ) → q < length (table_states table.entry.s.now) →
        is_live (table_states table.entry.s.now) q ≡ true }
{
    for q in 0..count {
        if !rises(table.state(q), q) {
            return false;
        }
    }
    true
}
