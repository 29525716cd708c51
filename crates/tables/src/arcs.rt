// One state's field, over its bytes after mark and length: its arcs, one after another; the check of first-met numbering, and the names of
// the arcs to marked states as a set. Every function here requires that the field passed the reader's test.
ghost use Rattle.std.specs.Prelude.{◌≡◌, ℕ, suc, MatchOption};
ghost use Rattle.base.specs.Limits.{state_limit};
ghost use Rattle.model.specs.Tables.{state_in, met_by_arcs, target_in, name_set};
ghost use Rattle.tables.specs.Arcs.{StateOk, TargetsBelow, marked_arcs, arcs_left};

use base::limits::STATE_LIMIT;
use base::sets::with_name;
use std::cmp::Ordering;

// An arc: its name, and the number of the state that it leads to.
#[derive(Clone, Copy)]
pub struct Arc {
    pub name: u8,
    pub to: u16,
}

// The arcs that stand in bytes, three for each: the name, then the target, high byte first.
#[derive(Drop)]
pub struct Arcs<'a> {
    pub bytes: &'a [u8],
}

impl Iterator for Arcs<'_> {
    ghost use Rattle.std.specs.Iterator.{YieldsFirstBy, item_count};
    ghost use Rattle.tables.specs.Arcs.{arc_of, arcs_left};

    type Item = Arc;

    ghost next_gives = { YieldsFirstBy arc_of arcs_left };

    ghost remaining = { item_count arcs_left };

    fn next(&mut self) -> Option<Arc> {
        let [name, high, low, rest @ ..] = self.bytes else {
            return None;
        };
        self.bytes = rest;
        Some(Arc {
            name: *name,
            to: u16::from_be_bytes([*high, *low]),
        })
    }
}

impl<'a> Arcs<'a> {
    // The arcs of a state, from its field's bytes.
    pub fn of(state: &'a [u8]) -> Arcs<'a>
        requires { StateOk state.now }
        ensures { arcs_left result ≡ (state_in state.now).arcs }
    {
        Arcs { bytes: &state[1..] }
    }
}

// How many states are met after a state's arcs, `met` being met before; none where an arc leads past the next new one.
pub fn met_by_arcs(state: &[u8], met: usize) -> Option<usize>
    requires { StateOk state.now }
    ensures { MatchOption result
        (met_by_arcs met (state_in state.now).arcs ≡ 0)
        (λ (after : ℕ). met_by_arcs met (state_in state.now).arcs ≡ after) }
{
    let mut count = met;
    for arc in Arcs::of(state) {
        match (arc.to as usize).cmp(&count) {
            Ordering::Less => {}
            Ordering::Equal => count += 1,
            Ordering::Greater => return None,
        }
    }
    Some(count)
}

// The target of the arc with this name, if there is one. Names ascend, so that the search stops early.
pub fn target(state: &[u8], name: u8) -> Option<usize>
    requires { StateOk state.now }
    ensures { MatchOption result
        (target_in name (state_in state.now).arcs ≡ 0)
        (λ (to : ℕ). target_in name (state_in state.now).arcs ≡ suc to) }
{
    for arc in Arcs::of(state) {
        if arc.name == name {
            return Some(arc.to as usize);
        }
        if name < arc.name {
            return None;
        }
    }
    None
}

// The names of a state's arcs to marked states, as a set of 64 bits, bit n for name n.
pub fn name_set(state: &[u8], marks: &[u16; STATE_LIMIT]) -> u64
    requires state_ok { StateOk state.now }
    requires targets_below { TargetsBelow state_limit (state_in state.now).arcs }
    ensures { result ≡ name_set (marked_arcs marks.now (state_in state.now).arcs) }
{
    let mut names: u64 = 0;
    for arc in Arcs::of(state) {
        if marks[arc.to as usize] != 0 {
            names = with_name(names, arc.name);
        }
    }
    names
}
