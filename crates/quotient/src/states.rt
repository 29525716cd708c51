// The states' fields, written front to back from the arcs gathered and the numbers given.
ghost use Rattle.std.specs.Prelude.{List, ℕ, ◌<◌, ◌≤◌, length, get_or, ltb};
ghost use Rattle.model.specs.Classes.{Word};
ghost use Rattle.model.specs.Joinings.{tree_of};
ghost use Rattle.base.specs.Limits.{state_limit, work_bytes};
ghost use Rattle.model.specs.Quotients.{states_of};
ghost use Rattle.model.specs.Tables.{state_fields};
ghost use Rattle.writing.specs.Writing.{Fits, Put};
ghost use Rattle.quotient.specs.Ready.{Ready, ArcsToWrite, StateToWrite};

use crate::numbering::number_of;
use base::cells::cell;
use base::sets::Names;
use writing::{put_arc, put_state};

// What is written, lent: for each group the set of the names that lead out of it and how many rows end in it; the groups that are states,
// `count` of them in the order of their numbers, and the number of each.
// Stays: (a) slices of any length, with no ghost field: `Ready` and `CountsReady` say how long each is to be.
#[derive(Clone, Copy)]
pub struct Made<'a> {
    pub next: &'a [u64],
    pub sums: &'a [u16],
    pub order: &'a [u16],
    pub numbers: &'a [u16],
    pub count: usize,
}

// Writes the arcs out of a group, in ascending name. Returns the offset after them.
fn write_arcs(work: &[u8], made: Made, g: usize, out: &mut [u8], at: usize) -> usize
    requires work_bytes_in_bounds { (work_bytes ≤ length work.now) × (g < state_limit) }
    requires g_in_bounds { g < length made.next.now }
    requires by_index { (bytes : List ℕ)
        × ArcsToWrite work.now g (get_or made.next.now g 0) made.numbers.now bytes × Fits out.old at bytes }
    ensures { (bytes : List ℕ) → ArcsToWrite work.now g (get_or made.entry.next.now g 0) made.entry.numbers.now bytes →
        Put out.old out.new at bytes result }
{
    let mut end = at;
    for name in Names::of(made.next[g]) {
        let target = number_of(made.numbers, cell(work, g, name as usize));
        end = put_arc(out, end, name, target);
    }
    end
}

// Writes a group's state field: the arcs, and then the head in front of them, whose length is known from where they end. Returns the
// offset after the field.
fn write_state(work: &[u8], made: Made, g: usize, out: &mut [u8], at: usize) -> usize
    requires work_bytes_in_bounds { (work_bytes ≤ length work.now) × (g < state_limit) }
    requires g_in_bounds { (g < length made.next.now) × (g < length made.sums.now) }
    requires by_index { (bytes : List ℕ)
        × StateToWrite work.now g (get_or made.next.now g 0) (ltb 0 (get_or made.sums.now g 0)) made.numbers.now bytes
        × Fits out.old at bytes }
    ensures { (bytes : List ℕ) →
        StateToWrite work.now g (get_or made.entry.next.now g 0) (ltb 0 (get_or made.entry.sums.now g 0))
        made.entry.numbers.now bytes →
        Put out.old out.new at bytes result }
{
    let start = at + 4;
    let end = write_arcs(work, made, g, out, start);
    put_state(out, at, 0 < made.sums[g], end - start);
    end
}

// Writes the states' fields from offset `at` on, each byte once, and leaves the rest of the output as it was. Returns the offset
// after them.
pub fn write_states(work: &[u8], made: Made, out: &mut [u8], at: usize) -> usize
    requires { (rows : List Word) × (groups : List ℕ)
        × Ready rows groups work.now made.next.now made.sums.now made.order.now made.numbers.now made.count
        × Fits out.old at (state_fields (states_of rows (tree_of rows) groups)) }
    ensures { (rows : List Word) → (groups : List ℕ) →
        Ready rows groups work.now made.entry.next.now made.entry.sums.now made.entry.order.now made.entry.numbers.now
        made.entry.count →
        Put out.old out.new at (state_fields (states_of rows (tree_of rows) groups)) result }
{
    let mut end = at;
    for i in 0..made.count {
        end = write_state(work, made, made.order[i] as usize, out, end);
    }
    end
}
