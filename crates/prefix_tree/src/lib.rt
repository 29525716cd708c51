// The prefix tree of a book's rows as it grows: for each state, in the order met, its parent, its name and how many rows end there. A
// child is found by its cell [state][name] of the working area, which counts only where the state that it names has that parent and that
// name; so the area may hold anything at the start.
#![tactic(auto)]

ghost use Rattle.std.specs.Prelude.{◌≡◌, [], ◌∷◌, List, ℕ, ◌+◌, ◌<◌, ◌≤◌, length, get_or};
ghost use Rattle.base.specs.Limits.{name_limit, book_rows, state_limit, work_bytes};
ghost use Rattle.judging.specs.Offsets.{offset_at, fields_at};
ghost use Rattle.prefix_tree.specs.Children.{Roomy, ChildOf};

use base::cells::{cell, set_cell};
use base::limits::{NAME_LIMIT, STATE_LIMIT};
use base::refusals::Refusal;
use judging::offsets::{body, next_field};

// The child of a state by a name, from its cell; the first `count` places of the arrays are states.
pub fn child(
    parents: &[u16],
    names: &[u8],
    work: &[u8],
    count: usize,
    state: usize,
    name: u8,
) -> Option<usize>
    requires state_lt_state_limit { (state < state_limit) × (name < name_limit) }
    requires roomy { Roomy count parents.now names.now work.now }
    ensures { ChildOf count state name parents.now names.now work.now result }
{
    let c = cell(work, state, name as usize);
    if c < count && parents[c] as usize == state && names[c] == name {
        Some(c)
    } else {
        None
    }
}

// The states so far are the first `count` places; the root's name is NAME_LIMIT, which is no name.
// Stays: (a) arrays side by side, and that name: `TreeArrays` has both, and `Tree` lends two of the arrays.
#[derive(Drop)]
pub struct Growing {
    pub parents: [u16; STATE_LIMIT],
    pub names: [u8; STATE_LIMIT],
    pub ends: [u16; STATE_LIMIT],
    pub count: usize,
    pub ghost some_state: { 0 < count },
    pub ghost few_states: { count ≤ state_limit },
    pub ghost sized: { (length parents ≡ state_limit) × (length names ≡ state_limit) × (length ends ≡ state_limit) },
}

impl Growing {
    ghost use Rattle.prefix_tree.specs.Growth.{store, held, Grown, appended, StepOf, Ended, FewRows, RowBelow, RowOf};
    ghost use Rattle.prefix_tree.specs.Growth.{RowsBelow, TreeOf};

    // The root alone, the tree of no rows.
    pub fn new() -> Growing
        ensures { (work : List ℕ) → Grown ([] ∷ []) [] result.count (held result work) }
    {
        Growing {
            parents: [0; STATE_LIMIT],
            names: [NAME_LIMIT; STATE_LIMIT],
            ends: [0; STATE_LIMIT],
            count: 1,
        }
    }

    // Back to the root alone.
    fn clear(&mut self)
        ensures { (work : List ℕ) → Grown ([] ∷ []) [] self.new.count (held self.new work) }
    {
        self.parents[0] = 0;
        self.names[0] = NAME_LIMIT;
        self.ends[0] = 0;
        self.count = 1;
    }

    // The child of a state by a name, from its cell.
    pub fn child(&self, work: &[u8], state: usize, name: u8) -> Option<usize>
        requires state_lt_state_limit { (state < state_limit) × (name < name_limit) }
        requires room { work_bytes ≤ length work.now }
        ensures { ChildOf self.now.count state name self.now.parents self.now.names work.now result }
    {
        child(&self.parents, &self.names, work, self.count, state, name)
    }

    // Appends a state that goes on from a state by a name, in which no row ends, and that is found in its cell.
    fn append(&mut self, work: &mut [u8], state: usize, name: u8)
        requires count_lt_state_limit { (self.old.count < state_limit) × (state < self.old.count) × (name < name_limit) }
        requires room { work_bytes ≤ length work.old }
        ensures appends { held self.new work.new ≡ appended self.old.count state name (held self.old work.old) }
        ensures counts { self.new.count ≡ self.old.count + 1 }
    {
        self.parents[self.count] = state as u16;
        self.names[self.count] = name;
        self.ends[self.count] = 0;
        set_cell(work, state, name as usize, self.count);
        self.count += 1;
    }

    // One step along a row: to the child by the name, which is appended where there is none; or a 513th state would be needed.
    fn step(&mut self, work: &mut [u8], state: usize, name: u8) -> Result<usize, Refusal>
        requires state_lt_count { (state < self.old.count) × (name < name_limit) }
        requires room { work_bytes ≤ length work.old }
        ensures { StepOf self.old.count state name (held self.old work.old) (held self.new work.new) self.new.count result }
    {
        if let Some(child) = self.child(work, state, name) {
            return Ok(child);
        }
        if STATE_LIMIT <= self.count {
            return Err(Refusal::TreeTooLarge);
        }
        let child = self.count;
        self.append(work, state, name);
        Ok(child)
    }

    // Counts one more row that ends in a state, the root too: an empty row is a row. Tells whether one ended there before.
    fn end_in(&mut self, state: usize) -> bool
        requires { (state < self.old.count) × (get_or self.old.ends state 0 < book_rows) }
        ensures ended { Ended self.old.ends self.new.ends state result }
        ensures parents { self.new.parents ≡ self.old.parents }
        ensures names { self.new.names ≡ self.old.names }
        ensures count { self.new.count ≡ self.old.count }
    {
        let before = self.ends[state];
        self.ends[state] = before + 1;
        before != 0
    }

    // Adds a row: walks it from the root, appends what is missing, and counts it in the last state. Tells whether it was there
    // already, which is where one ended in that state before; or a 513th state would be needed.
    pub fn add_row(&mut self, row: &[u8], work: &mut [u8]) -> Result<bool, Refusal>
        requires row_below { RowBelow row.now }
        requires room { work_bytes ≤ length work.old }
        requires few_rows { FewRows self.old.count (held self.old work.old) }
        ensures { RowOf row.now self.old.count (held self.old work.old) (held self.new work.new) self.new.count result }
    {
        let mut state = 0;
        for name in row {
            state = self.step(work, state, *name)?;
        }
        let again = self.end_in(state);
        Ok(again)
    }

    // The prefix tree of the rows of a book, `items` fields from offset `start` on, whatever was there before. Tells how many of
    // them are different; or a 513th state would be needed.
    pub fn add_rows(
        &mut self,
        book: &[u8],
        start: usize,
        items: usize,
        work: &mut [u8],
    ) -> Result<usize, Refusal>
        requires in_bounds { offset_at book.now start items ≤ length book.now }
        requires rows_below { RowsBelow (fields_at book.now start items) }
        requires room { work_bytes ≤ length work.old }
        requires le_book_rows { items ≤ book_rows }
        ensures { TreeOf (fields_at book.now start items) (held self.old work.old) (held self.new work.new) self.new.count result }
    {
        self.clear();
        let mut distinct = 0;
        let mut at = start;
        for _ in 0..items {
            if !self.add_row(body(book, at), work)? {
                distinct += 1;
            }
            at = next_field(book, at);
        }
        Ok(distinct)
    }
}
