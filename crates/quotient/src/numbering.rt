// First-met numbers of groups: the root's group is 0; groups are taken in ascending number and their arcs in ascending name, and each
// new target has the next number. The arcs are counted on the way.
ghost use Rattle.std.specs.Prelude.{◌≡◌, List, ℕ, ◌<◌, ◌≤◌, length, get_or};
ghost use Rattle.model.specs.Classes.{Word};
ghost use Rattle.base.specs.Limits.{state_limit, number_limit, work_bytes};
ghost use Rattle.quotient.specs.Gathered.{Gathered};
ghost use Rattle.quotient.specs.Numbered.{MetAs, MeetingOne, Meeting};
ghost use Rattle.quotient.specs.Ready.{NumberedStates};

use base::cells::cell;
use base::limits::{NO_STATE, STATE_LIMIT};
use base::sets::{Names, how_many};

// How many states the automaton has, and how many arcs.
#[derive(Clone, Copy)]
pub struct Numbers {
    pub states: usize,
    pub arcs: usize,
}

// The number of a group.
pub(crate) fn number_of(numbers: &[u16], group: usize) -> usize
    requires { group < length numbers.now }
    ensures value { result ≡ get_or numbers.now group 0 }
    ensures small { result < number_limit }
{
    numbers[group] as usize
}

// Meets a group: it gets the next number, unless it has one. Returns how many are met.
fn meet_one(order: &mut [u16], numbers: &mut [u16], count: usize, target: usize) -> usize
    requires { (n : ℕ) × (after : List ℕ) × MeetingOne n order.old numbers.old count target after }
    ensures { (n : ℕ) → (after : List ℕ) →
        MeetingOne n order.old numbers.old count target after →
        MetAs n order.new numbers.new result after }
{
    if numbers[target] != NO_STATE {
        return count;
    }
    order[count] = target as u16;
    numbers[target] = count as u16;
    count + 1
}

// Meets the targets of a group's arcs, in ascending name. Returns how many groups are met.
fn meet(
    work: &[u8],
    row: usize,
    names: u64,
    order: &mut [u16],
    numbers: &mut [u16],
    count: usize,
) -> usize
    requires work_bytes_in_bounds { (work_bytes ≤ length work.now) × (row < state_limit) }
    requires by_index { (n : ℕ) × (after : List ℕ) × Meeting n work.now row names order.old numbers.old count after }
    ensures { (n : ℕ) → (after : List ℕ) →
        Meeting n work.now row names order.old numbers.old count after →
        MetAs n order.new numbers.new result after }
{
    let mut reached = count;
    for name in Names::of(names) {
        reached = meet_one(order, numbers, reached, cell(work, row, name as usize));
    }
    reached
}

// Meets every group, from the root's on, and counts the arcs out of them. The lent slices may hold anything.
// Stays: (a) slices, which may be of any length that the groups leave room in, since docs/changes names it.
pub fn number(
    groups: &[u16],
    work: &[u8],
    next: &[u64],
    order: &mut [u16],
    numbers: &mut [u16],
) -> Numbers
    requires gathered { (rows : List Word) × Gathered rows groups.now work.now next.now }
    requires groups_in_bounds { (length groups.now ≤ length order.old) × (length groups.now ≤ length numbers.old) }
    ensures { (rows : List Word) → Gathered rows groups.now work.now next.now →
        NumberedStates rows groups.now order.new numbers.new result.states result.arcs }
{
    numbers.fill(NO_STATE);
    let mut count = meet_one(order, numbers, 0, groups[0] as usize);
    let mut arcs = 0;
    let mut i = 0;
    // Stays: (d) no range, since groups are met while the loop runs.
    while i < count {
        let g = order[i] as usize;
        let names = next[g];
        count = meet(work, g, names, order, numbers, count);
        arcs += how_many(names);
        i += 1;
    }
    Numbers {
        states: count,
        arcs,
    }
}

// The groups met, `count` of them in the order in which they were met, and the number of each.
// Stays: (a) `NO_STATE` for a group that has no number, since `MetAs.unmet` says so.
#[derive(Drop)]
pub struct Met {
    pub order: [u16; STATE_LIMIT],
    pub numbers: [u16; STATE_LIMIT],
    pub count: usize,
}

impl Met {
    // The number of a group.
    pub fn number_of(&self, group: usize) -> usize
        requires { group < state_limit }
        ensures { result ≡ get_or self.now.numbers group 0 }
    {
        number_of(&self.numbers, group)
    }

    // No group met.
    pub fn new() -> Met
        ensures { result.count ≡ 0 }
    {
        Met {
            order: [0; STATE_LIMIT],
            numbers: [NO_STATE; STATE_LIMIT],
            count: 0,
        }
    }

    // Meets every group, from the root's on, whatever was met before. Returns how many arcs lead out of them.
    pub fn meet_all(&mut self, groups: &[u16], work: &[u8], next: &[u64]) -> usize
        requires gathered { (rows : List Word) × Gathered rows groups.now work.now next.now }
        ensures { (rows : List Word) → Gathered rows groups.now work.now next.now →
            NumberedStates rows groups.now self.new.order self.new.numbers self.new.count result }
    {
        let Numbers { states, arcs } = number(
            groups,
            work,
            next,
            &mut self.order,
            &mut self.numbers,
        );
        self.count = states;
        arcs
    }
}
