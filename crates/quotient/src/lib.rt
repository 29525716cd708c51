// The automaton of a partition of the prefix tree, its states numbered first-met and written as fields. The arcs out of a group are
// kept as the set of their names, and as cells of the working area that have their targets.
#![tactic(auto)]

pub mod gathering;
pub mod numbering;
pub mod states;

ghost use Rattle.std.specs.Prelude.{◌≡◌, List, ◌≤◌, length};
ghost use Rattle.model.specs.Classes.{Word};
ghost use Rattle.base.specs.Limits.{state_limit, work_bytes};
ghost use Rattle.indexed.specs.Trees.{EndsArray};
ghost use Rattle.indexed.specs.Partitions.{Joined};
ghost use Rattle.quotient.specs.Ready.{Prepared};

use base::limits::STATE_LIMIT;
use indexed::Tree;
use numbering::{Met, Numbers};
use states::Made;

// Makes all ready for the states to be written, and says how many they are and how many arcs they have. The lent slices may hold
// anything.
// Stays: (a) slices, which may be of any length that the groups leave room in, since docs/changes names it.
pub fn prepare(
    tree: Tree,
    ends: &[u16],
    groups: &[u16],
    work: &mut [u8],
    next: &mut [u64],
    sums: &mut [u16],
    order: &mut [u16],
    numbers: &mut [u16],
) -> Numbers
    requires joined { (rows : List Word) × Joined rows tree.parents.now tree.names.now groups.now × EndsArray rows ends.now }
    requires work_bytes_in_bounds { work_bytes ≤ length work.old }
    requires groups_in_bounds { (length groups.now ≤ length next.old) × (length groups.now ≤ length sums.old) }
    requires groups_in_bounds_2 { (length groups.now ≤ length order.old) × (length groups.now ≤ length numbers.old) }
    ensures { (rows : List Word) → Joined rows tree.entry.parents.now tree.entry.names.now groups.now →
        EndsArray rows ends.now →
        Prepared rows groups.now work.new next.new sums.new order.new
        numbers.new result.states result.arcs }
{
    gathering::gather(tree, groups, work, next);
    gathering::sum_ends(ends, groups, sums);
    numbering::number(groups, work, next, order, numbers)
}

// The automaton: for each group the set of the names that lead out of it and how many rows end in it; the groups that are its states,
// with their numbers; and how many arcs it has.
// Stays: (a) arrays side by side, by group: fixed memory, and `Prepared` takes each as a list.
#[derive(Drop)]
pub struct Quotient {
    pub next: [u64; STATE_LIMIT],
    pub sums: [u16; STATE_LIMIT],
    pub met: Met,
    pub arcs: usize,
    pub ghost sized: { (length next ≡ state_limit) × (length sums ≡ state_limit) },
}

impl Quotient {
    // Nothing gathered yet.
    pub fn new() -> Quotient
        ensures { result.arcs ≡ 0 }
    {
        Quotient {
            next: [0; STATE_LIMIT],
            sums: [0; STATE_LIMIT],
            met: Met::new(),
            arcs: 0,
        }
    }

    // Makes all ready for the states to be written. The lent area, and what was gathered before, may hold anything.
    pub fn prepare(&mut self, tree: Tree, ends: &[u16], groups: &[u16], work: &mut [u8])
        requires joined { (rows : List Word) × Joined rows tree.parents.now tree.names.now groups.now × EndsArray rows ends.now }
        requires work_bytes_in_bounds { work_bytes ≤ length work.old }
        ensures { (rows : List Word) → Joined rows tree.entry.parents.now tree.entry.names.now groups.now →
            EndsArray rows ends.now →
            Prepared rows groups.now work.new self.new.next self.new.sums self.new.met.order
            self.new.met.numbers self.new.met.count self.new.arcs }
    {
        let Numbers { states, arcs } = prepare(
            tree,
            ends,
            groups,
            work,
            &mut self.next,
            &mut self.sums,
            &mut self.met.order,
            &mut self.met.numbers,
        );
        self.met.count = states;
        self.arcs = arcs;
    }

    // The same, lent to be written.
    pub fn made(&self) -> Made
        ensures next_kept { result.next.now ≡ self.now.next }
        ensures sums_kept { result.sums.now ≡ self.now.sums }
        ensures order_kept { result.order.now ≡ self.now.met.order }
        ensures numbers_kept { result.numbers.now ≡ self.now.met.numbers }
        ensures count_kept { result.count ≡ self.now.met.count }
    {
        Made {
            next: &self.next,
            sums: &self.sums,
            order: &self.met.order,
            numbers: &self.met.numbers,
            count: self.met.count,
        }
    }
}
