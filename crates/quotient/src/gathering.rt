// The arcs of the joined automaton, and how many rows end in each group, gathered in one pass each over the tree's states.
ghost use Rattle.std.specs.Prelude.{List, ◌≤◌, length};
ghost use Rattle.model.specs.Classes.{Word};
ghost use Rattle.model.specs.Joinings.{tree_of};
ghost use Rattle.base.specs.Limits.{work_bytes};
ghost use Rattle.indexed.specs.Trees.{EndsArray};
ghost use Rattle.indexed.specs.Partitions.{Labelled, Joined};
ghost use Rattle.counts.specs.TreeCounts.{EndsSummed};
ghost use Rattle.quotient.specs.Gathered.{Gathered};

use base::cells::set_cell;
use base::sets::with_name;
use indexed::Tree;

// Each tree arc becomes an arc between groups: its name in the set of the group that it leaves, its target in that group's cell.
pub fn gather(tree: Tree, groups: &[u16], work: &mut [u8], next: &mut [u64])
    requires joined { (rows : List Word) × Joined rows tree.parents.now tree.names.now groups.now }
    requires work_bytes_in_bounds { work_bytes ≤ length work.old }
    requires groups_in_bounds { length groups.now ≤ length next.old }
    ensures { (rows : List Word) → Joined rows tree.entry.parents.now tree.entry.names.now groups.now →
        Gathered rows groups.now work.new next.new }
{
    next.fill(0);
    for v in 1..groups.len() {
        let from = groups[tree.parents[v] as usize] as usize;
        let name = tree.names[v];
        set_cell(work, from, name as usize, groups[v] as usize);
        next[from] = with_name(next[from], name);
    }
}

// The ends of a group are those of its states, summed.
pub fn sum_ends(ends: &[u16], groups: &[u16], sums: &mut [u16])
    requires ends_array { (rows : List Word) × EndsArray rows ends.now × Labelled (length (tree_of rows)) groups.now }
    requires groups_in_bounds { length groups.now ≤ length sums.old }
    ensures { (rows : List Word) → EndsArray rows ends.now →
        Labelled (length (tree_of rows)) groups.now → EndsSummed rows groups.now sums.new }
{
    sums.fill(0);
    for v in 0..groups.len() {
        sums[groups[v] as usize] += ends[v];
    }
}
