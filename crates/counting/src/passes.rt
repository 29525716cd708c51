// The passes of the arcs between groups, each in the cell of the group that the arc leaves and of its name.
ghost use Rattle.std.specs.Prelude.{◌≡◌, List, ◌+◌, ◌<◌, ◌≤◌, length};
ghost use Rattle.base.specs.Limits.{name_limit, state_limit, work_bytes, number_limit};
ghost use Rattle.base.specs.Cells.{cell_at, with_cell};
ghost use Rattle.model.specs.Classes.{Word};
ghost use Rattle.indexed.specs.Trees.{EndsArray};
ghost use Rattle.indexed.specs.Partitions.{Joined};
ghost use Rattle.counting.specs.PassCells.{RowsShort, PassesAt, CellsClear};

use base::cells::{cell, set_cell};
use indexed::Tree;

// The cell of each tree arc is set to 0.
fn clear_cells(tree: Tree, groups: &[u16], work: &mut [u8])
    requires joined { (rows : List Word) × Joined rows tree.parents.now tree.names.now groups.now }
    requires work_bytes_in_bounds { work_bytes ≤ length work.old }
    ensures { CellsClear (length groups.now) tree.entry.parents.now tree.entry.names.now groups.now
        work.new }
{
    for v in 1..groups.len() {
        let from = groups[tree.parents[v] as usize];
        set_cell(work, from as usize, tree.names[v] as usize, 0);
    }
}

// A cell made larger.
fn add_to_cell(work: &mut [u8], row: usize, column: usize, more: usize)
    requires row_lt_state_limit { (row < state_limit) × (column < name_limit) × (work_bytes ≤ length work.old) }
    requires more_bound { cell_at work.old row column + more < number_limit }
    ensures { work.new ≡ with_cell work.old row column (cell_at work.old row column + more) }
{
    set_cell(work, row, column, cell(work, row, column) + more);
}

// Sums the passes of each arc. `through` has on entry how many rows end in each tree state, and then how many pass through it: the states
// are taken from the last to the first, so that each has all its rows before they are added to the state that it goes on from.
pub fn add_passes(tree: Tree, groups: &[u16], through: &mut [u16], work: &mut [u8])
    requires joined { (rows : List Word) × Joined rows tree.parents.now tree.names.now groups.now × EndsArray rows through.old
        × RowsShort rows }
    requires work_bytes_in_bounds { work_bytes ≤ length work.old }
    ensures { (rows : List Word) → Joined rows tree.entry.parents.now tree.entry.names.now groups.now →
        EndsArray rows through.old → RowsShort rows →
        PassesAt rows tree.entry.parents.now tree.entry.names.now groups.now work.new }
{
    clear_cells(tree, groups, work);
    for v in (1..groups.len()).rev() {
        let parent = tree.parents[v] as usize;
        let passes = through[v];
        through[parent] += passes;
        add_to_cell(
            work,
            groups[parent] as usize,
            tree.names[v] as usize,
            passes as usize,
        );
    }
}
