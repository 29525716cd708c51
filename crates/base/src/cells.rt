// The lent working area as rows of cells of two bytes, a row for each state and a cell for each name: read a cell, write a cell, clear
// the area.
// Stays: (d) the area is a slice, and `work_bytes ≤ length work` stands in the contracts: C lends a slice of any length, which is judged
// (refusal 1) and cleared whole; a fixed array made of its front would be a second value of the same bytes.
ghost use Rattle.std.specs.Prelude.{◌≡◌, ◌<◌, ◌≤◌, length, replicate};
ghost use Rattle.base.specs.Limits.{name_limit, state_limit, work_bytes, number_limit};
ghost use Rattle.base.specs.Cells.{with_cell, IsCell};

// The value of the cell in a row and a column.
#[tactic(auto, unfolding(crate::specs::Cells::cell_at))]
pub fn cell(work: &[u8], row: usize, column: usize) -> usize
    requires in_rows { row < state_limit }
    requires in_columns { column < name_limit }
    requires room { work_bytes ≤ length work.now }
    ensures { IsCell work.now row column result }
{
    let high = 128 * row + 2 * column;
    let low = high + 1;
    u16::from_be_bytes([work[high], work[low]]) as usize
}

// Writes a value into the cell in a row and a column; every other cell keeps its value.
pub fn set_cell(work: &mut [u8], row: usize, column: usize, value: usize)
    requires in_rows { row < state_limit }
    requires in_columns { column < name_limit }
    requires small { value < number_limit }
    requires room { work_bytes ≤ length work.old }
    ensures { work.new ≡ with_cell work.old row column value }
{
    let high = 128 * row + 2 * column;
    let low = high + 1;
    [work[high], work[low]] = (value as u16).to_be_bytes();
}

// Sets every byte of the area to 0, so that every cell is 0.
pub fn clear(work: &mut [u8])
    ensures { work.new ≡ replicate (length work.new) 0 }
{
    work.fill(0);
}
