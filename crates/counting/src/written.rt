// The counts file: a field for each state, in the order of their numbers.
ghost use Rattle.std.specs.Prelude.{List, ℕ, ◌<◌, ◌≤◌, length, get_or};
ghost use Rattle.base.specs.Limits.{state_limit, work_bytes};
ghost use Rattle.model.specs.Classes.{Word};
ghost use Rattle.model.specs.Joinings.{tree_of};
ghost use Rattle.model.specs.Quotients.{states_of};
ghost use Rattle.counts.specs.Counts.{counts_file};
ghost use Rattle.writing.specs.Writing.{Fits, Put};
ghost use Rattle.counting.specs.Ready.{PassesToWrite, FieldToWrite, CountsReady};

use base::cells::cell;
use base::limits::COUNT_MARK;
use base::sets::{Names, how_many};
use quotient::states::Made;
use writing::{put_head, put_two};

// Writes the passes of the arcs out of a group, in ascending name. Returns the offset after them.
fn write_passes(work: &[u8], row: usize, names: u64, out: &mut [u8], at: usize) -> usize
    requires work_bytes_in_bounds { (work_bytes ≤ length work.now) × (row < state_limit) }
    requires by_index { (bytes : List ℕ) × PassesToWrite work.now row names bytes × Fits out.old at bytes }
    ensures { (bytes : List ℕ) → PassesToWrite work.now row names bytes →
        Put out.old out.new at bytes result }
{
    let mut end = at;
    for name in Names::of(names) {
        end = put_two(out, end, cell(work, row, name as usize));
    }
    end
}

// Writes the field of a group's state: its ends, then the passes of its arcs. Returns the offset after it.
fn write_field(work: &[u8], made: Made, g: usize, out: &mut [u8], at: usize) -> usize
    requires work_bytes_in_bounds { (work_bytes ≤ length work.now) × (g < state_limit) }
    requires g_in_bounds { (g < length made.next.now) × (g < length made.sums.now) }
    requires by_index { (bytes : List ℕ)
        × FieldToWrite work.now g (get_or made.next.now g 0) (get_or made.sums.now g 0) bytes × Fits out.old at bytes }
    ensures { (bytes : List ℕ) →
        FieldToWrite work.now g (get_or made.entry.next.now g 0) (get_or made.entry.sums.now g 0) bytes →
        Put out.old out.new at bytes result }
{
    let names = made.next[g];
    let body = put_head(out, at, COUNT_MARK, 2 + 2 * how_many(names));
    let first = put_two(out, body, made.sums[g] as usize);
    write_passes(work, g, names, out, first)
}

// Writes the counts file, each byte once, and leaves the rest of the output as it was. Returns how many bytes it has.
pub fn write_counts(work: &[u8], made: Made, out: &mut [u8]) -> usize
    requires { (rows : List Word) × (parents : List ℕ) × (names : List ℕ) × (groups : List ℕ)
        × CountsReady rows parents names groups work.now made.next.now made.sums.now made.order.now made.count
        × Fits out.old 0 (counts_file (states_of rows (tree_of rows) groups) rows) }
    ensures { (rows : List Word) → (parents : List ℕ) → (names : List ℕ) → (groups : List ℕ) →
        CountsReady rows parents names groups work.now made.entry.next.now made.entry.sums.now made.entry.order.now
        made.entry.count →
        Put out.old out.new 0 (counts_file (states_of rows (tree_of rows) groups) rows) result }
{
    let mut end = 0;
    for i in 0..made.count {
        end = write_field(work, made, made.order[i] as usize, out, end);
    }
    end
}
