// A row walked over a table: the table is judged wholly, then the row. The walk heeds the states with no way to an end.
ghost use Rattle.std.specs.Prelude.{◌≡◌, cond, [], ◌≤◌, length};
ghost use Rattle.base.specs.Limits.{row_limit, admitted, on_the_way, stops};
ghost use Rattle.base.specs.Refusals.{told};
ghost use Rattle.model.specs.Tables.{plain_walk};
ghost use Rattle.model.specs.Calls.{Gives, table_states};
ghost use Rattle.endings.specs.Live.{trimmed, nowhere, Marked};
ghost use Rattle.tables.specs.Accepting.{Ready};
ghost use Rattle.levels.specs.Sorted.{FewArcs};
ghost use Rattle.results.specs.Says.{not_walked, walked_told, walked_over, walking};
ghost use Rattle.table_calls.specs.Outcomes.{number_of};

use base::limits::STATE_LIMIT;
use base::refusals::Refusal;
use judging::rows::row_ok;
use levels::mark_live;
use results::Walked;
use tables::open_table;
use tables::opened::Opened;
use tables::walks::{Walk, walk_all};

// How a walk ends: the row is admitted, or begins an admitted one, or the walk stops before its end.
#[derive(Clone, Copy, Debug, PartialEq, Eq)]
pub enum Outcome {
    Admitted = 1,
    OnTheWay,
    Stops,
}

// Its number, which is told.
impl From<Outcome> for u8 {
    ghost from_gives = { λ outcome number. number ≡ number_of outcome };

    fn from(outcome: Outcome) -> u8 {
        outcome as u8
    }
}

// How a walk ends that stopped before the row's end or not, in a state that accepts or not.
fn outcome_of(stopped: bool, accepting: bool) -> Outcome
    ensures { number_of result ≡ cond stopped stops (cond accepting admitted on_the_way) }
{
    match (stopped, accepting) {
        (true, _) => Outcome::Stops,
        (false, true) => Outcome::Admitted,
        (false, false) => Outcome::OnTheWay,
    }
}

// A walk over a table that admits no row: it stops, with nothing walked and no names.
fn walked_nowhere() -> Walked
    ensures { result ≡ walked_told nowhere }
{
    Walked {
        outcome: u8::from(Outcome::Stops),
        ..Walked::default()
    }
}

// The walk of a row over an accepted table whose states with a way to an end are marked.
fn walk_marked(table: Opened, row: &[u8], marks: &[u16; STATE_LIMIT]) -> Walked
    requires marked { Marked (table_states table.s.now) marks.now }
    requires row_len_bound { length row.now ≤ row_limit }
    ensures { result ≡ walked_told (plain_walk (trimmed (table_states table.entry.s.now)) row.now) }
{
    let Walk { state, taken } = walk_all(table, row, marks);
    let next_names = table.next_names(marks, state);
    let outcome = outcome_of(taken < row.len(), table.accepts(state));
    Walked {
        refusal: 0,
        outcome: u8::from(outcome),
        next_count: next_names.count_ones() as u8,
        walked: taken as u32,
        next_names,
    }
}

// The walk of a row over an accepted table of so many states: those with a way to an end are marked first. Where the start has none, no
// row is admitted.
fn walk_over(table: &[u8], row: &[u8], work: &mut [u8], count: usize) -> Walked
    requires ready { Ready table.now work.old }
    requires count_value { count ≡ length (table_states table.now) }
    requires few_arcs { FewArcs (table_states table.now) }
    requires row_len_bound { length row.now ≤ row_limit }
    ensures { result ≡ walked_over (table_states table.now) row.now }
{
    let marks = mark_live(table, count, work);
    if marks[0] == 0 {
        return walked_nowhere();
    }
    walk_marked(Opened { s: table, work }, row, &marks)
}

// Refusals 1, the table's, 9; otherwise the walk. The working area is not cleared yet.
pub fn walk(table: &[u8], row: &[u8], work: &mut [u8]) -> Result<Walked, Refusal>
    ensures { Gives (walking table.now row.now work.old) [] [] (told not_walked result) }
{
    let place = open_table(table, work)?;
    if !row_ok(place.names, row) {
        return Err(Refusal::BadRow);
    }
    Ok(walk_over(table, row, work, place.items))
}
