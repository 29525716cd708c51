// The public entries: a book's table built, alone or with its counts, a table rewritten, a row walked over a table, a book listed as
// text, a plan's rows read. Any bytes may be lent; each call ends with a result or one numbered refusal, leaves every byte of the working
// area zero, and leaves each output as it was where it refuses. Those named plans_.. are what C calls: the crate plans_c exports them.
#![tactic(auto)]

pub mod printing;

ghost use Rattle.model.specs.Fields.{standard};
ghost use Rattle.results.specs.Says.{BuildSays, CountedSays, RewriteSays, WalkSays, WalkedSays, ListSays, RowsSays};

use base::cells::clear;
use book_calls::{building, listing};
use fields::STANDARD;
use plan_calls::reading;
use results::{Built, Counted, PlanRows, Rewritten, Walked, Written, not_read};
use table_calls::{rewriting, walking};

// Builds the table of a book: the prefix tree of its rows, joined by the rules of its class until none applies, numbered
// first-met. `build_handed_over` of the crate handed_over says what holds of the table that is written: demand 3, whole.
pub fn build_table(book: &[u8], work: &mut [u8], out: &mut [u8]) -> Built
    ensures { BuildSays standard book.now work.old work.new
        out.old out.new result }
{
    let built = building::build(STANDARD, book, work, out);
    clear(work);
    built.unwrap_or_else(Built::from)
}

// Builds the table of a book as build_table does, and writes how often the book's rows use each state and each arc of it to a second
// output. `counted-handed_over` of the crate handed_over says what holds of the table and of the counts that are written.
pub fn build_counted(book: &[u8], work: &mut [u8], out: &mut [u8], counts: &mut [u8]) -> Counted
    ensures { CountedSays standard book.now work.old work.new
        out.old out.new counts.old counts.new result }
{
    let counted = building::build_with(STANDARD, true, book, work, out, counts);
    clear(work);
    counted.unwrap_or_else(Counted::from)
}

// Reads a table and writes it again, to the same bytes.
pub fn rewrite_table(table: &[u8], work: &mut [u8], out: &mut [u8]) -> Rewritten
    ensures { RewriteSays table.now work.old work.new out.old out.new result }
{
    let rewritten = rewriting::rewrite(table, work, out);
    clear(work);
    rewritten.unwrap_or_else(Rewritten::from)
}

// Walks a row over a table, and clears the working area.
fn walk_and_clear(table: &[u8], row: &[u8], work: &mut [u8]) -> Walked
    ensures { WalkedSays table.now row.now work.old work.new result }
{
    let walked = walking::walk(table, row, work);
    clear(work);
    walked.unwrap_or_else(Walked::from)
}

// Walks a row over a table: the longest beginning of the row that begins an admitted row, as a part of the row, or the empty part where the
// table admits none; what else there is to say goes out through the lent numbers.
pub fn walk_row<'a>(
    table: &[u8],
    row: &'a [u8],
    work: &mut [u8],
    refusal: &mut u8,
    outcome: &mut u8,
    next_names: &mut u64,
    next_count: &mut u8,
) -> &'a [u8]
    ensures { WalkSays table.now row.now work.old work.new result.now
        refusal.new outcome.new next_names.new next_count.new }
{
    let ended = walk_and_clear(table, row, work);
    *refusal = ended.refusal;
    *outcome = ended.outcome;
    *next_names = ended.next_names;
    *next_count = ended.next_count;
    let walked = ended.walked as usize;
    &row[..walked]
}

// Writes the listing of a book: a line with the states, the joins and the different rows, then one for each state.
pub fn list_book(book: &[u8], work: &mut [u8], text: &mut [u8]) -> Written
    ensures { ListSays standard book.now work.old work.new
        text.old text.new result }
{
    let written = listing::list(STANDARD, book, work, text);
    clear(work);
    written.unwrap_or_else(Written::from)
}

// Reads a plan, an XML file, and writes one row field for each of its elements with the chosen name: the numbers of the element's children.
// `rows_handed_over` of the crate rows_handed_over says what holds of the rows that are written, and of each refusal.
pub fn rows_of_plan(
    plan: &[u8],
    names: &[u8],
    chosen: u8,
    work: &mut [u8],
    out: &mut [u8],
) -> PlanRows
    ensures { RowsSays plan.now names.now chosen work.old work.new
        out.old out.new result }
{
    let rows = reading::read_rows(plan, names, chosen, work, out);
    clear(work);
    match rows {
        Ok(rows) => rows,
        Err(fault) => not_read(fault.refusal.into(), fault.at as u32),
    }
}

// Stays: (a) the six functions from here on say the same as those above: docs/PROOFS.md names each as what C is promised, and the edits
// c_build_leaves_work, c_counted_build_leaves_work, c_rows_leave_work and walk_leaves_work stand in them.

// build_table, as C calls it.
pub fn plans_build(book: &[u8], work: &mut [u8], out: &mut [u8]) -> Built
    ensures { BuildSays standard book.now work.old work.new
        out.old out.new result }
{
    build_table(book, work, out)
}

// build_counted, as C calls it.
pub fn plans_build_counted(
    book: &[u8],
    work: &mut [u8],
    out: &mut [u8],
    counts: &mut [u8],
) -> Counted
    ensures { CountedSays standard book.now work.old work.new
        out.old out.new counts.old counts.new result }
{
    build_counted(book, work, out, counts)
}

// rewrite_table, as C calls it.
pub fn plans_rewrite(table: &[u8], work: &mut [u8], out: &mut [u8]) -> Rewritten
    ensures { RewriteSays table.now work.old work.new out.old out.new result }
{
    rewrite_table(table, work, out)
}

// walk_row, as C calls it: the beginning is told by its length.
pub fn plans_walk(table: &[u8], row: &[u8], work: &mut [u8]) -> Walked
    ensures { WalkedSays table.now row.now work.old work.new result }
{
    walk_and_clear(table, row, work)
}

// list_book, as C calls it.
pub fn plans_list(book: &[u8], work: &mut [u8], text: &mut [u8]) -> Written
    ensures { ListSays standard book.now work.old work.new
        text.old text.new result }
{
    list_book(book, work, text)
}

// rows_of_plan, as C calls it.
pub fn plans_read_rows(
    plan: &[u8],
    names: &[u8],
    chosen: u8,
    work: &mut [u8],
    out: &mut [u8],
) -> PlanRows
    ensures { RowsSays plan.now names.now chosen work.old work.new
        out.old out.new result }
{
    rows_of_plan(plan, names, chosen, work, out)
}
