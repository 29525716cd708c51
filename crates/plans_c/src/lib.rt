// The static library for C: the calls of include/plans.h, each of which is the function of plans with the same name and promises the same.
#![tactic(auto)]

ghost use Rattle.model.specs.Fields.{standard};
ghost use Rattle.results.specs.Says.{BuildSays, CountedSays, RewriteSays, WalkedSays, ListSays, RowsSays};

use results::{Built, Counted, PlanRows, Rewritten, Walked, Written};

// Builds the table of a book.
#[unsafe(no_mangle)]
pub extern "C" fn plans_build(book: &[u8], work: &mut [u8], out: &mut [u8]) -> Built
    ensures { BuildSays standard book.now work.old work.new
        out.old out.new result }
{
    plans::plans_build(book, work, out)
}

// Builds the table of a book, and its counts.
#[unsafe(no_mangle)]
pub extern "C" fn plans_build_counted(
    book: &[u8],
    work: &mut [u8],
    out: &mut [u8],
    counts: &mut [u8],
) -> Counted
    ensures { CountedSays standard book.now work.old work.new
        out.old out.new counts.old counts.new result }
{
    plans::plans_build_counted(book, work, out, counts)
}

// Reads a table and writes it again.
#[unsafe(no_mangle)]
pub extern "C" fn plans_rewrite(table: &[u8], work: &mut [u8], out: &mut [u8]) -> Rewritten
    ensures { RewriteSays table.now work.old work.new out.old out.new result }
{
    plans::plans_rewrite(table, work, out)
}

// Walks a row over a table.
#[unsafe(no_mangle)]
pub extern "C" fn plans_walk(table: &[u8], row: &[u8], work: &mut [u8]) -> Walked
    ensures { WalkedSays table.now row.now work.old work.new result }
{
    plans::plans_walk(table, row, work)
}

// Writes the listing of a book.
#[unsafe(no_mangle)]
pub extern "C" fn plans_list(book: &[u8], work: &mut [u8], text: &mut [u8]) -> Written
    ensures { ListSays standard book.now work.old work.new
        text.old text.new result }
{
    plans::plans_list(book, work, text)
}

// Reads the rows of a plan.
#[unsafe(no_mangle)]
pub extern "C" fn plans_read_rows(
    plan: &[u8],
    names: &[u8],
    chosen: u8,
    work: &mut [u8],
    out: &mut [u8],
) -> PlanRows
    ensures { RowsSays plan.now names.now chosen work.old work.new
        out.old out.new result }
{
    plans::plans_read_rows(plan, names, chosen, work, out)
}
