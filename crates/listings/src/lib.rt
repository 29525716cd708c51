// The listing of a table as text, written once into a lent slice: a first line with the numbers of states, joins and different rows,
// then a line for each state; and the text of a refusal. Each function writes its bytes from an offset on, or at the front, leaves the
// rest of the slice as it was, and returns the offset after them.
#![tactic(auto)]

mod arcs;
mod table;
mod words;

ghost use Rattle.std.specs.Prelude.{◌<◌};
ghost use Rattle.base.specs.Limits.{number_limit};
ghost use Rattle.model.specs.Listing.{state_line, state_lines, listing, refusal_text};
ghost use Rattle.model.specs.Calls.{table_of, table_states};
ghost use Rattle.tables.specs.Accepting.{TableRead, StateField};
ghost use Rattle.writing.specs.Writing.{Fits, Put};
ghost use Rattle.listings.specs.Texts.{names_of, state_at};

use fields::Place;
use judging::offsets::next_field;
use table::Table;
use tables::accepts;
use words::{NEWLINE, SPACE, put_first_line};
use writing::decimals::put_decimal;
use writing::{copy_in, put_byte};

// The line of state i, whose field stands at `from`.
#[tactic(auto, using(crate::proofs::LineLaws::pieces), unfolding(model::specs::Listing::state_line))]
fn put_state_line(table: Table, i: usize, from: usize, text: &mut [u8], at: usize) -> usize
    requires state_field { StateField table.bytes.now from }
    requires i_lt_number_limit { i < number_limit }
    requires fits { Fits text.old at (state_line (names_of table) i (state_at table.bytes.now from)) }
    ensures { Put text.old text.new at
        (state_line (names_of table.entry) i (state_at table.entry.bytes.now from)) result }
{
    let mut next = put_decimal(text, at, i);
    next = put_byte(text, next, SPACE);
    next = put_byte(text, next, words::sign(accepts(table.bytes, from)));
    next = arcs::put_arcs(table, from, text, next);
    put_byte(text, next, NEWLINE)
}

// The lines of all states.
fn put_states(table: Table, text: &mut [u8], at: usize) -> usize
    requires { Fits text.old at (state_lines (names_of table) 0 (table_states table.bytes.now)) }
    ensures { Put text.old text.new at
        (state_lines (names_of table.entry) 0 (table_states table.entry.bytes.now)) result }
{
    let mut from = table.place.start;
    let mut next = at;
    for i in 0..table.place.items {
        next = put_state_line(table, i, from, text, next);
        from = next_field(table.bytes, from);
    }
    next
}

// The listing of a table as read, at the front of the text; its length.
pub fn list_table(
    table: &[u8],
    place: Place,
    joins: usize,
    distinct: usize,
    text: &mut [u8],
) -> usize
    requires table_read { TableRead table.now place }
    requires joins_lt_number_limit { (joins < number_limit) × (distinct < number_limit) }
    requires fits { Fits text.old 0 (listing (table_of table.now).names (table_states table.now) joins distinct) }
    ensures { Put text.old text.new 0
        (listing (table_of table.now).names (table_states table.now) joins distinct) result }
{
    let next = put_first_line(place.items, joins, distinct, text);
    put_states(
        Table {
            bytes: table,
            place,
        },
        text,
        next,
    )
}

// `refused N`, at the front; its length.
#[tactic(auto, using(crate::proofs::LineLaws::pieces), unfolding(model::specs::Listing::refusal_text))]
pub fn refusal_text(number: u8, text: &mut [u8]) -> usize
    requires { Fits text.old 0 (refusal_text number) }
    ensures { Put text.old text.new 0 (refusal_text number) result }
{
    let mut next = copy_in(text, 0, b"refused ");
    next = put_decimal(text, next, number as usize);
    put_byte(text, next, NEWLINE)
}
