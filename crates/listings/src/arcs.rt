// The arcs of a state's line: each a space, its name, `>`, its target.
ghost use mathlib.Core.List.{flat_map};
ghost use Rattle.model.specs.Listing.{arc_text};
ghost use Rattle.tables.specs.Accepting.{StateField};
ghost use Rattle.tables.specs.Arcs.{arc_of};
ghost use Rattle.writing.specs.Writing.{Fits, Put};
ghost use Rattle.listings.specs.Texts.{names_of, state_at};

use crate::table::Table;
use crate::words::{SPACE, TO};
use judging::names::name_at;
use judging::offsets::body;
use tables::arcs::{Arc, Arcs};
use writing::decimals::put_decimal;
use writing::{copy_in, put_byte};

// One arc.
#[tactic(auto, using(crate::proofs::LineLaws::pieces), unfolding(model::specs::Listing::arc_text))]
fn put_arc(table: Table, arc: Arc, text: &mut [u8], at: usize) -> usize
    requires { Fits text.old at (arc_text (names_of table) (arc_of arc)) }
    ensures { Put text.old text.new at (arc_text (names_of table.entry) (arc_of arc)) result }
{
    let mut next = put_byte(text, at, SPACE);
    next = copy_in(
        text,
        next,
        name_at(table.bytes, table.place.names, arc.name),
    );
    next = put_byte(text, next, TO);
    put_decimal(text, next, arc.to as usize)
}

// The arcs of the state whose field stands at `from`.
pub fn put_arcs(table: Table, from: usize, text: &mut [u8], at: usize) -> usize
    requires state_field { StateField table.bytes.now from }
    requires fits { Fits text.old at (flat_map (arc_text (names_of table)) (state_at table.bytes.now from).arcs) }
    ensures { Put text.old text.new at
        (flat_map (arc_text (names_of table.entry)) (state_at table.entry.bytes.now from).arcs) result }
{
    let state = body(table.bytes, from);
    let mut next = at;
    for arc in Arcs::of(state) {
        next = put_arc(table, arc, text, next);
    }
    next
}
