// Tables read and walked without copying them: a table is accepted in one pass that keeps the offset of each state's field in the
// lent area, and a walk finds its state's field by that offset.

#![tactic(auto)]

pub mod arcs;
pub mod opened;
pub mod walks;

ghost use Rattle.std.specs.Prelude.{◌≡◌, ◌≤◌, ◌<◌, length};
ghost use Rattle.base.specs.Limits.{state_limit, work_bytes, number_limit};
ghost use Rattle.model.specs.Tables.{state_in};
ghost use Rattle.model.specs.Calls.{sizes_fault};
ghost use Rattle.judging.specs.Offsets.{body_at};
ghost use Rattle.tables.specs.KeptFields.{with_field, IsField};
ghost use Rattle.tables.specs.Accepting.{TableRead, OpenedAs, StateField};

use base::cells::{cell, set_cell};
use base::refusals::Refusal;
use fields::Place;
use judging::offsets::{body, next_field};
use judging::sizes::judge_sizes;

// The offset of the field of state q, as the lent area keeps it.
#[tactic(auto, unfolding(crate::specs::KeptFields::field_at))]
pub fn field_at(work: &[u8], q: usize) -> usize
    requires q_lt_state_limit { q < state_limit }
    requires work_bytes_in_bounds { work_bytes ≤ length work.now }
    ensures { IsField work.now q result }
{
    cell(work, q >> 6, q & 63)
}

// Keeps the offset of the field of state q.
#[tactic(auto, unfolding(crate::specs::KeptFields::with_field))]
fn keep_field(work: &mut [u8], q: usize, at: usize)
    requires q_lt_state_limit { q < state_limit }
    requires at_lt_number_limit { at < number_limit }
    requires work_bytes_in_bounds { work_bytes ≤ length work.old }
    ensures { work.new ≡ with_field work.old q at }
{
    set_cell(work, q >> 6, q & 63, at);
}

// The states of a table whose fields are read, checked for first-met numbering; the offset of each one's field is kept in the
// lent area.
fn number_states(s: &[u8], p: Place, work: &mut [u8]) -> Result<Place, Refusal>
    requires table_read { TableRead s.now p }
    requires work_value { sizes_fault s.now work.old ≡ 0 }
    ensures { OpenedAs s.now work.old work.new result }
{
    let items = p.items;
    let mut at = p.start;
    let mut met = 1;
    for i in 0..items {
        if met <= i {
            return Err(Refusal::BadNumbering);
        }
        keep_field(work, i, at);
        met = arcs::met_by_arcs(body(s, at), met).ok_or(Refusal::BadNumbering)?;
        at = next_field(s, at);
    }
    if met == items {
        Ok(p)
    } else {
        Err(Refusal::BadNumbering)
    }
}

// A whole table, judged by 1, its fields' refusals and 12: where its parts stand, or its first refusal. Every entry over a table begins
// with it. Of an accepted table the lent area keeps where each state's field stands.
#[tactic(auto, using(crate::proofs::TableLaws::opened_bad, crate::proofs::TableLaws::table_refused, crate::proofs::TableLaws::table_read), unfolding(model::specs::Calls::sizes_fault))]
pub fn open_table(s: &[u8], work: &mut [u8]) -> Result<Place, Refusal>
    ensures { OpenedAs s.now work.old work.new result }
{
    judge_sizes(s.len(), work.len())?;
    let place = fields::read_table(s)?;
    number_states(s, place, work)
}

// Whether the state whose field stands at an offset accepts.
pub fn accepts(s: &[u8], at: usize) -> bool
    requires { StateField s.now at }
    ensures { result ≡ (state_in (body_at s.now at)).accepts }
{
    let state = body(s, at);
    state[0] == 1
}
