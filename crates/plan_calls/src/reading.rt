// A plan's rows read, before the working area is cleared: the list of names is judged, the plan is read with a log of its tags in the
// working area, and the rows are made from the log.
ghost use Rattle.std.specs.Prelude.{◌≡◌, [], ◌∷◌, length};
ghost use Rattle.base.specs.Refusals.{told};
ghost use Rattle.model.specs.Calls.{Gives};
ghost use Rattle.written_plans.specs.Reading.{read_plan};
ghost use Rattle.plan_reading.specs.Turns.{Room, sought_names, sought_name};
ghost use Rattle.plan_rows.specs.LoggedRows.{log_rows};
ghost use Rattle.results.specs.Says.{reading_rows};
ghost use Rattle.plan_calls.specs.Parts.{placeless_rows, rows_told, PlaceLow, writing_rows, rows_with};

use base::refusals::Refusal;
use fields::read_names;
use judging::sizes::judge_sizes;
use plan_reading::sought::Sought;
use plan_reading::{Fault, read_plan};
use plan_rows::Log;
use results::PlanRows;

// The rows in the log, written: refusals 7, 9 and 13.
#[tactic(auto, using(crate::proofs::RowsLaws::rows_refused, crate::proofs::RowsLaws::measured_few))]
fn write_rows(log: Log, chosen: u8, out: &mut [u8]) -> Result<PlanRows, Refusal>
    ensures { Gives (writing_rows (log_rows log.entry.bytes.now log.entry.count chosen)) (out.old ∷ []) (out.new ∷ [])
        (told placeless_rows result) }
{
    let size = log.measure_rows(chosen)?;
    if out.len() < size.bytes {
        return Err(Refusal::OutputTooShort);
    }
    log.put_rows(chosen, out);
    Ok(PlanRows {
        length: size.bytes as u32,
        rows: size.rows as u32,
        ..PlanRows::default()
    })
}

// The rows of a plan with the names of a list that was accepted: 14, 15 or 16, then 7, 9 and 13.
#[tactic(auto, using(crate::proofs::RowsLaws::plan_refused, crate::proofs::RowsLaws::place_within))]
fn rows_with(
    plan: &[u8],
    sought: &Sought,
    work: &mut [u8],
    out: &mut [u8],
) -> Result<PlanRows, Fault>
    requires { Room plan.now work.old }
    ensures gives { Gives (rows_with (sought_names sought.now) sought.now.chosen
        (read_plan (sought_names sought.now) (sought_name sought.now) plan.now))
        (out.old ∷ []) (out.new ∷ []) (rows_told result) }
    ensures place_low { PlaceLow result }
{
    let count = read_plan(plan, sought, work)?;
    let log = Log { bytes: work, count };
    let rows = write_rows(log, sought.chosen, out)?;
    Ok(rows)
}

// Refusals 1, the list's, 9 for the chosen number, 14, 15 or 16, 7, 9, 13; otherwise the rows stand at the front of the output.
pub fn read_rows(
    plan: &[u8],
    list: &[u8],
    chosen: u8,
    work: &mut [u8],
    out: &mut [u8],
) -> Result<PlanRows, Fault>
    ensures gives { Gives (reading_rows plan.now list.now chosen work.old)
        (out.old ∷ []) (out.new ∷ []) (rows_told result) }
    ensures place_low { PlaceLow result }
{
    judge_sizes(plan.len(), work.len())?;
    judge_sizes(list.len(), work.len())?;
    let place = read_names(list)?;
    if place.names <= chosen {
        return Err(Refusal::BadRow.into());
    }
    let sought = Sought::new(list, place.names, chosen);
    rows_with(plan, &sought, work, out)
}
