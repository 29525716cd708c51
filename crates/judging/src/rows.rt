// Rows and their refusals, 7 and 9.
ghost use Rattle.std.specs.Prelude.{◌≡◌};
ghost use Rattle.base.specs.Refusals.{fault_of};
ghost use Rattle.model.specs.Fields.{all_below, row_ok, row_fault};
ghost use Rattle.judging.specs.Judged.{ItemJudged};

use crate::items::item_fault;
use base::limits::{BOOK_ROWS, ROW_LIMIT};
use base::refusals::Refusal;

// Whether each entry is the number of one of `names` names.
pub fn all_below(names: u8, row: &[u8]) -> bool
    ensures { result ≡ all_below names row.now }
{
    row.iter().all(|n| *n < names)
}

// Whether the bytes are a row over `names` names.
pub fn row_ok(names: u8, row: &[u8]) -> bool
    ensures { result ≡ row_ok names row.now }
{
    row.len() <= ROW_LIMIT && all_below(names, row)
}

// What refuses one more row after `count` rows.
#[tactic(auto, using(crate::proofs::ItemLaws::item_judged), unfolding(model::specs::Fields::row_fault))]
pub fn row_fault(names: u8, count: usize, row: &[u8]) -> Result<(), Refusal>
    ensures { ItemJudged row_fault names count row.now (fault_of result) }
{
    item_fault(count, BOOK_ROWS, row_ok(names, row), Refusal::BadRow)
}
