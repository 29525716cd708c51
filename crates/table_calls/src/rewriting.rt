// A table rewritten, before the working area is cleared: an accepted table is copied, since it is written to the same bytes.
ghost use Rattle.std.specs.Prelude.{[], ◌∷◌};
ghost use Rattle.base.specs.Refusals.{told};
ghost use Rattle.model.specs.Calls.{Gives};
ghost use Rattle.results.specs.Says.{not_rewritten, rewriting};

use base::refusals::Refusal;
use results::Rewritten;
use tables::open_table;
use writing::copy_in;

// Refusals 1, the table's, 13; otherwise the table stands at the front of the output.
pub fn rewrite(table: &[u8], work: &mut [u8], out: &mut [u8]) -> Result<Rewritten, Refusal>
    ensures { Gives (rewriting table.now work.old)
        (out.old ∷ []) (out.new ∷ []) (told not_rewritten result) }
{
    let place = open_table(table, work)?;
    if out.len() < table.len() {
        return Err(Refusal::OutputTooShort);
    }
    copy_in(out, 0, table);
    Ok(Rewritten {
        refusal: 0,
        length: table.len() as u32,
        states: place.items as u32,
    })
}
