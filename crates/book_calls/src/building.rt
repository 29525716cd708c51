// A book's table built, and its counts where they are wanted, before the working area is cleared.
ghost use Rattle.std.specs.Prelude.{◌≡◌, [], ◌∷◌, IfOk};
ghost use Rattle.base.specs.Refusals.{told};
ghost use Rattle.model.specs.Fields.{Allowed};
ghost use Rattle.model.specs.Calls.{Gives};
ghost use Rattle.fields.specs.Places.{settings_of};
ghost use Rattle.results.specs.Says.{not_built, building, not_counted, building_counted};

use base::refusals::Refusal;
use fields::{FileKind, Settings, read_with};
use inference::infer;
use judging::sizes::judge_sizes;
use results::{Built, Counted};

// Refusals 1, the fields', 10, 13; otherwise the table stands at the front of the output, and where they are wanted the counts stand at the
// front of another.
// Stays: (a) `wanted` beside `counts`, as in `infer`: `building_counted` has the flag, and two outputs whether counts are wanted or not.
pub fn build_with(
    settings: Settings,
    wanted: bool,
    book: &[u8],
    work: &mut [u8],
    out: &mut [u8],
    counts: &mut [u8],
) -> Result<Counted, Refusal>
    requires { Allowed (settings_of settings) }
    ensures gives { Gives (building_counted (settings_of settings) wanted book.now work.old)
        (out.old ∷ (counts.old ∷ [])) (out.new ∷ (counts.new ∷ [])) (told not_counted result) }
    ensures accepted { IfOk result (λ counted. counted.refusal ≡ 0) }
{
    judge_sizes(book.len(), work.len())?;
    let place = read_with(book, FileKind::Book, settings)?;
    let inferred = infer(wanted, book, place, work, out, counts)?;
    Ok(Counted {
        refusal: 0,
        length: inferred.length as u32,
        states: inferred.states as u32,
        joins: inferred.joins as u32,
        distinct: inferred.distinct as u32,
        counts_length: inferred.counts as u32,
    })
}

// The table alone: no counts are wanted, and there is no room for any.
pub fn build(
    settings: Settings,
    book: &[u8],
    work: &mut [u8],
    out: &mut [u8],
) -> Result<Built, Refusal>
    requires { Allowed (settings_of settings) }
    ensures gives { Gives (building (settings_of settings) book.now work.old)
        (out.old ∷ []) (out.new ∷ []) (told not_built result) }
    ensures accepted { IfOk result (λ built. built.refusal ≡ 0) }
{
    let mut none = [0; 0];
    let counted = build_with(settings, false, book, work, out, &mut none)?;
    Ok(Built::from(counted))
}
