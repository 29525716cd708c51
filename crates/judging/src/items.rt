// Items, that is rows and states: what refuses one more of them.
ghost use Rattle.std.specs.Prelude.{◌≡◌, not, leb};
ghost use Rattle.base.specs.Limits.{first_of, when, too_many};
ghost use Rattle.base.specs.Refusals.{fault_of, number_of};

use base::refusals::Refusal;

// What refuses one more item after `count` of them, where there may be `limit`, by whether its bytes are allowed.
pub fn item_fault(count: usize, limit: usize, ok: bool, bad: Refusal) -> Result<(), Refusal>
    ensures { fault_of result ≡ first_of (when (leb limit count) too_many) (when (not ok) (number_of bad)) }
{
    if limit <= count {
        return Err(Refusal::TooMany);
    }
    if !ok {
        return Err(bad);
    }
    Ok(())
}
