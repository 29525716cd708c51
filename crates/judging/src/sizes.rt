// The sizes of an input and of a working area, and their refusal, 1.
ghost use Rattle.std.specs.Prelude.{◌≡◌, ◌||◌, ltb};
ghost use Rattle.base.specs.Limits.{input_limit, work_bytes, bad_sizes, when};
ghost use Rattle.base.specs.Refusals.{fault_of};

use base::limits::{INPUT_LIMIT, WORK_BYTES};
use base::refusals::Refusal;

// What refuses an input of so many bytes with a working area of so many: the one is too long or the other too short.
pub fn judge_sizes(input: usize, work: usize) -> Result<(), Refusal>
    ensures { fault_of result ≡ when (ltb input_limit input || ltb work work_bytes) bad_sizes }
{
    if INPUT_LIMIT < input || work < WORK_BYTES {
        return Err(Refusal::BadSizes);
    }
    Ok(())
}
