// Numbers below 65,536 in decimal, as listings print them.
ghost use Rattle.std.specs.Prelude.{◌≡◌, ◌<◌, length};
ghost use Rattle.base.specs.Limits.{number_limit};
ghost use Rattle.model.specs.Listing.{decimal};
ghost use Rattle.writing.specs.Writing.{Fits, Put};

// How many digits a number has.
pub fn decimal_len(value: usize) -> usize
    requires { value < number_limit }
    ensures { result ≡ length (decimal value) }
{
    match value {
        ..10 => 1,
        ..100 => 2,
        ..1000 => 3,
        ..10000 => 4,
        _ => 5,
    }
}

// A number's digits.
pub fn put_decimal(out: &mut [u8], at: usize, value: usize) -> usize
    requires value_lt_number_limit { value < number_limit }
    requires fits { Fits out.old at (decimal value) }
    ensures { Put out.old out.new at (decimal value) result }
{
    let end = at + decimal_len(value);
    // The digits from i on are written; those of `left` are still to be written before them.
    let mut left = value;
    for i in (at..end).rev() {
        out[i] = b'0' + (left % 10) as u8;
        left /= 10;
    }
    end
}
