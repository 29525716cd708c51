// The words and marks of a listing, and its first line.
ghost use Rattle.std.specs.Prelude.{◌≡◌, cond, ◌<◌};
ghost use Rattle.base.specs.Limits.{number_limit};
ghost use Rattle.model.specs.Listing.{first_line};
ghost use Rattle.writing.specs.Writing.{Fits, Put};

use writing::decimals::put_decimal;
use writing::{copy_in, put_byte};

// Between a line's parts, at its end, and between an arc's name and target.
pub const SPACE: u8 = b' ';

pub const NEWLINE: u8 = b'\n';

pub const TO: u8 = b'>';

// Before a state's arcs: whether it accepts.
pub fn sign(accepting: bool) -> u8
    ensures { result ≡ cond accepting 43 45 }
{
    if accepting { b'+' } else { b'-' }
}

// `states N joins M distinct D`, at the front.
#[tactic(auto, using(crate::proofs::LineLaws::pieces), unfolding(model::specs::Listing::first_line))]
pub fn put_first_line(states: usize, joins: usize, distinct: usize, text: &mut [u8]) -> usize
    requires states_lt_number_limit { (states < number_limit) × (joins < number_limit) × (distinct < number_limit) }
    requires fits { Fits text.old 0 (first_line states joins distinct) }
    ensures { Put text.old text.new 0 (first_line states joins distinct) result }
{
    let mut next = copy_in(text, 0, b"states ");
    next = put_decimal(text, next, states);
    next = copy_in(text, next, b" joins ");
    next = put_decimal(text, next, joins);
    next = copy_in(text, next, b" distinct ");
    next = put_decimal(text, next, distinct);
    put_byte(text, next, NEWLINE)
}
