// A book's listing as text, before the working area is cleared: the table is built, read back, and listed into the working area,
// which holds nothing more by then and takes every listing; from there it is copied to the text, where it fits.
ghost use Rattle.std.specs.Prelude.{◌≡◌, [], ◌∷◌, ◌≤◌, ◌<◌, length};
ghost use Rattle.base.specs.Limits.{work_bytes, number_limit};
ghost use Rattle.base.specs.Refusals.{told};
ghost use Rattle.model.specs.Fields.{Allowed, read_table};
ghost use Rattle.model.specs.Listing.{listing};
ghost use Rattle.model.specs.Calls.{Gives, table_of, table_states};
ghost use Rattle.fields.specs.Places.{settings_of};
ghost use Rattle.writing.specs.Writing.{Fits, Put};
ghost use Rattle.results.specs.Says.{not_written, copying, listing_book};

use crate::building;
use base::limits::TABLE_BYTES;
use base::refusals::Refusal;
use fields::{Settings, read_table};
use listings::list_table;
use results::Written;
use writing::copy_in;

// The listing of a table that was accepted, at the front of the text; its length.
fn list_accepted(table: &[u8], joins: usize, distinct: usize, text: &mut [u8]) -> usize
    requires table_value { (read_table table.now).number ≡ 0 }
    requires joins_lt_number_limit { (joins < number_limit) × (distinct < number_limit) }
    requires fits { Fits text.old 0 (listing (table_of table.now).names (table_states table.now) joins distinct) }
    ensures { Put text.old text.new 0
        (listing (table_of table.now).names (table_states table.now) joins distinct) result }
{
    let place = read_table(table).unwrap();
    list_table(table, place, joins, distinct, text)
}

// Refusal 13; otherwise the bytes stand at the front of the text.
fn copy_out(bytes: &[u8], text: &mut [u8]) -> Result<Written, Refusal>
    requires { length bytes.now ≤ work_bytes }
    ensures { Gives (copying bytes.now) (text.old ∷ []) (text.new ∷ []) (told not_written result) }
{
    if text.len() < bytes.len() {
        return Err(Refusal::OutputTooShort);
    }
    copy_in(text, 0, bytes);
    Ok(Written {
        refusal: 0,
        length: bytes.len() as u32,
    })
}

// Refusals 1, the fields', 10, 13; otherwise the listing stands at the front of the text.
pub fn list(
    settings: Settings,
    book: &[u8],
    work: &mut [u8],
    text: &mut [u8],
) -> Result<Written, Refusal>
    requires { Allowed (settings_of settings) }
    ensures { Gives (listing_book (settings_of settings) book.now work.old)
        (text.old ∷ []) (text.new ∷ []) (told not_written result) }
{
    let mut table = [0; TABLE_BYTES];
    let built = building::build(settings, book, work, &mut table)?;
    let end = built.length as usize;
    let length = list_accepted(
        &table[..end],
        built.joins as usize,
        built.distinct as usize,
        work,
    );
    copy_out(&work[..length], text)
}
