// The text that the listing program prints for a book: its listing, or `refused` and the refusal's number.
ghost use Rattle.model.specs.Fields.{standard};
ghost use Rattle.results.specs.Says.{PrintSays};

use crate::list_book;
use base::limits::{LISTING_BYTES, WORK_BYTES};
use listings::refusal_text;

// That text, at the front of one that takes every listing; its length.
pub fn print_book(book: &[u8], work: &mut [u8; WORK_BYTES], text: &mut [u8; LISTING_BYTES]) -> usize
    ensures { PrintSays standard book.now work.old work.new
        text.old text.new result }
{
    // Stays: (a) what an entry gives back is C's struct, whose refusal is a number.
    let listed = list_book(book, work, text);
    if listed.refusal != 0 {
        return refusal_text(listed.refusal, text);
    }
    listed.length as usize
}
