// The edges of docs/SCOPE.md, section 10.1, for books, one line each: what was tried, and the first line of the listing that it comes to.
ghost use Rattle.std.specs.Prelude.{◌≡◌, ◌≤◌, length, take};

use crate::parts::{Draft, buffer, count, large_buffer, named, one_name, say};
use base::limits::LISTING_BYTES;
use plans::printing::print_book;
use std::io;

// A row of one snack.
const ROW: [u8; 4] = *b"\x03\x00\x01\x00";

// The example book of docs/SCOPE.md, section 8, whose table has 28 bytes and whose listing 52.
const EXAMPLE: [u8; 19] = *b"\x01\x00\x05snack\x02\x00\x03\x00\x01\x01\x03\x00\x02\x00\x00";

// Where the first line of a text ends.
fn line_end(text: &[u8]) -> usize
    ensures inside { result ≤ length text.now }
    ensures taken { result ≡ length (take result text.now) }
{
    match text.iter().position(|byte| *byte == b'\n') {
        Some(i) => i + 1,
        None => text.len(),
    }
}

// What was tried, and the first line of the text that came of it.
fn say_line(rt: &impl Print, tried: &str, text: &[u8]) -> io::Result<()> {
    let end = line_end(text);
    say(rt, tried, &text[..end])
}

// A book listed.
fn book(rt: &impl Print, tried: &str, bytes: &[u8]) -> io::Result<()> {
    let mut work = large_buffer();
    let mut text = [0u8; LISTING_BYTES];
    let length = print_book(bytes, &mut work, &mut text);
    say_line(rt, tried, &text[..length])
}

// Appends a row of the name `first` and then 39 times name 0.
fn put_long_row(file: &mut Draft, first: u8)
    ensures { file.new.len ≤ 4096 }
{
    file.put(&[3, 0, 40, first]);
    file.put(&[0; 39]);
}

// Thirteen names, and a long row for each of the first twelve.
fn twelve_rows() -> Draft
    ensures { result.len ≤ 4096 }
{
    let mut file = named(13);
    for first in 0..12 {
        put_long_row(&mut file, first);
    }
    file
}

// The example built with what is lent: the refusal's number.
fn build(rt: &impl Print, tried: &str, work: &mut [u8], out: &mut [u8]) -> io::Result<()> {
    let built = plans::build_table(&EXAMPLE, work, out);
    count(rt, tried, "refused ", built.refusal as u64)
}

// A book listed with what is lent: the refusal's number, or how many bytes were written.
fn list(
    rt: &impl Print,
    tried: &str,
    bytes: &[u8],
    work: &mut [u8],
    text: &mut [u8],
) -> io::Result<()> {
    let listed = plans::list_book(bytes, work, text);
    if listed.refusal != 0 {
        count(rt, tried, "refused ", listed.refusal as u64)
    } else {
        count(rt, tried, "bytes ", listed.length as u64)
    }
}

// What is lent: 1 and 13.
pub fn lent(rt: &impl Print) -> io::Result<()> {
    let long = large_buffer();
    book(rt, "an input of 65,536 bytes", &long)?;
    let mut work = large_buffer();
    let mut short = buffer();
    let mut out = buffer();
    build(
        rt,
        "a build with a working area of 4,096 bytes",
        &mut short,
        &mut out,
    )?;
    let mut few = [0u8; 27];
    build(
        rt,
        "a build with an output one byte shorter than the table",
        &mut work,
        &mut few,
    )
}

// The same of listings; and that a refused one leaves the text as it was.
pub fn listings(rt: &impl Print) -> io::Result<()> {
    let mut work = large_buffer();
    let mut short = buffer();
    let mut text = [0u8; LISTING_BYTES];
    list(
        rt,
        "a listing with enough lent",
        &EXAMPLE,
        &mut work,
        &mut text,
    )?;
    list(
        rt,
        "a listing with a working area of 4,096 bytes",
        &EXAMPLE,
        &mut short,
        &mut text,
    )?;
    let mut just = [0u8; 52];
    list(
        rt,
        "a listing with a text just as long",
        &EXAMPLE,
        &mut work,
        &mut just,
    )?;
    let mut few = [0u8; 51];
    list(
        rt,
        "a listing with a text one byte shorter",
        &EXAMPLE,
        &mut work,
        &mut few,
    )?;
    let mut kept = *b"as it was\n";
    list(rt, "a listing of an empty book", b"", &mut work, &mut kept)?;
    say(rt, "its text afterwards", &kept)
}

// The refusals of fields that short books show: 2 to 6.
pub fn fields(rt: &impl Print) -> io::Result<()> {
    book(rt, "a field that runs past the end", b"\x01\x00\x05snac")?;
    book(
        rt,
        "a state in a book",
        b"\x01\x00\x05snack\x04\x00\x01\x01",
    )?;
    book(rt, "empty input", b"")?;
    book(rt, "no rows", b"\x01\x00\x05snack\x02\x00\x03\x00\x01\x01")?;
    book(rt, "a name that begins with a digit", b"\x01\x00\x055nack")?;
    book(
        rt,
        "a name equal to the one before",
        b"\x01\x00\x05snack\x01\x00\x05snack",
    )
}

// Names: 7, and what just passes.
pub fn names(rt: &impl Print) -> io::Result<()> {
    let mut most = named(64);
    most.put(&ROW);
    book(rt, "64 names", most.bytes())?;
    book(rt, "65 names", named(65).bytes())
}

// A book of one snack with this class.
fn class(rt: &impl Print, tried: &str, class: [u8; 3]) -> io::Result<()> {
    let mut file = *b"\x01\x00\x05snack\x02\x00\x03...\x03\x00\x01\x00";
    file[11..14].copy_from_slice(&class);
    book(rt, tried, &file)
}

// Classes: 8, and what just passes.
pub fn classes(rt: &impl Print) -> io::Result<()> {
    class(rt, "k = 8, h = 8", [0, 8, 8])?;
    class(rt, "k = 9, h = 1", [0, 9, 1])?;
    class(rt, "k = 2, h = 0", [0, 2, 0])?;
    class(rt, "k = 2, h = 3", [0, 2, 3])?;
    class(rt, "the last 8 names", [2, 8, 0])?;
    class(rt, "the last 9 names", [2, 9, 0])?;
    class(rt, "a seen set with a setting", [1, 1, 0])?;
    class(rt, "a class of kind 3", [3, 0, 0])
}

// Rows: 7 and 9, and what just passes.
pub fn rows(rt: &impl Print) -> io::Result<()> {
    let mut many = one_name();
    for _ in 0..256 {
        many.put(&ROW);
    }
    book(rt, "256 rows", many.bytes())?;
    many.put(&ROW);
    book(rt, "257 rows", many.bytes())?;
    let mut long = one_name();
    put_long_row(&mut long, 0);
    book(rt, "a row of 40", long.bytes())?;
    let mut longer = one_name();
    longer.put(&[3, 0, 41]);
    longer.put(&[0; 41]);
    book(rt, "a row of 41", longer.bytes())?;
    book(
        rt,
        "an entry that is no name's number",
        b"\x01\x00\x05snack\x03\x00\x01\x01",
    )
}

// Prefix trees: 10, and what just passes. Thirteen rows with different first names, twelve of 40 and the last of 31 or 32.
pub fn trees(rt: &impl Print) -> io::Result<()> {
    let mut fewer = twelve_rows();
    fewer.put(&[3, 0, 31, 12]);
    fewer.put(&[0; 30]);
    book(rt, "a prefix tree of 512 states", fewer.bytes())?;
    let mut more = twelve_rows();
    more.put(&[3, 0, 32, 12]);
    more.put(&[0; 31]);
    book(rt, "a prefix tree of 513 states", more.bytes())
}
