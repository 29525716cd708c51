// The edges of docs/SCOPE.md, section 10.1, for tables and walks, one line each: what was tried, and the refusal's number, or 0.
ghost use Rattle.std.specs.Prelude.{◌≤◌};

use crate::parts::{Draft, buffer, count, large_buffer, named, one_name};
use std::io;

// A class field: context, k = 1, h = 1. Then the example table of docs/SCOPE.md, section 8.
const CLASS: [u8; 6] = *b"\x02\x00\x03\x00\x01\x01";

const GOOD: [u8; 28] =
    *b"\x01\x00\x05snack\x02\x00\x03\x00\x01\x01\x04\x00\x04\x00\x00\x00\x01\x04\x00\x04\x01\x00\x00\x01";

// The table of P2: four names, and two states; a snack, name 3, leads from both to the second, which accepts.
const P2: [u8; 57] =
    *b"\x01\0\tbreakfast\x01\0\x06dinner\x01\0\x05lunch\x01\0\x05snack\x02\0\x03\0\x01\x01\x04\0\x04\0\x03\0\x01\x04\0\x04\x01\x03\0\x01";

// A state that accepts, without arcs: the last of a table.
const END: [u8; 4] = *b"\x04\x00\x01\x01";

// Appends so many states that do not accept, the first of them state 0, each with an arc by name 0 to the next.
fn put_chain(file: &mut Draft, count: u16)
    ensures { file.new.len ≤ 4096 }
{
    for state in 0..count {
        let [high, low] = (state + 1).to_be_bytes();
        file.put(&[4, 0, 4, 0, 0, high, low]);
    }
}

// A table rewritten into an output that is long enough for it.
fn table(rt: &impl Print, tried: &str, bytes: &[u8]) -> io::Result<()> {
    let mut work = large_buffer();
    let mut out = buffer();
    let built = plans::rewrite_table(bytes, &mut work, &mut out);
    count(rt, tried, "", built.refusal as u64)
}

// A row walked over the table of P2.
fn row(rt: &impl Print, tried: &str, names: &[u8], work: &mut [u8]) -> io::Result<()> {
    let walked = plans::plans_walk(&P2, names, work);
    count(rt, tried, "", walked.refusal as u64)
}

// Sizes: 1 and 13.
fn sizes(rt: &impl Print) -> io::Result<()> {
    let long = large_buffer();
    table(rt, "an input of 65,536 bytes", &long)?;
    let mut short = buffer();
    let mut out = buffer();
    let built = plans::rewrite_table(&GOOD, &mut short, &mut out);
    count(
        rt,
        "a working area of 4,096 bytes",
        "",
        built.refusal as u64,
    )?;
    let mut work = large_buffer();
    let mut few = [0u8; 27];
    let cut = plans::rewrite_table(&GOOD, &mut work, &mut few);
    count(
        rt,
        "an output one byte shorter than the table",
        "",
        cut.refusal as u64,
    )?;
    let mut enough = [0u8; 28];
    let whole = plans::rewrite_table(&GOOD, &mut work, &mut enough);
    count(
        rt,
        "an output as long as the table",
        "",
        whole.refusal as u64,
    )
}

// The fields' refusals that short tables show: 2 to 6, 8 and 11.
fn fields(rt: &impl Print) -> io::Result<()> {
    table(rt, "a field that runs past the end", b"\x01\x00\x05snac")?;
    table(
        rt,
        "a row in a table",
        b"\x01\x00\x05snack\x02\x00\x03\x00\x01\x01\x03\x00\x00",
    )?;
    table(
        rt,
        "no states",
        b"\x01\x00\x05snack\x02\x00\x03\x00\x01\x01",
    )?;
    table(rt, "empty input", b"")?;
    table(rt, "a name that begins with a digit", b"\x01\x00\x055nack")?;
    table(
        rt,
        "a name equal to the one before",
        b"\x01\x00\x05snack\x01\x00\x05snack",
    )?;
    table(
        rt,
        "a class with k = 9",
        b"\x01\x00\x05snack\x02\x00\x03\x00\x09\x01",
    )?;
    table(
        rt,
        "a state whose first byte is 2",
        b"\x01\x00\x05snack\x02\x00\x03\x00\x01\x01\x04\x00\x01\x02",
    )
}

// 12, three ways.
fn numbering(rt: &impl Print) -> io::Result<()> {
    table(
        rt,
        "an arc to no state",
        b"\x01\x00\x05snack\x02\x00\x03\x00\x01\x01\x04\x00\x04\x00\x00\x00\x01",
    )?;
    table(
        rt,
        "a state never met",
        b"\x01\x00\x05snack\x02\x00\x03\x00\x01\x01\x04\x00\x01\x01\x04\x00\x01\x01",
    )?;
    table(
        rt,
        "states not numbered first-met",
        b"\x01\x00\x01a\x01\x00\x01b\x02\x00\x03\x00\x01\x01\x04\x00\x07\x00\x00\x00\x02\x01\x00\x01\x04\x00\x01\x01\x04\x00\x01\x00",
    )
}

// A table of a chain of states and one more, which accepts.
fn states(rt: &impl Print, tried: &str, more: u16) -> io::Result<()> {
    let mut file = one_name();
    file.put(&CLASS);
    put_chain(&mut file, more);
    file.put(&END);
    table(rt, tried, file.bytes())
}

// A table of so many names, and of these fields after them.
fn names(rt: &impl Print, tried: &str, count: u8, fields: &[&[u8]]) -> io::Result<()> {
    let mut file = named(count);
    for field in fields {
        file.put(field);
    }
    table(rt, tried, file.bytes())
}

// The limits on names and states: 7, and what just passes.
fn limits(rt: &impl Print) -> io::Result<()> {
    names(rt, "64 names", 64, &[&CLASS, &END])?;
    names(rt, "65 names", 65, &[])?;
    states(rt, "42 states, through which only a row of 41 leads", 41)?;
    states(rt, "512 states", 511)?;
    states(rt, "513 states", 512)
}

// Rows: 9, and what just passes.
fn rows(rt: &impl Print) -> io::Result<()> {
    let mut work = large_buffer();
    row(rt, "a walk of 40 snacks", &[3u8; 40], &mut work)?;
    row(rt, "a walk of 41 snacks", &[3u8; 41], &mut work)?;
    row(
        rt,
        "a walk with an entry that is no name's number",
        &[3, 4],
        &mut work,
    )
}

// A good table, then the edges.
pub fn all(rt: &impl Print) -> io::Result<()> {
    table(rt, "the example", &GOOD)?;
    sizes(rt)?;
    fields(rt)?;
    numbering(rt)?;
    limits(rt)?;
    rows(rt)
}
