// The edges of docs/SCOPE.md, section 10.1, for the rows of a plan, one line each: what was tried, and the refusal's number, or 0.
use crate::parts::{Draft, buffer, count, large_buffer};
use std::io;

// The names day, which is chosen, and t.
const NAMES: [u8; 10] = *b"\x01\x00\x03day\x01\x00\x01t";

// A day with so many children, read into an output that is long enough for its row.
fn day(rt: &impl Print, tried: &str, children: usize) -> io::Result<()> {
    let mut plan = Draft::new();
    plan.put(b"<day>");
    for _ in 0..children {
        plan.put(b"<t/>");
    }
    plan.put(b"</day>");
    let mut work = large_buffer();
    let mut out = buffer();
    let read = plans::rows_of_plan(plan.bytes(), &NAMES, 0, &mut work, &mut out);
    count(rt, tried, "", read.refusal as u64)
}

// Rows: 9, and what just passes.
pub fn rows(rt: &impl Print) -> io::Result<()> {
    day(rt, "a plan with a row of 40", 40)?;
    day(rt, "a plan with a row of 41", 41)
}
