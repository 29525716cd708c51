// The listing program (docs/SCOPE.md, section 8): reads a book from standard input and prints its listing,
// or `refused` and the refusal's number. Given arguments, it says how it is used, and reads nothing.
// A read or a write that fails ends it with status 1, and so does memory that is refused.
#![tactic(auto)]

use base::limits::{INPUT_LIMIT, LISTING_BYTES, WORK_BYTES};
use plans::printing::print_book;
use std::alloc::Global;
use std::env::{Env, FillError};
use std::io;
use std::io::{Input, Read};

fn main(rt: HostRuntime) -> io::Result<()> {
    if has_arguments(&rt) {
        return eprintln!(rt;
            "usage: listing < days.book (it takes no arguments; plans list days.txt reads texts too)"
        );
    }
    list_input(&rt)
}

// Whether there is an argument after the program's name: one too long to be copied is one as well.
fn has_arguments(rt: &impl Env) -> bool {
    let mut first = [0u8; 1];
    !matches!(rt.arg(1, &mut first), Err(FillError::NotPresent))
}

// All of an input, or so much of it as shows that it is over the longest.
// Stays: (d) worked_days has the same three lines; a crate for them, of which each program has to be told, is no plainer.
fn read_book<R: Read + Drop>(alloc: Global, input: R) -> io::Result<Vec<u8>> {
    let mut book = Vec::new(alloc);
    input.take(INPUT_LIMIT as u64 + 1).read_to_end(&mut book)?;
    Ok(book)
}

// The listing of the book on standard input.
fn list_input(rt: &(impl Input + Print + AllocGlobal)) -> io::Result<()> {
    let book = read_book(rt.alloc(), rt.reader())?;
    let mut work = [0u8; WORK_BYTES];
    let mut text = [0u8; LISTING_BYTES];
    let length = print_book(book.as_slice(), &mut work, &mut text);
    rt.write_all(&text[..length])
}
