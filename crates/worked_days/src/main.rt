// The worked days and the sources' examples, as files, each with its listing; then the edges of docs/SCOPE.md, of books each with the first
// line that it comes to, of tables, walks and plans each with the refusal's number or 0. The file `stdout` has what docs/SCOPE.md gives,
// and for the sources' examples the listings of examples/sources. A read or a write that fails ends it with status 1.
#![tactic(auto)]

mod books;
mod parts;
mod reading;
mod table_edges;

use base::limits::{INPUT_LIMIT, LISTING_BYTES};
use parts::large_buffer;
use plans::printing::print_book;
use std::alloc::Global;
use std::io::Read;
use std::rt::Files;
use std::{fs, io};

// The days and the example of docs/SCOPE.md, and three days more; then the sources' examples, from the surfaces of document 000 and the
// entries of document 002. One more is a file in data/ and a name here.
const FILES: [&str; 23] = [
    "P1.book",
    "P2.book",
    "P3.book",
    "P4.book",
    "P5.book",
    "P6.book",
    "P7.book",
    "P8.book",
    "P9.book",
    "P10.book",
    "P11.book",
    "P12.book",
    "Q1.book",
    "Q2.book",
    "Q3.book",
    "example.book",
    "example_32.book",
    "surface_inventaris.book",
    "surface_boek.book",
    "surface_schrijver.book",
    "surface_text.book",
    "entry_2_2.book",
    "entry_2_1.book",
];

// The name of a file, and its book's listing; of a file that cannot be opened what is wrong with it, on standard error.
fn day(rt: &(impl Files + Print + Eprint + AllocGlobal), name: &str) -> io::Result<()> {
    match fs::open(rt, name) {
        Ok(file) => {
            let book = read_book(rt.alloc(), file)?;
            println!(rt; "{name}")?;
            list(rt, book.as_slice())
        }
        Err(problem) => eprintln!(rt; "{name}: {problem}"),
    }
}

// All of a file, or so much of it as shows that it is over the longest input. (As in listing, which says why it stands twice.)
fn read_book<R: Read + Drop>(alloc: Global, file: R) -> io::Result<Vec<u8>> {
    let mut book = Vec::new(alloc);
    file.take(INPUT_LIMIT as u64 + 1).read_to_end(&mut book)?;
    Ok(book)
}

// A book's listing.
fn list(rt: &impl Print, book: &[u8]) -> io::Result<()> {
    let mut work = large_buffer();
    let mut text = [0u8; LISTING_BYTES];
    let length = print_book(book, &mut work, &mut text);
    rt.write_all(&text[..length])
}

fn main(rt: HostRuntime) -> io::Result<()> {
    for name in FILES {
        day(&rt, name)?;
    }
    books::lent(&rt)?;
    books::listings(&rt)?;
    books::fields(&rt)?;
    books::names(&rt)?;
    books::classes(&rt)?;
    books::rows(&rt)?;
    books::trees(&rt)?;
    table_edges::all(&rt)?;
    reading::rows(&rt)
}
