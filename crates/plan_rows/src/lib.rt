// The rows of a plan, made from the log of its tags: two bytes a tag, the number of its name and how many elements are around it. The row
// of an element has the numbers of the tags one deeper, up to the first tag that is not inside it.
#![tactic(auto)]

ghost use Rattle.std.specs.Prelude.{◌≡◌, length, ◌≤◌, ◌<◌};
ghost use Rattle.std.specs.Iterator.{YieldsFirst, YieldsFirstBy, item_count};
ghost use Rattle.model.specs.Tables.{field_bytes, row_fields};
ghost use Rattle.base.specs.Limits.{row_limit, row_mark};
ghost use Rattle.written_plans.specs.Reading.{rows_fault};
ghost use Rattle.written_plans.specs.Logs.{entry_at};
ghost use Rattle.writing.specs.Writing.{Fits, Put};
ghost use Rattle.plan_rows.specs.LoggedRows.{Held, row_at, log_rows, Measures};

use base::limits::{BOOK_ROWS, ROW_LIMIT, ROW_MARK};
use base::refusals::Refusal;
use writing::{put_byte, put_head};

// The log of a plan's tags, of which so many are in it.
#[derive(Clone, Copy)]
pub struct Log<'a> {
    pub bytes: &'a [u8],
    pub count: usize,
    pub ghost held: { Held bytes.now count },
}

// Rows measured: how many there are, and how many bytes their fields have.
#[derive(Clone, Copy)]
pub struct Size {
    pub rows: usize,
    pub bytes: usize,
}

// What is left of the row of an element at this depth, from an entry of the log on: the numbers of the tags one deeper, up to the first tag
// that is not inside it.
#[derive(Drop)]
struct Row<'a> {
    log: Log<'a>,
    depth: u8,
    at: usize,
}

// What is left of the rows of the elements with the chosen number, from an entry of the log on.
#[derive(Drop)]
struct Rows<'a> {
    log: Log<'a>,
    chosen: u8,
    at: usize,
}

impl Iterator for Row<'_> {
    ghost use Rattle.plan_rows.specs.Rows.{entries_of};

    type Item = u8;

    ghost next_gives = { YieldsFirst entries_of };

    ghost remaining = { item_count entries_of };

    #[tactic(auto, using(crate::proofs::LogLaws::row_by_entry))]
    fn next(&mut self) -> Option<u8> {
        for at in self.at..self.log.count {
            let deep = self.log.depth(at);
            if deep <= self.depth {
                return None;
            }
            self.at = at + 1;
            if deep == self.depth + 1 {
                return Some(self.log.number(at));
            }
        }
        None
    }
}

impl<'a> Iterator for Rows<'a> {
    ghost use Rattle.plan_rows.specs.Rows.{entries_of, rows_of};

    type Item = Row<'a>;

    ghost next_gives = { YieldsFirstBy entries_of rows_of };

    ghost remaining = { item_count rows_of };

    #[tactic(auto, using(crate::proofs::LogLaws::rows_by_entry))]
    fn next(&mut self) -> Option<Row<'a>> {
        for at in self.at..self.log.count {
            self.at = at + 1;
            if self.log.number(at) == self.chosen {
                return Some(self.log.row(at));
            }
        }
        None
    }
}

impl Row<'_> {
    ghost use Rattle.plan_rows.specs.Rows.{entries_of};

    // How many entries it has.
    #[tactic(auto, using(crate::proofs::LogLaws::row_few))]
    fn len(self) -> usize
        ensures { result ≡ length (entries_of self.entry) }
    {
        self.count()
    }

    // Its entries.
    fn put_entries(self, out: &mut [u8], at: usize) -> usize
        requires { Fits out.old at (entries_of self) }
        ensures { Put out.old out.new at (entries_of self.entry) result }
    {
        let mut next = at;
        for number in self {
            next = put_byte(out, next, number);
        }
        next
    }

    // Its field: the entries, and then the head in front of them, whose length is known from where they end.
    fn put(self, out: &mut [u8], at: usize) -> usize
        requires len_bound { length (entries_of self) ≤ row_limit }
        requires fits { Fits out.old at (field_bytes row_mark (entries_of self)) }
        ensures { Put out.old out.new at (field_bytes row_mark (entries_of self.entry)) result }
    {
        let start = at + 3;
        let end = self.put_entries(out, start);
        put_head(out, at, ROW_MARK, end - start);
        end
    }
}

impl<'a> Log<'a> {
    ghost use Rattle.plan_rows.specs.Rows.{entries_of, rows_of};

    // The number of the name of the tag at entry i.
    fn number(self, i: usize) -> u8
        requires { i < self.count }
        ensures { result ≡ (entry_at self.entry.bytes.now i).number }
    {
        self.bytes[2 * i]
    }

    // How many elements are around it.
    fn depth(self, i: usize) -> u8
        requires { i < self.count }
        ensures { result ≡ (entry_at self.entry.bytes.now i).depth }
    {
        self.bytes[2 * i + 1]
    }

    // The row of the element at entry i.
    #[tactic(auto, using(crate::proofs::LogLaws::row_from))]
    fn row(self, i: usize) -> Row<'a>
        requires { i < self.count }
        ensures { entries_of result ≡ row_at self.entry.bytes.now self.entry.count i }
    {
        Row {
            log: self,
            depth: self.depth(i),
            at: i + 1,
        }
    }

    // The rows of the elements with the chosen number.
    #[tactic(auto, using(crate::proofs::LogLaws::entries_all))]
    fn rows(self, chosen: u8) -> Rows<'a>
        ensures { rows_of result ≡ log_rows self.entry.bytes.now self.entry.count chosen }
    {
        Rows {
            log: self,
            chosen,
            at: 0,
        }
    }

    // How many these are.
    #[tactic(auto, using(crate::proofs::LogLaws::rows_few))]
    fn count_rows(self, chosen: u8) -> usize
        ensures { result ≡ length (log_rows self.entry.bytes.now self.entry.count chosen) }
    {
        self.rows(chosen).count()
    }

    // These measured: refusals 7, then 9.
    #[tactic(auto, using(crate::proofs::Faults::rows_too_many, crate::proofs::Measuring::passed_none))]
    pub fn measure_rows(self, chosen: u8) -> Result<Size, Refusal>
        ensures { Measures (log_rows self.entry.bytes.now self.entry.count chosen) result }
    {
        let rows = self.count_rows(chosen);
        if BOOK_ROWS < rows {
            return Err(Refusal::TooMany);
        }
        let mut bytes = 0;
        for row in self.rows(chosen) {
            let length = row.len();
            if ROW_LIMIT < length {
                return Err(Refusal::BadRow);
            }
            bytes += 3 + length;
        }
        Ok(Size { rows, bytes })
    }

    // Their fields, at the front of the output.
    pub fn put_rows(self, chosen: u8, out: &mut [u8]) -> usize
        requires chosen_value { rows_fault (log_rows self.bytes.now self.count chosen) ≡ 0 }
        requires fits { Fits out.old 0 (row_fields (log_rows self.bytes.now self.count chosen)) }
        ensures { Put out.old out.new 0 (row_fields (log_rows self.entry.bytes.now self.entry.count chosen)) result }
    {
        let mut at = 0;
        for row in self.rows(chosen) {
            at = row.put(out, at);
        }
        at
    }
}
